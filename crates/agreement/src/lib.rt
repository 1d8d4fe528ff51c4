// No code: what is said of explanations as a whole, and its proof, stand in specs/.
#![tactic(auto)]
