// No code: the marked tables and moments, and the theorem about them, stand in specs/.
#![tactic(auto)]
