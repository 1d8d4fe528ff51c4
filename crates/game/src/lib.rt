// No code: the game, and what it comes to, stand in specs/.
#![tactic(auto)]
