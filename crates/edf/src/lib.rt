// No code: the scheduling theory stands in specs/.
#![tactic(auto)]
