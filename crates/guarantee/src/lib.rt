// No code: the ledger, the guarantee over every list of calls and its proof stand in specs/.
#![tactic(auto)]
