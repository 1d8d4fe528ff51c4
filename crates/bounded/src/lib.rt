// Sums, searches and quotients over an index, and their laws, stand in specs/.
#![tactic(auto)]
