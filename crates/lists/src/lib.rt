// Lists of entries: permutations, lists end to end, and the entry that is chosen. Definitions and laws only.
#![tactic(auto)]
