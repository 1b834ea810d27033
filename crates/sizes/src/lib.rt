// Theorems alone: the groups of the rule count the sets that their final groups hold. No function is here.
#![tactic(auto)]
