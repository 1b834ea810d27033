// Theorems alone: a store that a done build leaves, kept with all its rows, stays as it is. No function is here.
#![tactic(auto)]
