// Theorems alone: the three demands, of every build call. No function is here.
#![tactic(auto)]
