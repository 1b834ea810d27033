// Theorems alone: from the words of origins that a build leaves, each final group is made again. No function is here.
#![tactic(auto)]
