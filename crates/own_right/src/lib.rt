// Theorems alone: a store that a done build leaves is judged right. No function is here.
#![tactic(auto)]
