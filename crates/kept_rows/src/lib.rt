// Theorems alone: what a done call of keeping leaves, and each of its refusals exactly when. No function is here.
#![tactic(auto)]
