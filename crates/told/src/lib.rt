// Theorems alone: what a job says, by its bytes. No function is here.
#![tactic(auto)]
