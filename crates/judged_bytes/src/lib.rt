// Theorems alone: what a verdict on a store says of the bytes of job and store. No function is here.
#![tactic(auto)]
