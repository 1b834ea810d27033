// Theorems alone: where a job's records are refused, by its bytes. No function is here.
#![tactic(auto)]
