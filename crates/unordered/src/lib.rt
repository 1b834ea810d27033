// Theorems alone: in mode 0 the order of a job's sets does not show in its store. No function is here.
#![tactic(auto)]
