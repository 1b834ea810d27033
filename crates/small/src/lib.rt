// Theorems alone: in mode 0 a store is small, whatever the regions. No function is here.
#![tactic(auto)]
