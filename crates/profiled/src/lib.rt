// Theorems alone: what the panel's profile refuses and what it takes. No function is here.
#![tactic(auto)]
