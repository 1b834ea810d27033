// Theorems alone: what is known of a build call that is taken. No function is here.
#![tactic(auto)]
