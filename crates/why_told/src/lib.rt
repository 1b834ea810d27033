// Theorems alone: exactly one reason is given for where two ids are, it is the true one, and its gain is 0 or less. No function is here.
#![tactic(auto)]
