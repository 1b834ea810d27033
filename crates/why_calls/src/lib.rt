// Theorems alone, of calls of `ivs_why` and `ivs_show`: two results of one call are equal, the reason is true, and the part shows the id. No function is here.
#![tactic(auto)]
