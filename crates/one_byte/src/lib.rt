// Theorems alone: a job as it was read while a region's number was one byte, beside how it is read now. No function is here.
#![tactic(auto)]
