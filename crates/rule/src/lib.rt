// The rule of merging on lists. The crate has no code: specs/ has the rule (RULES M1 to M9), proofs/ its theorems.
#![tactic(auto)]
