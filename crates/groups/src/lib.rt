// Groups of sets by shape, and mode 1's one group. The crate is there for its definitions and their laws and has no code.
#![tactic(auto)]
