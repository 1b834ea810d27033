// What a job says, and where it is refused. The crate is there for its definitions and their laws and has no function:
// specs/ has what docs/RULES.md says of a job's bytes, proofs/ what is true of it.
#![tactic(auto)]

// The most bytes of a store: its offsets are of 32 bits.
pub const STORE_BYTES: usize = 4294967295;
