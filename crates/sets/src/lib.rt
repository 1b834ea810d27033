// Sets of adjustments. The crate is there for its definitions and their laws and has no function: specs/ has what
// docs/RULES.md says of a set, of the order of sets and of their ids, and what lent words hold of them; proofs/ what is
// true of it. What comparing two sets answers is here for code, as specs/Order has it.
#![tactic(auto)]

// How a set stands to another. Where they are not equal: the first region index where they differ, the word of the first
// set there and that of the second (the word of zero where a set has no entry).
// It stays an enum of its own: what is proved of two sets (PartsAt, PartLaws, specs/Part of parting) speaks of these three cases.
#[derive(Clone, Copy)]
pub enum Parting {
    Equal,
    Smaller(u32, u32, u32),
    Larger(u32, u32, u32),
}
