// Where a build stands once merging is over: what is left of the groups, arranged, and how many pair records are to be cleared.
#![tactic(auto)]

mod arranging;

pub use arranging::{arrange, is_null, null_packing, pairs_used};
