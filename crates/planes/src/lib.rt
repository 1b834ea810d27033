// Shapes as planes of bits in lent words: a region's cost is one bit in each of three planes, 32 regions to a word.
#![tactic(auto)]

mod filling;
mod joining;
mod putting;

pub use filling::fill;
pub use joining::{join_into, measure_join, measure_words};
