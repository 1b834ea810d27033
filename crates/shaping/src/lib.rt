// Shapes of sets in lent words: the shape of one, and for mode 1 the join of all.
#![tactic(auto)]

mod covering;
mod shaping;

pub use covering::cover;
pub use shaping::shape_of;
