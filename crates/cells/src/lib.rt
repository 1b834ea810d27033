// The cells of a row that are not zero, found with no look at the zeros between them: a store may name one row very often, and most of a row may be zero.
#![tactic(auto)]

mod ahead;
mod next;

pub use ahead::look_ahead;
pub use next::next_cell;
