// From the living groups in their order to their rows: the final group of each starting slot, and each group's sets dealt to it in the
// order of the sets.
#![tactic(auto)]

mod homes;
mod line;

pub use homes::{find_homes, heads, spots};
pub use line::deal;
