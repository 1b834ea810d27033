// Whether the row of a store that a map word names gives a set which work holds: each listed region has the set's value there, and every region that the
// set names is listed. Reads no more cells of the row than the set has
// entries, and one.
#![tactic(auto)]

mod columns;
mod entries;
mod failing;

pub use crate::entries::Aims;
pub use crate::failing::first_failing;
