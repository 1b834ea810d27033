// The end of a build: what it answers, refusals 11 to 14, 60 and 61, and the writing of store, ids, map, log and origins; and the answer alone, for a forecast.
#![tactic(auto)]

mod answers;
mod finishing;
mod measuring;

pub use answers::Report;
pub use finishing::finish;
pub use measuring::{Packing, foretell};
