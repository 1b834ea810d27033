// The first place of a number in some words, whether two runs of bytes are the same, and what is asked of a build that is done (refusals 62, 63).
#![tactic(auto)]

mod asked;
mod bytes;
mod place;

pub use crate::asked::check_asked;
pub use crate::bytes::same_bytes;
pub use crate::place::first_place;
