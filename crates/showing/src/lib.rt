// The bytes that show an id: the end record in the job that first gave it, or its row in the store. Nothing is copied: a part of what was lent is
// handed back.
#![tactic(auto)]

mod ends;
mod found;
mod part;
mod row_parts;

pub use crate::ends::end_part;
pub use crate::found::{Part, find};
pub use crate::part::shown;
pub use crate::row_parts::row_part;
