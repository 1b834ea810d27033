// Columns of a subtable, the runs that a group is cut into, and numbers as bytes; what a row and a subtable are, as definitions with their laws
// (the code that writes them is in `subtables`). A value in work is a word, the value plus 2^31.
#![tactic(auto)]

mod bytes;
mod column;
mod runs;

pub use bytes::{copy, put};
pub use column::{Form, column_of, columns, form_alone, place};
pub use runs::{run_count, run_items};
