// A store with only the rows that are chosen (crate choosing): how many bytes its subtables take, which regions they name and by which
// numbers, and its bytes.
#![tactic(auto)]

mod cut;
mod naming;
mod table;
mod whole;

pub use crate::cut::tables_size;
pub use crate::naming::{mark_tables, number};
pub use crate::whole::write_store;
