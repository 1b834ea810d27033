// The reader of an item variation store: one value, whatever the bytes are. Where columns lie serves the writer too.
#![tactic(auto)]

mod bytes;
mod column;
mod marks;
mod reader;

pub use bytes::be;
pub use column::{Column, column_at, column_bytes};
pub use reader::{ReadError, header_ok, read, subtable_ok};
