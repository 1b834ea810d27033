// A glyph map, OpenType's DeltaSetIndexMap: one entry for each glyph of the width table, which says where in the store its deltas
// stand. The writer (`write_glyphs`), and the reader of one entry (`read_glyph`).
#![tactic(auto)]

mod kept;
mod read;
mod width;
mod write;

pub use read::read_glyph;
pub use write::{MOST, WriteError, write_glyphs};
