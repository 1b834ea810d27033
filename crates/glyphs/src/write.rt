// Writes a glyph map: the head, then an entry for each word that is not a trailing repeat.
ghost use Rattle.std.specs.Prelude.{◌≡◌, ◌+◌, ◌*◌, ◌≤◌, ◌<◌, length};
ghost use Rattle.rows.specs.Lent.{Put};
ghost use Rattle.glyphs.specs.Packing.{head_of, head_for, head_length, entries_of};
ghost use Rattle.glyphs.specs.Answers.{glyphs_of, glyphs_left, write_number};

use crate::kept::kept;
use crate::width::{bytes_for, entry, inner_bits, together};
use rows::put;

// Why a glyph map, or a width table, is not written, by the numbers that a host gets.
#[derive(Clone, Copy, Debug, PartialEq, Eq)]
pub enum WriteError {
    TooManyGlyphs = 40,
    GlyphMapShort = 41,
}

impl From<WriteError> for u64 {
    ghost from_gives = { λ e n. n ≡ write_number e };

    fn from(error: WriteError) -> u64 {
        error as u64
    }
}

// The most glyphs of a map.
pub const MOST: usize = 1048576;

// A head whose count has k bytes.
fn put_head(out: &mut [u8], format: u32, k: usize, form: u32, count: u32)
    requires k_bound { k ≤ 4 }
    requires k_in_bounds { 2 + k ≤ length out.old }
    ensures { Put 0 (head_of format k form count) out.old out.new (2 + k) }
{
    put(out, 0, 1, format);
    put(out, 1, 1, form);
    put(out, 2, k, count);
}

// The bytes of the head of so many entries.
#[tactic(auto, unfolding(crate::specs::Packing::head_length))]
fn head_size(count: usize) -> usize
    ensures value { result ≡ head_length count }
    ensures upper_bound { result ≤ 6 }
{
    if count < 65536 {
        return 4;
    }
    6
}

// Format 0 where the count has two bytes, else format 1.
#[tactic(auto, unfolding(crate::specs::Packing::head_for))]
fn write_head(out: &mut [u8], form: u32, count: usize)
    requires count_bound { count < 4294967296 }
    requires count_in_bounds { head_length count ≤ length out.old }
    ensures { Put 0 (head_for form count) out.old out.new (head_length count) }
{
    if count < 65536 {
        put_head(out, 0, 2, form, count as u32);
        return;
    }
    put_head(out, 1, 4, form, count as u32);
}

// The entries of words, each of `size` bytes.
fn write_entries(out: &mut [u8], at: usize, words: &[u32], bits: usize, size: usize) -> usize
    requires bits_bound { bits ≤ 16 }
    requires size_bound { size ≤ 4 }
    requires size_in_bounds { at + length words.now * size ≤ length out.old }
    ensures { Put at (entries_of size bits words.now) out.old out.new result }
{
    let mut a = at;
    for word in words {
        put(out, a, size, entry(bits, *word));
        a += size;
    }
    a
}

// Writes the map of a word for each glyph, and answers its bytes. Refused before the first byte, or written whole.
#[tactic(auto, unfolding(crate::specs::Answers::glyphs_of, crate::specs::Answers::glyphs_left))]
pub fn write_glyphs(words: &[u32], out: &mut [u8]) -> Result<usize, WriteError>
    ensures value { result ≡ glyphs_of words.now (length out.old) }
    ensures out_after { out.new ≡ glyphs_left words.now out.old }
{
    if MOST < words.len() {
        return Err(WriteError::TooManyGlyphs);
    }
    let all = together(words);
    let bits = inner_bits(all);
    let size = bytes_for(entry(bits, all));
    let count = kept(words);
    let at = head_size(count);
    let bytes = at + count * size;
    if out.len() < bytes {
        return Err(WriteError::GlyphMapShort);
    }
    let form = (size - 1) * 16 + (bits - 1);
    write_head(out, form as u32, count);
    write_entries(out, at, &words[..count], bits, size);
    Ok(bytes)
}
