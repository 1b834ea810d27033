// Reads the word of one glyph from a glyph map, whatever its bytes are.
ghost use Rattle.std.specs.Prelude.{◌≡◌, true, ◌+◌, ◌*◌, ◌≤◌, ◌<◌, length};
ghost use Rattle.laws.specs.Bytes.{be};
ghost use Rattle.reader.specs.Store.{Word};
ghost use Rattle.glyphs.specs.Reading.{entries_from, count_in, is_map_ok, size_in, entry_of_glyph, place_of, read_map};

use crate::width::power;
use reader::{ReadError, be};

// Where the entries of a map of this format start.
#[tactic(auto, unfolding(crate::specs::Reading::entries_from))]
fn start(format: usize) -> usize
    ensures value { result ≡ entries_from format }
    ensures in_range { (4 ≤ result) × (result ≤ 6) }
{
    if format == 0 {
        return 4;
    }
    6
}

// How many entries the map says that it has: a number of two bytes, or of four.
#[tactic(auto, unfolding(crate::specs::Reading::count_in))]
fn count(s: &[u8]) -> usize
    requires in_bounds { 4 ≤ length s.now }
    requires s_in_bounds { entries_from (be 1 s.now 0) ≤ length s.now }
    ensures value { result ≡ count_in s.now }
    ensures upper_bound { result < 4294967296 }
{
    if be(s, 0, 1) == 0 {
        return be(s, 2, 2);
    }
    be(s, 2, 4)
}

#[tactic(auto, unfolding(crate::specs::Reading::is_map_ok))]
fn map_ok(s: &[u8]) -> bool
    ensures { result ≡ is_map_ok s.now }
{
    if s.len() < 4 {
        return false;
    }
    let format = be(s, 0, 1);
    if 2 <= format {
        return false;
    }
    let form = be(s, 1, 1);
    if 64 <= form {
        return false;
    }
    let at = start(format);
    if s.len() < at {
        return false;
    }
    let n = count(s);
    if n == 0 {
        return false;
    }
    if s.len() < at + n * (form / 16 + 1) {
        return false;
    }
    true
}

// The number of a glyph's entry: past the end the last.
#[tactic(auto, unfolding(crate::specs::Reading::entry_of_glyph))]
fn entry_no(n: usize, glyph: usize) -> usize
    requires { 0 < n }
    ensures value { result ≡ entry_of_glyph n glyph }
    ensures upper_bound { result < n }
{
    glyph.min(n - 1)
}

// The entry of a glyph, as it stands there.
#[tactic(auto, unfolding(crate::specs::Reading::place_of))]
fn entry_at(s: &[u8], glyph: usize) -> usize
    requires { is_map_ok s.now ≡ true }
    ensures word { Word (size_in s.now) s.now (place_of s.now glyph) result }
    ensures upper_bound { result < 4294967296 }
{
    let size = be(s, 1, 1) / 16 + 1;
    let k = entry_no(count(s), glyph);
    let at = start(be(s, 0, 1)) + k * size;
    be(s, at, size)
}

// The word of a glyph, outer x 65,536 + inner: the entry's bits above the inner ones are its outer number.
#[tactic(auto, unfolding(crate::specs::Reading::read_map, crate::specs::Reading::word_of))]
pub fn read_glyph(map: &[u8], glyph: u32) -> Result<u32, ReadError>
    ensures { result ≡ read_map map.now glyph }
{
    if !map_ok(map) {
        return Err(ReadError::BadGlyphMap);
    }
    let e = entry_at(map, glyph as usize);
    let p = power(be(map, 1, 1) % 16 + 1);
    let outer = e / p;
    if 65535 < outer {
        return Err(ReadError::BadGlyphMap);
    }
    Ok((outer * 65536 + e % p) as u32)
}
