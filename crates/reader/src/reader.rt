// Reads one value of an item variation store, whatever its bytes are.
ghost use Rattle.std.specs.Prelude.{◌≡◌, true, ◌+◌, ◌*◌, ◌≤◌, ◌<◌, ◌^◌, length};
ghost use Rattle.laws.specs.Signed.{signed};
ghost use Rattle.reader.specs.Store.{words, is_header_ok, find, is_subtable_ok, read_number, subtable_reading, read_store};

use crate::bytes::be;
use crate::column::{Column, column_at, column_bytes};
use crate::marks::columns_ok;

// Why nothing is read of a store, of a glyph map or of a width table, by the numbers that a host gets.
#[derive(Clone, Copy, Debug, PartialEq, Eq)]
pub enum ReadError {
    BadStore = 20,
    NoRow = 21,
    NoRegion = 22,
    BadGlyphMap = 42,
    BadWidths = 43,
}

impl From<ReadError> for u64 {
    ghost from_gives = { λ e n. n ≡ read_number e };

    fn from(error: ReadError) -> u64 {
        error as u64
    }
}

#[tactic(auto, unfolding(crate::specs::Store::is_header_ok))]
pub fn header_ok(s: &[u8]) -> bool
    ensures { result ≡ is_header_ok s.now }
{
    if s.len() < 8 {
        return false;
    }
    if be(s, 0, 2) != 1 {
        return false;
    }
    let list = be(s, 2, 4);
    if list == 0 {
        return false;
    }
    let count = be(s, 6, 2);
    if s.len() < 8 + 4 * count {
        return false;
    }
    if s.len() < list + 4 {
        return false;
    }
    let axes = be(s, list, 2);
    let regions = be(s, list + 2, 2);
    if s.len() < list + 4 + 6 * axes * regions {
        return false;
    }
    true
}

// The first of the n region indexes from at on that is x.
#[tactic(auto, unfolding(crate::specs::Store::find, crate::specs::Store::words))]
fn find(s: &[u8], at: usize, n: usize, x: usize) -> Column
    requires n_bound { n < 65536 }
    requires n_in_bounds { at + 2 * n ≤ length s.now }
    ensures { result ≡ find x 0 (words s.now at n) }
{
    for j in 0..n {
        if be(s, at + 2 * j, 2) == x {
            return Column::At(j);
        }
    }
    Column::Missing
}

#[tactic(auto, unfolding(crate::specs::Store::is_subtable_ok))]
pub fn subtable_ok(s: &[u8], at: usize, regions: usize) -> bool
    requires { at < 4294967296 }
    ensures { result ≡ is_subtable_ok s.now at regions }
{
    if s.len() < at + 6 {
        return false;
    }
    let items = be(s, at, 2);
    let word = be(s, at + 2, 2);
    let n = be(s, at + 4, 2);
    if n < word % 32768 {
        return false;
    }
    let row = column_at(word, n);
    if s.len() < at + 6 + 2 * n + items * row {
        return false;
    }
    columns_ok(s, at + 6, n, regions)
}

// How many numbers k bytes have.
fn span(k: usize) -> usize
    requires { k ≤ 4 }
    ensures { result ≡ 256 ^ k }
{
    1 << (8 * k)
}

// A number of k bytes as two's complement.
fn signed(k: usize, x: usize) -> i32
    requires { (k ≤ 4) × (x < 256 ^ k) }
    ensures { result ≡ signed k x }
{
    let m = span(k);
    if 2 * x < m {
        return x as i32;
    }
    -1 - ((m - (x + 1)) as i32)
}

// The value that region has in row inner of the subtable at; none where it has no column there.
#[tactic(auto, unfolding(crate::specs::Store::subtable_reading, crate::specs::Store::cell))]
fn read_subtable(s: &[u8], at: usize, inner: usize, region: usize) -> Result<Option<i32>, ReadError>
    requires { (is_header_ok s.now ≡ true) × (at < 4294967296) }
    ensures { result ≡ subtable_reading s.now at inner region }
{
    if at == 0 {
        return Err(ReadError::NoRow);
    }
    let list = be(s, 2, 4);
    let regions = be(s, list + 2, 2);
    if !subtable_ok(s, at, regions) {
        return Err(ReadError::BadStore);
    }
    if be(s, at, 2) <= inner {
        return Err(ReadError::NoRow);
    }
    if regions <= region {
        return Err(ReadError::NoRegion);
    }
    let n = be(s, at + 4, 2);
    let Column::At(j) = find(s, at + 6, n, region) else {
        return Ok(None);
    };
    let word = be(s, at + 2, 2);
    let k = column_bytes(word, j);
    let place = at + 6 + 2 * n + inner * column_at(word, n) + column_at(word, j);
    Ok(Some(signed(k, be(s, place, k))))
}

// The value of a region of the store's list in row inner of subtable outer; none where the region has no column there. Reads the header with its offsets, the region list's
// counts and the named subtable, and nothing else.
#[tactic(auto, unfolding(crate::specs::Store::read_store))]
pub fn read(store: &[u8], outer: u32, inner: u32, region: u32) -> Result<Option<i32>, ReadError>
    ensures { result ≡ read_store store.now outer inner region }
{
    if !header_ok(store) {
        return Err(ReadError::BadStore);
    }
    let o = outer as usize;
    if be(store, 6, 2) <= o {
        return Err(ReadError::NoRow);
    }
    let at = be(store, 8 + 4 * o, 4);
    read_subtable(store, at, inner as usize, region as usize)
}
