// The records of a job; no other code knows their layout. Below: the numbers of one record, by the bytes from its first one on.
#![tactic(auto)]

mod forms;
mod kinds;
mod nth;
mod places;

ghost use Rattle.std.specs.Prelude.{◌≡◌, ℕ, ◌+◌, ◌<◌, ◌≤◌, length, get_or};
ghost use Rattle.laws.specs.Bytes.{be};
ghost use Rattle.said.specs.Records.{record_bytes, region_number, value_as_word};

pub use crate::kinds::Kind;
pub use crate::nth::{
    byte_at, check_record, end_at, is_kind, kind_at, peak_at, refused_byte, region_at, start_at,
    word_at,
};
pub use crate::places::{
    COORDS_LONG, are_records, axis_coords, coordinate, coords_start, records_in, region_long,
};

// The number of the two bytes from p on.
fn two_bytes(rec: &[u8], p: usize) -> u32
    requires { p + 2 ≤ length rec.now }
    ensures value { result ≡ be 2 rec.now p }
    ensures upper_bound { result < 65536 }
{
    rec[p] as u32 * 256 + rec[p + 1] as u32
}

// The word of a value record's value: two's complement with the sign bit turned.
fn value_word(rec: &[u8]) -> u32
    requires { record_bytes ≤ length rec.now }
    ensures { result ≡ value_as_word rec.now }
{
    let x = two_bytes(rec, 4) * 65536 + two_bytes(rec, 6);
    if x < 0x8000_0000 {
        return x + 0x8000_0000;
    }
    x - 0x8000_0000
}

// The region that an axis record or a value record names: its low byte is byte 1, its high byte is byte 3.
fn region_of(rec: &[u8]) -> usize
    requires { record_bytes ≤ length rec.now }
    ensures { result ≡ region_number rec.now }
{
    rec[3] as usize * 256 + rec[1] as usize
}
