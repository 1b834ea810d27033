// One record of a job, as three numbers of four bytes.
ghost use Rattle.std.specs.Prelude.{◌≡◌, ◌+◌, ◌*◌, ◌≤◌, ◌<◌, ◌^◌, length, drop};
ghost use Rattle.laws.specs.Signed.{signed, twos};
ghost use Rattle.rows.specs.Lent.{Put};
ghost use Rattle.recovering.specs.Recovering.{low_byte, high_byte, axis_record, value_bytes, end_record};
ghost use Rattle.job_writing.specs.LentWrite.{three_words};

use reader::be;
use rows::put;

fn put_record(out: &mut [u8], at: usize, a: u32, b: u32, c: u32)
    requires { at + 12 ≤ length out.old }
    ensures { Put at (three_words a b c) out.old out.new (at + 12) }
{
    put(out, at, 4, a);
    put(out, at + 4, 4, b);
    put(out, at + 8, 4, c);
}

// The first four bytes: the kind, a region number's low byte, an axis, and its high byte.
fn head(kind: usize, q: usize, a: usize) -> u32
    requires { (kind < 4) × (q < 65536) × (a < 256) }
    ensures { result ≡ kind * 16777216 + low_byte q * 65536 + a * 256 + high_byte q }
{
    (kind * 16777216 + q % 256 * 65536 + a * 256 + q / 256) as u32
}

// Axis a of region q, whose six bytes stand in the store from `from` on.
pub fn put_axis(out: &mut [u8], at: usize, q: usize, a: usize, s: &[u8], from: usize)
    requires at_in_bounds { at + 12 ≤ length out.old }
    requires record_fits { (q < 65536) × (a < 256) × (from + 6 ≤ length s.now) }
    ensures { Put at (axis_record q a (drop from s.now)) out.old out.new (at + 12) }
{
    let first = be(s, from, 4) as u32;
    let last = (be(s, from + 4, 2) * 65536) as u32;
    put_record(out, at, head(1, q, a), first, last);
}

pub fn put_value(out: &mut [u8], at: usize, q: usize, x: u32)
    requires { (at + 12 ≤ length out.old) × (q < 65536) }
    ensures { Put at (value_bytes q x) out.old out.new (at + 12) }
{
    put_record(out, at, head(2, q, 0), x, 0);
}

pub fn put_end(out: &mut [u8], at: usize)
    requires { at + 12 ≤ length out.old }
    ensures { Put at end_record out.old out.new (at + 12) }
{
    put_record(out, at, head(3, 0, 0), 0, 0);
}

// A number of k bytes, as two's complement, in four.
#[tactic(auto, using(crate::proofs::RecordLaws::span_is, crate::proofs::RecordLaws::span_low))]
pub fn in_four(k: usize, x: usize) -> u32
    requires { (k ≤ 4) × (x < 256 ^ k) }
    ensures { result ≡ twos 4 (signed k x) }
{
    // As many numbers as k bytes have.
    let m = 1usize << (8 * k);
    if 2 * x < m {
        return x as u32;
    }
    (4294967296 - m + x) as u32
}
