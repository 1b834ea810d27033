// Region indexes that were seen, each marked by one bit: of a list with few regions few words are cleared.
ghost use Rattle.std.specs.Prelude.{◌≡◌, ◌+◌, ◌*◌, ◌/◌, ◌≤◌, ◌<◌, eqb, min, length};
ghost use Rattle.reader.specs.Store.{words, are_columns_ok};
ghost use Rattle.reader.specs.LentMarks.{mark_at, with_mark, NoMarks, with_marks};

use crate::bytes::be;

// Makes mark x, and says whether it is new.
fn mark(seen: &mut [u32], x: usize) -> bool
    requires { x / 32 < length seen.old }
    ensures value { result ≡ eqb (mark_at seen.old x) 0 }
    ensures seen_after { seen.new ≡ with_mark seen.old x }
{
    let i = x / 32;
    let k = (x % 32) as u32;
    let word = seen[i];
    seen[i] = word | 1u32 << k;
    (word >> k) % 2 == 0
}

// Each of the n region indexes from at on is below the count, and none is named twice: one pass, with a mark for each index seen.
fn named_once(s: &[u8], at: usize, n: usize, regions: usize, seen: &mut [u32]) -> bool
    requires n_bound { n < 65536 }
    requires n_in_bounds { at + 2 * n ≤ length s.now }
    requires no_marks { NoMarks regions seen.old }
    ensures value { result ≡ are_columns_ok regions (words s.now at n) }
    ensures seen_after { seen.new ≡ with_marks regions (words s.now at n) seen.old }
{
    for j in 0..n {
        let x = be(s, at + 2 * j, 2);
        if regions <= x {
            return false;
        }
        if !mark(seen, x) {
            return false;
        }
    }
    true
}

// The same, with 32 N marks: one for each region, or for each index of two bytes.
fn among<const N: usize>(s: &[u8], at: usize, n: usize, regions: usize) -> bool
    requires n_bound { n < 65536 }
    requires n_in_bounds { at + 2 * n ≤ length s.now }
    requires most { N ≤ 2048 }
    requires enough { min regions 65536 ≤ 32 * N }
    ensures { result ≡ are_columns_ok regions (words s.now at n) }
{
    let mut seen = [0u32; N];
    named_once(s, at, n, regions, &mut seen)
}

// The same, with as few marks of these as the count needs: 256, or less than sixteen times as many as it says.
pub fn columns_ok(s: &[u8], at: usize, n: usize, regions: usize) -> bool
    requires n_bound { n < 65536 }
    requires n_in_bounds { at + 2 * n ≤ length s.now }
    ensures { result ≡ are_columns_ok regions (words s.now at n) }
{
    if regions <= 256 {
        among::<8>(s, at, n, regions)
    } else if regions <= 4096 {
        among::<128>(s, at, n, regions)
    } else {
        among::<2048>(s, at, n, regions)
    }
}
