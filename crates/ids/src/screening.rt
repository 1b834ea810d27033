// Before sorting: most sets that equal an earlier one are found at once, by a table of the set that was seen last at each slot, which is a part of the
// hash. One that is missed there is sorted like any other, so that nothing rests on the hash.
ghost use Rattle.std.specs.Prelude.{◌≡◌, ℕ, ◌+◌, ◌-◌, ◌*◌, ◌%◌, ◌≤◌, ◌<◌, Some, IfSome, length, get_or};
ghost use Rattle.std.specs.declared.cmp.Ordering.TheVariants.{Equal};
ghost use Rattle.sets.specs.Order.{order};
ghost use Rattle.sets.specs.Lent.{set_of, Stored, IdsFit};
ghost use Rattle.ids.specs.LentScreened.{Screened};

use comparing::compare;
use laws::{wide, zero_part};
use sets::Parting;

// The hash of set x, a word which equal sets have in common.
fn hash(work: &[u32], index: usize, x: usize) -> usize
    requires { Stored work.now index x }
    ensures { result < 4294967296 }
{
    let start = wide(work[index + 2 * x]);
    let end = start + 2 * wide(work[index + 2 * x + 1]);
    let words = work[start..end].iter();
    wide(words.fold(0u32, |h, &word| h.wrapping_mul(31).wrapping_add(word)))
}

// What hash h has beside its slot, which is one of n: as much of it as a word has room for on top of a number up to n.
fn tag_of(h: usize, n: usize) -> usize
    requires n_nonzero { 0 < n }
    requires n_bound { n < 4294967296 }
    ensures { result * (n + 1) + n < 4294967296 }
{
    h / n % (4294967296 / (n + 1))
}

// The word of the table for set x, one of n, whose hash is h: the set's number and one more, with the tag of h on top.
fn word_of(h: usize, n: usize, x: usize) -> u32
    requires x_lt_n { x < n }
    requires n_bound { n < 4294967296 }
    ensures { result % (n + 1) ≡ x + 1 }
{
    (tag_of(h, n) * (n + 1) + (x + 1)) as u32
}

// The set that a word of the table is about, where its tag is that of hash h. Sets whose tags differ are not equal, so that none of them is fetched to be
// compared. A word that nothing was written to is 0, and so about none.
fn seen_of(word: usize, n: usize, h: usize) -> Option<usize>
    requires n_nonzero { 0 < n }
    requires n_bound { n < 4294967296 }
    ensures { IfSome result (λ y. y + 1 ≡ word % (n + 1)) }
{
    if word / (n + 1) == tag_of(h, n) {
        return (word % (n + 1)).checked_sub(1);
    }
    None
}

// The set that was seen, where set x equals it.
fn twin_of(work: &[u32], index: usize, x: usize, seen: Option<usize>) -> Option<usize>
    requires stored { Stored work.now index x }
    requires stored_2 { IfSome seen (λ y. Stored work.now index y) }
    ensures { IfSome result (λ y. (seen ≡ Some y) × (order (set_of index y work.now) (set_of index x work.now) ≡ Equal)) }
{
    let y = seen?;
    match compare(work, index, y, x) {
        Parting::Equal => Some(y),
        Parting::Smaller(_, _, _) => None,
        Parting::Larger(_, _, _) => None,
    }
}

// From `at` on the numbers that are to be sorted, and behind them those of which an earlier equal one is known; that one, or the set itself, from
// `first` on. Returns how many are to be sorted.
fn sift(work: &mut [u32], index: usize, n: usize, at: usize, first: usize, seen: usize) -> usize
    requires ids_fit { IdsFit work.old index n at first seen }
    requires by_index { (h : ℕ) → h < n → get_or work.old (seen + h) 0 ≡ 0 }
    ensures { Screened index n at first seen work.old work.new result }
{
    let mut m = 0;
    for x in 0..n {
        let h = hash(work, index, x);
        let k = h % n;
        let before = seen_of(wide(work[seen + k]), n, h);
        if let Some(y) = twin_of(work, index, x, before) {
            work[first + x] = y as u32;
            work[at + (n - 1 - (x - m))] = x as u32;
        } else {
            work[seen + k] = word_of(h, n, x);
            work[first + x] = x as u32;
            work[at + m] = x as u32;
            m += 1;
        }
    }
    m
}

// The same, with n words from `seen` on for the sets that were seen.
pub fn screen(
    work: &mut [u32],
    index: usize,
    n: usize,
    at: usize,
    first: usize,
    seen: usize,
) -> usize
    requires { IdsFit work.old index n at first seen }
    ensures { Screened index n at first seen work.old work.new result }
{
    zero_part(work, seen, n);
    sift(work, index, n, at, first, seen)
}
