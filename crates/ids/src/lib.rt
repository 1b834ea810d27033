// Ids: sets sorted once; of equal ones, which stand side by side, the first in the job gives its id to all.
#![tactic(auto)]

mod block;
mod screening;

ghost use Rattle.std.specs.Prelude.{◌≡◌, List, ℕ, ◌+◌, ◌-◌, ◌<◌, ◌≤◌, length, get_or};
ghost use Rattle.laws.specs.LentRange.{Apart};
ghost use Rattle.sets.specs.Set.{Set};
ghost use Rattle.sets.specs.Lent.{Stored, CountedUp, IdsFit, Identified};
ghost use Rattle.ids.specs.LentFirsts.{begins_at, FirstsFit, Firsting, BlockFit, FirstsAt, Resolved, GivesIds};

use crate::block::block_end;
use crate::screening::screen;
use buckets::sort_kept;
use comparing::compare;
use laws::wide;
use sets::Parting;

// The numbers 0 up to n: in mode 1 a set's own number is its id.
pub fn own_ids(work: &mut [u32], at: usize, n: usize)
    requires n_in_bounds { at + n ≤ length work.old }
    requires n_bound { n ≤ 4294967296 }
    ensures { CountedUp at n work.old work.new }
{
    for i in 0..n {
        work[at + i] = i as u32;
    }
}

// Of sorted set numbers: whether the i-th begins a run of equal sets.
fn begins(work: &[u32], index: usize, at: usize, i: usize) -> bool
    requires i_in_bounds { at + i < length work.now }
    requires stored { Stored work.now index (get_or work.now (at + (i - 1)) 0) }
    requires stored_2 { Stored work.now index (get_or work.now (at + i) 0) }
    ensures { result ≡ begins_at work.now index at i }
{
    if i == 0 {
        return true;
    }
    let x = wide(work[at + (i - 1)]);
    let y = wide(work[at + i]);
    match compare(work, index, x, y) {
        Parting::Equal => false,
        Parting::Smaller(_, _, _) => true,
        Parting::Larger(_, _, _) => true,
    }
}

// For each of a block of sorted numbers, from one up to another, the first set that equals its set; those before the block have theirs.
fn firsts_block(work: &mut [u32], index: usize, at: usize, first: usize, from: usize, to: usize)
    requires { BlockFit work.old index at first from to }
    ensures { (f : BlockFit work.old index at first from to) → Firsting index at f.n first f.fit.all f.old work.new to }
{
    for i in from..to {
        let x = wide(work[at + i]);
        if begins(work, index, at, i) {
            work[first + x] = work[at + i];
        } else {
            let y = wide(work[at + (i - 1)]);
            work[first + x] = work[first + y];
        }
    }
}

// For each of n sorted numbers the first set that equals its set, block by block.
fn firsts(work: &mut [u32], index: usize, at: usize, n: usize, first: usize)
    requires { FirstsFit work.old index at n first }
    ensures { (f : FirstsFit work.old index at n first) → FirstsAt index at n first f.all work.old work.new }
{
    let mut i = 0;
    // A block is of any length, so that no `for` finds the next one.
    while i < n {
        let j = block_end(work, index, at, i, n);
        firsts_block(work, index, at, first, i, j);
        i = j;
    }
}

// Where an earlier equal set is known for a set, its first is that one's.
fn resolve(work: &mut [u32], first: usize, n: usize)
    requires n_in_bounds { first + n ≤ length work.old }
    requires by_index { (x : ℕ) → x < n → get_or work.old (first + x) 0 ≤ x }
    ensures { Resolved first n work.old work.new }
{
    for x in 0..n {
        let y = wide(work[first + x]);
        work[first + x] = work[first + y];
    }
}

// A set that is the first of its like takes the next id, and any other the id of its first. Returns how many ids there are.
fn give_ids(work: &mut [u32], first: usize, ids: usize, n: usize) -> usize
    requires n_in_bounds { (first + n ≤ length work.old) × (ids + n ≤ length work.old) }
    requires apart { Apart ids n first n }
    requires n_bound { n ≤ 4294967296 }
    requires by_index { (k : ℕ) → k < n → get_or work.old (first + k) 0 ≤ k }
    ensures { (sets : List Set) → GivesIds first ids n sets work.old work.new result }
{
    let mut next = 0;
    for k in 0..n {
        let f = wide(work[first + k]);
        if f == k {
            work[ids + k] = next as u32;
            next += 1;
        } else {
            work[ids + k] = work[ids + f];
        }
    }
    next
}

// Writes the numbers of n sets from `at` on, those that are the first of their like in the order of the sets, and for each set its first like and
// its id.
// Returns how many distinct sets there are.
pub fn identify(
    work: &mut [u32],
    index: usize,
    n: usize,
    at: usize,
    first: usize,
    ids: usize,
) -> usize
    requires { IdsFit work.old index n at first ids }
    ensures { Identified index n at first ids work.old work.new result }
{
    let m = screen(work, index, n, at, first, ids);
    sort_kept(work, index, n, at, m, first, ids);
    firsts(work, index, at, m, first);
    resolve(work, first, n);
    give_ids(work, first, ids, n)
}
