// Sets by their numbers, each with its word: the first that its row does not give.
ghost use Rattle.std.specs.Prelude.{◌≡◌, ℕ, ◌+◌, ◌*◌, ◌<◌, ◌≤◌};
ghost use Rattle.giving.specs.Lent.{RowFit, RowJudged, SetsFit, SetJudged, FirstFailing};

use crate::columns::pass;
use crate::entries::{Aims, all_met, lay};
use laws::wide;
use reader::{be, column_at};

// Whether row `inner` of the subtable at `at` gives the set of so many entries from `start` on.
fn row_gives(
    store: &[u8],
    at: usize,
    inner: usize,
    work: &mut [u32],
    start: usize,
    count: usize,
    t: Aims,
) -> bool
    requires { RowFit store.now at inner work.old start count t }
    ensures { RowJudged store.now at inner start count t work.old work.new result }
{
    if !lay(work, start, count, t) {
        return false;
    }
    let word = be(store, at + 2, 2);
    let n = be(store, at + 4, 2);
    let row = at + 6 + 2 * n + inner * column_at(word, n);
    if !pass(store, at + 6, row, word, n, work, t) {
        return false;
    }
    all_met(work, start, count, t)
}

// Whether the row that word k names gives set k. A set without a word has no row.
fn set_gives(store: &[u8], words: &[u32], k: usize, work: &mut [u32], t: Aims) -> bool
    requires { SetsFit store.now k work.old t }
    ensures { SetJudged store.now words.now k t work.old work.new result }
{
    if words.len() <= k {
        return false;
    }
    let w = wide(words[k]);
    let outer = w / 65536;
    if be(store, 6, 2) <= outer {
        return false;
    }
    let at = be(store, 8 + 4 * outer, 4);
    if at == 0 {
        return false;
    }
    let inner = w % 65536;
    if be(store, at, 2) <= inner {
        return false;
    }
    let start = wide(work[2 * k]);
    let count = wide(work[2 * k + 1]);
    row_gives(store, at, inner, work, start, count, t)
}

// The first of so many sets whose row does not give it; their number where every row does, as `FirstFailing` says and judging compares it.
pub fn first_failing(store: &[u8], words: &[u32], sets: usize, work: &mut [u32], t: Aims) -> usize
    requires { (k : ℕ) → k < sets → SetsFit store.now k work.old t }
    ensures { FirstFailing store.now words.now sets t work.old work.new result }
{
    for k in 0..sets {
        if !set_gives(store, words, k, work, t) {
            return k;
        }
    }
    sets
}
