// The store by itself: whether it is well formed throughout, and lists no region twice; where its zeros are.
ghost use Rattle.std.specs.Prelude.{◌≡◌, ◌+◌, ◌≤◌, length};
ghost use Rattle.judging.specs.LentJudge.{Looked, Firsts, Filled, SetOut};

use cells::look_ahead;
use laws::{wide, zero_part};
use stores::whole_ok;

// The word of zero.
const ZERO: u32 = 0x8000_0000;

// Whether bytes are a store. The words from `at` on are scratch, one for each byte.
pub fn store_ok(store: &[u8], work: &mut [u32], at: usize) -> bool
    requires { at + length store.now ≤ length work.old }
    ensures { Looked store.now at work.old work.new result }
{
    let end = at + store.len();
    zero_part(work, at, store.len());
    whole_ok(store, &mut work[at..end])
}

// Whether each of n words from `first` on is its own number.
pub fn all_first(work: &[u32], first: usize, n: usize) -> bool
    requires { first + n ≤ length work.now }
    ensures { Firsts work.now first n result }
{
    for q in 0..n {
        if wide(work[first + q]) != q {
            return false;
        }
    }
    true
}

// The word of zero for each of n words from `at` on.
fn fill(work: &mut [u32], at: usize, n: usize)
    requires { at + n ≤ length work.old }
    ensures { Filled at n work.old work.new }
{
    work[at..at + n].fill(ZERO);
}

// The word of zero for each of n words from `at` on; behind them, for each byte of the store, how many zeros there are from it on.
pub fn set_out(store: &[u8], work: &mut [u32], at: usize, n: usize)
    requires { at + n + length store.now ≤ length work.old }
    ensures { SetOut store.now at n work.old work.new }
{
    fill(work, at, n);
    look_ahead(store, work, at + n);
}
