// The run: the best pair is taken, and joined where both of its groups live, until none waits. A number lives that has a place: that is its mark.
ghost use Rattle.std.specs.Prelude.{◌≡◌, ◌+◌, ◌/◌, ◌≤◌, ◌<◌, ltb, length};
ghost use Rattle.waits.specs.LentWaits.{room};
ghost use Rattle.merging.specs.LentHeld.{Joinable, JoinedAt, SomeStanding, Turned, Tidied, Ran};

use crate::joining;
use pairs::{Pair, keep_marked, marked, take};
use slots::MergeTables;
use waits::{Tally, offer_all};

// How many pairs wait, were weighed and were joined, what the groups cost together, and how many pairs were taken since dead ones were dropped.
#[derive(Clone, Copy)]
pub struct Progress {
    pub waiting: usize,
    pub weighed: usize,
    pub merges: usize,
    pub size: u64,
    pub taken: usize,
}

// Joins the pair p, whose two live.
pub fn join(work: &mut [u32], t: MergeTables, s: Progress, p: Pair) -> Progress
    requires joinable { Joinable t s.merges p work.old }
    requires gain_le_size { p.gain ≤ s.size }
    ensures { JoinedAt t p s.waiting s.weighed s.merges s.size result.waiting result.weighed result.merges result.size work.old work.new }
{
    joining::join_pair(work, t, s.merges, p);
    Progress {
        merges: s.merges + 1,
        size: s.size - p.gain as u64,
        ..s
    }
}

// Takes the best pair. Where both of its groups live it is joined, and what they become is weighed with each living group; else it is passed over.
pub fn turn(pairs: &mut [Pair], work: &mut [u32], t: MergeTables, s: Progress) -> Progress
    requires some_standing { SomeStanding t s.waiting s.weighed s.merges s.size work.old pairs.old }
    requires waiting_nonzero { 0 < s.waiting }
    requires groups_in_bounds { room t.groups ≤ length pairs.old }
    ensures { Turned t s.waiting s.weighed s.merges s.size result.waiting result.weighed result.merges result.size work.old work.new pairs.old pairs.new }
{
    let p = take(pairs, s.waiting);
    let taken = s.taken.saturating_add(1);
    let left = Progress {
        waiting: s.waiting - 1,
        taken,
        ..s
    };
    if marked(work, t.place, p) {
        let joined = join(work, t, left, p);
        let before = Tally {
            waiting: left.waiting,
            weighed: left.weighed,
        };
        let after = offer_all(pairs, work, t, t.groups + left.merges, before);
        return Progress {
            waiting: after.waiting,
            weighed: after.weighed,
            ..joined
        };
    }
    left
}

// Whether more than a 64th of what waits was taken since dead pairs were dropped. Most of what is taken is dead then, since a pair that lives is joined,
// and there are few joins; the other dead ones wait near the front too.
pub fn crowded(s: Progress) -> bool
    ensures { result ≡ ltb (s.waiting / 64) s.taken }
{
    s.waiting / 64 < s.taken
}

// Where it is crowded, what waits of dead groups goes: else most of what is taken would be passed over.
pub fn tidy(pairs: &mut [Pair], work: &[u32], t: MergeTables, s: Progress) -> Progress
    requires some_standing { SomeStanding t s.waiting s.weighed s.merges s.size work.now pairs.old }
    requires groups_in_bounds { room t.groups ≤ length pairs.old }
    ensures { Tidied t s.waiting s.weighed s.merges s.size result.waiting result.weighed result.merges result.size work.now pairs.old pairs.new }
{
    if crowded(s) {
        let waiting = keep_marked(pairs, work, t.place, s.waiting);
        return Progress {
            waiting,
            taken: 0,
            ..s
        };
    }
    s
}

// Joins the best pair, until nothing waits.
pub fn join_all(pairs: &mut [Pair], work: &mut [u32], t: MergeTables, start: Progress) -> Progress
    requires some_standing { SomeStanding t start.waiting start.weighed start.merges start.size work.old pairs.old }
    requires groups_in_bounds { room t.groups ≤ length pairs.old }
    ensures { Ran t start.waiting start.weighed start.merges start.size result.waiting result.weighed result.merges result.size work.old work.new pairs.old pairs.new }
{
    let mut s = start;
    // No `for`: how many turns there are shows only when nothing waits.
    while 0 < s.waiting {
        let turned = turn(pairs, work, t, s);
        s = tidy(pairs, work, t, turned);
    }
    s
}
