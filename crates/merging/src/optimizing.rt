// Merging, from the starting groups to the living ones.
ghost use Rattle.std.specs.Prelude.{◌≡◌, ◌+◌, ◌*◌, ◌≤◌, ◌<◌, length, get_or};
ghost use Rattle.slots.specs.Lent.{Laid, Dealt};
ghost use Rattle.pairs.specs.LentQueue.{SameFrom};
ghost use Rattle.waits.specs.LentWaits.{room, place_of};
ghost use Rattle.merging.specs.LentOptimized.{Ready, Optimized, GroupsPlaced, Onward, Resolved, AllResolved};

use crate::run;
use crate::run::Progress;
use pairs::Pair;
use slots::{MergeTables, measure_all, size};
use waits::weigh_each;

// How many merges there were and pairs were weighed, and the modelled size before and after.
#[derive(Clone, Copy)]
pub struct Merged {
    pub merges: usize,
    pub weighed: usize,
    pub before: u64,
    pub after: u64,
}

// Number i lives in the slot of starting group i.
pub fn place_groups(work: &mut [u32], t: MergeTables)
    requires laid { Laid t (length work.old) }
    requires dealt { Dealt t work.old }
    ensures { GroupsPlaced t work.old work.new }
{
    let groups = t.groups;
    let place = t.place;
    let order = t.order;
    for i in 0..groups {
        work[place + i] = work[order + i] + 1;
    }
}

// The heir of number c, where those of the later numbers are known.
fn resolve(work: &mut [u32], t: MergeTables, c: usize)
    requires laid { Laid t (length work.old) }
    requires c_bound { c < 2 * t.groups }
    requires c_bound_2 { place_of t work.old c ≡ 0 → get_or work.old (t.into + c) 0 < 2 * t.groups }
    ensures { Resolved t c work.old work.new }
{
    let place = t.place;
    let into = t.into;
    if work[place + c] == 0 {
        let heir = work[into + c] as usize;
        work[into + c] = work[into + heir];
    } else {
        work[into + c] = c as u32;
    }
}

// The living number that each number below k went into, from the last down to the first.
pub fn resolve_all(work: &mut [u32], t: MergeTables, k: usize)
    requires { Onward t k work.old }
    ensures { AllResolved t k work.old work.new }
{
    for c in (0..k).rev() {
        resolve(work, t, c);
    }
}

// Joins groups while a pair gains, the best pair first.
pub fn optimize(pairs: &mut [Pair], work: &mut [u32], t: MergeTables) -> Merged
    requires ready { Ready t work.old }
    requires groups_in_bounds { room t.groups ≤ length pairs.old }
    ensures optimized { Optimized t result.merges result.weighed result.before result.after work.old work.new }
    ensures same_from { SameFrom pairs.old (room t.groups) pairs.new }
{
    measure_all(work, t);
    let before = size(work, t);
    place_groups(work, t);
    let tally = weigh_each(pairs, work, t);
    let start = Progress {
        waiting: tally.waiting,
        weighed: tally.weighed,
        merges: 0,
        size: before,
        taken: 0,
    };
    let end = run::join_all(pairs, work, t, start);
    resolve_all(work, t, t.groups + end.merges);
    Merged {
        merges: end.merges,
        weighed: end.weighed,
        before,
        after: end.size,
    }
}
