// The pairs that wait: each pair of living groups that was weighed and gains, in a lent slice of records.
#![tactic(auto)]

ghost use Rattle.std.specs.Prelude.{◌≡◌, ◌+◌, ◌≤◌, ◌<◌, MatchOption, length};
ghost use Rattle.laws.specs.Bag.{sum};
ghost use Rattle.waits.specs.LentWaits.{room, place_of, alive, pair_of, Lists, Weighable, Asked, Offered, OfferedAll, Opening, Opened};

use pairs::{Pair, append, raise_all};
use slots::MergeTables;

// How many pairs wait, and how many were weighed.
#[derive(Clone, Copy)]
pub struct Tally {
    pub waiting: usize,
    pub weighed: usize,
}

// Weighs numbers c and k: their pair, with what it gains; None where c is dead.
fn consider(work: &[u32], t: MergeTables, c: usize, k: usize) -> Option<Pair>
    requires weighable { Weighable t k work.now }
    requires c_lt_k { c < k }
    ensures { MatchOption result (place_of t work.now c ≡ 0) (λ p. (0 < place_of t work.now c) × (p ≡ pair_of t work.now c k)) }
{
    let place = t.place;
    let x = work[place + c] as usize;
    if x == 0 {
        return None;
    }
    let y = work[place + k] as usize;
    let gain = slots::weigh(work, t, x - 1, y - 1);
    let first = c as u32;
    let second = k as u32;
    Some(Pair {
        gain,
        first,
        second,
    })
}

// Weighs numbers c and k, if c lives; where they gain, they wait, behind the others and in no order yet.
fn offer(pairs: &mut [Pair], work: &[u32], t: MergeTables, c: usize, k: usize, at: Tally) -> Tally
    requires weighable { Weighable t k work.now }
    requires lists { Lists t k c at.waiting work.now pairs.old }
    requires c_lt_k { c < k }
    requires c_bound { at.waiting + alive t work.now c ≤ room t.groups }
    requires c_bound_2 { at.weighed + alive t work.now c ≤ room t.groups }
    requires groups_in_bounds { room t.groups ≤ length pairs.old }
    ensures { Offered t k c at.waiting at.weighed result.waiting result.weighed work.now pairs.old pairs.new }
{
    let Some(pair) = consider(work, t, c, k) else {
        return at;
    };
    let weighed = at.weighed + 1;
    if pair.gain == 0 {
        return Tally { weighed, ..at };
    }
    let waiting = append(pairs, at.waiting, pair);
    Tally { waiting, weighed }
}

// Weighs number k with each living number below it. What gains is brought into heap order when all are weighed: where a pair goes is not foretold, and
// each wrong guess would wait for the weighing before it.
pub fn offer_all(pairs: &mut [Pair], work: &[u32], t: MergeTables, k: usize, at: Tally) -> Tally
    requires asked { Asked t k 0 at.waiting work.now pairs.old }
    requires k_bound { at.waiting + sum (alive t work.now) k ≤ room t.groups }
    requires k_bound_2 { at.weighed + sum (alive t work.now) k ≤ room t.groups }
    requires groups_in_bounds { room t.groups ≤ length pairs.old }
    ensures { OfferedAll t k at.waiting at.weighed result.waiting result.weighed work.now pairs.old pairs.new }
{
    let mut now = at;
    for c in 0..k {
        now = offer(pairs, work, t, c, k, now);
    }
    raise_all(pairs, at.waiting, now.waiting);
    now
}

// Weighs each pair of the starting groups.
pub fn weigh_each(pairs: &mut [Pair], work: &[u32], t: MergeTables) -> Tally
    requires opening { Opening t work.now }
    requires groups_in_bounds { room t.groups ≤ length pairs.old }
    ensures { Opened t result.waiting result.weighed work.now pairs.old pairs.new }
{
    let groups = t.groups;
    let mut now = Tally {
        waiting: 0,
        weighed: 0,
    };
    for k in 0..groups {
        now = offer_all(pairs, work, t, k, now);
    }
    now
}
