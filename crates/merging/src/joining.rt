// What happens to the best pair: its two groups die, and what they become takes the next number.
ghost use Rattle.std.specs.Prelude.{◌+◌, ◌*◌, ◌<◌, length};
ghost use Rattle.slots.specs.Lent.{Laid};
ghost use Rattle.merging.specs.LentHeld.{Retired, Noted, Joinable, PairJoined};

use pairs::Pair;
use slots::MergeTables;

// Numbers a and b die; number k lives at their place v.
fn retire(work: &mut [u32], t: MergeTables, a: usize, b: usize, k: usize, v: u32)
    requires laid { Laid t (length work.old) }
    requires a_lt_b { a < b }
    requires b_lt_k { b < k }
    requires k_bound { k < 2 * t.groups }
    ensures { Retired t a b k v work.old work.new }
{
    let place = t.place;
    let into = t.into;
    work[place + a] = 0;
    work[place + b] = 0;
    work[place + k] = v;
    work[into + a] = k as u32;
    work[into + b] = k as u32;
}

// Entry j of the log.
fn note(work: &mut [u32], t: MergeTables, j: usize, p: Pair)
    requires laid { Laid t (length work.old) }
    requires j_bound { j + 1 < t.groups }
    ensures { Noted t j p work.old work.new }
{
    let at = t.log + 3 * j;
    work[at] = p.first;
    work[at + 1] = p.second;
    work[at + 2] = p.gain;
}

// Joins the pair, as merge j. Its numbers die; what they become is number groups + j.
pub fn join_pair(work: &mut [u32], t: MergeTables, j: usize, p: Pair)
    requires { Joinable t j p work.old }
    ensures { PairJoined t j p work.old work.new }
{
    let place = t.place;
    let a = p.first as usize;
    let b = p.second as usize;
    let x = work[place + a];
    let y = work[place + b];
    slots::join_slots(work, t, x as usize - 1, y as usize - 1);
    let k = t.groups + j;
    retire(work, t, a, b, k, x);
    note(work, t, j, p);
}
