// Where two sets part: their values compared densely, from region 0 up, by a walk along both.
#![tactic(auto)]

ghost use Rattle.std.specs.Prelude.{◌≡◌, ◌+◌, ◌*◌, ◌<◌, ◌≤◌, length};
ghost use Rattle.sets.specs.Set.{word_of};
ghost use Rattle.sets.specs.Order.{parting, PartsAt};
ghost use Rattle.sets.specs.Lent.{entries, set_of, Stored, at_most};
ghost use Rattle.comparing.specs.LentWay.{Next};

use laws::wide;
use sets::Parting;

// The word of zero, which is what a set has at a region that it does not name.
const ZERO: u32 = 0x8000_0000;

// The two words to compare next, their region, and how many entries of each set they take.
#[derive(Clone, Copy)]
struct Step {
    region: u32,
    v: u32,
    u: u32,
    da: usize,
    db: usize,
}

// One step of the walk along two sets: m entries from index a on, and n from b on.
fn next(work: &[u32], a: usize, m: usize, b: usize, n: usize) -> Step
    requires n_nonzero { 0 < m + n }
    requires m_in_bounds { a + 2 * m ≤ length work.now }
    requires n_in_bounds { b + 2 * n ≤ length work.now }
    ensures { Next work.now a m b n result.region result.v result.u result.da result.db }
{
    if m == 0 {
        return Step {
            region: work[b],
            v: ZERO,
            u: work[b + 1],
            da: 0,
            db: 1,
        };
    }
    if n == 0 {
        return Step {
            region: work[a],
            v: work[a + 1],
            u: ZERO,
            da: 1,
            db: 0,
        };
    }
    let r = work[a];
    let s = work[b];
    if r < s {
        return Step {
            region: r,
            v: work[a + 1],
            u: ZERO,
            da: 1,
            db: 0,
        };
    }
    if s < r {
        return Step {
            region: s,
            v: ZERO,
            u: work[b + 1],
            da: 0,
            db: 1,
        };
    }
    Step {
        region: r,
        v: work[a + 1],
        u: work[b + 1],
        da: 1,
        db: 1,
    }
}

// Where m entries from index a on part from n from b on.
fn along(work: &[u32], mut a: usize, mut m: usize, mut b: usize, mut n: usize) -> Parting
    requires m_in_bounds { a + 2 * m ≤ length work.now }
    requires n_in_bounds { b + 2 * n ≤ length work.now }
    ensures { result ≡ parting (entries a m work.now) (entries b n work.now) }
{
    // A step takes an entry of one set or of both, so that no `for` counts the steps.
    while 0 < m + n {
        let s = next(work, a, m, b, n);
        if s.v < s.u {
            return Parting::Smaller(s.region, s.v, s.u);
        }
        if s.u < s.v {
            return Parting::Larger(s.region, s.v, s.u);
        }
        a += 2 * s.da;
        m -= s.da;
        b += 2 * s.db;
        n -= s.db;
    }
    Parting::Equal
}

// Where set x parts from set y, and how it stands to it there.
pub fn compare(work: &[u32], index: usize, x: usize, y: usize) -> Parting
    requires stored { Stored work.now index x }
    requires stored_2 { Stored work.now index y }
    ensures walked { result ≡ parting (set_of index x work.now) (set_of index y work.now) }
    ensures dense { PartsAt 0 (word_of (set_of index x work.now)) (word_of (set_of index y work.now)) result }
{
    let a = wide(work[index + 2 * x]);
    let m = wide(work[index + 2 * x + 1]);
    let b = wide(work[index + 2 * y]);
    let n = wide(work[index + 2 * y + 1]);
    along(work, a, m, b, n)
}

// Whether set x is at most set y.
pub fn at_most(work: &[u32], index: usize, x: usize, y: usize) -> bool
    requires stored { Stored work.now index x }
    requires stored_2 { Stored work.now index y }
    ensures { result ≡ at_most work.now index x y }
{
    match compare(work, index, x, y) {
        Parting::Equal => true,
        Parting::Smaller(_, _, _) => true,
        Parting::Larger(_, _, _) => false,
    }
}
