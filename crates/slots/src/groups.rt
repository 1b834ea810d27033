// Groups in their slots: what two gain, and joining them.
ghost use Rattle.std.specs.Prelude.{◌≡◌, ◌≢◌, ◌+◌, ◌<◌, length};
ghost use Rattle.laws.specs.Bag.{weigh};
ghost use Rattle.shapes.specs.Group.{gain, group_cost};
ghost use Rattle.slots.specs.Lent.{Laid, Shaped, Sound, Dealt, group_in, starting, CostsAs, NotedIn, MeasuredIn, MeasuredAll, ShapesJoined, JoinedIn};

use crate::tables::MergeTables;
use planes::{fill, join_into, measure_join, measure_words};
use shapes::{Encoding, RowShape};

// What the group in slot s costs, from its numbers.
fn costs(work: &[u32], t: MergeTables, s: usize) -> Encoding
    requires laid { Laid t (length work.now) }
    requires s_lt_groups { s < t.groups }
    ensures { CostsAs t work.now s result.shape.row_cost result.shape.columns result.sets }
{
    let rows = t.costs;
    let columns = t.columns;
    let counts = t.counts;
    let shape = RowShape {
        row_cost: work[rows + s],
        columns: work[columns + s],
    };
    Encoding {
        shape,
        sets: work[counts + s],
    }
}

// What joining the groups in slots a and b saves: one pass over their planes.
fn scan(work: &[u32], t: MergeTables, a: usize, b: usize) -> u32
    requires sound { Sound t work.now }
    requires a_lt_groups { a < t.groups }
    requires b_lt_groups { b < t.groups }
    ensures { result ≡ gain (group_in t work.now a) (group_in t work.now b) }
{
    let words = t.plane_long();
    let x = t.plane(a);
    let y = t.plane(b);
    let joined = measure_join(work, x, y, words);
    let first = costs(work, t, a);
    let second = costs(work, t, b);
    let saved = first.gain(second, joined);
    saved as u32
}

// The same, with no look at the shapes where what they cost says that nothing is saved.
pub fn weigh(work: &[u32], t: MergeTables, a: usize, b: usize) -> u32
    requires sound { Sound t work.now }
    requires a_lt_groups { a < t.groups }
    requires b_lt_groups { b < t.groups }
    ensures { result ≡ gain (group_in t work.now a) (group_in t work.now b) }
{
    let one = costs(work, t, a);
    let other = costs(work, t, b);
    if one.too_far(other) {
        return 0;
    }
    scan(work, t, a, b)
}

// Notes what the shape in slot s costs, which its planes say. They are counted word by word whatever their length: a slot is noted seldom, and what
// weighs pairs, `measure_join`, is put in line where it has one caller, `scan`.
fn note_costs(work: &mut [u32], t: MergeTables, s: usize)
    requires laid { Laid t (length work.old) }
    requires s_lt_groups { s < t.groups }
    ensures { NotedIn t s work.old work.new }
{
    let words = t.plane_long();
    let x = t.plane(s);
    let shape = measure_words(work, x, x, words);
    let rows = t.costs;
    let columns = t.columns;
    work[rows + s] = shape.row_cost;
    work[columns + s] = shape.columns;
}

// Writes the planes of the shape in slot s, and what it costs.
fn measure(work: &mut [u32], t: MergeTables, s: usize)
    requires shaped { Shaped t work.old }
    requires s_lt_groups { s < t.groups }
    ensures { MeasuredIn t s work.old work.new }
{
    let regions = t.regions;
    let words = t.plane_long();
    let x = t.slot(s);
    let y = t.plane(s);
    fill(work, x, regions, y, words);
    note_costs(work, t, s);
}

// Of every slot.
pub fn measure_all(work: &mut [u32], t: MergeTables)
    requires { Shaped t work.old }
    ensures { MeasuredAll t work.old work.new }
{
    let groups = t.groups;
    for s in 0..groups {
        measure(work, t, s);
    }
}

// Makes the shape in slot a be that of slots a and b joined, and its planes with it.
fn join_shapes(work: &mut [u32], t: MergeTables, a: usize, b: usize)
    requires sound { Sound t work.old }
    requires a_lt_groups { a < t.groups }
    requires b_lt_groups { b < t.groups }
    requires slots_differ { a ≢ b }
    ensures { ShapesJoined t a b work.old work.new }
{
    let regions = t.regions;
    let words = t.plane_long();
    let x = t.slot(a);
    let y = t.slot(b);
    let p = t.plane(a);
    let q = t.plane(b);
    RowShape::join(work, x, y, regions);
    join_into(work, p, q, words);
}

// Makes the group in slot a be that of slots a and b joined.
pub fn join_slots(work: &mut [u32], t: MergeTables, a: usize, b: usize)
    requires sound { Sound t work.old }
    requires a_lt_groups { a < t.groups }
    requires b_lt_groups { b < t.groups }
    requires slots_differ { a ≢ b }
    requires b_bound { (group_in t work.old a).sets + (group_in t work.old b).sets < 4294967296 }
    ensures { JoinedIn t a b work.old work.new }
{
    let counts = t.counts;
    join_shapes(work, t, a, b);
    work[counts + a] += work[counts + b];
    note_costs(work, t, a);
}

// What the starting groups cost together.
pub fn size(work: &[u32], t: MergeTables) -> u64
    requires sound { Sound t work.now }
    requires dealt { Dealt t work.now }
    ensures { result ≡ weigh group_cost (starting t work.now) }
{
    let groups = t.groups;
    let order = t.order;
    let mut total: u64 = 0;
    for i in 0..groups {
        let s = work[order + i] as usize;
        let group = costs(work, t, s);
        total += group.cost();
    }
    total
}
