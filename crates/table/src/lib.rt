// The table of distinct shapes, in the order of the rules. Each shape stands in a slot for good; a list of slot numbers has the order,
// so a new shape moves numbers and no shapes.
#![tactic(auto)]

ghost use Rattle.std.specs.Prelude.{◌≡◌, ◌+◌, ◌*◌, ◌<◌, ◌≤◌, length};
ghost use Rattle.shapes.specs.Shape.{cost_of_row};
ghost use Rattle.shapes.specs.Order.{order};
ghost use Rattle.table.specs.LentTable.{shape_in, SlotFits, Costed, Searchable, FoundIn, InsertedIn};

use shapes::RowShape;
use std::cmp::Ordering;

// Where the table lies: the slots, one more than `room` of them, of `regions` words each, from `slots` on; the slot of each group number
// from `order` on, and the count of sets of each slot from `counts` on, `room` words each. Where the table is `costed`, `room` words with the
// row cost of each slot stand behind the counts, so that most steps of a search compare two numbers; else each step adds it up. (Places in
// `work` and not slices: merging goes on with the same slots, and `GroupedAt` says what stands where.)
#[derive(Clone, Copy)]
pub struct Shapes {
    pub regions: usize,
    pub room: usize,
    pub slots: usize,
    pub order: usize,
    pub counts: usize,
    pub costed: bool,
}

// The row cost of the shape in slot s, added up.
pub fn row_cost(work: &[u32], t: Shapes, s: usize) -> u32
    requires { SlotFits t s work.now }
    ensures { result ≡ cost_of_row (shape_in t s work.now) }
{
    let x = t.slots + s * t.regions;
    RowShape::of(&work[x..x + t.regions]).row_cost
}

// The same of a slot that the table has.
fn known_cost(work: &[u32], t: Shapes, s: usize) -> u32
    requires slot_fits { SlotFits t s work.now }
    requires costed { Costed t s work.now }
    ensures { result ≡ cost_of_row (shape_in t s work.now) }
{
    if t.costed {
        let costs = t.counts + t.room;
        return work[costs + s];
    }
    row_cost(work, t, s)
}

// How the shape in slot a, of that row cost, stands to the one in slot b.
fn compare_slots(work: &[u32], t: Shapes, a: usize, cost: u32, b: usize) -> Ordering
    requires slot_fits { SlotFits t a work.now }
    requires cost_value { cost ≡ cost_of_row (shape_in t a work.now) }
    requires slot_fits_2 { SlotFits t b work.now }
    requires costed { Costed t b work.now }
    ensures { result ≡ order (shape_in t a work.now) (shape_in t b work.now) }
{
    let known = known_cost(work, t, b);
    let x = t.slots + a * t.regions;
    let y = t.slots + b * t.regions;
    RowShape::order(
        &work[x..x + t.regions],
        cost,
        &work[y..y + t.regions],
        known,
    )
}

// Looks for the shape in slot s, of that row cost, among the first n numbers. (The library's `binary_search_by` asks for a closure that may be
// called at any word, and here only slots of the table may be compared.)
fn search(work: &[u32], t: Shapes, n: usize, s: usize, cost: u32) -> Result<usize, usize>
    requires searchable { Searchable t n s work.now }
    requires cost_value { cost ≡ cost_of_row (shape_in t s work.now) }
    ensures { FoundIn t n s work.now result }
{
    let mut lo = 0;
    let mut hi = n;
    while lo < hi {
        let mid = lo + (hi - lo) / 2;
        let slot = work[t.order + mid] as usize;
        match compare_slots(work, t, s, cost, slot) {
            Ordering::Less => {
                hi = mid;
            }
            Ordering::Equal => {
                return Ok(mid);
            }
            Ordering::Greater => {
                lo = mid + 1;
            }
        }
    }
    Err(lo)
}

// Looks for the shape in slot s among the first n numbers: where it is, or, where it is missing, the number before which it would come.
pub fn find_shape(work: &[u32], t: Shapes, n: usize, s: usize) -> Result<usize, usize>
    requires { Searchable t n s work.now }
    ensures { FoundIn t n s work.now result }
{
    let cost = row_cost(work, t, s);
    search(work, t, n, s, cost)
}

// Makes v the i-th of the words, moving the later ones up by one; the last one is dropped. (`copy_within` is a call of C's `memmove`, which
// who links the archive without a C library would have to bring.)
pub fn insert_at(words: &mut [u32], i: usize, v: u32)
    requires { i < length words.old }
    ensures { InsertedIn i v words.old words.new }
{
    let last = words.len() - 1;
    for k in (i..last).rev() {
        words[k + 1] = words[k];
    }
    words[i] = v;
}
