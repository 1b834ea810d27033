// Mode 1: each set has an id of its own, and all are rows of one group, in the order of adding.
ghost use Rattle.std.specs.Prelude.{◌≡◌, ◌<◌, ◌∷◌, [], length};
ghost use Rattle.shapes.specs.Lent.{Narrow};
ghost use Rattle.encoder.specs.Lent.{Fit, OwnAt};
ghost use Rattle.encoder.specs.LentOwn.{WordsFit, group_cost_of};

use crate::encoded::Encoded;
use crate::places::Places;
use ids::own_ids;
use shapes::{Encoding, RowShape};
use shaping::cover;

// The three words of a group: where its shape is, where its rows are, how many there are.
fn put_group(words: &mut [u32], shape: usize, rows: usize, n: usize)
    requires long { length words.old ≡ 3 }
    requires few { WordsFit shape rows n }
    ensures { words.new ≡ shape ∷ rows ∷ n ∷ [] }
{
    words.copy_from_slice(&[shape as u32, rows as u32, n as u32]);
}

// The model's cost of n sets that share a shape.
fn cost_of(shape: &[u32], n: usize) -> u64
    requires narrow { Narrow shape.now }
    requires few { n < 4294967296 }
    ensures { result ≡ group_cost_of shape.now n }
{
    let shape = RowShape::of(shape);
    let sets = n as u32;
    Encoding { shape, sets }.cost()
}

// Makes one group of all sets.
pub fn own(work: &mut [u32], p: Places) -> Encoded
    requires fit { Fit p work.old }
    requires sets_nonzero { 0 < p.sets }
    ensures { OwnAt p work.old work.new result }
{
    own_ids(work, p.ids, p.sets);
    own_ids(work, p.rows, p.sets);
    cover(work, 0, p.sets, p.slots, p.slots + p.regions, p.regions);
    put_group(&mut work[p.finals..p.finals + 3], p.slots, p.rows, p.sets);
    let cost = cost_of(&work[p.slots..p.slots + p.regions], p.sets);
    Encoded {
        distinct: p.sets,
        count: 1,
        groups: 0,
        merges: 0,
        weighed: 0,
        before: cost,
        after: cost,
    }
}
