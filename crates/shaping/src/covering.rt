// Mode 1 has one group: its shape is the join of the shapes of all sets.
ghost use Rattle.std.specs.Prelude.{◌≡◌, ◌+◌, ◌≤◌, length};
ghost use Rattle.shaping.specs.Lent.{CoverFit, CoveredAt, CoverAt};

use crate::shaping::shape_of;
use shapes::RowShape;

// Joins the shapes of n sets to the one from `at` on; the words from `tmp` on are scratch for one shape.
fn join_each(work: &mut [u32], index: usize, n: usize, at: usize, tmp: usize, regions: usize)
    requires { CoverFit index n at tmp regions work.old }
    ensures { CoveredAt index n at tmp regions work.old work.new }
{
    for x in 0..n {
        shape_of(work, index, x, tmp, regions);
        RowShape::join(work, at, tmp, regions);
    }
}

// Makes the words from `at` on the join of the shapes of n sets.
pub fn cover(work: &mut [u32], index: usize, n: usize, at: usize, tmp: usize, regions: usize)
    requires { CoverFit index n at tmp regions work.old }
    ensures { CoverAt index n at tmp regions work.old work.new }
{
    work[at..at + regions].fill(0);
    join_each(work, index, n, at, tmp, regions);
}
