// What final groups cost, apart and joined.
ghost use Rattle.std.specs.Prelude.{◌≡◌};
ghost use Rattle.laws.specs.LentRange.{seg};
ghost use Rattle.shapes.specs.Shape.{join};
ghost use Rattle.shapes.specs.Group.{group_cost};
ghost use Rattle.reasons.specs.LentReasons.{ShapesIn};

use shapes::{Encoding, RowShape};

// The model's cost of n sets that share the shape from a on, joined with the one from b on; of one shape it is that shape's.
pub fn cost_joined(work: &[u32], a: usize, b: usize, regions: usize, n: usize) -> u64
    requires { ShapesIn a b regions n work.now }
    ensures { result ≡ group_cost (record { shape = join (seg a regions work.now) (seg b regions work.now); sets = n }) }
{
    let shape = RowShape::joined(&work[a..a + regions], &work[b..b + regions]);
    let sets = n as u32;
    Encoding { shape, sets }.cost()
}
