// The final group that has an id.
ghost use Rattle.std.specs.Prelude.{◌≡◌};
ghost use Rattle.reasons.specs.Why.{home_in};
ghost use Rattle.reasons.specs.LentReasons.{GroupsIn, finals_in};

use crate::id_rows::place_in;
use encoder::Places;

// Its place among the final groups, of which there are `count`; as many where none has it.
// A number and no Option: the promise is `home_in`, of which the theorems on reasons speak (why_told).
pub fn home_of(work: &[u32], p: Places, count: usize, x: u32) -> usize
    requires { GroupsIn p count work.now }
    ensures { result ≡ home_in x (finals_in p count work.now) }
{
    let finals = p.finals;
    for g in 0..count {
        let n = work[finals + 3 * g + 2] as usize;
        if place_in(work, p, g, x) < n {
            return g;
        }
    }
    count
}
