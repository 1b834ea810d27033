// What is left of the groups once merging is over, arranged by the mode: sets packed in work, for a build and for a forecast.
ghost use Rattle.std.specs.Prelude.{◌≡◌, List, ℕ, Ok};
ghost use Rattle.said.specs.Job.{Outcome};
ghost use Rattle.opening.specs.LentOpened.{Read};
ghost use Rattle.arranging.specs.LentArranged.{PairsUsed, Joined, NullStage, packing_of_null, ArrangeFit, ArrangedAs};

use encoder::{Encoded, own, regroup};
use finishing::Packing;
use merging::Merged;
use opening::{Stage, nowhere};
use refusals::Refused;

// Mode 1 without sets: its one group has no rows, and is a null subtable.
pub fn is_null(s: Stage) -> bool
    ensures { NullStage s result }
{
    if s.mode == 0 {
        return false;
    }
    if s.places.sets == 0 {
        return true;
    }
    false
}

// That group. A job of no records lends no work, so its three words stand elsewhere.
pub fn null_packing(axes: usize) -> Packing
    ensures { result ≡ packing_of_null axes }
{
    let encoded = Encoded {
        distinct: 0,
        count: 1,
        groups: 0,
        merges: 0,
        weighed: 0,
        before: 0,
        after: 0,
    };
    Packing {
        axes,
        starts: 0,
        places: nowhere(3),
        encoded,
    }
}

// All other sets.
pub fn arrange(work: &mut [u32], s: Stage, m: Merged) -> Packing
    requires { ArrangeFit s m work.old }
    ensures { (axes mode : ℕ) (job : List ℕ) (o : Outcome) (mid : List ℕ) → Read axes mode job o (Ok s) mid → Joined s m mid work.old → ArrangedAs axes mode job o result work.new }
{
    let places = s.places;
    if s.mode == 0 {
        let encoded = regroup(work, places, s.groups, s.distinct, m);
        return Packing {
            axes: s.axes,
            starts: s.starts,
            places,
            encoded,
        };
    }
    let encoded = own(work, places);
    Packing {
        axes: s.axes,
        starts: s.starts,
        places,
        encoded,
    }
}

// How many of so many pair records are to be cleared once a build was opened: all, unless nothing was written yet.
pub fn pairs_used(opened: Result<Result<Stage, Refused>, Refused>, pairs: usize) -> usize
    ensures { PairsUsed opened pairs result }
{
    match opened {
        Ok(_) => pairs,
        Err(_) => 0,
    }
}
