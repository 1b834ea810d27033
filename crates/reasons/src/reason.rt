// The one reason why two ids stand where they do.
ghost use Rattle.std.specs.Prelude.{◌≡◌};
ghost use Rattle.encoder.specs.Packed.{Packed};
ghost use Rattle.encoder.specs.Lent.{PackedAt};
ghost use Rattle.reasons.specs.Why.{final_no, reason_in_group, apart_of, why_of};
ghost use Rattle.reasons.specs.LentReasons.{ids_in, finals_in, RowsIn, CostsIn, ReasonFit};

use crate::costs::cost_joined;
use crate::homes::home_of;
use crate::id_rows::place_in;
use encoder::{Encoded, Places};
use shapes::Encoding;

// One subtable; one final group, cut; or two groups that were never joined: what the first and the second cost, and what they would cost as one.
// Of ids that are not both there it is None.
#[derive(Clone, Copy)]
pub enum Reason {
    None,
    Same,
    CutApart,
    NeverJoined(u64, u64, u64),
}

// Of two ids of group g: whether the cut at so many rows parts them.
#[tactic(auto, unfolding(crate::specs::Why::reason_in_group))]
fn same_group(work: &[u32], p: Places, g: usize, first: u32, second: u32) -> Reason
    requires { RowsIn p g work.now }
    ensures { result ≡ reason_in_group (ids_in p work.now g) first second }
{
    let a = place_in(work, p, g, first) / Encoding::MAX_ITEMS;
    let b = place_in(work, p, g, second) / Encoding::MAX_ITEMS;
    if a == b {
        return Reason::Same;
    }
    Reason::CutApart
}

// Of two groups.
fn never_joined(work: &[u32], p: Places, count: usize, a: usize, b: usize) -> Reason
    requires { CostsIn p count a b work.now }
    ensures { result ≡ apart_of (final_no (finals_in p count work.now) a) (final_no (finals_in p count work.now) b) }
{
    let finals = p.finals;
    let regions = p.regions;
    let s = work[finals + 3 * a] as usize;
    let m = work[finals + 3 * a + 2] as usize;
    let t = work[finals + 3 * b] as usize;
    let n = work[finals + 3 * b + 2] as usize;
    let one = cost_joined(work, s, s, regions, m);
    let other = cost_joined(work, t, t, regions, n);
    let both = cost_joined(work, s, t, regions, m + n);
    Reason::NeverJoined(one, other, both)
}

// Of two ids that are there.
pub fn reason_of(work: &[u32], p: Places, e: Encoded, first: u32, second: u32) -> Reason
    requires { ReasonFit p e first second work.now }
    ensures { (k : Packed) → PackedAt k p e work.now → result ≡ why_of k.finals first second }
{
    let count = e.count;
    let a = home_of(work, p, count, first);
    let b = home_of(work, p, count, second);
    if a == b {
        return same_group(work, p, a, first, second);
    }
    never_joined(work, p, count, a, b)
}
