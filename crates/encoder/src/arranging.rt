// The final groups: the living ones in their order, and each one's sets in the order of rows.
ghost use Rattle.encoder.specs.LentArranged.{LineFit, LinedUp, HomedFit, Homed, SharedFit, SharedOut, ArrangeFit, Arranged};

use crate::places::Places;
use dealing::{deal, find_homes, heads, spots};
use finals::Line;
use ordering::order_living;
use table::Shapes;

// The slots of the living of k numbers, in order, from p.living on; and the place of each there, from p.spots on.
fn line_up(work: &mut [u32], p: Places, groups: usize, k: usize) -> usize
    requires { LineFit p groups k work.old }
    ensures { LinedUp p groups k work.old work.new result }
{
    let t = Shapes {
        regions: p.regions,
        room: p.room,
        slots: p.slots,
        order: p.living,
        counts: p.counts,
        costed: false,
    };
    let count = order_living(work, t, p.place, k);
    let (front, rest) = work.split_at_mut(p.spots);
    let (spot, _) = rest.split_at_mut(groups);
    spots(&front[p.living..p.living + count], spot);
    count
}

// The final group of each starting group's slot, from p.homes on.
fn find_places(work: &mut [u32], p: Places, groups: usize)
    requires { HomedFit p groups work.old }
    ensures { Homed p groups work.old work.new }
{
    let (front, rest) = work.split_at_mut(p.homes);
    let (home, behind) = rest.split_at_mut(groups);
    let at = p.homes + groups;
    let place = &behind[p.place - at..p.costs - at];
    let spot = &behind[p.spots - at..p.into - at];
    let into = &behind[p.into - at..p.log - at];
    find_homes(&front[p.order..p.order + groups], into, place, spot, home);
}

// Where the shape of each of so many final groups stands, from p.finals on, and its rows, from p.rows on.
fn share_out(work: &mut [u32], p: Places, groups: usize, count: usize)
    requires { SharedFit p groups count work.old }
    ensures { SharedOut p count work.old work.new }
{
    let (front, rest) = work.split_at_mut(p.finals);
    let (finals, rest) = rest.split_at_mut(3 * count);
    let (between, rest) = rest.split_at_mut(p.rows - (p.finals + 3 * count));
    let (rows, behind) = rest.split_at_mut(p.sets);
    let front = &front[..];
    heads(
        &front[p.living..p.living + count],
        p.slots,
        p.regions,
        finals,
    );
    let t = Line {
        line: &front[p.line..p.line + p.sets],
        first: &front[p.first..p.first + p.sets],
        kinds: &front[p.kinds..p.kinds + p.sets],
        home: &front[p.homes..p.homes + groups],
    };
    deal(t, finals, rows, p.rows);
}

// Of so many starting groups, and numbers k in all: the final groups from p.finals on, and their rows from p.rows on. Returns how many there are.
pub fn arrange(work: &mut [u32], p: Places, groups: usize, k: usize) -> usize
    requires { ArrangeFit p groups k work.old }
    ensures { Arranged p groups k work.old work.new result }
{
    let count = line_up(work, p, groups, k);
    find_places(work, p, groups);
    share_out(work, p, groups, count);
    count
}
