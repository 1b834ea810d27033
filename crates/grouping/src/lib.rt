// Sets grouped by shape: each distinct set's shape is looked up in the table and counted there.
#![tactic(auto)]

ghost use Rattle.std.specs.Prelude.{◌≡◌, ◌+◌, ◌<◌, ◌≤◌, length, get_or};
ghost use Rattle.grouping.specs.LentGroups.{AddFit, AddedIn, JoinFit, JoinedIn, NewFit, NewIn, SetFit, AddedSet, GroupFit, GroupedAt};

use shaping::shape_of;
use table::{Shapes, find_shape, insert_at, row_cost};

// Counts one more set in group i, and makes the word at `kind` its slot.
fn join_group(work: &mut [u32], t: Shapes, i: usize, kind: usize)
    requires { JoinFit t i kind work.old }
    ensures { JoinedIn t i kind work.old work.new }
{
    let place = t.order + i;
    let slot = work[place];
    work[t.counts + slot as usize] += 1;
    work[kind] = slot;
}

// Makes the shape in slot `groups` the i-th group, of one set, with its row cost beside it, and makes the word at `kind` its slot.
fn new_group(work: &mut [u32], t: Shapes, groups: usize, i: usize, kind: usize)
    requires { NewFit t groups i kind work.old }
    ensures { NewIn t groups i kind work.old work.new }
{
    let slot = groups as u32;
    let cost = row_cost(work, t, groups);
    insert_at(&mut work[t.order..t.order + (groups + 1)], i, slot);
    let known = t.counts + t.room + groups;
    work[t.counts + groups] = 1;
    work[known] = cost;
    work[kind] = slot;
}

// Counts a set whose shape stands in slot `groups`, and makes the word at `kind` the slot of its group. Answers how many groups there are then,
// or None where there is no room for one more.
fn add_shape(work: &mut [u32], t: Shapes, groups: usize, kind: usize) -> Option<usize>
    requires { AddFit t groups kind work.old }
    ensures { AddedIn t groups kind work.old work.new result }
{
    match find_shape(work, t, groups, groups) {
        Ok(i) => {
            join_group(work, t, i, kind);
            Some(groups)
        }
        Err(i) if groups < t.room => {
            new_group(work, t, groups, i, kind);
            Some(groups + 1)
        }
        Err(_) => None,
    }
}

// The same of set x: its shape goes into slot `groups` first.
fn add_set(
    work: &mut [u32],
    t: Shapes,
    index: usize,
    x: usize,
    groups: usize,
    kind: usize,
) -> Option<usize>
    requires { SetFit t index x groups kind work.old }
    ensures { AddedSet t index x groups kind work.old work.new result }
{
    let slot = t.slots + groups * t.regions;
    shape_of(work, index, x, slot, t.regions);
    add_shape(work, t, groups, kind)
}

// Groups n sets by shape, each distinct one counted once, and writes for each set the slot of its shape from `kinds` on; from `first` on
// stands for each set the first that equals it.
pub fn group(
    work: &mut [u32],
    t: Shapes,
    index: usize,
    n: usize,
    first: usize,
    kinds: usize,
) -> Option<usize>
    requires { GroupFit t index n first kinds work.old }
    ensures { GroupedAt t index n first kinds work.old work.new result }
{
    let mut groups = 0;
    for k in 0..n {
        let f = work[first + k] as usize;
        if f == k {
            groups = add_set(work, t, index, k, groups, kinds + k)?;
        } else {
            work[kinds + k] = work[kinds + f];
        }
    }
    Some(groups)
}
