// Merging under a C name, for the benchmark alone (host/bench): no entry point of the product, and nothing depends on it.
#![tactic(auto)]

ghost use Rattle.std.specs.Prelude.{◌≡◌, ◌≤◌, length, get_or, set};
ghost use Rattle.pairs.specs.LentQueue.{SameFrom};
ghost use Rattle.waits.specs.LentWaits.{room};
ghost use Rattle.merging.specs.LentOptimized.{Ready, Optimized};

use merging::{Merged, optimize};
use pairs::Pair;
use slots::MergeTables;

// Writes what merging counted, and returns how many merges there were.
fn tell(told: &mut [u64], m: Merged) -> usize
    requires { length told.old ≡ 3 }
    ensures value { result ≡ m.merges }
    ensures told_after { told.new ≡ set (set (set told.old 0 m.weighed) 1 m.before) 2 m.after }
{
    told[0] = m.weighed as u64;
    told[1] = m.before;
    told[2] = m.after;
    m.merges
}

// Joins the groups that lie in work where the numbers say, as `merging::optimize` does. Returns how many merges there were; told is how many pairs
// were weighed, and the modelled size before and after.
#[unsafe(no_mangle)]
pub extern "C" fn fenikezo_optimize(
    pairs: &mut [Pair],
    work: &mut [u32],
    regions: usize,
    groups: usize,
    slots: usize,
    order: usize,
    counts: usize,
    place: usize,
    costs: usize,
    columns: usize,
    into: usize,
    log: usize,
    planes: usize,
    told: &mut [u64],
) -> usize
    requires ready { Ready (record { regions = regions; groups = groups; slots = slots; order = order; counts = counts; place = place; costs = costs; columns = columns; into = into; log = log; planes = planes }) work.old }
    requires groups_in_bounds { room groups ≤ length pairs.old }
    requires told_len { length told.old ≡ 3 }
    ensures optimized { Optimized (record { regions = regions; groups = groups; slots = slots; order = order; counts = counts; place = place; costs = costs; columns = columns; into = into; log = log; planes = planes }) result (get_or told.new 0 0) (get_or told.new 1 0) (get_or told.new 2 0) work.old work.new }
    ensures same_from { SameFrom pairs.old (room groups) pairs.new }
{
    let t = MergeTables {
        regions,
        groups,
        slots,
        order,
        counts,
        place,
        costs,
        columns,
        into,
        log,
        planes,
    };
    let m = optimize(pairs, work, t);
    tell(told, m)
}
