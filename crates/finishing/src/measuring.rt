// What is packed in work, measured: the report of a done build, before anything is written and without writing it. A build tests what it is
// lent by it, and a forecast answers with it.
ghost use Rattle.std.specs.Prelude.{◌≡◌, List, [], ◌∷◌, ℕ, ◌+◌, ◌*◌, ◌≤◌, length, take};
ghost use Rattle.laws.specs.LentRange.{Only, seg};
ghost use Rattle.store.specs.Lent.{coords_in};
ghost use Rattle.encoder.specs.Packed.{Packed};
ghost use Rattle.encoder.specs.Lent.{PackedAt};
ghost use Rattle.encoder.specs.LentPlaces.{scratch_at};
ghost use Rattle.finishing.specs.Late.{report_of};
ghost use Rattle.finishing.specs.Lent.{FinishFit, MeasuredAs, WordsFit, report_in};
ghost use Rattle.limits.specs.Limits.{most_axes};

use crate::answers::Report;
use encoder::{Encoded, Places};
use planning::{Plan, draft};
use store::Finals;

// Sets that are packed in work: for how many axes, from where on stands where in the job each region's coordinates start, where the tables
// stand, and what was made of the sets.
#[derive(Clone, Copy)]
pub struct Packing {
    pub axes: usize,
    pub starts: usize,
    pub places: Places,
    pub encoded: Encoded,
}

// The counts as they were packed and planned. The forecast is the bytes that were planned.
fn report(e: Encoded, plan: Plan) -> Report
    ensures { result ≡ report_in e plan.bytes plan.runs plan.kept }
{
    Report {
        bytes: plan.bytes,
        subtables: plan.runs,
        regions: plan.kept,
        ids: e.distinct,
        groups: e.groups,
        merges: e.merges,
        weighed: e.weighed,
        before: e.before,
        after: e.after,
        forecast: plan.bytes as u64,
    }
}

// The report, with the regions that are kept marked and numbered from `scratch` on, behind what is packed.
pub fn measure(work: &mut [u32], k: Packing, scratch: usize) -> Report
    requires axes_le_most_axes { k.axes ≤ most_axes }
    requires regions_in_bounds { scratch + 4 * k.places.regions ≤ length work.old }
    requires words_fit { WordsFit k.places k.encoded (take scratch work.old) }
    ensures measured_as { MeasuredAs k (take scratch work.old) (seg scratch k.places.regions work.new) (seg (scratch + k.places.regions) k.places.regions work.new) result }
    ensures only { Only ((scratch, 2 * k.places.regions) ∷ []) work.old work.new }
{
    let p = k.places;
    let e = k.encoded;
    let t = Finals {
        regions: p.regions,
        groups: p.finals,
        count: e.count,
        index: 0,
    };
    let plan = draft(k.axes, work, t, scratch);
    report(e, plan)
}

// The report alone: what a build would answer that is lent enough.
pub fn foretell(work: &mut [u32], k: Packing) -> Report
    requires axes_le_most_axes { k.axes ≤ most_axes }
    requires words_fit { WordsFit k.places k.encoded work.old }
    requires regions_in_bounds { scratch_at k.places + 4 * k.places.regions ≤ length work.old }
    ensures { (job : List ℕ) (x : Packed) → FinishFit k.axes k.starts job k.places k.encoded work.old → PackedAt x k.places k.encoded work.old → result ≡ report_of k.axes (coords_in job k.axes work.old k.starts k.places.regions) x }
{
    let p = k.places;
    measure(work, k, p.rows + p.sets)
}
