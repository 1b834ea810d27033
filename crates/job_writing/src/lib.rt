// The job of a store (#105), written: an axis record for each axis of each region in list order, then a set for each row.
#![tactic(auto)]

mod records;
mod regions;
mod set_records;

ghost use Rattle.std.specs.Prelude.{◌≡◌, true, ◌≤◌, length};
ghost use Rattle.cells.specs.Lent.{Ahead};
ghost use Rattle.limits.specs.Limits.{most_axes};
ghost use Rattle.reader.specs.Store.{axis_count};
ghost use Rattle.rows.specs.Lent.{Put};
ghost use Rattle.stores.specs.Stores.{store_at, is_whole_ok};
ghost use Rattle.recovering.specs.Recovering.{job_of};

use crate::regions::write_regions;
use crate::set_records::write_sets;

// The job of a store that can be recovered.
pub fn write_job(out: &mut [u8], s: &[u8], work: &[u32])
    requires s_value { (is_whole_ok s.now ≡ true) × (axis_count s.now ≤ most_axes) × Ahead s.now 0 work.now }
    requires s_in_bounds { length (job_of (store_at s.now)) ≤ length out.old }
    ensures { Put 0 (job_of (store_at s.now)) out.old out.new (length (job_of (store_at s.now))) }
{
    let p = write_regions(out, s);
    write_sets(out, p, s, work);
}
