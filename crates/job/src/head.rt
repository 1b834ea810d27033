// The regions at a job's head, by the kinds of its first records alone: the published work goes by them (RULES J7).
ghost use Rattle.std.specs.Prelude.{◌≡◌, ℕ};
ghost use Rattle.said.specs.Records.{record_count};
ghost use Rattle.said.specs.Work.{axis_run, regions_at_head};

use limits::Limits;
use records::{Kind, is_kind, records_in};

// How many axis records a job begins with: no record behind them is looked at.
fn head_run(job: &[u8]) -> usize
    ensures { result ≡ axis_run job.now (record_count job.now) }
{
    let records = records_in(job.len());
    for i in 0..records {
        if !is_kind(job, i, Kind::Axis) {
            return i;
        }
    }
    records
}

// The regions that they are, rounded up, at most as many as there may be; none for no axes.
#[tactic(auto, unfolding(said::specs::Work::regions_at_head))]
pub fn head_regions(axes: u32, job: &[u8]) -> usize
    ensures { result ≡ regions_at_head axes job.now }
{
    if axes == 0 {
        return 0;
    }
    head_run(job).div_ceil(axes as usize).min(Limits::REGIONS)
}
