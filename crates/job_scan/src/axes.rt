// The axis records that a job begins with.
ghost use Rattle.std.specs.Prelude.{◌≡◌, ℕ, ◌+◌, ◌*◌, ◌<◌, ◌≤◌, length};
ghost use Rattle.said.specs.Records.{record_start};
ghost use Rattle.job_scan.specs.LentAxes.{AxesRead};

use records::{Kind, check_record, is_kind};
use refusals::{Refusal, Refused};

// Checks the axis records: the record that they end before.
pub fn axes_end(job: &[u8], axes: usize, records: usize) -> Result<usize, Refused>
    requires { (0 < axes) × (record_start records ≤ length job.now) }
    ensures { AxesRead axes job.now records result }
{
    for i in 0..records {
        if let Err(refusal) = check_record(job, axes, i, i, false) {
            return Err(Refused { refusal, place: i });
        }
        if !is_kind(job, i, Kind::Axis) {
            return Ok(i);
        }
    }
    if records % axes != 0 {
        return Err(Refused {
            refusal: Refusal::Unfinished,
            place: records,
        });
    }
    Ok(records)
}
