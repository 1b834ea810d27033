// The entry point that tells where two sets of a job part.
// A function for each C call, with numbers alone in and out, no Option, Result or enum: C calls it by `ivs_c`.
ghost use Rattle.std.specs.Prelude.{◌≡◌, length};
ghost use Rattle.limits.specs.Limits.{pair_records};
ghost use Rattle.job.specs.Check.{work_left};
ghost use Rattle.parting.specs.Part.{part_of};
ghost use Rattle.reporting.specs.Answers.{filled};
ghost use Rattle.part_words.specs.PartWords.{part_number, part_report};

// Where set `first` of a job parts from set `second`: the refusal number, 0 where they were compared; the report has all
// numbers of the answer.
pub fn ivs_part(
    axes: u32,
    job: &[u8],
    first: u32,
    second: u32,
    work: &mut [u32],
    report: &mut [u64; 16],
) -> u32
    ensures value { result ≡ part_number (part_of axes job.now first second (length work.old)) }
    ensures work_after { work.new ≡ work_left axes 0 job.now pair_records work.old }
    ensures report_after { report.new ≡ filled 0 (part_report job.now (part_of axes job.now first second (length work.old))) report.old }
{
    let answer = parting::part(axes, job, first, second, work);
    part_words::tell_parted(report, job, answer)
}
