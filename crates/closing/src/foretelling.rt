// The last part of a forecast: what is left of the groups arranged and measured, with nothing written.
ghost use Rattle.std.specs.Prelude.{◌≡◌, List, [], ℕ, ◌≤◌, Ok, IfOk};
ghost use Rattle.said.specs.Job.{Outcome};
ghost use Rattle.encoder.specs.Packed.{own};
ghost use Rattle.finishing.specs.Answers.{built};
ghost use Rattle.finishing.specs.Late.{report_of, size_told};
ghost use Rattle.limits.specs.Limits.{most_axes};
ghost use Rattle.call.specs.Foretold.{foretold_from};
ghost use Rattle.opening.specs.LentOpened.{Read, OpenedBy};
ghost use Rattle.panel.specs.declared.Profile.TheVariants.{Plain};
ghost use Rattle.arranging.specs.LentArranged.{Joined, JoinedOrRefused, JoinedBy};
ghost use Rattle.closing.specs.LentClosed.{ForetellFit, ForeseeFit, Foreseen};

use arranging::{arrange, is_null, null_packing};
use finishing::{Report, foretell};
use merging::Merged;
use opening::Stage;
use refusals::{Refusal, Refused, ensure};
use said::STORE_BYTES;

// Mode 1 without sets: the three words of its one group are these.
fn foretell_none(axes: usize) -> Report
    requires { axes ≤ most_axes }
    ensures { result ≡ report_of axes [] (own 0 []) }
{
    let mut null = [0u32; 3];
    null[1] = 3;
    foretell(&mut null, null_packing(axes))
}

// What was measured is answered, unless the store would be too big.
#[tactic(auto, unfolding(finishing::specs::Late::size_told))]
fn tell_size(done: Report) -> Result<Report, Refused>
    ensures { built result ≡ size_told done }
{
    ensure(done.bytes <= STORE_BYTES, Refusal::StoreTooBig)?;
    Ok(done)
}

// Packs the sets of a job that was opened by their mode, and measures.
pub fn foresee_stage(work: &mut [u32], s: Stage, m: Merged) -> Result<Report, Refused>
    requires { ForetellFit s m work.old }
    ensures { (axes mode : ℕ) (job : List ℕ) (o : Outcome) (mid : List ℕ) → Read axes mode job o (Ok s) mid → Joined s m mid work.old → built result ≡ foretold_from axes mode o }
{
    if is_null(s) {
        return tell_size(foretell_none(s.axes));
    }
    let k = arrange(work, s, m);
    tell_size(foretell(work, k))
}

// Of a job whose records were read: the same, or the refusal.
fn foresee_read(
    work: &mut [u32],
    read: Result<Stage, Refused>,
    m: Merged,
) -> Result<Report, Refused>
    requires { IfOk read (λ s. ForetellFit s m work.old) }
    ensures { (axes mode : ℕ) (job : List ℕ) (o : Outcome) (mid : List ℕ) → Read axes mode job o read mid → JoinedOrRefused read m mid work.old → built result ≡ foretold_from axes mode o }
{
    let s = read?;
    foresee_stage(work, s, m)
}

// Answers for what `open` answered of a job, and clears work unless nothing was written there. Where that is a refusal, nothing was merged, and
// `m` is not looked at.
pub fn foresee(
    work: &mut [u32],
    opened: Result<Result<Stage, Refused>, Refused>,
    m: Merged,
) -> Result<Report, Refused>
    requires { ForeseeFit opened m work.old }
    ensures { (axes mode : ℕ) (job old : List ℕ) (pairs : ℕ) (mid : List ℕ) → OpenedBy Plain axes mode job old pairs mid opened → JoinedBy opened m mid work.old → Foreseen axes mode job old pairs (built result) work.new }
{
    let read = opened?;
    let answer = foresee_read(work, read, m);
    work.fill(0);
    answer
}
