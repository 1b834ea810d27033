// The last part of a look, once merging is over: what is left of the groups arranged, and looked at.
ghost use Rattle.std.specs.Prelude.{◌≡◌, List, ℕ, Ok, IfOk};
ghost use Rattle.said.specs.Job.{Outcome};
ghost use Rattle.panel.specs.declared.Profile.TheVariants.{Plain};
ghost use Rattle.opening.specs.LentOpened.{Read, OpenedBy};
ghost use Rattle.arranging.specs.LentArranged.{Joined, JoinedOrRefused, JoinedBy};
ghost use Rattle.looking.specs.Look.{why_from};
ghost use Rattle.looking.specs.LentLook.{LookFit, CloseLookFit, Looked};

use arranging::arrange;
use merging::Merged;
use opening::Stage;
use reasons::{Reason, reason_of};
use refusals::Refused;

// Arranges the groups of a job that was opened in mode 0, and looks where both ids are.
pub fn look_stage(work: &mut [u32], s: Stage, m: Merged, first: u32, second: u32) -> Reason
    requires { LookFit s m work.old }
    ensures { (axes : ℕ) (job : List ℕ) (o : Outcome) (mid : List ℕ) → Read axes 0 job o (Ok s) mid → Joined s m mid work.old → result ≡ why_from o first second }
{
    let k = arrange(work, s, m);
    let e = k.encoded;
    if e.distinct <= first as usize {
        return Reason::None;
    }
    if e.distinct <= second as usize {
        return Reason::None;
    }
    reason_of(work, k.places, e, first, second)
}

// Of a job whose records were read: the same, or no reason where it was refused.
fn look_read(
    work: &mut [u32],
    read: Result<Stage, Refused>,
    m: Merged,
    first: u32,
    second: u32,
) -> Reason
    requires { IfOk read (λ s. LookFit s m work.old) }
    ensures { (axes : ℕ) (job : List ℕ) (o : Outcome) (mid : List ℕ) → Read axes 0 job o read mid → JoinedOrRefused read m mid work.old → result ≡ why_from o first second }
{
    let Ok(s) = read else {
        return Reason::None;
    };
    look_stage(work, s, m, first, second)
}

// Answers for what `open` answered of a job in mode 0, and clears work unless nothing was written there. Where that is a refusal, nothing was
// merged, and `m` is not looked at.
pub fn look_close(
    work: &mut [u32],
    opened: Result<Result<Stage, Refused>, Refused>,
    m: Merged,
    first: u32,
    second: u32,
) -> Reason
    requires { CloseLookFit opened m work.old }
    ensures { (axes : ℕ) (job old : List ℕ) (pairs : ℕ) (mid : List ℕ) → OpenedBy Plain axes 0 job old pairs mid opened → JoinedBy opened m mid work.old → Looked axes job old pairs first second result work.new }
{
    let Ok(read) = opened else {
        return Reason::None;
    };
    let reason = look_read(work, read, m, first, second);
    work.fill(0);
    reason
}
