// What was judged of a store, told in a report.
ghost use Rattle.std.specs.Prelude.{◌≡◌, []};
ghost use Rattle.judging.specs.Answers.{verdict_of, judged};
ghost use Rattle.reporting.specs.Answers.{filled};
ghost use Rattle.verdict_words.specs.VerdictWords.{verdict_report, judge_number, judged_words, judge_within};

use judging::Verdict;
use refusals::Refused;
use reporting::tell_refusal;

// A verdict: 1 yes, 2 no by a set, 3 no by the store itself; and the set.
#[tactic(auto, unfolding(crate::specs::VerdictWords::verdict_report))]
fn verdict_words(verdict: u64, set: usize) -> [u64; 16]
    ensures { result ≡ verdict_report verdict set }
{
    let set = set as u64;
    [0, 0, verdict, set, 0, 0, 0, 0, 0, 0, 0, 0, 0, 0, 0, 0]
}

#[tactic(auto, unfolding(crate::specs::VerdictWords::judged_words))]
fn words_of(verdict: Verdict) -> [u64; 16]
    ensures { result ≡ judged_words [] (verdict_of verdict) }
{
    match verdict {
        Verdict::Right => verdict_words(1, 0),
        Verdict::WrongSet(k) => verdict_words(2, k),
        Verdict::WrongStore => verdict_words(3, 0),
    }
}

// Fills the report; the refusal number, 0 where the store was judged, as C gets it.
pub fn tell_judged(report: &mut [u64; 16], job: &[u8], answer: Result<Verdict, Refused>) -> u32
    requires { judge_within job.now (judged answer) }
    ensures value { result ≡ judge_number (judged answer) }
    ensures report_after { report.new ≡ filled 0 (judged_words job.now (judged answer)) report.old }
{
    match answer {
        Ok(verdict) => {
            *report = words_of(verdict);
            0
        }
        Err(refused) => tell_refusal(report, job, refused),
    }
}
