// The part that shows an id, told in a report.
ghost use Rattle.std.specs.Prelude.{◌≡◌};
ghost use Rattle.reporting.specs.Answers.{filled};
ghost use Rattle.showing.specs.Answers.{shown_of};
ghost use Rattle.showing.specs.LentParts.{Within};
ghost use Rattle.why_words.specs.ShownWords.{span_words, shown_number, shown_words, shown_at};

use refusals::Refused;
use reporting::tell_refusal;
use showing::{Part, shown};

// Where a part starts, and how long it is.
#[tactic(auto, unfolding(crate::specs::ShownWords::span_words))]
fn span_words(at: usize, long: usize) -> [u64; 16]
    ensures { result ≡ span_words at long }
{
    let (at, long) = (at as u64, long as u64);
    [0, 0, at, long, 0, 0, 0, 0, 0, 0, 0, 0, 0, 0, 0, 0]
}

// Fills the report; the refusal number, 0 where a part was found, as C gets it. The part's own length is told.
pub fn tell_shown<'a>(
    report: &mut [u64; 16],
    job: &'a [u8],
    store: &'a [u8],
    answer: Result<Part, Refused>,
) -> u32
    requires { shown_at job.now (shown_of answer) × Within job.now store.now (shown_of answer) }
    ensures value { result ≡ shown_number (shown_of answer) }
    ensures report_after { report.new ≡ filled 0 (shown_words job.now (shown_of answer)) report.old }
{
    let long = shown(job, store, answer).len();
    match answer {
        Ok(part) => {
            *report = match part {
                Part::InJob(at, _) => span_words(at, long),
                Part::InStore(at, _) => span_words(at, long),
            };
            0
        }
        Err(refused) => tell_refusal(report, job, refused),
    }
}
