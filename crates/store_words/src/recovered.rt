// A store read back into a job (#105), and what came of it told in a report.
ghost use Rattle.std.specs.Prelude.{◌≡◌};
ghost use Rattle.reporting.specs.Answers.{filled};
ghost use Rattle.recoverer.specs.Answers.{recovered};
ghost use Rattle.store_words.specs.StoreWords.{recover_number, recovered_words};
ghost use Rattle.store_words.specs.Told.{RecoverTold};

use crate::counts::count_words;
use recoverer::{RecoveredCounts, recover};
use refusals::Refusal;
use reporting::refused_words;

// Fills the report; the refusal number, 0 for done, as C gets it.
fn tell_recovered(report: &mut [u64; 16], answer: Result<RecoveredCounts, Refusal>) -> u32
    ensures value { result ≡ recover_number (recovered answer) }
    ensures report_after { report.new ≡ filled 0 (recovered_words (recovered answer)) report.old }
{
    match answer {
        Ok(c) => {
            *report = count_words(c.bytes, c.axes, c.regions, c.sets);
            0
        }
        Err(refusal) => {
            let no = u32::from(refusal);
            *report = refused_words(no, 0, 0);
            no
        }
    }
}

// The job of a store, whatever its bytes are: the refusal number, 0 for done; the report has all that C gets.
pub fn recover_told(store: &[u8], work: &mut [u32], out: &mut [u8], report: &mut [u64; 16]) -> u32
    ensures { RecoverTold store.now work.old out.old result work.new out.new report.old report.new }
{
    let answer = recover(store, work, out);
    tell_recovered(report, answer)
}
