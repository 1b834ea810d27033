// A store with only the rows in use (#112), and what came of it told in a report.
ghost use Rattle.std.specs.Prelude.{◌≡◌};
ghost use Rattle.reporting.specs.Answers.{filled};
ghost use Rattle.keeping.specs.Answers.{kept};
ghost use Rattle.store_words.specs.StoreWords.{kept_number, kept_words};
ghost use Rattle.store_words.specs.Told.{KeepTold};

use crate::counts::count_words;
use keeping::{KeptCounts, keep};
use refusals::Refusal;
use reporting::refused_words;

// Fills the report; the refusal number, 0 for done, as C gets it.
fn tell_kept(report: &mut [u64; 16], answer: Result<KeptCounts, Refusal>) -> u32
    ensures value { result ≡ kept_number (kept answer) }
    ensures report_after { report.new ≡ filled 0 (kept_words (kept answer)) report.old }
{
    match answer {
        Ok(c) => {
            *report = count_words(c.bytes, c.tables, c.regions, c.rows);
            0
        }
        Err(refusal) => {
            let no = u32::from(refusal);
            *report = refused_words(no, 0, 0);
            no
        }
    }
}

// The store with only the rows of a list, and each entry's new place: the refusal number, 0 for done; the report has all that C gets.
pub fn keep_told(
    store: &[u8],
    rows: &[u32],
    work: &mut [u32],
    out: &mut [u8],
    places: &mut [u32],
    report: &mut [u64; 16],
) -> u32
    ensures { KeepTold store.now rows.now work.old out.old places.old result work.new out.new places.new report.old report.new }
{
    let answer = keep(store, rows, work, out, places);
    tell_kept(report, answer)
}
