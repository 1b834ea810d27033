// The report: sixteen numbers, whatever the answer.
ghost use Rattle.std.specs.Prelude.{◌≡◌};
ghost use Rattle.refusals.specs.Refusals.{number};
ghost use Rattle.finishing.specs.Answers.{built};
ghost use Rattle.reporting.specs.Answers.{number_of, report_words, refused_words, done_words, filled, byte_within, AtRecord, words_of};

use finishing::Report;
use records::refused_byte;
use refusals::Refused;

// A refusal of any number: it and the place, the byte within the record, and zeros.
#[tactic(auto, unfolding(crate::specs::Answers::refused_words))]
fn numbered_words(no: usize, at: usize, byte: usize) -> [u64; 16]
    ensures { result ≡ refused_words no at byte }
{
    let (no, at, byte) = (no as u64, at as u64, byte as u64);
    [no, at, 0, 0, 0, 0, 0, 0, 0, 0, 0, 0, byte, 0, 0, 0]
}

// A refusal: its number and place, the byte within the record, and zeros.
pub fn refused_words(no: u32, at: usize, byte: usize) -> [u64; 16]
    ensures { result ≡ refused_words no at byte }
{
    numbered_words(no as usize, at, byte)
}

// Fills the report with a refusal, by its number.
pub fn tell_refused(report: &mut [u64; 16], no: usize, at: usize, byte: usize)
    ensures { report.new ≡ filled 0 (refused_words no at byte) report.old }
{
    *report = numbered_words(no, at, byte);
}

// Done: what was built, in numbers.
#[tactic(auto, unfolding(crate::specs::Answers::done_words))]
fn done_words(d: Report) -> [u64; 16]
    ensures { result ≡ done_words d }
{
    [
        0,
        0,
        d.bytes as u64,
        d.subtables as u64,
        d.regions as u64,
        d.ids as u64,
        d.groups as u64,
        d.merges as u64,
        d.weighed as u64,
        d.before,
        d.after,
        d.forecast,
        0,
        0,
        0,
        0,
    ]
}

// Fills the report with a refusal, and the byte that it names; its number.
pub fn tell_refusal(report: &mut [u64; 16], job: &[u8], refused: Refused) -> u32
    requires { AtRecord job.now refused }
    ensures value { result ≡ number refused.refusal }
    ensures report_after { report.new ≡ words_of job.now refused }
{
    let no = u32::from(refused.refusal);
    let byte = refused_byte(job, refused.refusal, refused.place);
    *report = refused_words(no, refused.place, byte);
    no
}

// Fills the report; the refusal number, 0 for done, as C gets it.
pub fn tell(report: &mut [u64; 16], job: &[u8], answer: Result<Report, Refused>) -> u32
    requires { byte_within job.now (built answer) }
    ensures value { result ≡ number_of (built answer) }
    ensures report_after { report.new ≡ filled 0 (report_words job.now (built answer)) report.old }
{
    match answer {
        Ok(done) => {
            *report = done_words(done);
            0
        }
        Err(refused) => tell_refusal(report, job, refused),
    }
}
