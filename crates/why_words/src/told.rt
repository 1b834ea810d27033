// Why two ids are where they are, told in a report.
ghost use Rattle.std.specs.Prelude.{◌≡◌, []};
ghost use Rattle.why_words.specs.Answers.{reason_of, why_of};
ghost use Rattle.reporting.specs.Answers.{filled};
ghost use Rattle.why_words.specs.WhyWords.{gain_as_word, reason_words, why_number, why_report, why_at};

use crate::explained::Explained;
use refusals::Refused;
use reporting::tell_refusal;

// What joining would gain, as two's complement of 64 bits; 0 of costs that no group has.
fn gain_word(a: u64, b: u64, joined: u64) -> u64
    ensures { result ≡ gain_as_word a b joined }
{
    if 0x4000_0000_0000_0000 <= a {
        return 0;
    }
    if 0x4000_0000_0000_0000 <= b {
        return 0;
    }
    if a + b < joined {
        return 18446744073709551615 - (joined - (a + b) - 1);
    }
    a + b - joined
}

#[tactic(auto, unfolding(crate::specs::WhyWords::reason_words))]
fn reason_words(reason: u64, a: u64, b: u64, joined: u64, gain: u64) -> [u64; 16]
    ensures { result ≡ reason_words reason a b joined gain }
{
    [0, 0, reason, a, b, joined, gain, 0, 0, 0, 0, 0, 0, 0, 0, 0]
}

#[tactic(auto, unfolding(crate::specs::WhyWords::why_report))]
fn words_of(reason: Explained) -> [u64; 16]
    ensures { result ≡ why_report [] (reason_of reason) }
{
    match reason {
        Explained::Same => reason_words(1, 0, 0, 0, 0),
        Explained::CutApart => reason_words(2, 0, 0, 0, 0),
        Explained::NeverJoined(a, b, joined) => {
            reason_words(3, a, b, joined, gain_word(a, b, joined))
        }
    }
}

// Fills the report; the refusal number, 0 where there is a reason, as C gets it.
pub fn tell_why(report: &mut [u64; 16], job: &[u8], answer: Result<Explained, Refused>) -> u32
    requires { why_at job.now (why_of answer) }
    ensures value { result ≡ why_number (why_of answer) }
    ensures report_after { report.new ≡ filled 0 (why_report job.now (why_of answer)) report.old }
{
    match answer {
        Ok(reason) => {
            *report = words_of(reason);
            0
        }
        Err(refused) => tell_refusal(report, job, refused),
    }
}
