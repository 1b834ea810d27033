// Where two sets part, told in a report.
ghost use Rattle.std.specs.Prelude.{◌≡◌, []};
ghost use Rattle.parting.specs.Answers.{standing_of, parted};
ghost use Rattle.reporting.specs.Answers.{filled};
ghost use Rattle.part_words.specs.PartWords.{value_of_64_bits, standing_words, part_number, part_report, part_within};

use parting::Standing;
use refusals::Refused;
use reporting::tell_refusal;

// The value of a word of work, as two's complement of 64 bits.
fn long_value(w: u32) -> u64
    ensures { result ≡ value_of_64_bits w }
{
    if w < 0x8000_0000 {
        return (w as u64) + 0xFFFF_FFFF_8000_0000;
    }
    (w as u64) - 0x8000_0000
}

// Two sets that were compared: 0 equal, 1 smaller, 2 larger; and where they part.
#[tactic(auto, unfolding(crate::specs::PartWords::standing_words))]
fn standing_words(standing: u64, index: u32, region: usize, left: u64, right: u64) -> [u64; 16]
    ensures { result ≡ standing_words standing index region left right }
{
    let (index, region) = (index as u64, region as u64);
    [
        0, 0, standing, index, region, left, right, 0, 0, 0, 0, 0, 0, 0, 0, 0,
    ]
}

// By how the first stands to the second.
#[tactic(auto, unfolding(crate::specs::PartWords::part_report))]
fn words_of(standing: Standing) -> [u64; 16]
    ensures { result ≡ part_report [] (standing_of standing) }
{
    match standing {
        Standing::Equal => standing_words(0, 0, 0, 0, 0),
        Standing::Smaller(r, p, v, u) => standing_words(1, r, p, long_value(v), long_value(u)),
        Standing::Larger(r, p, v, u) => standing_words(2, r, p, long_value(v), long_value(u)),
    }
}

// Fills the report; the refusal number, 0 where the sets were compared, as C gets it.
pub fn tell_parted(report: &mut [u64; 16], job: &[u8], answer: Result<Standing, Refused>) -> u32
    requires { part_within job.now (parted answer) }
    ensures value { result ≡ part_number (parted answer) }
    ensures report_after { report.new ≡ filled 0 (part_report job.now (parted answer)) report.old }
{
    match answer {
        Ok(standing) => {
            *report = words_of(standing);
            0
        }
        Err(refused) => tell_refusal(report, job, refused),
    }
}
