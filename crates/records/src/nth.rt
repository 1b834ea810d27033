// Record i of a job: its kind, its form, its region and its value.
ghost use Rattle.std.specs.Prelude.{◌≡◌, true, ℕ, ◌+◌, ◌*◌, ◌%◌, ◌<◌, ◌≤◌, length, eqb};
ghost use Rattle.refusals.specs.Refusals.{number, number_in};
ghost use Rattle.said.specs.Records.{record_start, record_at, kind, region_number, start_of, peak_of, end_of, value_as_word};
ghost use Rattle.said.specs.Refusals.{not_zero, form_refusal, byte_of};
ghost use Rattle.records.specs.Kinds.{code_of};

use crate::forms::{check_form, wrong_byte};
use crate::kinds::Kind;
use crate::{region_of, two_bytes, value_word};
use refusals::Refusal;

// The bytes of a record.
pub const BYTES: usize = 12;

// The byte that says of which kind record i is, whichever it is.
pub fn kind_at(job: &[u8], i: usize) -> u8
    requires { record_start (i + 1) ≤ length job.now }
    ensures { result ≡ kind (record_at job.now i) }
{
    job[BYTES * i]
}

// Record i is of that kind.
pub fn is_kind(job: &[u8], i: usize, wanted: Kind) -> bool
    requires { record_start (i + 1) ≤ length job.now }
    ensures { result ≡ eqb (kind (record_at job.now i)) (code_of wanted) }
{
    kind_at(job, i) == wanted as u8
}

// Refusals 30 to 34, of a record behind so many axis records; `late` where a value or an end stands before it.
pub fn check_record(
    job: &[u8],
    axes: usize,
    i: usize,
    before: usize,
    late: bool,
) -> Result<(), Refusal>
    requires { (0 < axes) × (record_start (i + 1) ≤ length job.now) × (late ≡ true → before % axes ≡ 0) }
    ensures { number_in result ≡ form_refusal axes before late (record_at job.now i) }
{
    check_form(&job[BYTES * i..], axes, before, late)
}

// The byte that refusal `no` names within record `at`; 0 of any other number.
#[tactic(auto, unfolding(said::specs::Refusals::byte_of))]
pub fn byte_at(job: &[u8], no: usize, at: usize) -> usize
    requires { no ≡ not_zero → record_start (at + 1) ≤ length job.now }
    ensures { result ≡ byte_of no (record_at job.now at) }
{
    if no != Refusal::NotZero as usize {
        return 0;
    }
    wrong_byte(&job[BYTES * at..])
}

// The same of a refusal as the code has it.
pub fn refused_byte(job: &[u8], refusal: Refusal, at: usize) -> usize
    requires { number refusal ≡ not_zero → record_start (at + 1) ≤ length job.now }
    ensures { result ≡ byte_of (number refusal) (record_at job.now at) }
{
    byte_at(job, u32::from(refusal) as usize, at)
}

// The region that a value record names.
pub fn region_at(job: &[u8], i: usize) -> usize
    requires { record_start (i + 1) ≤ length job.now }
    ensures { result ≡ region_number (record_at job.now i) }
{
    region_of(&job[BYTES * i..])
}

// The word of a value record's value.
pub fn word_at(job: &[u8], i: usize) -> u32
    requires { record_start (i + 1) ≤ length job.now }
    ensures { result ≡ value_as_word (record_at job.now i) }
{
    value_word(&job[BYTES * i..])
}

// Start, peak and end of an axis record, each by the number that its 16 bits are.
pub fn start_at(job: &[u8], i: usize) -> u32
    requires { record_start (i + 1) ≤ length job.now }
    ensures value { result ≡ start_of (record_at job.now i) }
    ensures upper_bound { result < 65536 }
{
    two_bytes(&job[BYTES * i..], 4)
}

pub fn peak_at(job: &[u8], i: usize) -> u32
    requires { record_start (i + 1) ≤ length job.now }
    ensures value { result ≡ peak_of (record_at job.now i) }
    ensures upper_bound { result < 65536 }
{
    two_bytes(&job[BYTES * i..], 6)
}

pub fn end_at(job: &[u8], i: usize) -> u32
    requires { record_start (i + 1) ≤ length job.now }
    ensures value { result ≡ end_of (record_at job.now i) }
    ensures upper_bound { result < 65536 }
{
    two_bytes(&job[BYTES * i..], 8)
}
