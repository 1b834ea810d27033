// The records of a job that the profile does not take.
ghost use Rattle.std.specs.Prelude.{◌≡◌, ℕ, ◌+◌, ◌≤◌, length};
ghost use Rattle.refusals.specs.Refusals.{number_in};
ghost use Rattle.said.specs.Records.{record_start, record_at};
ghost use Rattle.panel.specs.Taken.{has_short_value, has_sound_axis, panel_refusal};
ghost use Rattle.panel.specs.Panelled.{odd_in, first_of, odd_of};

use crate::Profile;
use crate::coordinates::{coordinate_word, sound_axis};
use records::{Kind, end_at, is_kind, peak_at, start_at, word_at};
use refusals::{Refusal, Refused, ensure};

// The value of record i is one of 16 bits.
fn is_short(job: &[u8], i: usize) -> bool
    requires { record_start (i + 1) ≤ length job.now }
    ensures { result ≡ has_short_value (record_at job.now i) }
{
    let w = word_at(job, i);
    if w < 0x7FFF_8000 {
        return false;
    }
    if 0x8000_7FFF < w {
        return false;
    }
    true
}

// The axis of record i is sound.
fn is_sound(job: &[u8], i: usize) -> bool
    requires { record_start (i + 1) ≤ length job.now }
    ensures { result ≡ has_sound_axis (record_at job.now i) }
{
    let start = coordinate_word(start_at(job, i));
    let peak = coordinate_word(peak_at(job, i));
    let end = coordinate_word(end_at(job, i));
    sound_axis(start, peak, end)
}

// Refusals 70 and 71, of record i.
#[tactic(auto, unfolding(crate::specs::Taken::panel_refusal, said::specs::Refusals::first_failed))]
fn check_taken(job: &[u8], i: usize) -> Result<(), Refusal>
    requires { record_start (i + 1) ≤ length job.now }
    ensures { number_in result ≡ panel_refusal (record_at job.now i) }
{
    ensure(
        !is_kind(job, i, Kind::Value) || is_short(job, i),
        Refusal::LongValue,
    )?;
    ensure(
        !is_kind(job, i, Kind::Axis) || is_sound(job, i),
        Refusal::BadRegion,
    )
}

// Looks for the first of so many records that the panel's reader does not take.
fn check_all(job: &[u8], limit: usize) -> Result<(), Refused>
    requires { record_start limit ≤ length job.now }
    ensures { odd_in result ≡ first_of job.now limit 0 }
{
    for i in 0..limit {
        if let Err(refusal) = check_taken(job, i) {
            return Err(Refused { refusal, place: i });
        }
    }
    Ok(())
}

// Looks for the first of so many records that the profile does not take.
#[tactic(auto, unfolding(crate::specs::Panelled::odd_of))]
pub fn check_records(profile: Profile, job: &[u8], limit: usize) -> Result<(), Refused>
    requires { record_start limit ≤ length job.now }
    ensures { odd_in result ≡ odd_of profile job.now limit }
{
    match profile {
        Profile::Plain => Ok(()),
        Profile::Panel => check_all(job, limit),
    }
}
