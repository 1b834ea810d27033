// The form of one record, by the bytes from its first one on: the byte that must be 0 and is not, and refusals 30 to 34.
ghost use Rattle.std.specs.Prelude.{◌≡◌, true, ◌++◌, ℕ, ◌%◌, ◌<◌, ◌≤◌, length, eqb};
ghost use Rattle.refusals.specs.Refusals.{number_in};
ghost use Rattle.said.specs.Records.{record_bytes, first_not_zero, first_wrong_byte};
ghost use Rattle.said.specs.Refusals.{in_turn, form_refusal};
ghost use Rattle.records.specs.Lent.{between, axis_zeros, value_zeros, end_zeros, part_refusal};

use crate::kinds::Kind;
use crate::region_of;
use limits::Limits;
use refusals::{Refusal, ensure};

// The first byte from `from` up to `to` that is not 0; 0 where all are.
fn not_zero(rec: &[u8], from: usize, to: usize) -> usize
    requires { to ≤ length rec.now }
    ensures { result ≡ first_not_zero rec.now (between from to) }
{
    for b in from..to {
        if rec[b] != 0 {
            return b;
        }
    }
    0
}

// The same of two parts.
fn not_zero_in(rec: &[u8], from: usize, to: usize, then: usize, end: usize) -> usize
    requires { (0 < from) × (to ≤ length rec.now) × (end ≤ length rec.now) }
    ensures { result ≡ first_not_zero rec.now (between from to ++ between then end) }
{
    let b = not_zero(rec, from, to);
    if b != 0 {
        return b;
    }
    not_zero(rec, then, end)
}

// The first byte that must be 0 and is not; 0 where all are.
#[tactic(auto, unfolding(said::specs::Records::first_wrong_byte, said::specs::Records::must_be_zero, said::specs::Records::first_not_zero, laws::specs::Bounded::tabulate))]
pub fn wrong_byte(rec: &[u8]) -> usize
    requires { record_bytes ≤ length rec.now }
    ensures { result ≡ first_wrong_byte rec.now }
{
    match Kind::try_from(rec[0]) {
        Ok(Kind::Value) => not_zero_in(rec, 2, 3, 8, 12),
        Ok(Kind::End) => not_zero(rec, 1, 12),
        Ok(Kind::Axis) => not_zero(rec, 10, 12),
        Err(_) => 0,
    }
}

// Whether the bytes that must be 0 are: told at once by their sum, without a walk along them.
#[tactic(auto, unfolding(said::specs::Records::first_not_zero))]
fn axis_clean(rec: &[u8]) -> bool
    requires { record_bytes ≤ length rec.now }
    ensures { result ≡ eqb (first_not_zero rec.now axis_zeros) 0 }
{
    rec[10] as u32 + rec[11] as u32 == 0
}

#[tactic(auto, unfolding(said::specs::Records::first_not_zero))]
fn value_clean(rec: &[u8]) -> bool
    requires { record_bytes ≤ length rec.now }
    ensures { result ≡ eqb (first_not_zero rec.now value_zeros) 0 }
{
    rec[2] as u32 + rec[8] as u32 + rec[9] as u32 + rec[10] as u32 + rec[11] as u32 == 0
}

#[tactic(auto, unfolding(said::specs::Records::first_not_zero))]
fn end_clean(rec: &[u8]) -> bool
    requires { record_bytes ≤ length rec.now }
    ensures { result ≡ eqb (first_not_zero rec.now end_zeros) 0 }
{
    let front = rec[1] as u32 + rec[2] as u32 + rec[3] as u32 + rec[4] as u32 + rec[5] as u32;
    let back = rec[6] as u32 + rec[7] as u32 + rec[8] as u32 + rec[9] as u32 + rec[10] as u32;
    front + back + rec[11] as u32 == 0
}

// An axis record is the next one after so many.
#[tactic(auto, unfolding(said::specs::Refusals::in_turn))]
fn in_turn(rec: &[u8], axes: usize, before: usize) -> bool
    requires { (0 < axes) × (record_bytes ≤ length rec.now) }
    ensures { result ≡ in_turn axes before rec.now }
{
    let region = region_of(rec);
    region < Limits::REGIONS && region == before / axes && rec[2] as usize == before % axes
}

// Refusal 34. A value or an end stands only behind whole regions, so that one that is late need not divide.
#[tactic(auto, unfolding(said::specs::Refusals::first_failed))]
fn whole_regions(axes: usize, before: usize, late: bool) -> Result<(), Refusal>
    requires { (0 < axes) × (late ≡ true → before % axes ≡ 0) }
    ensures { number_in result ≡ part_refusal axes before }
{
    ensure(late || before % axes == 0, Refusal::RegionUnfinished)
}

// Refusals 30 to 34, by the kind: nearly all records of a job are values.
#[tactic(auto, unfolding(said::specs::Refusals::form_refusal, said::specs::Refusals::first_failed, said::specs::Records::first_wrong_byte, said::specs::Records::must_be_zero))]
pub fn check_form(rec: &[u8], axes: usize, before: usize, late: bool) -> Result<(), Refusal>
    requires { (0 < axes) × (record_bytes ≤ length rec.now) × (late ≡ true → before % axes ≡ 0) }
    ensures { number_in result ≡ form_refusal axes before late rec.now }
{
    match Kind::try_from(rec[0])? {
        Kind::Value => {
            ensure(value_clean(rec), Refusal::NotZero)?;
            whole_regions(axes, before, late)
        }
        Kind::End => {
            ensure(end_clean(rec), Refusal::NotZero)?;
            whole_regions(axes, before, late)
        }
        Kind::Axis => {
            ensure(axis_clean(rec), Refusal::NotZero)?;
            ensure(in_turn(rec, axes, before), Refusal::AxisOutOfTurn)?;
            ensure(!late, Refusal::AxisTooLate)
        }
    }
}
