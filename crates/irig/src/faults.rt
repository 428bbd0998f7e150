// What can be wrong with the values of a frame: one check for each step of the order of the codes, and within a step the
// lowest place first. A step works out only what it asks for.
ghost use Rattle.std.specs.Prelude.{◌≡◌, not, ◌&&◌, ◌||◌, eqb, length};
ghost use Rattle.calendar.specs.Calendar.{leap_year, in_year};
ghost use Rattle.reading.specs.Faults.{no_fault};
ghost use Rattle.reading.specs.Offset.{offset_good};
ghost use Rattle.irig_table.specs.Table.{minus, second_of_day};
ghost use Rattle.irig.specs.Meaning.{said, is_set, halves_in, second_of_day_at};
ghost use Rattle.irig.specs.Faults.{frame_length, parity_fault, is_odd};
ghost use Rattle.irig.specs.Steps.{digit_step, time_step, rest_step};

use super::fields::{Sums, second_of_day};
use calendar::days::in_year;
use calendar::months::is_leap;
use irig_table::groups;
use reading::checks::{hour_bad, leap_second_bad, minute_bad, second_bad};
use reading::{Fault, LocalMinusUtc, Reading};

// ---- the first pulse of each field

const SECOND_PLACE: usize = 1;

const MINUTE_PLACE: usize = 10;

const HOUR_PLACE: usize = 20;

const DAY_PLACE: usize = 30;

const YEAR_PLACE: usize = 50;

const DELETION_PLACE: usize = 61;

const SIGN_PLACE: usize = 64;

pub(crate) const PARITY_PLACE: usize = 75;

const SECOND_OF_DAY_PLACE: usize = 80;

// ---- the conditions

// The ones among the pulses 1 to 75, counted in two packed words.
#[tactic(auto, using(pulses::proofs::OnesLaws::ones_of_part), unfolding(crate::specs::Faults::is_odd))]
fn is_odd(s: &[u8]) -> bool
    requires { length s.now ≡ frame_length }
    ensures { result ≡ is_odd s.now }
{
    pulses::ones(s, 1, PARITY_PLACE) % 2 != 0
}

fn day_bad(year: u16, day: u16) -> bool
    ensures { result ≡ not (in_year (leap_year year) day) }
{
    !in_year(is_leap(year), day)
}

fn second_of_day_wrong(sums: &Sums, r: Reading) -> bool
    ensures { result ≡ not (eqb (said sums.now.of_group second_of_day) (second_of_day_at r.hour r.minute r.second)) }
{
    sums.of_group[groups::SECOND_OF_DAY] != second_of_day(r)
}

fn offset_bad(sums: &Sums, offset: LocalMinusUtc) -> bool
    ensures { result ≡ (is_set sums.now.of_group minus && eqb (halves_in sums.now.of_group) 0 || not (offset_good offset.0)) }
{
    sums.is_set(groups::MINUS) & (sums.half_hours() == 0) | !offset.is_good()
}

// ---- the checks, one code after the other

pub(crate) fn digit_fault(sums: &Sums) -> Result<(), Fault>
    ensures { result ≡ digit_step sums.now.of_group }
{
    if sums.over_nine(groups::SECONDS) {
        return Err(Fault::Digit(SECOND_PLACE));
    }
    if sums.over_nine(groups::MINUTES) {
        return Err(Fault::Digit(MINUTE_PLACE));
    }
    if sums.over_nine(groups::HOURS) {
        return Err(Fault::Digit(HOUR_PLACE));
    }
    if sums.over_nine(groups::DAYS) | sums.over_nine(groups::TENS_OF_DAYS) {
        return Err(Fault::Digit(DAY_PLACE));
    }
    if sums.over_nine(groups::YEARS) | sums.over_nine(groups::TENS_OF_YEARS) {
        return Err(Fault::Digit(YEAR_PLACE));
    }
    Ok(())
}

pub(crate) fn parity_fault(s: &[u8]) -> Result<(), Fault>
    requires { length s.now ≡ frame_length }
    ensures { result ≡ parity_fault (is_odd s.now) no_fault }
{
    if is_odd(s) {
        return Err(Fault::Parity(PARITY_PLACE));
    }
    Ok(())
}

pub(crate) fn time_fault(r: Reading) -> Result<(), Fault>
    ensures { result ≡ time_step r }
{
    if second_bad(r.second) {
        return Err(Fault::Time(SECOND_PLACE));
    }
    if minute_bad(r.minute) {
        return Err(Fault::Time(MINUTE_PLACE));
    }
    if hour_bad(r.hour) {
        return Err(Fault::Time(HOUR_PLACE));
    }
    Ok(())
}

// Of the reading that the sums say.
pub(crate) fn rest_fault(sums: &Sums, r: Reading) -> Result<(), Fault>
    ensures { result ≡ rest_step sums.now.of_group r }
{
    if day_bad(r.year, sums.day()) {
        return Err(Fault::Date(DAY_PLACE));
    }
    if second_of_day_wrong(sums, r) {
        return Err(Fault::SecondOfDay(SECOND_OF_DAY_PLACE));
    }
    if offset_bad(sums, r.offset) {
        return Err(Fault::Offset(SIGN_PLACE));
    }
    if leap_second_bad(r) {
        return Err(Fault::LeapSecond(SECOND_PLACE));
    }
    if sums.is_set(groups::DELETION) {
        return Err(Fault::Deletion(DELETION_PLACE));
    }
    Ok(())
}
