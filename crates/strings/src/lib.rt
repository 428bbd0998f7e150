// What the clock strings share: the checks of a date and a time of day that were read off a string, in the order of their
// codes and, within one code, of their places.
#![tactic(auto)]

pub mod letters;
pub mod reader;

ghost use Rattle.std.specs.Prelude.{◌≡◌, ◌||◌};
ghost use Rattle.reading.specs.Faults.{no_fault};
ghost use Rattle.reading.specs.Universal.{utc_of};
ghost use Rattle.reading.specs.Leap.{sixty_bad};
ghost use Rattle.reading.specs.Checks.{hour_bad, minute_bad, second_bad, day_bad, month_bad, weekday_wrong};
ghost use Rattle.strings.specs.Checks.{weekday_bad, time_fault, date_fault, rest_fault, fault_of};

use calendar::days::is_weekday;
use calendar::months::is_month;
use reading::checks::{day_bad, hour_bad, leap_second_bad, minute_bad, second_bad, weekday_wrong};
use reading::{Fault, Reading};

// Where a format has each field.
#[derive(Clone, Copy, Debug, PartialEq, Eq)]
pub struct Places {
    pub day: usize,
    pub month: usize,
    pub weekday: usize,
    pub hour: usize,
    pub minute: usize,
    pub second: usize,
    pub offset: usize,
}

#[tactic(auto, unfolding(reading::specs::Checks::month_bad))]
fn month_bad(r: Reading) -> bool
    ensures { result ≡ month_bad r }
{
    !is_month(r.month)
}

#[tactic(auto, unfolding(calendar::specs::Calendar::is_weekday, crate::specs::Checks::weekday_bad))]
fn weekday_bad(weekday: u8) -> bool
    ensures { result ≡ weekday_bad weekday }
{
    !is_weekday(weekday)
}

fn time_fault(r: Reading, p: Places) -> Result<(), Fault>
    ensures { result ≡ time_fault (hour_bad r.hour) (minute_bad r.minute) (second_bad r.second) p no_fault }
{
    if hour_bad(r.hour) {
        return Err(Fault::Time(p.hour));
    }
    if minute_bad(r.minute) {
        return Err(Fault::Time(p.minute));
    }
    if second_bad(r.second) {
        return Err(Fault::Time(p.second));
    }
    Ok(())
}

fn date_fault(r: Reading, said: u8, p: Places) -> Result<(), Fault>
    ensures { result ≡ date_fault (day_bad r) (month_bad r) (weekday_bad said) p no_fault }
{
    if day_bad(r) {
        return Err(Fault::Date(p.day));
    }
    if month_bad(r) {
        return Err(Fault::Date(p.month));
    }
    if weekday_bad(said) {
        return Err(Fault::Date(p.weekday));
    }
    Ok(())
}

fn rest_fault(r: Reading, said: u8, offset: bool, mark: bool, p: Places) -> Result<(), Fault>
    ensures { result ≡ rest_fault (weekday_wrong r said) offset (sixty_bad (utc_of r) r.second || mark) p }
{
    if weekday_wrong(r, u32::from(said)) {
        return Err(Fault::Weekday(p.weekday));
    }
    if offset {
        return Err(Fault::Offset(p.offset));
    }
    if leap_second_bad(r) | mark {
        return Err(Fault::LeapSecond(p.second));
    }
    Ok(())
}

// The first fault of a reading and of what the string says beside it: its weekday; whether its offset is none; whether
// its mark of a leap second stands against the second.
#[tactic(auto, using(crate::proofs::CheckLaws::in_steps))]
pub fn fault_of(r: Reading, said: u8, offset: bool, mark: bool, p: Places) -> Result<(), Fault>
    ensures { result ≡ fault_of r said offset mark p }
{
    time_fault(r, p)?;
    date_fault(r, said, p)?;
    rest_fault(r, said, offset, mark, p)
}
