// The checks of a base and a reading: those that every writer and stamping share, in the order of their codes, and two of the readers'.
ghost use Rattle.std.specs.Prelude.{◌≡◌, not};
ghost use Rattle.reading.specs.Universal.{on_day, utc_of};
ghost use Rattle.reading.specs.Leap.{leap_minute, sixty_bad};
ghost use Rattle.reading.specs.Checks.{hour_bad, minute_bad, second_bad, time_bad, no_day, date_bad, quality_bad, first_fault, sound_of, checked_of, day_bad, weekday_wrong};

use super::leap::{ends_day, leap_minute};
use super::universal::{on_day, utc_minutes};
use super::years::{in_hundred, is_base};
use super::{Fault, Reading};
use calendar::Date;
use calendar::days::weekday;
use calendar::months::{is_date, is_day, is_leap};

pub fn hour_bad(hour: u8) -> bool
    ensures { result ≡ hour_bad hour }
{
    23 < hour
}

pub fn minute_bad(minute: u8) -> bool
    ensures { result ≡ minute_bad minute }
{
    59 < minute
}

pub fn second_bad(second: u8) -> bool
    ensures { result ≡ second_bad second }
{
    60 < second
}

#[tactic(auto, unfolding(crate::specs::Checks::time_bad))]
pub fn time_bad(r: Reading) -> bool
    ensures { result ≡ time_bad r }
{
    hour_bad(r.hour) | (minute_bad(r.minute) | second_bad(r.second))
}

// No day of the hundred years of the base.
pub fn no_day(base: u16, date: Date) -> bool
    ensures { result ≡ no_day base date }
{
    !(in_hundred(base, date.year) & is_date(date))
}

#[tactic(auto, unfolding(crate::specs::Checks::date_bad))]
pub fn date_bad(base: u16, r: Reading) -> bool
    ensures { result ≡ date_bad base r }
{
    no_day(base, r.date())
}

pub fn quality_bad(quality: u8) -> bool
    ensures { result ≡ quality_bad quality }
{
    15 < quality
}

// Of a second 60 at so many minutes from the start of the day before a date. That date's neighbours are looked for only where the minute
// is the last of a day.
#[tactic(auto, using(crate::proofs::LeapLaws::no_leap))]
fn sixty_bad(date: Date, minutes: u16) -> bool
    ensures { result ≡ not (leap_minute (on_day date minutes)) }
{
    !ends_day(minutes) || !leap_minute(on_day(date, minutes))
}

// UTC is worked out only where the second is 60.
#[tactic(auto, unfolding(crate::specs::Leap::sixty_bad, crate::specs::Universal::utc_of))]
pub fn leap_second_bad(r: Reading) -> bool
    ensures { result ≡ sixty_bad (utc_of r) r.second }
{
    r.second == 60 && sixty_bad(r.date(), utc_minutes(r.hour, r.minute, r.offset))
}

pub fn first_fault(
    time: bool,
    date: bool,
    quality: bool,
    offset: bool,
    sixty: bool,
) -> Result<(), Fault>
    ensures { result ≡ first_fault time date quality offset sixty }
{
    if time {
        return Err(Fault::Time(0));
    }
    if date {
        return Err(Fault::Date(0));
    }
    if quality {
        return Err(Fault::QualityOrHead(0));
    }
    if offset {
        return Err(Fault::Offset(0));
    }
    if sixty {
        return Err(Fault::LeapSecond(0));
    }
    Ok(())
}

// A reading alone, for a writer that has asked for the base before.
#[tactic(auto, unfolding(crate::specs::Checks::sound_of))]
pub fn sound(base: u16, r: Reading) -> Result<(), Fault>
    ensures { result ≡ sound_of base r }
{
    let offset = r.offset;
    first_fault(
        time_bad(r),
        date_bad(base, r),
        quality_bad(r.quality),
        !offset.is_good(),
        leap_second_bad(r),
    )
}

#[tactic(auto, unfolding(crate::specs::Checks::checked_of))]
pub fn checked(base: u16, r: Reading) -> Result<(), Fault>
    ensures { result ≡ checked_of base r }
{
    if !is_base(base) {
        return Err(Fault::OtherBase);
    }
    sound(base, r)
}

// The month has no such day.
#[tactic(auto, unfolding(crate::specs::Checks::day_bad))]
pub fn day_bad(r: Reading) -> bool
    ensures { result ≡ day_bad r }
{
    !is_day(is_leap(r.year), r.month, r.day)
}

// The weekday that is said is not that of the date.
#[tactic(auto, unfolding(crate::specs::Checks::weekday_wrong))]
pub fn weekday_wrong(r: Reading, said: u32) -> bool
    ensures { result ≡ weekday_wrong r said }
{
    said != u32::from(weekday(r.date()))
}
