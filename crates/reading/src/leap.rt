// The leap rule, and the windows before a leap second and before a change.
ghost use Rattle.std.specs.Prelude.{◌≡◌};
ghost use Rattle.calendar.specs.Calendar.{leap_year, days_in};
ghost use Rattle.reading.specs.Leap.{closes_with_leap, leap_minute, ends_day, within_minute, leap_window, change_window, after_leap};

use super::Utc;
use super::universal::DAY;
use calendar::Date;
use calendar::months::{days_in, is_leap};

// 23:59.
const LAST_MINUTE: u16 = 1439;

// The last day of a date's month.
fn month_end(date: Date) -> u8
    ensures { result ≡ days_in (leap_year date.year) date.month }
{
    days_in(is_leap(date.year), date.month)
}

#[tactic(auto, unfolding(crate::specs::Leap::closes_with_leap))]
pub fn closes_with_leap(date: Date) -> bool
    ensures { result ≡ closes_with_leap date }
{
    date.day == month_end(date)
}

#[tactic(auto, unfolding(crate::specs::Leap::leap_minute))]
pub(crate) fn leap_minute(utc: Utc) -> bool
    ensures { result ≡ leap_minute utc }
{
    utc.minute == LAST_MINUTE && closes_with_leap(utc.date)
}

// So many minutes from the start of a day come to a 23:59.
#[tactic(auto, unfolding(crate::specs::Leap::ends_day))]
pub(crate) fn ends_day(minutes: u16) -> bool
    ensures { result ≡ ends_day minutes }
{
    minutes % DAY == LAST_MINUTE
}

#[tactic(auto, unfolding(crate::specs::Leap::within_minute))]
fn within_minute(second: u8) -> bool
    ensures { result ≡ within_minute second }
{
    (1..=59).contains(&second)
}

#[tactic(auto, unfolding(crate::specs::Leap::leap_window))]
pub fn leap_window(utc: Utc, second: u8) -> bool
    ensures { result ≡ leap_window utc second }
{
    leap_minute(utc) & within_minute(second)
}

#[tactic(auto, unfolding(crate::specs::Leap::change_window))]
pub fn change_window(minute: u8, second: u8) -> bool
    ensures { result ≡ change_window minute second }
{
    (minute == 59) & within_minute(second)
}

// Before a first is the last day of a month; a later day has its month's last before it only where it is none of the calendar.
#[tactic(auto, unfolding(crate::specs::Leap::after_leap), using(crate::proofs::LeapLaws::closed_before_first, crate::proofs::LeapLaws::closed_before_later))]
pub fn after_leap(utc: Utc) -> bool
    ensures { result ≡ after_leap utc }
{
    let date = utc.date;
    utc.minute == 0 && (date.day <= 1 || date.day - 1 == month_end(date))
}
