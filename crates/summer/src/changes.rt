// The days of change of a year, and what is so at a minute of UTC.
ghost use Rattle.std.specs.Prelude.{◌≡◌, ◌≤◌};
ghost use Rattle.calendar.specs.Calendar.{weekday_of};
ghost use Rattle.summer.specs.Changes.{days_until, change_day, changed, is_summer, hour_before, announces_change};

use super::{SetDay, SummerRule};
use calendar::Date;
use calendar::days::{day_of_year, weekday};

const WEEK: u16 = 7;

// The minutes of a day, and those of 01:00 UTC.
const DAY: u32 = 1440;

const CHANGE_MINUTE: u16 = 60;

// How many days after a date the weekday comes.
#[tactic(auto, using(calendar::proofs::WeekdayLaws::weekday_range), unfolding(crate::specs::Changes::days_until))]
fn days_until(date: Date, named: u8) -> u16
    ensures value { result ≡ days_until (weekday_of date) named }
    ensures upper_bound { result ≤ 6 }
{
    let from = u16::from(weekday(date));
    (u16::from(named) + WEEK - from) % WEEK
}

// The day of a year that a set day stands for, counted in the year; no month and day give more than 621.
fn change_day(set: SetDay, year: u16) -> u16
    ensures value { result ≡ change_day set year }
    ensures upper_bound { result ≤ 627 }
{
    let date = set.date_in(year);
    day_of_year(date) + days_until(date, set.weekday)
}

// Whether the change of the date's year has come.
#[tactic(auto, unfolding(crate::specs::Changes::changed))]
fn changed(set: SetDay, date: Date, minute: u16) -> bool
    ensures { result ≡ changed set date minute }
{
    let at = u32::from(change_day(set, date.year)) * DAY + u32::from(CHANGE_MINUTE);
    let now = u32::from(day_of_year(date)) * DAY + u32::from(minute);
    at <= now
}

// A minute of UTC is compared with the changes of its own year, in which both lie.
#[tactic(auto, unfolding(crate::specs::Changes::is_summer))]
pub fn is_summer(rule: SummerRule, date: Date, minute: u16) -> bool
    ensures { result ≡ is_summer rule date minute }
{
    changed(rule.start, date, minute) && !changed(rule.end, date, minute)
}

// The change comes at 01:00, so that the hour before it is the first of its day.
#[tactic(auto, unfolding(crate::specs::Changes::hour_before))]
fn hour_before(set: SetDay, date: Date, minute: u16) -> bool
    ensures { result ≡ hour_before set date minute }
{
    // for most minutes of a day no day of change need be worked out
    minute < CHANGE_MINUTE && day_of_year(date) == change_day(set, date.year)
}

// Of the minute that is being sent, not of the one that it names.
#[tactic(auto, unfolding(crate::specs::Changes::announces_change))]
pub fn announces_change(rule: SummerRule, date: Date, minute: u16) -> bool
    ensures { result ≡ announces_change rule date minute }
{
    hour_before(rule.start, date, minute) || hour_before(rule.end, date, minute)
}
