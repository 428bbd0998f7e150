// The number of a day, within its year and back from there to month and day, its number over all years, and its weekday.
ghost use Rattle.std.specs.Prelude.{◌≡◌, true, cond, ◌≤◌, ◌<◌, ◌*◌, ◌^◌, Some, None};
ghost use Rattle.calendar.specs.Calendar.{
  year_length,
  days_before,
  days_before_year,
  day_of_year,
  day_number,
  weekday_of,
  is_weekday,
  month_up_to,
  in_year,
  month_day,
};

use super::months::is_leap;
use super::{Date, MonthDay};

#[tactic(auto, unfolding(crate::specs::Calendar::year_length))]
pub fn year_length(leap: bool) -> u16
    ensures { result ≡ year_length leap }
{
    if leap { 366 } else { 365 }
}

// From March on the months' lengths repeat so evenly that a formula counts them; past December it is the whole year.
#[tactic(auto, using(crate::proofs::MonthLaws::before_month))]
fn days_before(leap: bool, month: u8) -> u16
    ensures value { result ≡ days_before leap month }
    ensures upper_bound { result ≤ 366 }
{
    // tests one after the other, since a `match` costs an instruction more on every day that is counted
    if month < 2 {
        0
    } else if month == 2 {
        31
    } else if 12 < month {
        year_length(leap)
    } else {
        (153 * u16::from(month) - 162) / 5 + u16::from(leap)
    }
}

// A leap day every fourth year, but for the hundreds that are no four hundreds.
#[tactic(auto, using(crate::proofs::YearLaws::years_formula))]
fn days_before_year(year: u16) -> u32
    ensures value { result ≡ days_before_year year }
    ensures upper_bound { result ≤ 366 * year }
{
    let y = u32::from(year);
    365 * y + (y + 3) / 4 + (y + 399) / 400 - (y + 99) / 100
}

#[tactic(auto, unfolding(crate::specs::Calendar::day_of_year))]
pub fn day_of_year(t: Date) -> u16
    ensures value { result ≡ day_of_year t }
    ensures upper_bound { result ≤ 621 }
{
    days_before(is_leap(t.year), t.month) + u16::from(t.day)
}

#[tactic(auto, unfolding(crate::specs::Calendar::in_year))]
pub fn in_year(leap: bool, day: u16) -> bool
    ensures { result ≡ in_year leap day }
{
    (1..=year_length(leap)).contains(&day)
}

// Counted from its end every year is alike back to 1 March: a day with `left` days after it is taken as day 365 - left of
// a common year, and its month is the last with (153 * month - 162) / 5 below that. For February this counts 28 days, not
// 31, so that 1 February of a leap year, taken as day 31, comes out right too; no day of January is asked for.
#[tactic(auto, using(crate::proofs::DayOfYearLaws::within, crate::proofs::MonthLaws::year_least))]
fn month_of(leap: bool, day: u16) -> u8
    requires day_value { in_year leap day ≡ true }
    requires lt_day { 31 < day }
    ensures { result ≡ month_up_to leap 12 day }
{
    let left = year_length(leap) - day;
    ((1986 - 5 * left) / 153) as u8
}

// Day `day` of a year, 1 for 1 January; none where the year lacks it.
#[tactic(auto, using(crate::proofs::DayOfYearLaws::day_in_months))]
pub fn checked_month_day(leap: bool, day: u16) -> Option<MonthDay>
    ensures { result ≡ cond (in_year leap day) (Some (month_day leap day)) None }
{
    if !in_year(leap, day) {
        return None;
    }
    if day < 32 {
        return Some(MonthDay {
            month: 1,
            day: day as u8,
        });
    }
    let month = month_of(leap, day);
    Some(MonthDay {
        month,
        day: (day - days_before(leap, month)) as u8,
    })
}

// The same for any number: a day that the year lacks is month 0, day 0, which is no date. It answers no Option, since the definition
// `month_day`, by which a frame's reading is defined, gives any number a month and a day.
#[tactic(auto, using(crate::proofs::DayOfYearLaws::no_such_day_lem))]
pub fn month_day(leap: bool, day: u16) -> MonthDay
    ensures { result ≡ month_day leap day }
{
    checked_month_day(leap, day).unwrap_or(MonthDay { month: 0, day: 0 })
}

#[tactic(auto, unfolding(crate::specs::Calendar::day_number))]
pub fn day_number(t: Date) -> u32
    ensures value { result ≡ day_number t }
    ensures upper_bound { result < 2 ^ 25 }
{
    days_before_year(t.year) + u32::from(day_of_year(t))
}

#[tactic(auto, unfolding(crate::specs::Calendar::weekday_of))]
pub fn weekday(t: Date) -> u8
    ensures { result ≡ weekday_of t }
{
    ((day_number(t) + 4) % 7 + 1) as u8
}

#[tactic(auto, unfolding(crate::specs::Calendar::is_weekday))]
pub fn is_weekday(weekday: u8) -> bool
    ensures { result ≡ is_weekday weekday }
{
    matches!(weekday, 1..=7)
}
