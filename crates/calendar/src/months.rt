// Leap years, the length of a month, and whether a month, a day and a date are in the calendar.
ghost use Rattle.std.specs.Prelude.{◌≡◌};
ghost use Rattle.calendar.specs.Calendar.{leap_year, days_in, is_month, last_day, is_day, is_date};

use super::Date;

// A number that 100 divides is one that 400 divides where 16 does.
#[tactic(auto, unfolding(crate::specs::Calendar::leap_year))]
pub fn is_leap(year: u16) -> bool
    ensures { result ≡ leap_year year }
{
    if year % 100 == 0 {
        year % 16 == 0
    } else {
        year % 4 == 0
    }
}

// Apart from February, 31 days and 30 take turns, but July and August have 31 both: from August on they are odd where they were even.
#[tactic(auto, using(crate::proofs::MonthLaws::month_days))]
pub fn days_in(leap: bool, month: u8) -> u8
    ensures { result ≡ days_in leap month }
{
    match month {
        0 | 13.. => 0,
        2 => if leap { 29 } else { 28 },
        _ => 30 + (month + month / 8) % 2,
    }
}

#[tactic(auto, unfolding(crate::specs::Calendar::is_month))]
pub fn is_month(month: u8) -> bool
    ensures { result ≡ is_month month }
{
    matches!(month, 1..=12)
}

#[tactic(auto, unfolding(crate::specs::Calendar::last_day))]
fn last_day(leap: bool, month: u8) -> u8
    ensures { result ≡ last_day leap month }
{
    if is_month(month) {
        days_in(leap, month)
    } else {
        31
    }
}

#[tactic(auto, unfolding(crate::specs::Calendar::is_day))]
pub fn is_day(leap: bool, month: u8, day: u8) -> bool
    ensures { result ≡ is_day leap month day }
{
    (1..=last_day(leap, month)).contains(&day)
}

#[tactic(auto, unfolding(crate::specs::Calendar::is_date))]
pub fn is_date(t: Date) -> bool
    ensures { result ≡ is_date t }
{
    // not `&&`: a branch between the two tests would cost an instruction on each good date
    is_month(t.month) & is_day(is_leap(t.year), t.month, t.day)
}
