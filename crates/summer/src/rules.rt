// Which rules are refused.
ghost use Rattle.std.specs.Prelude.{◌≡◌, ◌≤◌};
ghost use Rattle.calendar.specs.Calendar.{leap_year};
ghost use Rattle.summer.specs.Rules.{weekday_bad, date_bad, too_late, set_day_bad, day_in, crossed, rule_bad};

use super::{SetDay, SummerRule};
use calendar::days::{day_of_year, is_weekday};
use calendar::months::{is_day, is_month};

// Two years, a leap year and a common one, for all of their lengths.
const LEAP_YEAR: u16 = 2000;

const COMMON_YEAR: u16 = 2001;

#[tactic(auto, unfolding(calendar::specs::Calendar::is_weekday, crate::specs::Rules::weekday_bad))]
fn weekday_bad(weekday: u8) -> bool
    ensures { result ≡ weekday_bad weekday }
{
    !is_weekday(weekday)
}

// No common year has the date.
#[tactic(auto, unfolding(crate::specs::Rules::date_bad))]
fn date_bad(month: u8, day: u8) -> bool
    ensures { result ≡ date_bad month day }
{
    !(is_month(month) && is_day(false, month, day))
}

#[tactic(auto, unfolding(crate::specs::Rules::too_late))]
fn too_late(month: u8, day: u8) -> bool
    ensures { result ≡ too_late month day }
{
    month == 12 && 25 < day
}

#[tactic(auto, unfolding(crate::specs::Rules::set_day_bad))]
fn set_day_bad(set: SetDay) -> bool
    ensures { result ≡ set_day_bad set }
{
    weekday_bad(set.weekday) || date_bad(set.month, set.day) || too_late(set.month, set.day)
}

#[tactic(auto, using(calendar::proofs::DayOfYearLaws::of_year), unfolding(crate::specs::Rules::day_in))]
fn day_in(year: u16, set: SetDay) -> u16
    ensures value { result ≡ day_in (leap_year year) set }
    ensures upper_bound { result ≤ 621 }
{
    day_of_year(set.date_in(year))
}

// The latest start is not before the earliest end.
#[tactic(auto, unfolding(crate::specs::Rules::crossed))]
fn crossed(year: u16, rule: SummerRule) -> bool
    ensures { result ≡ crossed (leap_year year) rule }
{
    day_in(year, rule.end) <= day_in(year, rule.start) + 6
}

// What is left has both of its days in every year, the start before the end.
#[tactic(auto, unfolding(calendar::specs::Calendar::leap_year, crate::specs::Rules::rule_bad))]
pub fn rule_bad(rule: SummerRule) -> bool
    ensures { result ≡ rule_bad rule }
{
    let dates = set_day_bad(rule.start) || set_day_bad(rule.end);
    dates || crossed(LEAP_YEAR, rule) || crossed(COMMON_YEAR, rule)
}
