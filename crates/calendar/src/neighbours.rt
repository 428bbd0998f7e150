// The day after a date and the day before it.
ghost use Rattle.std.specs.Prelude.{◌≡◌};
ghost use Rattle.calendar.specs.Calendar.{day_after, day_before};

use super::Date;
use super::months::{days_in, is_leap};

#[tactic(auto, unfolding(crate::specs::Calendar::day_after, crate::specs::Calendar::year_after))]
pub fn day_after(t: Date) -> Date
    ensures { result ≡ day_after t }
{
    if t.day < days_in(is_leap(t.year), t.month) {
        Date {
            day: t.day + 1,
            ..t
        }
    } else if t.month < 12 {
        Date {
            month: t.month + 1,
            day: 1,
            ..t
        }
    } else {
        Date {
            year: t.year.saturating_add(1),
            month: 1,
            day: 1,
        }
    }
}

#[tactic(auto, unfolding(crate::specs::Calendar::day_before))]
pub fn day_before(t: Date) -> Date
    ensures { result ≡ day_before t }
{
    if 1 < t.day {
        Date {
            day: t.day - 1,
            ..t
        }
    } else if 1 < t.month {
        let month = t.month - 1;
        Date {
            month,
            day: days_in(is_leap(t.year), month),
            ..t
        }
    } else {
        Date {
            year: t.year.saturating_sub(1),
            month: 12,
            day: 31,
        }
    }
}
