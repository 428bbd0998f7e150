// Local time to UTC and back.
ghost use Rattle.std.specs.Prelude.{◌≡◌, ◌≤◌};
ghost use Rattle.reading.specs.Universal.{utc_minutes, on_day, utc_of, minute_after, within_day, local_minutes, shown_at, local_at};

use super::offsets::UNIT;
use super::{LocalMinusUtc, Reading, Utc};
use calendar::Date;
use calendar::neighbours::{day_after, day_before};

pub(super) const DAY: u16 = 1440;

#[tactic(auto, unfolding(crate::specs::Universal::utc_minutes))]
pub(crate) fn utc_minutes(hour: u8, minute: u8, offset: LocalMinusUtc) -> u16
    ensures { result ≡ utc_minutes hour minute offset.0 }
{
    let local = DAY + u16::from(hour) * 60 + u16::from(minute);
    let behind = UNIT * offset.west();
    let ahead = UNIT * offset.east();
    (local + behind).saturating_sub(ahead)
}

#[tactic(auto, unfolding(crate::specs::Universal::on_day))]
pub(crate) fn on_day(date: Date, minutes: u16) -> Utc
    ensures { result ≡ on_day date minutes }
{
    if minutes < DAY {
        Utc {
            date: day_before(date),
            minute: minutes,
        }
    } else if minutes < 2 * DAY {
        Utc {
            date,
            minute: minutes - DAY,
        }
    } else {
        Utc {
            date: day_after(date),
            minute: minutes - 2 * DAY,
        }
    }
}

#[tactic(auto, unfolding(crate::specs::Universal::utc_of))]
pub fn utc_of(r: Reading) -> Utc
    ensures { result ≡ utc_of r }
{
    on_day(r.date(), utc_minutes(r.hour, r.minute, r.offset))
}

#[tactic(auto, unfolding(crate::specs::Universal::minute_after))]
pub fn minute_after(utc: Utc) -> Utc
    ensures { result ≡ minute_after utc }
{
    if utc.minute < DAY - 1 {
        Utc {
            minute: utc.minute + 1,
            ..utc
        }
    } else {
        Utc {
            date: day_after(utc.date),
            minute: 0,
        }
    }
}

// A minute that no day has counts as its last.
#[tactic(auto, unfolding(crate::specs::Universal::within_day))]
fn within_day(minute: u16) -> u16
    ensures value { result ≡ within_day minute }
    ensures upper_bound { result ≤ 1439 }
{
    minute.min(DAY - 1)
}

// At most two days less a minute, and the largest offset that there is, 127 units.
#[tactic(auto, unfolding(crate::specs::Universal::local_minutes))]
fn local_minutes(minute: u16, offset: LocalMinusUtc) -> u16
    ensures value { result ≡ local_minutes minute offset.0 }
    ensures upper_bound { result ≤ 6689 }
{
    let utc = DAY + within_day(minute);
    let ahead = UNIT * offset.east();
    let behind = UNIT * offset.west();
    (utc + ahead).saturating_sub(behind)
}

// What a clock shows at a minute of its own day. The bound is that of `local_minutes`, under which an hour has room.
#[tactic(auto, unfolding(crate::specs::Universal::shown_at))]
fn shown_at(date: Date, minute: u16, offset: LocalMinusUtc) -> Reading
    requires { minute ≤ 6689 }
    ensures { result ≡ shown_at date minute offset.0 }
{
    Reading {
        year: date.year,
        month: date.month,
        day: date.day,
        hour: (minute / 60) as u8,
        minute: (minute % 60) as u8,
        second: 0,
        offset,
        summer: false,
        leap: false,
        change: false,
        quality: 0,
    }
}

// What a clock of this offset shows at the start of a minute of UTC: no flag is set, also not that of summer.
#[tactic(auto, unfolding(crate::specs::Universal::local_at), using(crate::proofs::UtcLaws::on_day_small))]
pub fn local_at(utc: Utc, offset: LocalMinusUtc) -> Reading
    ensures { result ≡ local_at utc offset.0 }
{
    let date = utc.date;
    let local = on_day(date, local_minutes(utc.minute, offset));
    let day = local.date;
    shown_at(day, local.minute, offset)
}
