// The minute that a telegram names, and its reading.
ghost use Rattle.std.specs.Prelude.{◌≡◌};
ghost use Rattle.telegram.specs.Telegram.{utc_sent, named_minute, announces_leap, telegram_reading};

use super::{Sender, Sent};
use calendar::Date;
use dcf77::zones::offset_in;
use reading::universal::{local_at, minute_after};
use reading::{Reading, Utc};
use summer::changes::{announces_change, is_summer};

// 23:00.
const LAST_HOUR: u16 = 1380;

#[tactic(auto, unfolding(crate::specs::Telegram::utc_sent))]
fn utc_sent(sent: Sent) -> Utc
    ensures { result ≡ utc_sent sent }
{
    let date = sent.date;
    Utc {
        date,
        minute: u16::from(sent.hour) * 60 + u16::from(sent.minute),
    }
}

#[tactic(auto, unfolding(crate::specs::Telegram::named_minute))]
pub(super) fn named_minute(sent: Sent) -> Utc
    ensures { result ≡ named_minute sent }
{
    minute_after(utc_sent(sent))
}

// A leap second closes its day, so that the hour before it is the last.
#[tactic(auto, unfolding(crate::specs::Telegram::same_date, crate::specs::Telegram::announces_leap))]
fn announces_leap(leap: Option<Date>, utc: Utc) -> bool
    ensures { result ≡ announces_leap leap utc }
{
    leap.is_some_and(|date| (date == utc.date) & (LAST_HOUR <= utc.minute))
}

#[tactic(auto, unfolding(crate::specs::Telegram::utc_sent, crate::specs::Telegram::named_summer, crate::specs::Telegram::telegram_reading))]
pub(super) fn telegram_reading(sender: Sender, sent: Sent) -> Reading
    ensures { result ≡ telegram_reading sender sent }
{
    let utc = utc_sent(sent);
    let named = named_minute(sent);
    let summer = is_summer(sender.rule, named.date, named.minute);
    let local = local_at(named, offset_in(summer));
    Reading {
        second: 0,
        summer,
        leap: announces_leap(sender.leap, utc),
        change: announces_change(sender.rule, utc.date, utc.minute),
        quality: 0,
        ..local
    }
}
