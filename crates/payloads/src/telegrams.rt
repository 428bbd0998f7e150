// What a telegram is made of: a rule of summer time, the minute that is being sent, and a leap second; the rule and the leap second
// together are a sender.
ghost use Rattle.std.specs.Prelude.{◌≡◌, ◌≤◌};
ghost use Rattle.payloads.specs.Payload.{set_day_at, date_at, rule_in, sent_in, leap_in, sender_in};

use super::{flag_at, pair_at};
use calendar::Date;
use summer::{SetDay, SummerRule};
use telegram::{Sender, Sent};
use wire::layout::byte_at;

#[tactic(auto, unfolding(crate::specs::Payload::set_day_at))]
fn set_day_at(payload: &[u8], at: usize) -> SetDay
    requires { at ≤ 3 }
    ensures { result ≡ set_day_at payload.now at }
{
    SetDay {
        month: byte_at(payload, at),
        day: byte_at(payload, at + 1),
        weekday: byte_at(payload, at + 2),
    }
}

#[tactic(auto, unfolding(crate::specs::Payload::date_at))]
fn date_at(payload: &[u8], at: usize) -> Date
    requires { at ≤ 13 }
    ensures { result ≡ date_at payload.now at }
{
    Date {
        year: pair_at(payload, at),
        month: byte_at(payload, at + 2),
        day: byte_at(payload, at + 3),
    }
}

// The begin of summer time, and its end.
#[tactic(auto, unfolding(crate::specs::Payload::rule_in))]
pub fn rule_in(payload: &[u8]) -> SummerRule
    ensures { result ≡ rule_in payload.now }
{
    SummerRule {
        start: set_day_at(payload, 0),
        end: set_day_at(payload, 3),
    }
}

// The minute of UTC that is being sent.
#[tactic(auto, unfolding(crate::specs::Payload::sent_in))]
pub fn sent_in(payload: &[u8]) -> Sent
    ensures { result ≡ sent_in payload.now }
{
    Sent {
        date: date_at(payload, 6),
        hour: byte_at(payload, 10),
        minute: byte_at(payload, 11),
    }
}

// The day that a leap second closes, where one is configured.
#[tactic(auto, unfolding(crate::specs::Payload::leap_in))]
pub fn leap_in(payload: &[u8]) -> Option<Date>
    ensures { result ≡ leap_in payload.now }
{
    flag_at(payload, 12).then(|| date_at(payload, 13))
}

// What a plant configures: the rule of summer time and the leap second.
#[tactic(auto, unfolding(crate::specs::Payload::sender_in))]
pub fn sender_in(payload: &[u8]) -> Sender
    ensures { result ≡ sender_in payload.now }
{
    Sender {
        rule: rule_in(payload),
        leap: leap_in(payload),
    }
}
