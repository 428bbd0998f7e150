// What is refused, in the order of the codes.
ghost use Rattle.std.specs.Prelude.{◌≡◌};
ghost use Rattle.telegram.specs.Faults.{time_bad, leap_date_bad, outside, fault_with};

use super::named::named_minute;
use super::{Sender, Sent};
use calendar::Date;
use dcf77::Dcf77;
use reading::Fault;
use reading::checks::{hour_bad, minute_bad, no_day};
use reading::leap::closes_with_leap;
use reading::years::{in_hundred, is_base};
use summer::rules::rule_bad;

#[tactic(auto, unfolding(crate::specs::Faults::time_bad))]
fn time_bad(sent: Sent) -> bool
    ensures { result ≡ time_bad sent }
{
    hour_bad(sent.hour) | minute_bad(sent.minute)
}

// No month of the hundred years ends with the date.
#[tactic(auto, unfolding(crate::specs::Faults::leap_date_bad))]
fn leap_date_bad(base: u16, leap: Option<Date>) -> bool
    ensures { result ≡ leap_date_bad base leap }
{
    leap.is_some_and(|date| no_day(base, date) | !closes_with_leap(date))
}

// The years of the named minute.
#[tactic(auto, unfolding(crate::specs::Faults::outside))]
fn outside(base: u16, utc: u16, local: u16) -> bool
    ensures { result ≡ outside base utc local }
{
    !(in_hundred(base, utc) & in_hundred(base, local))
}

// The local year is that of the reading of the named minute.
#[tactic(auto, unfolding(dcf77::specs::Writer::head_bad, crate::specs::Faults::fault_with))]
pub(super) fn send_fault(
    base: u16,
    sender: Sender,
    sent: Sent,
    head: u16,
    local: u16,
) -> Result<(), Fault>
    ensures { result ≡ fault_with base sender sent head local }
{
    if !is_base(base) {
        return Err(Fault::OtherBase);
    }
    if rule_bad(sender.rule) {
        return Err(Fault::SummerRule);
    }
    if time_bad(sent) {
        return Err(Fault::Time(0));
    }
    if no_day(base, sent.date) {
        return Err(Fault::Date(0));
    }
    if Dcf77::LAST_HEAD < head {
        return Err(Fault::QualityOrHead(0));
    }
    if leap_date_bad(base, sender.leap) {
        return Err(Fault::LeapSecond(0));
    }
    let named = named_minute(sent);
    if outside(base, named.date.year, local) {
        return Err(Fault::OutsideYears);
    }
    Ok(())
}
