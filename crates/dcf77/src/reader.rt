// The reader: what the marks of a minute say, checked in the order of the codes and, within one code, of the places.
ghost use Rattle.std.specs.Prelude.{◌≡◌, true, false, ◌+◌, ◌*◌, ◌<◌, ◌≤◌, length, get_or};
ghost use Rattle.reading.specs.Years.{is_base};
ghost use Rattle.pulses.specs.Row.{sums_of};
ghost use Rattle.dcf77_table.specs.Table.{minute_marks, head};
ghost use Rattle.dcf77_table.specs.Values.{Proper};
ghost use Rattle.dcf77.specs.Forms.{last_of};
ghost use Rattle.dcf77.specs.Zones.{zone_bad};
ghost use Rattle.dcf77.specs.Reader.{
  is_long,
  length_bad,
  reading_of,
  digit_fault,
  odd,
  parity_fault,
  field_fault,
  rule_fault,
  said_fault,
  read_dcf77,
};

use super::Dcf77;
use super::rules::{due_long, places};
use super::zones::{offset_in, zone_of};
use calendar::months::is_month;
use dcf77_table::groups;
use reading::checks::{day_bad, hour_bad, minute_bad, weekday_wrong};
use reading::years::{is_base, year_of};
use reading::{Fault, Reading, Refusal};

// What each group of a minute's marks says, which is no more than they can.
#[derive(Clone, Copy, Debug, PartialEq, Eq)]
struct Said {
    values: [u32; 32],
    ghost proper: { Proper values },
}

#[tactic(auto, unfolding(crate::specs::Reader::length_bad))]
fn length_bad(length: usize) -> bool
    ensures { result ≡ length_bad length }
{
    !((length == Dcf77::LENGTH) | (length == Dcf77::LONG_LENGTH))
}

fn two_digits(tens: u32, ones: u32) -> u8
    requires { (tens < 16) × (ones < 16) }
    ensures { result ≡ 10 * tens + ones }
{
    (10 * tens + ones) as u8
}

impl Said {
    #[tactic(auto, using(dcf77_table::proofs::ValueLaws::said_proper))]
    fn of(long: bool, s: &[u8]) -> Said
        ensures { result.values ≡ sums_of (minute_marks long) s.now }
    {
        Said {
            values: dcf77_table::sums(long, s),
        }
    }

    // The reading that the groups name.
    #[tactic(auto, using(dcf77_table::proofs::ValueLaws::digit_small), unfolding(crate::specs::Reader::reading_of))]
    fn reading(self, base: u16) -> Reading
        ensures { result ≡ reading_of base self.values }
    {
        let v = self.values;
        let summer = v[groups::ZONE] == zone_of(true);
        let year = two_digits(v[groups::TENS_OF_YEARS], v[groups::YEARS]);
        Reading {
            year: year_of(base, year),
            month: two_digits(v[groups::TENS_OF_MONTHS], v[groups::MONTHS]),
            day: two_digits(v[groups::TENS_OF_DAYS], v[groups::DAYS]),
            hour: two_digits(v[groups::TENS_OF_HOURS], v[groups::HOURS]),
            minute: two_digits(v[groups::TENS_OF_MINUTES], v[groups::MINUTES]),
            second: 0,
            offset: offset_in(summer),
            summer,
            leap: v[groups::LEAP] == 1,
            change: v[groups::CHANGE] == 1,
            quality: 0,
        }
    }

    #[tactic(auto, unfolding(dcf77_table::specs::Values::widths))]
    fn head(self) -> u16
        ensures { result ≡ get_or self.values head 0 }
    {
        self.values[groups::HEAD] as u16
    }

    #[tactic(auto, unfolding(crate::specs::Reader::digit_fault))]
    fn digit_fault(self) -> Result<(), Fault>
        ensures { result ≡ digit_fault self.values }
    {
        let v = self.values;
        if 9 < v[groups::MINUTES] {
            return Err(Fault::Digit(places::MINUTE));
        }
        if 9 < v[groups::HOURS] {
            return Err(Fault::Digit(places::HOUR));
        }
        if 9 < v[groups::DAYS] {
            return Err(Fault::Digit(places::DAY));
        }
        if 9 < v[groups::MONTHS] {
            return Err(Fault::Digit(places::MONTH));
        }
        if (9 < v[groups::YEARS]) | (9 < v[groups::TENS_OF_YEARS]) {
            return Err(Fault::Digit(places::YEAR));
        }
        Ok(())
    }
}

// Whether the ones of the marks between two places, both of them included, are odd in number.
#[tactic(auto, unfolding(crate::specs::Reader::odd))]
fn odd(s: &[u8], from: usize, to: usize) -> bool
    requires { (from ≤ to) × (to < 61) }
    ensures { result ≡ odd from to s.now }
{
    pulses::ones(s, from, to + 1 - from) % 2 == 1
}

#[tactic(auto, unfolding(crate::specs::Reader::parity_fault))]
fn parity_fault(s: &[u8]) -> Result<(), Fault>
    ensures { result ≡ parity_fault s.now }
{
    if odd(s, places::MINUTE, places::MINUTE_PARITY) {
        return Err(Fault::Parity(places::MINUTE_PARITY));
    }
    if odd(s, places::HOUR, places::HOUR_PARITY) {
        return Err(Fault::Parity(places::HOUR_PARITY));
    }
    if odd(s, places::DAY, places::DATE_PARITY) {
        return Err(Fault::Parity(places::DATE_PARITY));
    }
    Ok(())
}

#[tactic(auto, unfolding(crate::specs::Reader::field_fault, reading::specs::Checks::month_bad))]
fn field_fault(r: Reading, w: u32) -> Result<(), Fault>
    ensures { result ≡ field_fault r w }
{
    if minute_bad(r.minute) {
        return Err(Fault::Time(places::MINUTE));
    }
    if hour_bad(r.hour) {
        return Err(Fault::Time(places::HOUR));
    }
    if day_bad(r) {
        return Err(Fault::Date(places::DAY));
    }
    if w == 0 {
        return Err(Fault::Date(places::WEEKDAY));
    }
    if !is_month(r.month) {
        return Err(Fault::Date(places::MONTH));
    }
    Ok(())
}

#[tactic(auto, unfolding(crate::specs::Zones::zone_bad))]
fn zone_bad(z: u32) -> bool
    ensures { result ≡ zone_bad z }
{
    !((z == zone_of(true)) | (z == zone_of(false)))
}

#[tactic(auto, unfolding(crate::specs::Forms::last_of))]
fn last_of(long: bool) -> usize
    ensures { result ≡ last_of long }
{
    if long { Dcf77::LONG_LAST } else { Dcf77::LAST }
}

#[tactic(auto, unfolding(crate::specs::Reader::rule_fault))]
fn rule_fault(r: Reading, w: u32, z: u32, long: bool) -> Result<(), Fault>
    ensures { result ≡ rule_fault r w z long }
{
    if weekday_wrong(r, w) {
        return Err(Fault::Weekday(places::WEEKDAY));
    }
    if zone_bad(z) {
        return Err(Fault::Offset(places::ZONE));
    }
    if long != due_long(r) {
        return Err(Fault::LeapSecond(last_of(long)));
    }
    Ok(())
}

// What is wrong with marks that are good one by one.
#[tactic(auto, unfolding(crate::specs::Reader::is_long, crate::specs::Reader::said_fault))]
fn said_fault(s: &[u8], said: Said, r: Reading) -> Result<(), Fault>
    ensures { result ≡ said_fault s.now said.values r }
{
    said.digit_fault()?;
    parity_fault(s)?;
    let w = said.values[groups::WEEKDAY];
    field_fault(r, w)?;
    rule_fault(
        r,
        w,
        said.values[groups::ZONE],
        s.len() == Dcf77::LONG_LENGTH,
    )
}

// What is read of marks of a right length. The early refusals stand before it, and each form calls it for itself, so that they cost no more
// than their tests.
fn whole(base: u16, long: bool, s: &[u8]) -> Result<(Reading, u16), Refusal>
    requires s_value { (length_bad (length s.now) ≡ false) × (is_base base ≡ true) }
    requires long_value { long ≡ is_long (length s.now) }
    ensures { result ≡ read_dcf77 base s.now }
{
    let good = dcf77_table::good(long, s);
    if good < s.len() {
        return Err(Fault::Byte(good).into());
    }
    let said = Said::of(long, s);
    let r = said.reading(base);
    said_fault(s, said, r)?;
    Ok((r, said.head()))
}

impl Dcf77 {
    #[tactic(auto, unfolding(crate::specs::Reader::read_dcf77, crate::specs::Reader::read_fault, crate::specs::Reader::is_long))]
    pub fn read(base: u16, s: &[u8]) -> Result<(Reading, u16), Refusal>
        ensures { result ≡ read_dcf77 base s.now }
    {
        if length_bad(s.len()) {
            return Err(Fault::Length.into());
        }
        if !is_base(base) {
            return Err(Fault::OtherBase.into());
        }
        // seen first, as a minute that is out of step is refused by it
        if s[0] != 0 {
            return Err(Fault::Byte(0).into());
        }
        if s.len() == Dcf77::LONG_LENGTH {
            return whole(base, true, s);
        }
        whole(base, false, s)
    }
}
