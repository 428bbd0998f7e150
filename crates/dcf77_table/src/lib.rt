// The tables of the marks of a DCF77 minute, of its 60 and of its 61, and the row of marks that they drive. Each function names a table to
// what `pulses` does by any; a trait over these and the table of a frame would have as many lines.
#![tactic(auto)]

mod tags;

ghost use Rattle.std.specs.Prelude.{◌≡◌};
ghost use Rattle.pulses.specs.Row.{good_pulses, sums_of, scan_of, fits_in, laid};
ghost use Rattle.dcf77_table.specs.Tags.{tags};
ghost use Rattle.dcf77_table.specs.Table.{minute_marks};

use pulses::{Scan, UNIT, ZERO};
use tags::{LONG_TAGS, TAGS};

// The place of each group of data among the values.
pub mod groups {
    pub const HEAD: usize = 3;

    pub const CHANGE: usize = 4;

    pub const ZONE: usize = 5;

    pub const LEAP: usize = 6;

    pub const MINUTES: usize = 7;

    pub const TENS_OF_MINUTES: usize = 8;

    pub const MINUTE_PARITY: usize = 9;

    pub const HOURS: usize = 10;

    pub const TENS_OF_HOURS: usize = 11;

    pub const HOUR_PARITY: usize = 12;

    pub const DAYS: usize = 13;

    pub const TENS_OF_DAYS: usize = 14;

    pub const WEEKDAY: usize = 15;

    pub const MONTHS: usize = 16;

    pub const TENS_OF_MONTHS: usize = 17;

    pub const YEARS: usize = 18;

    pub const TENS_OF_YEARS: usize = 19;

    pub const DATE_PARITY: usize = 20;
}

// The table of a minute, or of a long one.
#[tactic(auto, unfolding(crate::specs::Table::shared_marks, crate::specs::Table::last_marks, crate::specs::Table::minute_marks))]
fn marks_of(long: bool) -> &'static [u32]
    ensures { result.now ≡ minute_marks long }
{
    if long { &LONG_MARKS } else { &MARKS }
}

// The tags of its marks.
fn tags_of(long: bool) -> &'static [u8]
    ensures { result.now ≡ tags long }
{
    if long { &LONG_TAGS } else { &TAGS }
}

// How many marks of a minute are good, up to the first that is not, and what each group of those says. Readers go by `good` and `sums`: this
// is kept for its contract and for `scanned_one`.
pub fn scanned(long: bool, minute: &[u8]) -> Scan
    ensures { result ≡ scan_of (minute_marks long) minute.now }
{
    pulses::scanned(marks_of(long), minute)
}

// How many marks of a minute are good, up to the first that is not.
#[tactic(auto, using(crate::proofs::TagLaws::marks_good))]
pub fn good(long: bool, minute: &[u8]) -> usize
    ensures { result ≡ good_pulses (minute_marks long) minute.now }
{
    pulses::tags::good(tags_of(long), minute)
}

// What each group of the marks adds up to: the upper part of the head is joined to it, as in `irig_table::sums` and written out as there.
pub fn sums(long: bool, minute: &[u8]) -> [u32; 32]
    ensures { result ≡ sums_of (minute_marks long) minute.now }
{
    let mut v = pulses::tags::sums(tags_of(long), minute);
    v[groups::HEAD] += 256 * v[UPPER];
    v[UPPER] = 0;
    v
}

// Stores the minute whose groups say the values from the start of `out`, where it fits.
pub fn lay(out: &mut [u8], long: bool, values: [u32; 32]) -> bool
    ensures value { result ≡ fits_in (minute_marks long) out.old }
    ensures out_after { out.new ≡ laid (minute_marks long) values out.old }
{
    let mut said = values;
    said[UPPER] = said[groups::HEAD] / 256;
    pulses::laying::lay(out, tags_of(long), said)
}

// The part that the marks of the head from 256 on have.
const UPPER: usize = 21;

// by `as`, since `from` is no constant
const MISSING: u32 = 2 * UNIT;

const ONE: u32 = UNIT;

const HEAD_UNIT: u32 = (groups::HEAD as u32) * UNIT;

const CHANGE_UNIT: u32 = (groups::CHANGE as u32) * UNIT;

const ZONE_UNIT: u32 = (groups::ZONE as u32) * UNIT;

const LEAP_UNIT: u32 = (groups::LEAP as u32) * UNIT;

const MINUTES_UNIT: u32 = (groups::MINUTES as u32) * UNIT;

const TENS_OF_MINUTES_UNIT: u32 = (groups::TENS_OF_MINUTES as u32) * UNIT;

const MINUTE_PARITY_UNIT: u32 = (groups::MINUTE_PARITY as u32) * UNIT;

const HOURS_UNIT: u32 = (groups::HOURS as u32) * UNIT;

const TENS_OF_HOURS_UNIT: u32 = (groups::TENS_OF_HOURS as u32) * UNIT;

const HOUR_PARITY_UNIT: u32 = (groups::HOUR_PARITY as u32) * UNIT;

const DAYS_UNIT: u32 = (groups::DAYS as u32) * UNIT;

const TENS_OF_DAYS_UNIT: u32 = (groups::TENS_OF_DAYS as u32) * UNIT;

const WEEKDAY_UNIT: u32 = (groups::WEEKDAY as u32) * UNIT;

const MONTHS_UNIT: u32 = (groups::MONTHS as u32) * UNIT;

const TENS_OF_MONTHS_UNIT: u32 = (groups::TENS_OF_MONTHS as u32) * UNIT;

const YEARS_UNIT: u32 = (groups::YEARS as u32) * UNIT;

const TENS_OF_YEARS_UNIT: u32 = (groups::TENS_OF_YEARS as u32) * UNIT;

const DATE_PARITY_UNIT: u32 = (groups::DATE_PARITY as u32) * UNIT;

// group and weight of each of the 60 marks
const MARKS: [u32; 60] = [
    // 0..15
    ZERO,
    HEAD_UNIT + 1,
    HEAD_UNIT + 2,
    HEAD_UNIT + 4,
    HEAD_UNIT + 8,
    HEAD_UNIT + 16,
    HEAD_UNIT + 32,
    HEAD_UNIT + 64,
    HEAD_UNIT + 128,
    HEAD_UNIT + 256,
    HEAD_UNIT + 512,
    HEAD_UNIT + 1024,
    HEAD_UNIT + 2048,
    HEAD_UNIT + 4096,
    HEAD_UNIT + 8192,
    HEAD_UNIT + 16384,
    // 16..20
    CHANGE_UNIT + 1,
    ZONE_UNIT + 1,
    ZONE_UNIT + 2,
    LEAP_UNIT + 1,
    ONE,
    // 21..28
    MINUTES_UNIT + 1,
    MINUTES_UNIT + 2,
    MINUTES_UNIT + 4,
    MINUTES_UNIT + 8,
    TENS_OF_MINUTES_UNIT + 1,
    TENS_OF_MINUTES_UNIT + 2,
    TENS_OF_MINUTES_UNIT + 4,
    MINUTE_PARITY_UNIT + 1,
    // 29..35
    HOURS_UNIT + 1,
    HOURS_UNIT + 2,
    HOURS_UNIT + 4,
    HOURS_UNIT + 8,
    TENS_OF_HOURS_UNIT + 1,
    TENS_OF_HOURS_UNIT + 2,
    HOUR_PARITY_UNIT + 1,
    // 36..41
    DAYS_UNIT + 1,
    DAYS_UNIT + 2,
    DAYS_UNIT + 4,
    DAYS_UNIT + 8,
    TENS_OF_DAYS_UNIT + 1,
    TENS_OF_DAYS_UNIT + 2,
    // 42..44
    WEEKDAY_UNIT + 1,
    WEEKDAY_UNIT + 2,
    WEEKDAY_UNIT + 4,
    // 45..49
    MONTHS_UNIT + 1,
    MONTHS_UNIT + 2,
    MONTHS_UNIT + 4,
    MONTHS_UNIT + 8,
    TENS_OF_MONTHS_UNIT + 1,
    // 50..58
    YEARS_UNIT + 1,
    YEARS_UNIT + 2,
    YEARS_UNIT + 4,
    YEARS_UNIT + 8,
    TENS_OF_YEARS_UNIT + 1,
    TENS_OF_YEARS_UNIT + 2,
    TENS_OF_YEARS_UNIT + 4,
    TENS_OF_YEARS_UNIT + 8,
    DATE_PARITY_UNIT + 1,
    // the last
    MISSING,
];

// group and weight of each of the 61 marks, written out, since no constant array is worked out from another
const LONG_MARKS: [u32; 61] = [
    // 0..15
    ZERO,
    HEAD_UNIT + 1,
    HEAD_UNIT + 2,
    HEAD_UNIT + 4,
    HEAD_UNIT + 8,
    HEAD_UNIT + 16,
    HEAD_UNIT + 32,
    HEAD_UNIT + 64,
    HEAD_UNIT + 128,
    HEAD_UNIT + 256,
    HEAD_UNIT + 512,
    HEAD_UNIT + 1024,
    HEAD_UNIT + 2048,
    HEAD_UNIT + 4096,
    HEAD_UNIT + 8192,
    HEAD_UNIT + 16384,
    // 16..20
    CHANGE_UNIT + 1,
    ZONE_UNIT + 1,
    ZONE_UNIT + 2,
    LEAP_UNIT + 1,
    ONE,
    // 21..28
    MINUTES_UNIT + 1,
    MINUTES_UNIT + 2,
    MINUTES_UNIT + 4,
    MINUTES_UNIT + 8,
    TENS_OF_MINUTES_UNIT + 1,
    TENS_OF_MINUTES_UNIT + 2,
    TENS_OF_MINUTES_UNIT + 4,
    MINUTE_PARITY_UNIT + 1,
    // 29..35
    HOURS_UNIT + 1,
    HOURS_UNIT + 2,
    HOURS_UNIT + 4,
    HOURS_UNIT + 8,
    TENS_OF_HOURS_UNIT + 1,
    TENS_OF_HOURS_UNIT + 2,
    HOUR_PARITY_UNIT + 1,
    // 36..41
    DAYS_UNIT + 1,
    DAYS_UNIT + 2,
    DAYS_UNIT + 4,
    DAYS_UNIT + 8,
    TENS_OF_DAYS_UNIT + 1,
    TENS_OF_DAYS_UNIT + 2,
    // 42..44
    WEEKDAY_UNIT + 1,
    WEEKDAY_UNIT + 2,
    WEEKDAY_UNIT + 4,
    // 45..49
    MONTHS_UNIT + 1,
    MONTHS_UNIT + 2,
    MONTHS_UNIT + 4,
    MONTHS_UNIT + 8,
    TENS_OF_MONTHS_UNIT + 1,
    // 50..58
    YEARS_UNIT + 1,
    YEARS_UNIT + 2,
    YEARS_UNIT + 4,
    YEARS_UNIT + 8,
    TENS_OF_YEARS_UNIT + 1,
    TENS_OF_YEARS_UNIT + 2,
    TENS_OF_YEARS_UNIT + 4,
    TENS_OF_YEARS_UNIT + 8,
    DATE_PARITY_UNIT + 1,
    // the last
    ZERO,
    MISSING,
];
