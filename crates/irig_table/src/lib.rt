// The table of pulses of an IEEE 1344 frame, and the row of pulses that it drives. Each function names the table to what `pulses` does by
// any; a trait over this table and the two of a DCF77 minute would have as many lines.
#![tactic(auto)]

pub mod groups;
mod tags;

ghost use Rattle.std.specs.Prelude.{◌≡◌, ◌<◌, ◌≤◌, get_or};
ghost use Rattle.pulses.specs.Outline.{outline_of};
ghost use Rattle.pulses.specs.Row.{good_pulses, sums_of, scan_of, fits_in, laid};
ghost use Rattle.irig_table.specs.Table.{frame_pulses};
ghost use Rattle.irig_table.specs.Paper.{pulse_at};

use groups::group_at;
use pulses::{Scan, UNIT, ZERO};
use tags::TAGS;

// What a pulse stands for: one of the paper's fields, by its number in specs/Paper.antt, where 0 is a pulse without one, and how much it
// weighs in it.
#[derive(Clone, Copy, Debug, PartialEq, Eq)]
pub struct Pulse {
    pub field: u8,
    pub weight: u32,
}

// How many pulses of a frame are good, up to the first that is not, and what each group of those says. Readers go by `good` and `sums`: this
// is kept for its contract and for `scanned_one`.
#[tactic(auto, unfolding(crate::specs::Table::frame_pulses))]
pub fn scanned(frame: &[u8]) -> Scan
    ensures { result ≡ scan_of frame_pulses frame.now }
{
    pulses::scanned(&PULSES, frame)
}

// How many pulses of a frame are good, up to the first that is not.
#[tactic(auto, using(crate::proofs::TagLaws::column_good))]
pub fn good(frame: &[u8]) -> usize
    ensures { result ≡ good_pulses frame_pulses frame.now }
{
    pulses::tags::good(&TAGS, frame)
}

// What each group of the pulses adds up to: the parts of the second of the day are joined to it. The joins stand written out: a function for
// this table and the other's would have to say what it does at places and sums that neither has.
pub fn sums(frame: &[u8]) -> [u32; 32]
    ensures { result ≡ sums_of frame_pulses frame.now }
{
    let mut v = pulses::tags::sums(&TAGS, frame);
    v[groups::SECOND_OF_DAY] += 256 * v[UPPER];
    v[UPPER] = 0;
    v[groups::SECOND_OF_DAY] += 65536 * v[TOP];
    v[TOP] = 0;
    v
}

// Whether a frame has its outline: marks exactly where due, and 0 or 1 elsewhere.
#[tactic(auto, unfolding(crate::specs::Table::frame_pulses))]
pub fn outlined(frame: &[u8]) -> bool
    ensures { result ≡ outline_of frame_pulses frame.now }
{
    pulses::outline::outlined(&PULSES, frame)
}

// Stores the frame whose groups say the values from the start of `out`, where it fits.
pub fn lay(out: &mut [u8], values: [u32; 32]) -> bool
    ensures value { result ≡ fits_in frame_pulses out.old }
    ensures out_after { out.new ≡ laid frame_pulses values out.old }
{
    let mut said = values;
    said[UPPER] = said[groups::SECOND_OF_DAY] / 256;
    said[TOP] = said[groups::SECOND_OF_DAY] / 65536;
    pulses::laying::lay(out, &TAGS, said)
}

// Field and weight of the pulse at a place, as the paper's table has them; beyond the frame, a pulse that is always 0.
#[tactic(auto, unfolding(crate::specs::Paper::pulse_at))]
pub fn pulse_at(place: usize) -> Pulse
    ensures { result ≡ pulse_at place }
{
    let entry = entry_at(place);
    let group = group_at(pulses::group_of(entry));
    Pulse {
        field: group.field,
        weight: group.factor * pulses::weight_of(entry),
    }
}

fn entry_at(place: usize) -> u32
    ensures { result ≡ get_or frame_pulses place 0 }
{
    PULSES.get(place).copied().unwrap_or(ZERO)
}

// The parts that the pulses of the second of the day from 256 on and from 65536 on have.
const UPPER: usize = 24;

const TOP: usize = 25;

// by `as`, since `from` is no constant
const MARK: u32 = 2 * UNIT;

const SECONDS: u32 = (groups::SECONDS as u32) * UNIT;

const TENS_OF_SECONDS: u32 = (groups::TENS_OF_SECONDS as u32) * UNIT;

const MINUTES: u32 = (groups::MINUTES as u32) * UNIT;

const TENS_OF_MINUTES: u32 = (groups::TENS_OF_MINUTES as u32) * UNIT;

const HOURS: u32 = (groups::HOURS as u32) * UNIT;

const TENS_OF_HOURS: u32 = (groups::TENS_OF_HOURS as u32) * UNIT;

const DAYS: u32 = (groups::DAYS as u32) * UNIT;

const TENS_OF_DAYS: u32 = (groups::TENS_OF_DAYS as u32) * UNIT;

const HUNDREDS_OF_DAYS: u32 = (groups::HUNDREDS_OF_DAYS as u32) * UNIT;

const YEARS: u32 = (groups::YEARS as u32) * UNIT;

const TENS_OF_YEARS: u32 = (groups::TENS_OF_YEARS as u32) * UNIT;

const LEAP_PENDING: u32 = (groups::LEAP_PENDING as u32) * UNIT;

const DELETION: u32 = (groups::DELETION as u32) * UNIT;

const CHANGE_PENDING: u32 = (groups::CHANGE_PENDING as u32) * UNIT;

const SUMMER: u32 = (groups::SUMMER as u32) * UNIT;

const MINUS: u32 = (groups::MINUS as u32) * UNIT;

const OFFSET_HOURS: u32 = (groups::OFFSET_HOURS as u32) * UNIT;

const HALF_HOUR: u32 = (groups::HALF_HOUR as u32) * UNIT;

const QUALITY: u32 = (groups::QUALITY as u32) * UNIT;

const PARITY: u32 = (groups::PARITY as u32) * UNIT;

const SECOND_OF_DAY: u32 = (groups::SECOND_OF_DAY as u32) * UNIT;

// group and weight of each of the hundred pulses
const PULSES: [u32; 100] = [
    // 0..9
    MARK,
    SECONDS + 1,
    SECONDS + 2,
    SECONDS + 4,
    SECONDS + 8,
    ZERO,
    TENS_OF_SECONDS + 1,
    TENS_OF_SECONDS + 2,
    TENS_OF_SECONDS + 4,
    MARK,
    // 10..19
    MINUTES + 1,
    MINUTES + 2,
    MINUTES + 4,
    MINUTES + 8,
    ZERO,
    TENS_OF_MINUTES + 1,
    TENS_OF_MINUTES + 2,
    TENS_OF_MINUTES + 4,
    ZERO,
    MARK,
    // 20..29
    HOURS + 1,
    HOURS + 2,
    HOURS + 4,
    HOURS + 8,
    ZERO,
    TENS_OF_HOURS + 1,
    TENS_OF_HOURS + 2,
    ZERO,
    ZERO,
    MARK,
    // 30..39
    DAYS + 1,
    DAYS + 2,
    DAYS + 4,
    DAYS + 8,
    ZERO,
    TENS_OF_DAYS + 1,
    TENS_OF_DAYS + 2,
    TENS_OF_DAYS + 4,
    TENS_OF_DAYS + 8,
    MARK,
    // 40..49
    HUNDREDS_OF_DAYS + 1,
    HUNDREDS_OF_DAYS + 2,
    ZERO,
    ZERO,
    ZERO,
    ZERO,
    ZERO,
    ZERO,
    ZERO,
    MARK,
    // 50..59
    YEARS + 1,
    YEARS + 2,
    YEARS + 4,
    YEARS + 8,
    ZERO,
    TENS_OF_YEARS + 1,
    TENS_OF_YEARS + 2,
    TENS_OF_YEARS + 4,
    TENS_OF_YEARS + 8,
    MARK,
    // 60..69
    LEAP_PENDING + 1,
    DELETION + 1,
    CHANGE_PENDING + 1,
    SUMMER + 1,
    MINUS + 1,
    OFFSET_HOURS + 1,
    OFFSET_HOURS + 2,
    OFFSET_HOURS + 4,
    OFFSET_HOURS + 8,
    MARK,
    // 70..79
    HALF_HOUR + 1,
    QUALITY + 1,
    QUALITY + 2,
    QUALITY + 4,
    QUALITY + 8,
    PARITY + 1,
    ZERO,
    ZERO,
    ZERO,
    MARK,
    // 80..89
    SECOND_OF_DAY + 1,
    SECOND_OF_DAY + 2,
    SECOND_OF_DAY + 4,
    SECOND_OF_DAY + 8,
    SECOND_OF_DAY + 16,
    SECOND_OF_DAY + 32,
    SECOND_OF_DAY + 64,
    SECOND_OF_DAY + 128,
    SECOND_OF_DAY + 256,
    MARK,
    // 90..99
    SECOND_OF_DAY + 512,
    SECOND_OF_DAY + 1024,
    SECOND_OF_DAY + 2048,
    SECOND_OF_DAY + 4096,
    SECOND_OF_DAY + 8192,
    SECOND_OF_DAY + 16384,
    SECOND_OF_DAY + 32768,
    SECOND_OF_DAY + 65536,
    ZERO,
    MARK,
];
