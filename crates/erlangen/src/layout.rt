// What may stand at each place of a string, as columns of `wire::layout`, and where its fields stand.
ghost use Rattle.std.specs.Prelude.{◌≡◌};
ghost use Rattle.wire.specs.Columns.{entries};
ghost use Rattle.erlangen.specs.Layout.{layout};

use strings::Places;
use wire::layout::Columns;

// The first place of each field.
pub(crate) const DAY: usize = 1;

pub(crate) const MONTH: usize = 4;

pub(crate) const YEAR: usize = 7;

pub(crate) const WEEKDAY: usize = 11;

pub(crate) const HOUR: usize = 14;

pub(crate) const MINUTE: usize = 17;

pub(crate) const SECOND: usize = 20;

pub(crate) const SIGN: usize = 24;

pub(crate) const OFFSET_HOURS: usize = 25;

pub(crate) const OFFSET_MINUTES: usize = 28;

pub(crate) const FAILURE: usize = 32;

pub(crate) const COASTING: usize = 33;

pub(crate) const SUMMER: usize = 34;

pub(crate) const CHANGE: usize = 35;

pub(crate) const LEAP: usize = 36;

pub(crate) const LEAP_SECOND: usize = 38;

pub(crate) const POSITION: usize = 41;

// Where the fields stand whose faults have a place.
pub(crate) const PLACES: Places = Places {
    day: DAY,
    month: MONTH,
    weekday: WEEKDAY,
    hour: HOUR,
    minute: MINUTE,
    second: SECOND,
    offset: SIGN,
};

// The one byte that may stand beside a range: `+` beside `-`, and a space beside each mark. It serves as two columns.
const BESIDE: &[u8] = b"\x0200.00.00; 0; 00:00:00; +00:00;        ;                           \x03";

// A range is wider than one byte at a digit and in the position.
const COLUMNS: Columns<'static> = Columns {
    low: b"\x0200.00.00; 0; 00:00:00; -00:00; #*S!A L;                           \x03",
    high: b"\x0299.99.99; 9; 99:99:99; -99:99; #*S!A L; ~~~~~~~~~~~~~~~~~~~~~~~~~~\x03",
    other: BESIDE,
    third: BESIDE,
};

// By entries, one a place, they are the layout of specs/Layout.antt.
pub(crate) fn columns() -> Columns<'static>
    ensures { entries result ≡ layout }
{
    COLUMNS
}
