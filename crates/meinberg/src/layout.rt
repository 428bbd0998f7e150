// What may stand at each place of a Meinberg string, as a layout of the crate `wire`, and where its fields stand.
ghost use Rattle.std.specs.Prelude.{◌≡◌};
ghost use Rattle.wire.specs.Columns.{entries};
ghost use Rattle.meinberg.specs.Layout.{layout};

use strings::Places;
use wire::layout::Columns;

// The first place of each field.
pub(crate) const DAY: usize = 3;

pub(crate) const MONTH: usize = 6;

pub(crate) const YEAR: usize = 9;

pub(crate) const WEEKDAY: usize = 14;

pub(crate) const HOUR: usize = 18;

pub(crate) const MINUTE: usize = 21;

pub(crate) const SECOND: usize = 24;

pub(crate) const FAILURE: usize = 27;

pub(crate) const COASTING: usize = 28;

pub(crate) const ZONE: usize = 29;

pub(crate) const ANNOUNCEMENT: usize = 30;

// Where the fields stand whose faults have a place.
pub(crate) const PLACES: Places = Places {
    day: DAY,
    month: MONTH,
    weekday: WEEKDAY,
    hour: HOUR,
    minute: MINUTE,
    second: SECOND,
    offset: ZONE,
};

// What may stand at each place. A range is wider than one byte at a digit; the bytes beside it differ from it at the marks
// only: a space for none, an `S` and an `A`.
const COLUMNS: Columns<'static> = Columns {
    low: b"\x02D:00.00.00;T:0;U:00.00.00;#*U!\x03",
    high: b"\x02D:99.99.99;T:9;U:99.99.99;#*U!\x03",
    other: b"\x02D:00.00.00;T:0;U:00.00.00;   A\x03",
    third: b"\x02D:00.00.00;T:0;U:00.00.00;  S \x03",
};

// By entries, one a place, they are the layout of specs/Layout.antt.
pub(crate) fn columns() -> Columns<'static>
    ensures { entries result ≡ layout }
{
    COLUMNS
}
