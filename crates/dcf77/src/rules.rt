// What reader and writer share: the places of the fields, and the form that is due.
ghost use Rattle.std.specs.Prelude.{◌≡◌};
ghost use Rattle.calendar.specs.Calendar.{weekday_of};
ghost use Rattle.reading.specs.Universal.{date_of};
ghost use Rattle.dcf77.specs.Forms.{length_of, due_long};

use super::Dcf77;
use calendar::days::weekday;
use reading::Reading;
use reading::leap::after_leap;
use reading::universal::utc_of;

// Where each field begins, and where its parity mark stands.
pub(super) mod places {
    pub const ZONE: usize = 17;

    pub const MINUTE: usize = 21;

    pub const MINUTE_PARITY: usize = 28;

    pub const HOUR: usize = 29;

    pub const HOUR_PARITY: usize = 35;

    pub const DAY: usize = 36;

    pub const WEEKDAY: usize = 42;

    pub const MONTH: usize = 45;

    pub const YEAR: usize = 50;

    pub const DATE_PARITY: usize = 58;
}

// The weekday of the reading's date.
pub(super) fn week_of(r: Reading) -> u32
    ensures { result ≡ weekday_of (date_of r) }
{
    u32::from(weekday(r.date()))
}

// A minute is long or it is not: a flag, as specs/Forms.antt has it.
#[tactic(auto, unfolding(crate::specs::Forms::length_of))]
pub(super) fn length_of(long: bool) -> usize
    ensures { result ≡ length_of long }
{
    if long {
        Dcf77::LONG_LENGTH
    } else {
        Dcf77::LENGTH
    }
}

#[tactic(auto, unfolding(crate::specs::Forms::due_long))]
pub(super) fn due_long(r: Reading) -> bool
    ensures { result ≡ due_long r }
{
    r.leap && after_leap(utc_of(r))
}
