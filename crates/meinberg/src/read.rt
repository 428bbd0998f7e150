// For the crate `clock_string` alone, which reads clock strings: what a Meinberg string says, field by field, and its first
// fault.
ghost use Rattle.std.specs.Prelude.{◌≡◌};
ghost use Rattle.meinberg.specs.Layout.{text_length, last_place};
ghost use Rattle.meinberg.specs.Meaning.{read_meinberg};
ghost use Rattle.meinberg.specs.Format.{format, fits};

use super::zones::{offset_of, summer_of};
use super::{Meinberg, layout};
use reading::years::year_of;
use reading::{Fault, Reading, Refusal};
use strings::letters::quality_of;
use strings::reader::ClockString;
use strings::{fault_of, reader};
use wire::digits::{one_digit, two_digits};
use wire::layout::byte_at;

impl ClockString for Meinberg {
    ghost format = { format };

    ghost LENGTH = { text_length };

    ghost LAST = { last_place };

    ghost fits = { fits };

    const LENGTH: usize = Meinberg::LENGTH;

    const LAST: usize = Meinberg::LAST;

    fn all_allowed(s: &[u8]) -> bool {
        layout::columns().all_allowed(s)
    }

    fn good_places(s: &[u8]) -> usize {
        layout::columns().good_places(s)
    }

    #[tactic(auto, unfolding(crate::specs::Meaning::quality_of, crate::specs::Meaning::meaning))]
    fn reading(base: u16, s: &[u8]) -> Reading {
        let zone = byte_at(s, layout::ZONE);
        let announced = byte_at(s, layout::ANNOUNCEMENT);
        let failed = byte_at(s, layout::FAILURE) == b'#';
        Reading {
            year: year_of(base, two_digits(s, layout::YEAR)),
            month: two_digits(s, layout::MONTH),
            day: two_digits(s, layout::DAY),
            hour: two_digits(s, layout::HOUR),
            minute: two_digits(s, layout::MINUTE),
            second: two_digits(s, layout::SECOND),
            offset: offset_of(zone),
            summer: summer_of(zone),
            leap: announced == b'A',
            change: announced == b'!',
            quality: quality_of(failed),
        }
    }

    // Each zone's offset is good, and no byte marks a leap second.
    fn said_fault(r: Reading, s: &[u8]) -> Result<(), Fault> {
        let weekday = one_digit(s, layout::WEEKDAY);
        fault_of(r, weekday, false, false, layout::PLACES)
    }

    #[tactic(auto, unfolding(crate::specs::Meaning::coasting_in))]
    fn is_coasting(s: &[u8]) -> bool {
        byte_at(s, layout::COASTING) == b'*'
    }
}

// The generic reader at this format. docs/PROMISES.md goes by its definition, `read_meinberg`, and two wrong programs name it:
// `one_time_for_all` here, and `sixty_eight_read_as_meinberg` of `clock_string`.
#[tactic(auto, unfolding(crate::specs::Meaning::fault_in, crate::specs::Meaning::read_meinberg))]
pub fn for_clock_string(base: u16, s: &[u8]) -> Result<(Reading, bool), Refusal>
    ensures { result ≡ read_meinberg base s.now }
{
    reader::for_clock_string::<Meinberg>(base, s)
}
