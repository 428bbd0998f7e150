// For the crate `clock_string` alone, which reads clock strings: what a Uni Erlangen string says, field by field, and its
// first fault.
ghost use Rattle.std.specs.Prelude.{◌≡◌};
ghost use Rattle.wire.specs.Digits.{pair};
ghost use Rattle.erlangen.specs.Layout.{size, minus};
ghost use Rattle.erlangen.specs.Meaning.{shows, offset_wrong, mark_wrong, read_erlangen};
ghost use Rattle.erlangen.specs.Format.{format, last_place, fits};

use super::offset::Shown;
use super::{Erlangen, layout};
use reading::years::year_of;
use reading::{Fault, Reading, Refusal};
use strings::letters::quality_of;
use strings::reader::ClockString;
use strings::{fault_of, reader};
use wire::digits::{one_digit, two_digits};
use wire::layout::byte_at;

#[tactic(auto, unfolding(crate::specs::Meaning::shows))]
fn shows(s: &[u8], place: usize, byte: u8) -> bool
    ensures { result ≡ shows s.now place byte }
{
    byte_at(s, place) == byte
}

fn shown(s: &[u8]) -> Shown
    ensures { result ≡ record { behind = shows s.now 24 minus; hours = pair s.now 25; minutes = pair s.now 28 } }
{
    Shown {
        behind: shows(s, layout::SIGN, b'-'),
        hours: two_digits(s, layout::OFFSET_HOURS),
        minutes: two_digits(s, layout::OFFSET_MINUTES),
    }
}

#[tactic(auto, unfolding(crate::specs::Meaning::offset_wrong))]
fn offset_wrong(s: &[u8]) -> bool
    ensures { result ≡ offset_wrong s.now }
{
    shown(s).is_bad()
}

#[tactic(auto, unfolding(crate::specs::Meaning::mark_wrong))]
fn mark_wrong(s: &[u8]) -> bool
    ensures { result ≡ mark_wrong s.now }
{
    shows(s, layout::LEAP_SECOND, b'L') != (two_digits(s, layout::SECOND) == 60)
}

impl ClockString for Erlangen {
    ghost format = { format };

    ghost LENGTH = { size };

    ghost LAST = { last_place };

    ghost fits = { fits };

    const LENGTH: usize = Erlangen::LENGTH;

    const LAST: usize = Erlangen::LAST;

    fn all_allowed(s: &[u8]) -> bool {
        layout::columns().all_allowed(s)
    }

    fn good_places(s: &[u8]) -> usize {
        layout::columns().good_places(s)
    }

    #[tactic(auto, unfolding(crate::specs::Meaning::reading_of))]
    fn reading(base: u16, s: &[u8]) -> Reading {
        Reading {
            year: year_of(base, two_digits(s, layout::YEAR)),
            month: two_digits(s, layout::MONTH),
            day: two_digits(s, layout::DAY),
            hour: two_digits(s, layout::HOUR),
            minute: two_digits(s, layout::MINUTE),
            second: two_digits(s, layout::SECOND),
            offset: shown(s).offset(),
            summer: shows(s, layout::SUMMER, b'S'),
            leap: shows(s, layout::LEAP, b'A'),
            change: shows(s, layout::CHANGE, b'!'),
            quality: quality_of(shows(s, layout::FAILURE, b'#')),
        }
    }

    #[tactic(auto, unfolding(crate::specs::Meaning::weekday_said))]
    fn said_fault(r: Reading, s: &[u8]) -> Result<(), Fault> {
        let weekday = one_digit(s, layout::WEEKDAY);
        fault_of(r, weekday, offset_wrong(s), mark_wrong(s), layout::PLACES)
    }

    #[tactic(auto, unfolding(crate::specs::Meaning::coasting_said))]
    fn is_coasting(s: &[u8]) -> bool {
        shows(s, layout::COASTING, b'*')
    }
}

// The generic reader at this format. docs/PROMISES.md goes by its definition, `read_erlangen`, and two wrong programs name it:
// `one_time_for_all` here, and `sixty_eight_read_as_meinberg` of `clock_string`.
#[tactic(auto, unfolding(crate::specs::Meaning::fault_in, crate::specs::Meaning::read_erlangen))]
pub fn for_clock_string(base: u16, s: &[u8]) -> Result<(Reading, bool), Refusal>
    ensures { result ≡ read_erlangen base s.now }
{
    reader::for_clock_string::<Erlangen>(base, s)
}
