// The DCF77 pulse reader, which keeps the last 62 symbols: what is said of them.
#![tactic(auto)]

ghost use Rattle.std.specs.Prelude.{◌≡◌, ◌≤◌, ◌<◌, length, drop, None, Some};
ghost use Rattle.std.proofs.Common.{lit<};
ghost use Rattle.dcf77.specs.Reader.{read_dcf77};
ghost use Rattle.dcf77_stream.specs.Said.{marks_then_gap, between_gaps, say_of, owed};
ghost use Rattle.dcf77_stream.specs.Due.{due, unbegun};

use dcf77::Dcf77;
use reading::{Reading, Refusal};
use streams::{Format, unrolled};

// What is said after a symbol: a time with its head or a refusal, or nothing.
pub type Said = Option<Result<(Reading, u16), Refusal>>;

// The format, as a mark on its readers.
#[derive(Clone, Copy, Debug, PartialEq, Eq)]
pub struct Minutes;

// The base that was given, and the last 62 symbols: a gap, 60 marks, and a gap.
pub type PulseReader = streams::PulseReader<Minutes, 62>;

// The next state and the answer.
pub type Stepped = streams::Stepped<PulseReader, Said>;

// Whether the symbols are marks of 0 or 1 and then a gap.
fn marks_then_gap(symbols: &[u8]) -> bool
    ensures { result ≡ marks_then_gap symbols.now }
{
    match symbols.split_last() {
        Some((last, marks)) => {
            let closes = *last == 2;
            closes && marks.iter().all(|mark| *mark < 2)
        }
        None => false,
    }
}

// Whether a gap stands at a place, marks of 0 or 1 after it, and a gap at the end.
fn between_gaps(window: &[u8], from: usize) -> bool
    requires { from < length window.now }
    ensures { result ≡ between_gaps (drop from window.now) }
{
    if window[from] == 2 {
        let after = from + 1;
        marks_then_gap(&window[after..])
    } else {
        false
    }
}

// What whole-minute reading says of the symbols from a place on.
fn read_from(base: u16, window: &[u8], from: usize) -> Said
    requires { from ≤ length window.now }
    ensures { result ≡ Some (read_dcf77 base (drop from window.now)) }
{
    Some(Dcf77::read(base, &window[from..]))
}

// What is said of 62 symbols: a gap, 60 or 59 marks of 0 or 1, and a gap at the end. The second symbol tells which of the two it can be,
// and it and the first are looked at before the marks: without that, fifty instructions a symbol more in a stream of gaps alone.
#[tactic(auto, unfolding(crate::specs::Said::say_of))]
fn say(base: u16, window: &[u8; 62]) -> Said
    ensures { result ≡ say_of base window.now }
{
    // A gap in the second place can open 59 marks alone.
    if window[1] == 2 {
        if between_gaps(window, 1) {
            return read_from(base, window, 2);
        }
        return None;
    }
    // Only a gap in the first place with a mark behind it can open 60.
    if window[0] != 2 {
        return None;
    }
    if window[1] > 2 {
        return None;
    }
    if between_gaps(window, 0) {
        return read_from(base, window, 1);
    }
    None
}

impl Format<62> for Minutes {
    type Said = Said;

    ghost silence = { None };

    ghost say_of = { say_of };

    ghost owed = { owed };

    ghost keeps_some = { lit< tt };

    ghost keeps_few = { lit< tt };

    ghost due = { due };

    ghost unbegun = { unbegun };

    fn nothing() -> Said {
        None
    }

    // Nothing, unless the newest symbol is a gap. A number past the ring stands for its last place.
    fn say(base: u16, ring: &[u8; 62], newest: usize) -> Said {
        let newest = newest.min(61);
        if ring[newest] != 2 {
            return None;
        }
        say(base, &unrolled(ring, newest + 1))
    }
}

// The answer after the last of the symbols, from a fresh reader on, by the format's own name.
pub fn answer_after(base: u16, symbols: &[u8]) -> Said
    ensures { result ≡ owed base symbols.now }
{
    PulseReader::answer_after(base, symbols)
}
