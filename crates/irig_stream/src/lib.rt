// The IEEE 1344 pulse reader, which keeps the last hundred pulses: what is said of them.
#![tactic(auto)]

ghost use Rattle.std.specs.Prelude.{◌≡◌, None};
ghost use Rattle.std.proofs.Common.{lit<};
ghost use Rattle.irig_stream.specs.Said.{say_of, owed};
ghost use Rattle.irig_stream.specs.Due.{due, unbegun};

use irig::Ieee1344;
use reading::{Reading, Refusal};
use streams::{Format, place_of, unrolled};

// What is said after a pulse: a time or a refusal, or nothing.
pub type Said = Option<Result<Reading, Refusal>>;

// The format, as a mark on its readers.
#[derive(Clone, Copy, Debug, PartialEq, Eq)]
pub struct Frames;

// The base that was given, and the last hundred pulses.
pub type PulseReader = streams::PulseReader<Frames, 100>;

// The next state and the answer.
pub type Stepped = streams::Stepped<PulseReader, Said>;

// What is said of a window; the whole frame is read only where the outline is there.
#[tactic(auto, unfolding(crate::specs::Said::say_of))]
fn say(base: u16, window: &[u8; 100]) -> Said
    ensures { result ≡ say_of base window.now }
{
    if irig_table::outlined(window) {
        Some(Ieee1344::read(base, window))
    } else {
        None
    }
}

impl Format<100> for Frames {
    type Said = Said;

    ghost silence = { None };

    ghost say_of = { say_of };

    ghost owed = { owed };

    ghost keeps_some = { lit< tt };

    ghost keeps_few = { lit< tt };

    ghost due = { due };

    ghost unbegun = { unbegun };

    fn nothing() -> Said {
        None
    }

    // Nothing, unless both ends of the window are marks. A number past the ring stands for its last place.
    fn say(base: u16, ring: &[u8; 100], newest: usize) -> Said {
        let newest = newest.min(99);
        if ring[newest] != 2 {
            return None;
        }
        let oldest = place_of::<100>(newest + 1);
        if ring[oldest] != 2 {
            return None;
        }
        say(base, &unrolled(ring, newest + 1))
    }
}

// The answer after the last of the pulses, from a fresh reader on, by the format's own name.
pub fn answer_after(base: u16, pulses: &[u8]) -> Said
    ensures { result ≡ owed base pulses.now }
{
    PulseReader::answer_after(base, pulses)
}
