// The reader. A fresh one is full of a byte that is no pulse, so that too few pulses are a case of no outline, and every value of
// its state is legal.
ghost use Rattle.std.specs.Prelude.{◌≡◌};
ghost use Rattle.streams.specs.Stream.{push};
ghost use Rattle.streams.specs.Reader.{unfed, taken, kept_by};

use super::format::Format;
use super::ring::place_of;
use std::marker::PhantomData;

// The base that was given, and the last `N` pulses: the next one goes to place `next` or, from `N` on, to the first; the oldest
// stands there.
// Nothing asks whether two readers are one, or prints one.
#[derive(Clone, Copy)]
pub struct PulseReader<F, const N: usize> {
    pub base: u16,
    pub ring: [u8; N],
    pub next: usize,
    pub of: PhantomData<F>,
}

// The next state and the answer: a step is by value, since `Contracts.says_due` speaks of a function from a reader to the next, and a
// ring behind a `&mut` cost six instructions a pulse more.
#[derive(Clone, Copy)]
pub struct Stepped<R, S> {
    pub reader: R,
    pub said: S,
}

impl<F: Format<N>, const N: usize> PulseReader<F, N> {
    // A reader that has taken no pulse. Any base is taken here, and one that is none refused with each whole window.
    pub fn fresh(base: u16) -> Self
        ensures { result ≡ unfed F N base }
    {
        PulseReader {
            base,
            ring: [255u8; N],
            next: 0,
            of: PhantomData,
        }
    }

    // Takes one pulse, any byte. Every field of the next state is named, as `reader_forgets_its_base` is about the base that is handed on.
    pub fn step(self, pulse: u8) -> Stepped<Self, F::Said>
        ensures { result ≡ record { reader = taken F N self pulse; said = F.say_of self.base (push (kept_by F N self) pulse) } }
    {
        let base = self.base;
        let at = self.next;
        let place = place_of::<N>(at);
        let old = self.ring;
        let mut new = old;
        new[place] = pulse;
        let said = F::say(base, &new, place);
        let next = place + 1;
        Stepped {
            reader: PulseReader {
                base,
                ring: new,
                next,
                of: PhantomData,
            },
            said,
        }
    }

    // The answer after the last of the pulses, from a fresh reader on. A loop of its own: the programs print each answer, or sum them all.
    pub fn answer_after(base: u16, pulses: &[u8]) -> F::Said
        ensures { result ≡ F.owed base pulses.now }
    {
        let mut reader = Self::fresh(base);
        let mut said = F::nothing();
        for &pulse in pulses {
            let stepped = reader.step(pulse);
            reader = stepped.reader;
            said = stepped.said;
        }
        said
    }
}
