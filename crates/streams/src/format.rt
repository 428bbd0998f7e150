// What a format says of the last pulses of a stream.
ghost use Rattle.std.specs.Prelude.{◌≡◌, ℕ, ◌+◌, ◌<◌, ◌^◌, List, []};
ghost use Rattle.streams.specs.Stream.{window_of, unrolled};
ghost use Rattle.streams.specs.Reader.{filler};

// A format whose readers keep `N` pulses.
pub trait Format<const N: usize> {
    type Said: Copy;

    ghost silence: { Self.Said };

    // What is said of a window, by the base of a reader's years.
    ghost say_of: { ℕ → List ℕ → Self.Said };

    // What is owed after all the pulses that came.
    ghost owed: { ℕ → List ℕ → Self.Said };

    fn nothing() -> Self::Said
        ensures { result ≡ silence };

    // What is said of a ring whose newest pulse stands at a place; a number past the ring stands for its last. (One struct of both was
    // tried: six instructions a pulse more.)
    fn say(base: u16, ring: &[u8; N], newest: usize) -> Self::Said
        ensures { result ≡ say_of base (unrolled ring.now (newest + 1)) };

    // Some pulses are kept, and few enough for a reader to have room in memory.
    ghost keeps_some: { 0 < N };

    ghost keeps_few: { N < 2 ^ 32 };

    // The window of a fresh reader, in which fillers stand before the pulses that came, says what is owed to these.
    ghost due: { (base : ℕ) (h : List ℕ) → say_of base (window_of N filler h) ≡ owed base h };

    ghost unbegun: { (base : ℕ) → owed base [] ≡ silence };
}
