// What the pulse readers say of a stream: where they say something, the count of pulses and the answer's words.
// A loop of its own: each answer is printed here, `timed` sums them up, and `answer_after` of `streams` keeps the last alone.
use super::print::{print_number, print_word};
use super::words::Words;
use streams::{Format, PulseReader};

// What is said after a pulse, or nothing.
pub(crate) trait Said {
    fn print_at(self, count: usize);
}

impl<T: Words> Said for Option<T> {
    fn print_at(self, count: usize) {
        if let Some(answer) = self {
            print_number(b' ', count as u64);
            print_word(b":");
            answer.print(b',')
        }
    }
}

pub(crate) fn fed<F: Format<N>, const N: usize>(base: u16, pulses: &[u8])
where
    F::Said: Said,
{
    print_word(b"said");
    let mut reader: PulseReader<F, N> = PulseReader::fresh(base);
    for (before, &pulse) in pulses.iter().enumerate() {
        let stepped = reader.step(pulse);
        reader = stepped.reader;
        stepped.said.print_at(before + 1);
    }
}
