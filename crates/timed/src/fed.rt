// One pulse after the other, given to a fresh reader of a format.
// A loop of its own: the answers are summed up here, `vectors` prints each, and `answer_after` of `streams` keeps the last alone.
use super::answers::Answer;
use streams::{Format, PulseReader};

pub(crate) fn fed<F: Format<N>, const N: usize>(base: u16, pulses: &[u8]) -> u64
where
    F::Said: Answer,
{
    let mut reader: PulseReader<F, N> = PulseReader::fresh(base);
    let mut sum: u64 = 0;
    for &pulse in pulses {
        let stepped = reader.step(pulse);
        reader = stepped.reader;
        sum = sum.wrapping_add(stepped.said.sum());
    }
    sum
}
