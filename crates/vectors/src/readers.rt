// What the readers say of an input, whatever its format.
use super::op::Reader;
use super::print::{print_hex, print_word};
use super::words::Words;
use clock_string::{position_part, read};
use dcf77::Dcf77;
use irig::Ieee1344;
use reading::Refusal;

// The line of a reader; that of clock strings has the position part too.
pub(crate) fn print_read(base: u16, reader: Reader, input: &[u8]) {
    match reader {
        Reader::String => {
            read(base, input).print(b' ');
            print_word(b" part ");
            print_hex(position_part(base, input))
        }
        Reader::Frame => Ieee1344::read(base, input).print(b' '),
        Reader::Minute => Dcf77::read(base, input).print(b' '),
    }
}

// What an input is refused for, where it is.
pub(crate) fn refusal_of(base: u16, reader: Reader, input: &[u8]) -> Option<Refusal> {
    match reader {
        Reader::String => read(base, input).err(),
        Reader::Frame => Ieee1344::read(base, input).err(),
        Reader::Minute => Dcf77::read(base, input).err(),
    }
}
