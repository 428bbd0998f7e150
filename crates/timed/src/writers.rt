// Writing what each record asks for. All readings are taken apart from their records first, so that this work can be counted
// alone and taken off.
ghost use Rattle.std.specs.Prelude.{◌≤◌, length};

use super::answers::Answer;
use super::op::Writer;
use super::records::length_of_each;
use dcf77::Dcf77;
use erlangen::Erlangen;
use irig::Ieee1344;
use meinberg::Meinberg;
use payloads::{pair_at, reading_in};
use reading::Reading;

// The bytes before the position part.
const LENGTH: usize = 15;

fn readings_in(length: u8, records: &[u8]) -> [Reading; 600] {
    let mut readings = [reading_in(b""); 600];
    let each = length_of_each(length, records);
    for (reading, record) in readings.iter_mut().zip(records.chunks(each)) {
        // asked here too, so that no byte of a whole record is looked for past its end
        if LENGTH <= record.len() {
            *reading = reading_in(record);
        }
    }
    readings
}

fn write_by(base: u16, writer: Writer, r: Reading, given: &[u8], out: &mut [u8]) -> u64
    requires { 15 ≤ length given.now }
{
    // the coasting mark or the head
    let beside = pair_at(given, 12);
    match writer {
        Writer::Meinberg => Meinberg::write(base, r, beside != 0, out).sum(),
        Writer::Erlangen => Erlangen::write(base, r, beside != 0, &given[LENGTH..], out).sum(),
        Writer::Frame => Ieee1344::write(base, r, out).sum(),
        Writer::Minute => Dcf77::write(base, r, beside, out).sum(),
        Writer::Idle => u64::from(beside),
    }
}

// A writer is lent as many bytes of the page as its record says.
fn write_part(base: u16, writer: Writer, r: Reading, record: &[u8], page: &mut [u8]) -> u64 {
    if record.len() < LENGTH {
        return 0;
    }
    let room = page.len().min(usize::from(record[14]));
    write_by(base, writer, r, record, &mut page[..room])
}

pub(crate) fn over(base: u16, writer: Writer, length: u8, records: &[u8], page: &mut [u8]) -> u64 {
    let readings = readings_in(length, records);
    let mut sum: u64 = 0;
    let each = length_of_each(length, records);
    for (reading, record) in readings.iter().zip(records.chunks(each)) {
        sum = sum.wrapping_add(write_part(base, writer, *reading, record, page));
    }
    sum
}
