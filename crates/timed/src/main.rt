// Does one operation on each of the records that stand on standard input, and prints a sum over the answers: a program to
// count instructions on. The input is a byte that names the operation, a byte with the length of a record, two bytes of
// the base, and the records; bench/rows.py has the operations, and bench/c/timed.c is the same program over the C baseline.
#![tactic(auto)]

mod answers;
mod fed;
mod op;
mod records;
mod sent;
mod writers;

use dcf77_stream::Minutes;
use fed::fed;
use irig_stream::Frames;
use op::Op;

fn run(base: u16, op: Op, length: u8, records: &[u8], page: &mut [u8]) -> u64 {
    match op {
        Op::Each(each) => records::over(base, each, length, records, page),
        Op::Write(writer) => writers::over(base, writer, length, records, page),
        Op::FramePulses => fed::<Frames, 100>(base, records),
        Op::MinutePulses => fed::<Minutes, 62>(base, records),
    }
}

// The page that the writers wrote on is printed too, so that no store can be left out.
fn answer(space: &mut [u8], page: &mut [u8]) {
    let mut head = [0u8; 4];
    io::read_full(0, &mut head);
    let n = io::read_full(0, space);
    let [op, length, low, high] = head;
    let base = u16::from_le_bytes([low, high]);
    let sum = run(base, op.into(), length, &space[..n], page);
    io::print_decimal(1, sum);
    io::write_all(1, b"\n");
    io::write_all(1, page);
}

fn main() {
    let mut space = io::large_buffer();
    let mut page = [0u8; 128];
    answer(&mut space, &mut page);
}
