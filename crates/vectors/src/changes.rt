// Every one-byte change of an input: which are not refused by code 2 at the changed place.
ghost use Rattle.std.specs.Prelude.{◌≡◌, ◌<◌, ◌≤◌, length};

use super::op::{Bad, Reader};
use super::print::{print_number, print_word};
use super::readers::refusal_of;
use reading::Refusal;

// An input of more bytes is longer than any that a reader takes.
const LONGEST: usize = 128;

fn print_change(place: usize, byte: u8, refusal: Option<Refusal>) {
    print_number(b' ', place as u64);
    print_number(b'.', u64::from(byte));
    match refusal {
        None => print_word(b"=time"),
        Some(Refusal { code, place }) => {
            print_number(b'=', u64::from(code));
            print_number(b'.', place as u64)
        }
    }
}

// Whether an input that was changed at a place is refused by code 2 there; what else becomes of it is printed.
fn refused_there(base: u16, reader: Reader, input: &[u8], place: usize, byte: u8) -> bool {
    let refusal = refusal_of(base, reader, input);
    if refusal == Some(Refusal { code: 2, place }) {
        return true;
    }
    print_change(place, byte, refusal);
    false
}

// How many of the other bytes at a place are refused by code 2 there. The byte that stood there is put back.
fn try_place(base: u16, reader: Reader, input: &mut [u8], place: usize) -> usize
    requires { place < length input.old }
    ensures count { result ≤ 256 }
    ensures kept { length input.new ≡ length input.old }
{
    let kept = input[place];
    let mut refused: usize = 0;
    for byte in 0..=255u8 {
        if byte != kept {
            input[place] = byte;
            refused += usize::from(refused_there(base, reader, input, place, byte));
        }
    }
    input[place] = kept;
    refused
}

fn try_places(base: u16, reader: Reader, input: &mut [u8]) -> usize
    requires { length input.old ≤ 128 }
{
    let mut refused: usize = 0;
    for place in 0..input.len() {
        refused += try_place(base, reader, input, place);
    }
    refused
}

pub(crate) fn every_change(base: u16, reader: Reader, payload: &[u8]) -> Result<(), Bad> {
    if LONGEST < payload.len() {
        return Err(Bad);
    }
    let mut space = [0u8; LONGEST];
    let input = &mut space[..payload.len()];
    input.copy_from_slice(payload);
    print_word(b"changes");
    let refused = try_places(base, reader, input);
    print_word(b" others");
    print_number(b' ', refused as u64);
    Ok(())
}
