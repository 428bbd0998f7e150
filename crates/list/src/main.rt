// Lists a book: reads it from standard input, and writes its listing to standard output. The first argument is the base, 1990 or
// 2000; without one it is 2000. What the listing says is proved of the crate `listing`; here the argument is read, and bytes come in
// and go out. A program of Rattle has no exit status, so that what went wrong is said on standard error.
#![tactic(auto)]

ghost use Rattle.std.specs.Prelude.{◌≡◌, ◌+◌, ◌≤◌, length, IfOk};
ghost use Rattle.listing.specs.Listing.{largest_book, room_for_any};
ghost use Rattle.list.specs.Argument.{base_said, base_for};

use listing::{LARGEST_BOOK, ROOM};
use std::env::{Env, FillError};
use std::io::{Error, Read, Stdin};

// Stands for an argument that names no base: the listing refuses it as it refuses any number that is none.
const NO_BASE: u16 = 0;

// The numbers of the standard output and of the standard error.
const OUTPUT: i32 = 1;

const ERRORS: i32 = 2;

// The largest book that is listed, and a byte more, which tells a book that is too long.
const SPACE: usize = LARGEST_BOOK + 1;

// The base that an argument names, where it names one.
#[tactic(auto, unfolding(crate::specs::Argument::base_said, crate::specs::Argument::four_bytes))]
fn base_said(text: &[u8]) -> Option<u16>
    ensures { result ≡ base_said text.now }
{
    match text {
        b"1990" => Some(1990),
        b"2000" => Some(2000),
        _ => None,
    }
}

// The base for so many words of the command, the program's own name among them, and the first argument: two arguments and no Option, as
// docs/PROMISES.md promises it over `list/Argument.base_for`.
#[tactic(auto, using(crate::proofs::Arguments::said_or_none), unfolding(crate::specs::Argument::base_for))]
fn base_for(words: usize, text: &[u8]) -> u16
    ensures { result ≡ base_for words text.now }
{
    if words < 2 {
        return 2000;
    }
    base_said(text).unwrap_or(NO_BASE)
}

// The base that the program is started with. An argument that is longer than the space counts as an empty one, which names none
// either; those after the first are not looked at.
fn base_given(rt: &HostRuntime) -> u16 {
    let mut space = [0u8; 5];
    match rt.arg(1, &mut space) {
        Ok(n) => base_for(2, &space[..n]),
        Err(FillError::NotPresent) => base_for(1, &space[..0]),
        Err(FillError::TooLong) => base_for(2, &space[..0]),
    }
}

// Reads until the space is full or the input ends, and answers how many bytes came. A read may give fewer than it was asked for, so that
// no number of turns is known before, and its failure is handed on: no `for`, and no iterator of the input.
fn read_book(input: &mut Stdin, space: &mut [u8]) -> Result<usize, Error>
    ensures { IfOk result (λ came. came ≤ length space.new) }
{
    let mut done = 0;
    while done < space.len() {
        let more = input.read(&mut space[done..])?;
        if more == 0 {
            break;
        }
        done += more;
    }
    Ok(done)
}

fn write_out(text: &[u8]) {
    if !io::write_all(OUTPUT, text) {
        io::write_all(ERRORS, b"list: standard output cannot be written\n");
    }
}

// A page of this length is never refused.
fn write_listing(base: u16, book: &[u8], page: &mut [u8])
    requires { room_for_any ≤ length page.old }
{
    if let Ok(n) = listing::list(base, book, page) {
        write_out(&page[..n]);
    }
}

// The space holds the largest book and a byte more, so that one that is too long is told, and the page every listing.
fn list_input(input: &mut Stdin, base: u16, space: &mut [u8], page: &mut [u8])
    requires space { largest_book + 1 ≡ length space.old }
    requires page { room_for_any ≤ length page.old }
{
    match read_book(input, space) {
        Ok(n) => write_listing(base, &space[..n], page),
        Err(_) => {
            io::write_all(ERRORS, b"list: standard input cannot be read\n");
        }
    }
}

fn main(rt: HostRuntime) {
    let mut space = [0u8; SPACE];
    let mut page = [0u8; ROOM];
    let mut input = rt.stdin();
    list_input(&mut input, base_given(&rt), &mut space, &mut page);
}
