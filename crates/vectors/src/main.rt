// Answers the cases that stand on standard input, a line each, with the proved functions, and prints as it goes.
// second/README.md says what a case is; what this prints is compared with what the independent second program answers.
#![tactic(auto)]

ghost use Rattle.std.specs.Prelude.{◌≡◌, length};
ghost use Rattle.listing.specs.Listing.{room_for_any};

use listing::ROOM;
use op::Op;

mod answers;
mod changes;
mod fed;
mod listed;
mod op;
mod print;
mod readers;
mod stamped;
mod table;
mod words;
mod writers;

// A case that the end of the input cuts off, where there is a byte of it, is the last.
fn cut_off(came: usize) -> bool {
    if 0 < came {
        print::print_word(b"bad\n");
    }
    false
}

// Reads a case, prints its line, and says whether to go on.
fn one_case(space: &mut [u8; 65536], page: &mut [u8]) -> bool {
    let mut head = [0u8; 5];
    let came = io::read_full(0, &mut head);
    if came < 5 {
        return cut_off(came);
    }
    let [number, base_low, base_high, low, high] = head;
    let base = u16::from_le_bytes([base_low, base_high]);
    let length = usize::from(u16::from_le_bytes([low, high]));
    let payload = &mut space[..length];
    if io::read_full(0, payload) < length {
        return cut_off(came);
    }
    // asked only here, since the payload of a number that is no operation's is read over too
    let answered = Op::try_from(number).and_then(|op| answers::answer(page, op, base, payload));
    if answered.is_err() {
        print::print_word(b"bad");
    }
    io::write_all(1, b"\n")
}

// A page has room for every listing.
fn page_for_listing() -> [u8; ROOM]
    ensures { room_for_any ≡ length result }
{
    [0; ROOM]
}

// A proved loop has to end, so it counts to a number that no run uses up.
fn main() {
    let mut space = io::large_buffer();
    let mut page = page_for_listing();
    for _ in 0..u64::MAX {
        if !one_case(&mut space, &mut page) {
            break;
        }
    }
}
