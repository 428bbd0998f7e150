// The Meinberg string: 32 bytes, STX `D:dd.mm.yy;T:w;U:hh.mm.ss;uvxy` ETX, its length and its writer; `clock_string` reads
// it. Every public function takes any value and answers as the definitions of specs/ say.
#![tactic(auto)]

ghost use Rattle.std.specs.Prelude.{◌≡◌, length};
ghost use Rattle.reading.specs.Writing.{written_of, filled};
ghost use Rattle.meinberg.specs.Layout.{text_length};
ghost use Rattle.meinberg.specs.Writing.{bytes_of, write_fault};

use reading::{Reading, Refusal};

mod layout;
pub mod read;
mod write;
mod zones;

// The format; it has no values of its own.
#[derive(Clone, Copy, Debug, PartialEq, Eq)]
pub struct Meinberg {}

impl Meinberg {
    pub const LENGTH: usize = 32;

    // The largest place.
    pub const LAST: usize = 31;

    // Writes the string of a reading to the start of `out`; a refusal leaves `out` as it was.
    pub fn write(base: u16, r: Reading, coasting: bool, out: &mut [u8]) -> Result<usize, Refusal>
        ensures value { result ≡ written_of (write_fault base r (length out.old)) text_length }
        ensures out_after { out.new ≡ filled (write_fault base r (length out.old)) (bytes_of r coasting) out.old }
    {
        write::into(base, r, coasting, out)
    }
}
