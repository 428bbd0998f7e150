// The reader of clock strings: it goes by length, 32 bytes are Meinberg's and 68 are Uni Erlangen's, and its answer names which.
// Every public function takes any input and answers as the definitions of specs/ say.
#![tactic(auto)]

ghost use Rattle.std.specs.Prelude.{◌≡◌, ◌+◌};
ghost use Rattle.clock_string.specs.Reader.{timed, is_length, read_string};
ghost use Rattle.clock_string.specs.Position.{position_of, start_for};

use erlangen::Erlangen;
use meinberg::Meinberg;
use reading::years::is_base;
use reading::{Fault, Reading, Refusal};
use wire::layout::byte_at;

// The first byte of either string.
const STX: u8 = 2;

// The time that a Meinberg string or a Uni Erlangen string says, each with its coasting mark.
#[derive(Clone, Copy, Debug, PartialEq, Eq)]
pub enum Told {
    Meinberg(Reading, bool),
    Erlangen(Reading, bool),
}

impl Told {
    // The time and the coasting mark, whichever string says them.
    pub fn timed(self) -> (Reading, bool)
        ensures { result ≡ timed self }
    {
        match self {
            Told::Meinberg(reading, coasting) | Told::Erlangen(reading, coasting) => {
                (reading, coasting)
            }
        }
    }
}

fn is_length(n: usize) -> bool
    ensures { result ≡ is_length n }
{
    (n == Meinberg::LENGTH) | (n == Erlangen::LENGTH)
}

// The length alone says which string it is; of no other length is a byte looked at. What both strings are refused for first, by
// length, base and first byte, is asked here, where it is told without a reading at hand.
pub fn read(base: u16, s: &[u8]) -> Result<Told, Refusal>
    ensures { result ≡ read_string base s.now }
{
    if !is_length(s.len()) {
        return Err(Fault::Length.into());
    }
    if !is_base(base) {
        return Err(Fault::OtherBase.into());
    }
    if byte_at(s, 0) != STX {
        return Err(Fault::Byte(0).into());
    }
    if s.len() == Meinberg::LENGTH {
        let (reading, coasting) = meinberg::read::for_clock_string(base, s)?;
        return Ok(Told::Meinberg(reading, coasting));
    }
    let (reading, coasting) = erlangen::read::for_clock_string(base, s)?;
    Ok(Told::Erlangen(reading, coasting))
}

// The position bytes as a part of the caller's own string; empty for a Meinberg string, and for one that is refused, as every one
// is with another base than the two.
pub fn position_part(base: u16, s: &[u8]) -> &[u8]
    ensures result_value { result.now ≡ position_of base s.now }
    ensures ref_ptr_value { result.ref_ptr ≡ (s.entry.ref_ptr.0, start_for (read_string base s.now) + s.entry.ref_ptr.1) }
{
    // a Meinberg string need not be read for that
    if s.len() == Meinberg::LENGTH {
        return &s[0..0];
    }
    match erlangen::read::for_clock_string(base, s) {
        Ok(_) => &s[41..Erlangen::LAST],
        Err(_) => &s[0..0],
    }
}
