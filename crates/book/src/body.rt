// The kinds of record: how long a kind makes its body, and what the kind's reader says of one.
ghost use Rattle.std.specs.Prelude.{◌≡◌};
ghost use Rattle.book.specs.Body.{byte_of, Names, body_length, read_body};

use clock_string::read;
use dcf77::Dcf77;
use erlangen::Erlangen;
use irig::Ieee1344;
use meinberg::Meinberg;
use reading::{Fault, Reading, Refusal};

// What a body is, by the byte that stands before it.
#[derive(Clone, Copy, Debug, PartialEq, Eq)]
pub(crate) enum Kind {
    Meinberg,
    Erlangen,
    Frame,
    Minute,
    LongMinute,
}

impl TryFrom<u8> for Kind {
    type Error = Fault;

    ghost try_from_gives = { Names };

    #[tactic(auto, unfolding(crate::specs::Body::body_length))]
    fn try_from(byte: u8) -> Result<Self, Fault> {
        match byte {
            1 => Ok(Kind::Meinberg),
            2 => Ok(Kind::Erlangen),
            3 => Ok(Kind::Frame),
            4 => Ok(Kind::Minute),
            5 => Ok(Kind::LongMinute),
            _ => Err(Fault::UnknownKind),
        }
    }
}

impl Kind {
    #[tactic(auto, unfolding(crate::specs::Body::body_length))]
    pub(crate) fn body_length(self) -> usize
        ensures { result ≡ body_length (byte_of self) }
    {
        match self {
            Kind::Meinberg => Meinberg::LENGTH,
            Kind::Erlangen => Erlangen::LENGTH,
            Kind::Frame => Ieee1344::LENGTH,
            Kind::Minute => Dcf77::LENGTH,
            Kind::LongMinute => Dcf77::LONG_LENGTH,
        }
    }

    // The time alone, without the coasting mark or the head that stands beside it.
    #[tactic(auto, unfolding(crate::specs::Body::read_body))]
    pub(crate) fn read(self, base: u16, body: &[u8]) -> Result<Reading, Refusal>
        ensures { result ≡ read_body base (byte_of self) body.now }
    {
        match self {
            Kind::Meinberg | Kind::Erlangen => Ok(read(base, body)?.timed().0),
            Kind::Frame => Ieee1344::read(base, body),
            Kind::Minute | Kind::LongMinute => Ok(Dcf77::read(base, body)?.0),
        }
    }
}
