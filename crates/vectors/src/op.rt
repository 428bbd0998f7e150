// What a case can ask for, by the number that stands first in it. second/README.md says what each means.

// A reader, by the input that it takes: either clock string, an IEEE 1344 frame or a DCF77 minute.
#[derive(Clone, Copy, Debug, PartialEq, Eq)]
pub(crate) enum Reader {
    String,
    Frame,
    Minute,
}

// What writes into a lent buffer. Only where a way is named does a payload say what becomes of a coasting mark.
#[derive(Clone, Copy, Debug, PartialEq, Eq)]
pub(crate) enum Writer {
    Meinberg,
    Erlangen,
    Frame,
    Minute,
    Bridge,
    BridgeByWay,
    Telegram,
}

#[derive(Clone, Copy, Debug, PartialEq, Eq)]
pub(crate) enum Op {
    Read(Reader),
    Write(Writer),
    Stamp,
    FeedFrames,
    FeedMinutes,
    List,
    Table,
    Change(Reader),
}

// A case that is none: its number is no operation's, or its payload is too short, too long or names no way.
#[derive(Clone, Copy, Debug, PartialEq, Eq)]
pub(crate) struct Bad;

impl TryFrom<u8> for Op {
    type Error = Bad;

    fn try_from(number: u8) -> Result<Self, Bad> {
        match number {
            1 => Ok(Op::Read(Reader::String)),
            3 => Ok(Op::Read(Reader::Frame)),
            4 => Ok(Op::Read(Reader::Minute)),
            5 => Ok(Op::Write(Writer::Meinberg)),
            6 => Ok(Op::Write(Writer::Erlangen)),
            7 => Ok(Op::Write(Writer::Frame)),
            8 => Ok(Op::Write(Writer::Minute)),
            9 => Ok(Op::Stamp),
            10 => Ok(Op::Write(Writer::Bridge)),
            11 => Ok(Op::FeedFrames),
            12 => Ok(Op::FeedMinutes),
            13 => Ok(Op::List),
            14 => Ok(Op::Table),
            15 => Ok(Op::Write(Writer::Telegram)),
            16 => Ok(Op::Write(Writer::BridgeByWay)),
            20 => Ok(Op::Change(Reader::String)),
            22 => Ok(Op::Change(Reader::Frame)),
            23 => Ok(Op::Change(Reader::Minute)),
            _ => Err(Bad),
        }
    }
}
