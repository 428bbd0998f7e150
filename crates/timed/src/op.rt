// The operations that can be asked for, each by its number in the first byte of the input.

// What is done with each record.
#[derive(Clone, Copy, Debug, PartialEq, Eq)]
pub(crate) enum Each {
    Measure,
    ReadString,
    ReadFrame,
    ReadMinute,
    Bridge,
    BridgeDropping,
    Telegram,
}

// What is written of the reading in each record.
#[derive(Clone, Copy, Debug, PartialEq, Eq)]
pub(crate) enum Writer {
    Meinberg,
    Erlangen,
    Frame,
    Minute,
    // nothing: the readings are taken apart alone
    Idle,
}

#[derive(Clone, Copy, Debug, PartialEq, Eq)]
pub(crate) enum Op {
    Each(Each),
    Write(Writer),
    FramePulses,
    MinutePulses,
}

// A number that is none of these measures the records: the loop over them alone.
impl From<u8> for Op {
    fn from(number: u8) -> Self {
        match number {
            1 => Op::Each(Each::ReadString),
            3 => Op::Each(Each::ReadFrame),
            4 => Op::Each(Each::ReadMinute),
            5 => Op::Write(Writer::Meinberg),
            6 => Op::Write(Writer::Erlangen),
            7 => Op::Write(Writer::Frame),
            8 => Op::Write(Writer::Minute),
            9 => Op::Write(Writer::Idle),
            11 => Op::FramePulses,
            12 => Op::MinutePulses,
            13 => Op::Each(Each::Bridge),
            14 => Op::Each(Each::BridgeDropping),
            15 => Op::Each(Each::Telegram),
            _ => Op::Each(Each::Measure),
        }
    }
}
