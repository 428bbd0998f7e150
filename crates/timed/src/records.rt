// Reading each record, bridging it, or sending what it says.
ghost use Rattle.std.specs.Prelude.{◌<◌};

use super::answers::Answer;
use super::op::Each;
use super::sent;
use bridge::{Coasting, bridge, bridge_with};
use clock_string::read;
use dcf77::Dcf77;
use irig::Ieee1344;

fn once(base: u16, each: Each, record: &[u8], page: &mut [u8]) -> u64 {
    match each {
        Each::Measure => record.len().sum(),
        Each::ReadString => read(base, record).sum(),
        Each::ReadFrame => Ieee1344::read(base, record).sum(),
        Each::ReadMinute => Dcf77::read(base, record).sum(),
        Each::Bridge => bridge(base, record, page).sum(),
        Each::BridgeDropping => bridge_with(base, record, Coasting::Dropped, page).sum(),
        Each::Telegram => sent::written(base, record, page),
    }
}

// The length that the records are cut by; the last may be shorter. Where none is given they are one record.
pub(crate) fn length_of_each(given: u8, records: &[u8]) -> usize
    ensures { 0 < result }
{
    if given == 0 {
        return records.len().max(1);
    }
    usize::from(given)
}

pub(crate) fn over(base: u16, each: Each, length: u8, records: &[u8], page: &mut [u8]) -> u64 {
    let mut sum: u64 = 0;
    for record in records.chunks(length_of_each(length, records)) {
        sum = sum.wrapping_add(once(base, each, record, page));
    }
    sum
}
