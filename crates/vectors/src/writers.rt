// What the writers, the bridge and the sender answer, and the whole lent buffer afterwards.
use super::op::{Bad, Writer};
use super::print::{print_hex, print_word};
use super::words::Words;
use bridge::{bridge, bridge_with};
use dcf77::Dcf77;
use erlangen::Erlangen;
use irig::Ieee1344;
use meinberg::Meinberg;
use payloads::{pair_at, reading_in, sender_in, sent_in, way_in};
use reading::Refusal;

// Where a payload says how many bytes are lent.
fn room_at(writer: Writer) -> usize {
    match writer {
        Writer::Bridge | Writer::BridgeByWay => 0,
        Writer::Telegram => 19,
        Writer::Meinberg | Writer::Erlangen | Writer::Frame | Writer::Minute => 14,
    }
}

// A telegram, from what a plant configures, the minute that is being sent and a head.
fn send(base: u16, payload: &[u8], buffer: &mut [u8]) -> Result<usize, Refusal> {
    let sender = sender_in(payload);
    sender.write(base, sent_in(payload), pair_at(payload, 17), buffer)
}

// What is written from a payload; nothing where it is too short or names no way. The formats' writers take a reading, the coasting
// mark or the head beside it, and the position part.
fn write(
    base: u16,
    writer: Writer,
    payload: &[u8],
    buffer: &mut [u8],
) -> Option<Result<usize, Refusal>> {
    let reading = reading_in(payload);
    let beside = pair_at(payload, 12);
    let answer = match writer {
        Writer::Meinberg => Meinberg::write(base, reading, beside != 0, buffer),
        Writer::Erlangen => Erlangen::write(base, reading, beside != 0, payload.get(15..)?, buffer),
        Writer::Frame => Ieee1344::write(base, reading, buffer),
        Writer::Minute => Dcf77::write(base, reading, beside, buffer),
        Writer::Bridge => bridge(base, payload.get(1..)?, buffer),
        Writer::BridgeByWay => bridge_with(base, payload.get(2..)?, way_in(payload)?, buffer),
        Writer::Telegram => send(base, payload, buffer),
    };
    Some(answer)
}

// A payload that has the byte for the room has all that is needed, but for a way. Each byte of the buffer was 165 before.
pub(crate) fn written(base: u16, writer: Writer, payload: &[u8]) -> Result<(), Bad> {
    let mut space = [165u8; 256];
    let room = payload.get(room_at(writer)).ok_or(Bad)?;
    let lent = &mut space[..usize::from(*room)];
    let answer = write(base, writer, payload, lent).ok_or(Bad)?;
    answer.print(b' ');
    print_word(b" ");
    print_hex(lent);
    Ok(())
}
