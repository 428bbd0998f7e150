// The stamp of a reading.
use super::op::Bad;
use super::words::Words;
use payloads::reading_in;
use reading::stamps::stamp_of;

pub(crate) fn stamped(base: u16, payload: &[u8]) -> Result<(), Bad> {
    if payload.len() < 12 {
        return Err(Bad);
    }
    stamp_of(base, reading_in(payload)).print(b' ');
    Ok(())
}
