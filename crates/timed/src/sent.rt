// A telegram from what a record holds: a rule of summer time, the minute that is being sent, a leap second, a head and the room that
// is lent.
ghost use Rattle.std.specs.Prelude.{◌≤◌, length};

use super::answers::Answer;
use payloads::{pair_at, sender_in, sent_in};

const LENGTH: usize = 20;

fn send(base: u16, record: &[u8], out: &mut [u8]) -> u64 {
    sender_in(record)
        .write(base, sent_in(record), pair_at(record, 17), out)
        .sum()
}

// The sender is lent as many bytes of the page as the record says.
pub(crate) fn written(base: u16, record: &[u8], page: &mut [u8]) -> u64 {
    if record.len() < LENGTH {
        return 0;
    }
    let room = page.len().min(usize::from(record[19]));
    send(base, record, &mut page[..room])
}
