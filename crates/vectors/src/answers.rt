// The line that answers a case: which function is asked, by what the case asks for. What a bad case gets is for the caller to
// print: nothing is printed of one here.
use super::changes::every_change;
use super::fed::fed;
use super::listed::listed;
use super::op::{Bad, Op};
use super::readers::print_read;
use super::stamped::stamped;
use super::table::tabled;
use super::writers::written;
use dcf77_stream::Minutes;
use irig_stream::Frames;

// The page is lent to what makes a listing.
pub(crate) fn answer(page: &mut [u8], op: Op, base: u16, payload: &[u8]) -> Result<(), Bad> {
    match op {
        Op::Read(reader) => print_read(base, reader, payload),
        Op::Write(writer) => written(base, writer, payload)?,
        Op::Stamp => stamped(base, payload)?,
        Op::FeedFrames => fed::<Frames, 100>(base, payload),
        Op::FeedMinutes => fed::<Minutes, 62>(base, payload),
        Op::List => listed(base, page, payload)?,
        Op::Table => tabled(),
        Op::Change(reader) => every_change(base, reader, payload)?,
    }
    Ok(())
}
