// The listing of a book as text in a lent buffer: a header, then a line a record.
#![tactic(auto)]

ghost use Rattle.std.specs.Prelude.{◌≡◌, length};
ghost use Rattle.reading.specs.Writing.{written_of, filled};
ghost use Rattle.book.specs.Book.{records};
ghost use Rattle.listing.specs.Listing.{field, stamp_field, found_text, line_at, lines_of, whole_refused, body_text, listing, room_fault};
ghost use Rattle.listing.specs.Pages.{HasRoom, Writes};

use book::stamps::stamping_of;
use book::{Stamping, next_at, record_at};
use reading::years::is_base;
use reading::{Fault, Refusal, Since2000};
use text::put_decimal;
use wire::put::put_at;

// A longer book is not listed.
pub const LARGEST_BOOK: usize = 65536;

// A buffer of this many bytes holds every listing.
pub const ROOM: usize = 262144;

// A lent buffer that text is written into. Each `put` writes behind what is there, and asks for the room. They are inlined by
// hand: without it a listed record costs 37 instructions more, since the page is then stored and loaded again around each word.
#[derive(Drop)]
struct Page<'a> {
    bytes: &'a mut [u8],
    end: usize,
}

impl Page<'_> {
    #[inline(always)]
    fn put(&mut self, word: &[u8])
        requires { HasRoom word.now self.old }
        ensures { Writes word.now self.old self.new }
    {
        put_at(self.bytes, self.end, word);
        self.end += word.len();
    }

    // A number's digits, and what stands behind them.
    fn put_number(&mut self, number: u64, behind: &[u8])
        requires { HasRoom (field number behind.now) self.old }
        ensures { Writes (field number behind.now) self.old self.new }
    {
        self.end += put_decimal(self.bytes, self.end, number);
        self.put(behind);
    }

    // The same of a stamp, with a minus before what lies below zero.
    #[inline(always)]
    fn put_stamp(&mut self, stamp: Since2000, behind: &[u8])
        requires { HasRoom (stamp_field stamp.0 behind.now) self.old }
        ensures { Writes (stamp_field stamp.0 behind.now) self.old self.new }
    {
        if stamp.is_before() {
            self.put(b"-");
        }
        self.put_number(stamp.distance(), behind);
    }

    #[inline(always)]
    fn put_found(&mut self, found: Stamping)
        requires { HasRoom (found_text found.kind found.stamp) self.old }
        ensures { Writes (found_text found.kind found.stamp) self.old self.new }
    {
        let kind = u64::from(found.kind);
        match found.stamp {
            Ok(stamp) => {
                self.put_number(kind, b" ok ");
                self.put_stamp(stamp, b" 0\n");
            }
            Err(refusal) => {
                self.put_number(kind, b" no ");
                self.put_number(u64::from(refusal.code), b" ");
                self.put_number(refusal.place as u64, b"\n");
            }
        }
    }

    // The line of what was found at a place of a book.
    #[inline(always)]
    fn put_line(&mut self, place: usize, found: Stamping)
        requires { HasRoom (line_at place found) self.old }
        ensures { Writes (line_at place found) self.old self.new }
    {
        self.put_number(place as u64, b" ");
        self.put_found(found);
    }

    // The lines of all the records of a book. A line says the place of its record, which a `for` over a `Walk` does not give.
    #[inline(always)]
    fn put_records(&mut self, base: u16, book: &[u8])
        requires { HasRoom (lines_of base (records base book.now)) self.old }
        ensures { Writes (lines_of base (records base book.now)) self.old self.new }
    {
        let mut at = 0;
        while let Some(found) = record_at(base, book, at) {
            self.put_line(at, stamping_of(base, found));
            at = next_at(book, at);
        }
    }

    // The line that says what is wrong with a book as a whole.
    fn put_whole_refused(&mut self, fault: Fault)
        requires { HasRoom (whole_refused fault) self.old }
        ensures { Writes (whole_refused fault) self.old self.new }
    {
        let refused = Stamping {
            kind: 0,
            stamp: Err(fault.into()),
        };
        self.put_line(0, refused);
    }

    #[inline(always)]
    fn put_body(&mut self, base: u16, book: &[u8])
        requires { HasRoom (body_text base book.now) self.old }
        ensures { Writes (body_text base book.now) self.old self.new }
    {
        if LARGEST_BOOK < book.len() {
            return self.put_whole_refused(Fault::Length);
        }
        if !is_base(base) {
            return self.put_whole_refused(Fault::OtherBase);
        }
        self.put_records(base, book);
    }
}

// The listing of any book with any base, from the start of a buffer that holds every listing; a smaller buffer is left as it was.
pub fn list(base: u16, book: &[u8], out: &mut [u8]) -> Result<usize, Refusal>
    ensures value { result ≡ written_of (room_fault (length out.old)) (length (listing base book.now)) }
    ensures out_after { out.new ≡ filled (room_fault (length out.old)) (listing base book.now) out.old }
{
    if out.len() < ROOM {
        return Err(Fault::Length.into());
    }
    let mut page = Page { bytes: out, end: 0 };
    page.put(b"at kind answer value place\n");
    page.put_body(base, book);
    Ok(page.end)
}
