// A book of records: a byte of kind, then a body whose length the kind fixes. `record_at` and `next_at` take a book and
// any place in it; a `Walk` is an iterator over the records of a lent book; `stamps` gives a record its stamp. What reads or stamps
// takes the base. Every public function takes any input and answers as the definitions of specs/ say.
#![tactic(auto)]

ghost use Rattle.std.specs.Prelude.{◌≡◌};
ghost use Rattle.book.specs.Book.{said_of, record_at, next_at};
ghost use Rattle.book.specs.Walking.{walk_over, turned, Turns, at_most_bytes};

use body::Kind;
use reading::{Fault, Reading, Refusal, Since2000};

mod body;
pub mod stamps;

// A record of a book: its kind, and the reading of an accepted body, or why it is refused. An accepted body may still have no stamp. The
// kind is the byte as it stands, since a record of an unknown kind is listed with that number; `Kind` has the five that are known.
#[derive(Clone, Copy, Debug, PartialEq, Eq)]
pub struct Record {
    pub kind: u8,
    pub said: Result<Reading, Refusal>,
}

// A record as it is listed: the kind with the stamp of an accepted body, or with the refusal of the body or of its stamp.
#[derive(Clone, Copy, Debug, PartialEq, Eq)]
pub struct Stamping {
    pub kind: u8,
    pub stamp: Result<Since2000, Refusal>,
}

// What is said of the bytes behind a byte of kind, of which the first are the record's body: it starts in the middle of the book.
#[tactic(auto, unfolding(crate::specs::Book::said_of), using(crate::proofs::PlaceLaws::named_known))]
fn said_of(base: u16, kind: u8, behind: &[u8]) -> Result<Reading, Refusal>
    ensures { result ≡ said_of base kind behind.now }
{
    let kind = Kind::try_from(kind)?;
    let length = kind.body_length();
    if behind.len() < length {
        return Err(Fault::CutShort.into());
    }
    kind.read(base, &behind[..length])
}

// Nothing stands past the end.
#[tactic(auto, unfolding(crate::specs::Book::record_at), using(crate::proofs::PlaceLaws::standing_is, std::proofs::lemmas::List::take_rest))]
pub fn record_at(base: u16, book: &[u8], at: usize) -> Option<Record>
    ensures { result ≡ record_at base book.now at }
{
    if book.len() <= at {
        return None;
    }
    let kind = book[at];
    Some(Record {
        kind,
        said: said_of(base, kind, &book[at + 1..]),
    })
}

// Past the record, also where its body is refused; the book's end where the walk stops.
#[tactic(auto, unfolding(crate::specs::Book::next_at), using(crate::proofs::PlaceLaws::named_known))]
pub fn next_at(book: &[u8], at: usize) -> usize
    ensures { result ≡ next_at book.now at }
{
    if book.len() <= at {
        return book.len();
    }
    match Kind::try_from(book[at]) {
        Ok(kind) => {
            let length = kind.body_length();
            let start = at + 1;
            // by subtraction: the sum of a place and a length may not fit
            if book.len() - start < length {
                return book.len();
            }
            start + length
        }
        Err(_) => book.len(),
    }
}

// A walk over a lent book, with the base that its readings are read with.
#[derive(Clone, Copy, Debug, PartialEq, Eq)]
pub struct Walk<'a> {
    pub book: &'a [u8],
    pub at: usize,
    pub base: u16,
}

// What stood at a walk's place, and the walk past it.
#[derive(Clone, Copy, Debug, PartialEq, Eq)]
pub struct Taken<'a> {
    pub walk: Walk<'a>,
    pub found: Option<Record>,
}

impl<'a> Walk<'a> {
    // A walk at the book's start. Any base is taken here, and one that is none refused with each whole body.
    pub fn over(base: u16, book: &'a [u8]) -> Self
        ensures { result ≡ walk_over base book.entry }
    {
        Walk { book, at: 0, base }
    }

    // What stands at the walk's place, and the walk over the same book past it: a step by value, beside `next`, since
    // docs/PROMISES.md names it and `turn_finds` speaks of both that it gives.
    pub fn turn(self) -> Taken<'a>
        ensures { result ≡ turned self.entry }
    {
        let found = record_at(self.base, self.book, self.at);
        let at = next_at(self.book, self.at);
        Taken {
            walk: Walk { at, ..self },
            found,
        }
    }
}

// The records from the walk's place on, one a turn. There are no more of them than bytes.
impl<'a> Iterator for Walk<'a> {
    type Item = Record;

    ghost next_gives = { Turns };

    ghost remaining = { at_most_bytes };

    fn next(&mut self) -> Option<Record> {
        let Taken { walk, found } = self.turn();
        *self = walk;
        found
    }
}

// The first record of a book. Who calls it needs no walk.
pub fn first(base: u16, book: &[u8]) -> Option<Record>
    ensures { result ≡ record_at base book.now 0 }
{
    Walk::over(base, book).next()
}
