// A clock reading that knows no format: its fields, the two senses of offset, what can be wrong with it, its UTC and its
// stamp. Every public function takes any value and answers as the definitions of specs/ say; a base year is any number, and
// stamping refuses one that is neither of the two, as every reader and every writer does.
#![tactic(auto)]

ghost use Rattle.std.specs.Prelude.{◌≡◌};
ghost use Rattle.reading.specs.Universal.{date_of};

use calendar::Date;

pub mod checks;
pub mod faults;
pub mod leap;
pub mod offsets;
pub mod stamps;
pub mod universal;
pub mod years;

// Local time minus UTC, in quarter hours: what strings and readings say.
#[derive(Clone, Copy, Debug, PartialEq, Eq)]
pub struct LocalMinusUtc(pub i8);

// What is added to local time to give UTC, in quarter hours too: the sense of IEEE 1344. Wider, so that every offset has its
// opposite.
#[derive(Clone, Copy, Debug, PartialEq, Eq)]
pub struct AddedToLocal(pub i16);

// A clock's time. Every value of it is legal; which values are a time is said by `checks::checked`.
#[derive(Clone, Copy, Debug, PartialEq, Eq)]
pub struct Reading {
    pub year: u16,
    pub month: u8,
    pub day: u8,
    pub hour: u8,
    pub minute: u8,
    pub second: u8,
    pub offset: LocalMinusUtc,
    pub summer: bool,
    // a leap second is announced
    pub leap: bool,
    // a change of the offset is announced
    pub change: bool,
    // 0 locked, 15 failed
    pub quality: u8,
}

impl Reading {
    // The day that a clock shows.
    pub fn date(self) -> Date
        ensures { result ≡ date_of self }
    {
        Date {
            year: self.year,
            month: self.month,
            day: self.day,
        }
    }
}

// The UTC day and minute of the day, 0..1439.
#[derive(Clone, Copy, Debug, PartialEq, Eq, Hash, PartialOrd, Ord)]
pub struct Utc {
    pub date: Date,
    pub minute: u16,
}

// What can be wrong, with the place of the field where there is one.
#[derive(Clone, Copy, Debug, PartialEq, Eq)]
pub enum Fault {
    Length,
    Byte(usize),
    Digit(usize),
    Parity(usize),
    Time(usize),
    Date(usize),
    QualityOrHead(usize),
    Weekday(usize),
    SecondOfDay(usize),
    Offset(usize),
    LeapSecond(usize),
    Deletion(usize),
    NotCarried,
    OutsideYears,
    SummerRule,
    OtherBase,
    CutShort,
    UnknownKind,
}

// A code of document 01 and the place that goes with it. The code is a number, since `Refusals.Owed` speaks of it as one; what is
// wrong inside is a `Fault`.
#[derive(Clone, Copy, Debug, PartialEq, Eq)]
pub struct Refusal {
    pub code: u8,
    pub place: usize,
}

// The stamp of a UTC second: how far it lies from the start of 2000, below zero before it.
#[derive(Clone, Copy, Debug, PartialEq, Eq, Hash, PartialOrd, Ord)]
pub struct Since2000(pub i64);
