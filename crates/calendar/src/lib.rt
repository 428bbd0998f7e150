// The calendar that everything else rests on: valid dates, the number of a day, its weekday, its neighbours, and its
// place in the year. Every function takes any value and answers as the definitions of specs/Calendar.antt say.
#![tactic(auto)]

pub mod days;
pub mod months;
pub mod neighbours;

// A date, or any three numbers in the place of one.
#[derive(Clone, Copy, Debug, PartialEq, Eq, Hash, PartialOrd, Ord)]
pub struct Date {
    pub year: u16,
    pub month: u8,
    pub day: u8,
}

// A place within a year.
#[derive(Clone, Copy, Debug, PartialEq, Eq, Hash, PartialOrd, Ord)]
pub struct MonthDay {
    pub month: u8,
    pub day: u8,
}
