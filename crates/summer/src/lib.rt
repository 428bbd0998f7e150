// Summer time by a plant's own rule: the two days of a year on which it begins and ends, whether it is summer, and in which
// minutes a change is announced. Every function takes any value and answers as the definitions of specs/ say.
#![tactic(auto)]

pub mod changes;
pub mod rules;

ghost use Rattle.std.specs.Prelude.{◌≡◌};
ghost use Rattle.summer.specs.Changes.{set_date};

use calendar::Date;

// A date of every year and a weekday, 1 for Monday: it stands for the first day at or after the date that falls on the weekday.
#[derive(Clone, Copy, Debug, PartialEq, Eq, Hash, PartialOrd, Ord)]
pub struct SetDay {
    pub month: u8,
    pub day: u8,
    pub weekday: u8,
}

impl SetDay {
    // The set date in a year.
    fn date_in(self, year: u16) -> Date
        ensures { result ≡ set_date self year }
    {
        let SetDay { month, day, .. } = self;
        Date { year, month, day }
    }
}

// Summer time begins and ends at 01:00 UTC of these days.
#[derive(Clone, Copy, Debug, PartialEq, Eq, Hash, PartialOrd, Ord)]
pub struct SummerRule {
    pub start: SetDay,
    pub end: SetDay,
}
