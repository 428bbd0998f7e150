// The number and place of a fault: the refusal that it makes.
ghost use Rattle.std.specs.Prelude.{◌≡◌};
ghost use Rattle.reading.specs.Faults.{code_of, place_of, number};

use super::{Fault, Refusal};

impl Fault {
    fn code(self) -> u8
        ensures { result ≡ code_of self }
    {
        match self {
            Fault::Length => 1,
            Fault::Byte(_) => 2,
            Fault::Digit(_) => 3,
            Fault::Parity(_) => 4,
            Fault::Time(_) => 15,
            Fault::Date(_) => 16,
            Fault::QualityOrHead(_) => 17,
            Fault::Weekday(_) => 6,
            Fault::SecondOfDay(_) => 7,
            Fault::Offset(_) => 8,
            Fault::LeapSecond(_) => 9,
            Fault::Deletion(_) => 10,
            Fault::NotCarried => 11,
            Fault::OutsideYears => 12,
            Fault::SummerRule => 18,
            Fault::OtherBase => 19,
            Fault::CutShort => 13,
            Fault::UnknownKind => 14,
        }
    }

    // 0 where a fault has none of its own.
    fn place(self) -> usize
        ensures { result ≡ place_of self }
    {
        match self {
            Fault::Byte(place)
            | Fault::Digit(place)
            | Fault::Parity(place)
            | Fault::Time(place)
            | Fault::Date(place)
            | Fault::QualityOrHead(place)
            | Fault::Weekday(place)
            | Fault::SecondOfDay(place)
            | Fault::Offset(place)
            | Fault::LeapSecond(place)
            | Fault::Deletion(place) => place,
            Fault::Length
            | Fault::NotCarried
            | Fault::OutsideYears
            | Fault::SummerRule
            | Fault::OtherBase
            | Fault::CutShort
            | Fault::UnknownKind => 0,
        }
    }
}

// By which `?` makes a refusal of a fault.
impl From<Fault> for Refusal {
    ghost from_gives = { λ fault refusal. refusal ≡ number fault };

    #[tactic(auto, unfolding(crate::specs::Faults::number))]
    fn from(fault: Fault) -> Self {
        Refusal {
            code: fault.code(),
            place: fault.place(),
        }
    }
}
