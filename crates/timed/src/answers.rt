// A number made of every part of an answer, so that no part can be left out. A length or a place is a `usize`, and counts by
// `as u64`, since `u64` has no `From<usize>`.
use clock_string::Told;
use reading::{Reading, Refusal};

pub(crate) trait Answer {
    fn sum(self) -> u64;
}

impl Answer for usize {
    fn sum(self) -> u64 {
        self as u64
    }
}

impl Answer for Refusal {
    fn sum(self) -> u64 {
        (256 * u64::from(self.code)).wrapping_add(self.place as u64)
    }
}

fn three(a: u64, b: u64, c: u64) -> u64 {
    a.wrapping_add(b).wrapping_add(c)
}

fn of_date(r: Reading) -> u64 {
    three(u64::from(r.year), u64::from(r.month), u64::from(r.day))
}

fn of_clock(r: Reading) -> u64 {
    let clock = three(u64::from(r.hour), u64::from(r.minute), u64::from(r.second));
    three(
        clock,
        u64::from(r.offset.east()),
        u64::from(r.offset.west()),
    )
}

fn of_flags(r: Reading) -> u64 {
    let flags = three(u64::from(r.summer), u64::from(r.leap), u64::from(r.change));
    flags.wrapping_add(u64::from(r.quality))
}

impl Answer for Reading {
    fn sum(self) -> u64 {
        three(of_date(self), of_clock(self), of_flags(self))
    }
}

// A minute with its head.
impl Answer for (Reading, u16) {
    fn sum(self) -> u64 {
        self.0.sum().wrapping_add(u64::from(self.1))
    }
}

// Meinberg's string counts 1 and Uni Erlangen's 2, as the kinds of a book do.
impl Answer for Told {
    fn sum(self) -> u64 {
        match self {
            Told::Meinberg(r, coasting) => three(r.sum(), u64::from(coasting), 1),
            Told::Erlangen(r, coasting) => three(r.sum(), u64::from(coasting), 2),
        }
    }
}

impl<T: Answer> Answer for Result<T, Refusal> {
    fn sum(self) -> u64 {
        match self {
            Ok(answer) => answer.sum(),
            Err(refusal) => refusal.sum(),
        }
    }
}

// Nothing that is said counts 0.
impl<T: Answer> Answer for Option<T> {
    fn sum(self) -> u64 {
        match self {
            Some(answer) => answer.sum(),
            None => 0,
        }
    }
}
