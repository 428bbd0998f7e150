// An answer in words: a time and its fields, a length, a stamp, or a refusal. A trait of this program's own and no `Display`, which would
// have to stand in the crate of each type, with the words of this program.
use super::print::{print_number, print_signed, print_word};
use clock_string::Told;
use reading::{Reading, Refusal, Since2000};

pub(crate) trait Words {
    // The mark stands between the words.
    fn print(self, mark: u8);
}

fn print_fields(mark: u8, r: Reading) {
    print_number(mark, u64::from(r.year));
    print_number(mark, u64::from(r.month));
    print_number(mark, u64::from(r.day));
    print_number(mark, u64::from(r.hour));
    print_number(mark, u64::from(r.minute));
    print_number(mark, u64::from(r.second));
    print_signed(mark, i64::from(r.offset.0));
    print_number(mark, u64::from(r.summer));
    print_number(mark, u64::from(r.leap));
    print_number(mark, u64::from(r.change));
    print_number(mark, u64::from(r.quality))
}

impl Words for Reading {
    fn print(self, mark: u8) {
        print_word(b"time");
        print_fields(mark, self)
    }
}

// A minute with its head.
impl Words for (Reading, u16) {
    fn print(self, mark: u8) {
        let (reading, head) = self;
        reading.print(mark);
        print_number(mark, u64::from(head))
    }
}

fn print_string(name: &[u8], mark: u8, r: Reading, coasting: bool) {
    print_word(name);
    print_fields(mark, r);
    print_number(mark, u64::from(coasting))
}

impl Words for Told {
    fn print(self, mark: u8) {
        match self {
            Told::Meinberg(r, coasting) => print_string(b"meinberg", mark, r, coasting),
            Told::Erlangen(r, coasting) => print_string(b"erlangen", mark, r, coasting),
        }
    }
}

// The length that a writer tells.
impl Words for usize {
    fn print(self, mark: u8) {
        print_word(b"wrote");
        print_number(mark, self as u64)
    }
}

impl Words for Since2000 {
    fn print(self, mark: u8) {
        print_word(b"at");
        print_signed(mark, self.0)
    }
}

impl Words for Refusal {
    fn print(self, mark: u8) {
        print_word(b"no");
        print_number(mark, u64::from(self.code));
        print_number(mark, self.place as u64)
    }
}

impl<T: Words> Words for Result<T, Refusal> {
    fn print(self, mark: u8) {
        match self {
            Ok(answer) => answer.print(mark),
            Err(refusal) => refusal.print(mark),
        }
    }
}
