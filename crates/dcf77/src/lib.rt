// The minute of DCF77: the marks that name the minute which starts after them. Every public function takes any value and
// answers as the definitions of specs/ say.
#![tactic(auto)]

mod reader;
mod rules;
mod writer;
pub mod zones;

// The format, in its form of 60 marks and in that of 61.
#[derive(Clone, Copy, Debug, PartialEq, Eq)]
pub struct Dcf77 {}

impl Dcf77 {
    pub const LENGTH: usize = 60;

    pub const LAST: usize = 59;

    pub const LONG_LENGTH: usize = 61;

    pub const LONG_LAST: usize = 60;

    // The largest head: fifteen marks.
    pub const LAST_HEAD: u16 = 32767;
}
