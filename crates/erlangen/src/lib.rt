// Uni Erlangen strings, 68 bytes: their length and their writer (`writing`); `clock_string` reads them. Every public function
// takes any input and answers as the definitions of specs/ say.
#![tactic(auto)]

mod layout;
mod offset;
pub mod read;
mod writing;

// The format.
#[derive(Clone, Copy, Debug, PartialEq, Eq)]
pub struct Erlangen {}

impl Erlangen {
    pub const LENGTH: usize = 68;

    pub const LAST: usize = 67;
}
