// What every format on the wire needs once: what may stand at each place of a string, decimal digits, and storing bytes
// into a lent buffer. Every function takes any value and answers as the definitions of specs/ say.
#![tactic(auto)]

pub mod digits;
pub mod layout;
pub mod put;
