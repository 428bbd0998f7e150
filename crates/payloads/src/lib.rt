// What a string of bytes holds that asks for something to be written: a reading in its first twelve bytes, what a telegram is made
// of, or what becomes of a coasting mark. A byte past the end is 0, so that every function takes any input.
#![tactic(auto)]

ghost use Rattle.std.specs.Prelude.{◌≡◌};
ghost use Rattle.payloads.specs.Payload.{flag_at, pair_at, signed, reading_in};

pub use telegrams::{leap_in, rule_in, sender_in, sent_in};
pub use way::way_in;

mod telegrams;
mod way;

use reading::{LocalMinusUtc, Reading};
use wire::layout::byte_at;

// A flag, which any byte but 0 sets.
pub fn flag_at(payload: &[u8], at: usize) -> bool
    ensures { result ≡ flag_at payload.now at }
{
    byte_at(payload, at) != 0
}

// Two bytes, the lower first.
#[tactic(auto, using(crate::proofs::ByteLaws::two_bytes, crate::proofs::ByteLaws::past_end))]
pub fn pair_at(payload: &[u8], at: usize) -> u16
    ensures { result ≡ pair_at payload.now at }
{
    if at < payload.len() {
        return u16::from_le_bytes([byte_at(payload, at), byte_at(payload, at + 1)]);
    }
    0
}

// An offset as a signed byte: from 128 on it stands for 256 less.
#[tactic(auto, using(crate::proofs::ByteLaws::two_complement))]
fn offset(byte: u8) -> LocalMinusUtc
    ensures { result ≡ record { 0 = signed byte } }
{
    LocalMinusUtc(byte.cast_signed())
}

// The reading in the first twelve bytes.
#[tactic(auto, unfolding(crate::specs::Payload::reading_in))]
pub fn reading_in(payload: &[u8]) -> Reading
    ensures { result ≡ reading_in payload.now }
{
    Reading {
        year: pair_at(payload, 0),
        month: byte_at(payload, 2),
        day: byte_at(payload, 3),
        hour: byte_at(payload, 4),
        minute: byte_at(payload, 5),
        second: byte_at(payload, 6),
        offset: offset(byte_at(payload, 7)),
        summer: flag_at(payload, 8),
        leap: flag_at(payload, 9),
        change: flag_at(payload, 10),
        quality: byte_at(payload, 11),
    }
}
