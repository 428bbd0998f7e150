// Decimal digits: what a byte and a pair of bytes stand for, and the two bytes of a number.
ghost use Rattle.std.specs.Prelude.{◌≡◌, ◌<◌, ◌≤◌, get_or};
ghost use Rattle.wire.specs.Digits.{digit, pair, tens, ones};

// Past the end it is the digit 0.
#[tactic(auto, unfolding(crate::specs::Digits::digit))]
pub fn one_digit(text: &[u8], at: usize) -> u8
    ensures value { result ≡ digit (get_or text.now at 0) }
    ensures upper_bound { result < 16 }
{
    text.get(at).copied().unwrap_or(0) % 16
}

// Two digits, the tens first. Where the first is past the end so is the second, and `at + 1` may not fit: it is not made.
#[tactic(auto, using(crate::proofs::DigitLaws::pair_past), unfolding(crate::specs::Digits::pair))]
pub fn two_digits(text: &[u8], at: usize) -> u8
    ensures value { result ≡ pair text.now at }
    ensures upper_bound { result ≤ 165 }
{
    if at < text.len() {
        let first = one_digit(text, at);
        let second = one_digit(text, at + 1);
        return 10 * first + second;
    }
    0
}

// The byte of the tens of a number.
#[tactic(auto, unfolding(crate::specs::Digits::tens))]
pub fn tens(v: u8) -> u8
    ensures { result ≡ tens v }
{
    48 + v / 10 % 10
}

// The byte of the ones of a number.
#[tactic(auto, unfolding(crate::specs::Digits::ones))]
pub fn ones(v: u8) -> u8
    ensures { result ≡ ones v }
{
    48 + v % 10
}
