// Numbers as text: a number's decimal digits stored into a lent buffer.
#![tactic(auto)]

ghost use Rattle.std.specs.Prelude.{◌≡◌};
ghost use Rattle.wire.specs.Put.{stored};
ghost use Rattle.text.specs.Decimal.{decimal, stored_length};

use wire::put::put_at;

// Stores a number's digits at the end of a buffer, the last one first, and lends that part of it. The loop ends with the number
// and not with an index, and must-fail/divided_by_twenty is about its division: so it is no `for`, and no call of `itoa`.
#[tactic(auto, using(crate::proofs::DecimalLaws::digit_loop))]
fn digits_of(number: u64, buffer: &mut [u8; 20]) -> &[u8]
    ensures { result.now ≡ decimal number }
{
    let mut from = 20;
    let mut rest = number;
    while 9 < rest {
        from -= 1;
        buffer[from] = b'0' + (rest % 10) as u8;
        rest /= 10;
    }
    from -= 1;
    buffer[from] = b'0' + rest as u8;
    &buffer[from..]
}

// Stores the decimal digits of a number from place `at` on where they fit wholly, else nothing; says how many it stored, for which a caller
// has no need of an Option: it goes on behind them, and behind none where it stands.
#[tactic(auto, unfolding(crate::specs::Decimal::stored_length))]
pub fn put_decimal(out: &mut [u8], at: usize, number: u64) -> usize
    ensures value { result ≡ stored_length at (decimal number) out.old }
    ensures out_after { out.new ≡ stored at (decimal number) out.old }
{
    let mut buffer = [0; 20];
    let digits = digits_of(number, &mut buffer);
    if put_at(out, at, digits) {
        return digits.len();
    }
    0
}
