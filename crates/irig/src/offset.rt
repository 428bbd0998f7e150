// The offset as a frame has it: a sign and half hours, which are added to local time to give UTC.
ghost use Rattle.std.specs.Prelude.{◌≡◌};
ghost use Rattle.irig.specs.Offset.{amount_of, is_minus, halves_of, odd_quarter};

use reading::{AddedToLocal, LocalMinusUtc};

// How many units of an offset half an hour has, two quarters, for amounts and for their sizes.
const PER_HALF: i16 = 2;

const SIZE_PER_HALF: u32 = 2;

pub(crate) fn amount_of(minus: bool, halves: u8) -> AddedToLocal
    ensures { result ≡ record { 0 = amount_of minus halves } }
{
    let amount = PER_HALF * i16::from(halves);
    if minus {
        return AddedToLocal(-amount);
    }
    AddedToLocal(amount)
}

pub(crate) fn is_minus(a: AddedToLocal) -> bool
    ensures { result ≡ is_minus a.0 }
{
    let amount = a.0;
    amount < 0
}

pub(crate) fn halves_of(a: AddedToLocal) -> u32
    ensures { result ≡ halves_of a.0 }
{
    let amount = a.0;
    u32::from(amount.unsigned_abs()) / SIZE_PER_HALF
}

// A frame has no pulse for a quarter hour that is left over.
#[tactic(auto, unfolding(crate::specs::Offset::odd_quarter))]
pub(crate) fn odd_quarter(offset: LocalMinusUtc) -> bool
    ensures { result ≡ odd_quarter offset.0 }
{
    (u32::from(offset.west()) + u32::from(offset.east())) % SIZE_PER_HALF != 0
}
