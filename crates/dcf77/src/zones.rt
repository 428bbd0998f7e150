// The two zones: each has its offset, in quarter hours, and its marks 17 and 18 as a number.
ghost use Rattle.std.specs.Prelude.{◌≡◌};
ghost use Rattle.dcf77.specs.Zones.{offset_in, zone_of};

use reading::LocalMinusUtc;

const WINTER: i8 = 4;

const SUMMER: i8 = 8;

#[tactic(auto, unfolding(crate::specs::Zones::offset_in))]
pub fn offset_in(summer: bool) -> LocalMinusUtc
    ensures { result ≡ record { 0 = offset_in summer } }
{
    if summer {
        LocalMinusUtc(SUMMER)
    } else {
        LocalMinusUtc(WINTER)
    }
}

#[tactic(auto, unfolding(crate::specs::Zones::zone_of))]
pub(super) fn zone_of(summer: bool) -> u32
    ensures { result ≡ zone_of summer }
{
    if summer { 1 } else { 2 }
}
