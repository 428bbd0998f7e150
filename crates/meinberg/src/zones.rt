// The zones of a Meinberg string: the one place where their offsets stand. A zone is its letter, as in specs/Zones.antt: any byte has an
// offset, and is judged later, which an enum of the three could not say.
ghost use Rattle.std.specs.Prelude.{◌≡◌};
ghost use Rattle.meinberg.specs.Zones.{offset_of, summer_of, is_zone, zone_carried, zone_letter};

use reading::LocalMinusUtc;

#[tactic(auto, unfolding(crate::specs::Zones::offset_of))]
pub(crate) fn offset_of(letter: u8) -> LocalMinusUtc
    ensures { result ≡ record { 0 = offset_of letter } }
{
    match letter {
        b'U' => LocalMinusUtc(0),
        b'S' => LocalMinusUtc(8),
        _ => LocalMinusUtc(4),
    }
}

#[tactic(auto, unfolding(crate::specs::Zones::summer_of))]
pub(crate) fn summer_of(letter: u8) -> bool
    ensures { result ≡ summer_of letter }
{
    letter == b'S'
}

#[tactic(auto, unfolding(crate::specs::Zones::is_zone))]
fn is_zone(letter: u8, offset: LocalMinusUtc, summer: bool) -> bool
    ensures { result ≡ is_zone letter offset.0 summer }
{
    (offset == offset_of(letter)) & (summer == summer_of(letter))
}

#[tactic(auto, unfolding(crate::specs::Zones::zone_carried))]
pub(crate) fn zone_carried(offset: LocalMinusUtc, summer: bool) -> bool
    ensures { result ≡ zone_carried offset.0 summer }
{
    is_zone(b'U', offset, summer) | is_zone(b'S', offset, summer) | is_zone(b' ', offset, summer)
}

#[tactic(auto, unfolding(crate::specs::Zones::zone_letter))]
pub(crate) fn zone_letter(offset: LocalMinusUtc, summer: bool) -> u8
    ensures { result ≡ zone_letter offset.0 summer }
{
    if is_zone(b'U', offset, summer) {
        b'U'
    } else if is_zone(b'S', offset, summer) {
        b'S'
    } else {
        b' '
    }
}
