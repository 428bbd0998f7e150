// The offset of a string: a sign, hours and minutes, and the units of a reading that they are.
ghost use Rattle.std.specs.Prelude.{◌≡◌, ◌<◌};
ghost use Rattle.erlangen.specs.Offset.{whole_units, units_of, too_far, offset_bad, signed, offset_of, is_behind, minutes_of};

use reading::LocalMinusUtc;
use reading::offsets::{EASTMOST, UNIT, WESTMOST};

#[tactic(auto, unfolding(crate::specs::Offset::whole_units))]
fn whole_units(minutes: u8) -> bool
    ensures { result ≡ whole_units minutes }
{
    (minutes < 60) & (u16::from(minutes) % UNIT == 0)
}

#[tactic(auto, unfolding(crate::specs::Offset::units_of))]
fn units_of(hours: u8, minutes: u8) -> u16
    ensures { result ≡ units_of hours minutes }
{
    (60 * u16::from(hours) + u16::from(minutes)) / UNIT
}

#[tactic(auto, unfolding(crate::specs::Offset::too_far))]
fn too_far(behind: bool, units: u16) -> bool
    ensures { result ≡ too_far behind units }
{
    if behind {
        WESTMOST < units
    } else {
        EASTMOST < units
    }
}

#[tactic(auto, unfolding(crate::specs::Offset::signed))]
fn signed(behind: bool, units: u16) -> LocalMinusUtc
    requires { units < 128 }
    ensures { result ≡ record { 0 = signed behind units } }
{
    let size = units as i8;
    LocalMinusUtc(if behind { -size } else { size })
}

// What a string shows of its offset, which need not be one.
#[derive(Clone, Copy, Debug, PartialEq, Eq)]
pub(crate) struct Shown {
    pub(crate) behind: bool,
    pub(crate) hours: u8,
    pub(crate) minutes: u8,
}

impl Shown {
    #[tactic(auto, unfolding(crate::specs::Offset::offset_bad))]
    pub(crate) fn is_bad(self) -> bool
        ensures { result ≡ offset_bad self.behind self.hours self.minutes }
    {
        let units = units_of(self.hours, self.minutes);
        !whole_units(self.minutes) | (self.behind & (units == 0) | too_far(self.behind, units))
    }

    // 0 where it is bad: `reading_of` gives any bytes a reading, and what they show is judged later, by `offset_wrong`.
    #[tactic(auto, unfolding(crate::specs::Offset::offset_of), using(crate::proofs::OffsetLaws::not_far))]
    pub(crate) fn offset(self) -> LocalMinusUtc
        ensures { result ≡ record { 0 = offset_of self.behind self.hours self.minutes } }
    {
        if self.is_bad() {
            LocalMinusUtc(0)
        } else {
            signed(self.behind, units_of(self.hours, self.minutes))
        }
    }
}

#[tactic(auto, unfolding(crate::specs::Offset::is_behind))]
pub(crate) fn is_behind(offset: LocalMinusUtc) -> bool
    ensures { result ≡ is_behind offset.0 }
{
    0 < offset.west()
}

#[tactic(auto, unfolding(crate::specs::Offset::minutes_of))]
pub(crate) fn minutes_of(offset: LocalMinusUtc) -> u16
    ensures value { result ≡ minutes_of offset.0 }
    ensures upper_bound { result < 3840 }
{
    UNIT * (offset.west() + offset.east())
}
