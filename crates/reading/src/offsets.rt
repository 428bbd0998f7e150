// The two senses of offset: how far west or east of UTC one lies, whether a reading may have it, and its opposite.
ghost use Rattle.std.specs.Prelude.{◌≡◌, ◌≤◌};
ghost use Rattle.laws.specs.Tests.{same};
ghost use Rattle.reading.specs.Offset.{west, east, offset_good, opposite, local_of};

use super::{AddedToLocal, LocalMinusUtc};

// The minutes of a unit of offset, and how many units an offset goes west and east of UTC.
pub const UNIT: u16 = 15;

pub const WESTMOST: u16 = 48;

pub const EASTMOST: u16 = 56;

// The same two ends as offsets.
const FURTHEST_WEST: i8 = -48;

const FURTHEST_EAST: i8 = 56;

// Whether two offsets are one. It is the derived equality, and stays a function for the wrong program `west_not_compared`; by the law
// named here two amounts that both agree would do as well, so that the wrong one is refused for the amount that it leaves out.
#[tactic(auto, using(crate::proofs::OffsetLaws::by_sides))]
pub fn same_offset(a: LocalMinusUtc, b: LocalMinusUtc) -> bool
    ensures { result ≡ same a.0 b.0 }
{
    a == b
}

impl LocalMinusUtc {
    #[tactic(auto, unfolding(crate::specs::Offset::west))]
    pub fn west(self) -> u16
        ensures value { result ≡ west self.0 }
        ensures upper_bound { result ≤ 128 }
    {
        if self.0 < 0 {
            u16::from(self.0.unsigned_abs())
        } else {
            0
        }
    }

    #[tactic(auto, unfolding(crate::specs::Offset::east))]
    pub fn east(self) -> u16
        ensures value { result ≡ east self.0 }
        ensures upper_bound { result ≤ 127 }
    {
        if self.0 < 0 {
            0
        } else {
            u16::from(self.0.unsigned_abs())
        }
    }

    #[tactic(auto, unfolding(crate::specs::Offset::offset_good, crate::specs::Offset::west, crate::specs::Offset::east))]
    pub fn is_good(self) -> bool
        ensures { result ≡ offset_good self.0 }
    {
        (FURTHEST_WEST..=FURTHEST_EAST).contains(&self.0)
    }

    // The other sense, by a name that says it: a `From` would hide that the sign turns.
    pub fn added(self) -> AddedToLocal
        ensures { result ≡ record { 0 = opposite self.0 } }
    {
        AddedToLocal(-i16::from(self.0))
    }
}

impl AddedToLocal {
    // The other sense back again; an amount that no offset is the opposite of gives the nearest.
    #[tactic(auto, unfolding(crate::specs::Offset::local_of))]
    pub fn local(self) -> LocalMinusUtc
        ensures { result ≡ record { 0 = local_of self.0 } }
    {
        let x = self.0;
        LocalMinusUtc(if x < -127 {
            127
        } else if 128 < x {
            -128
        } else {
            (-x) as i8
        })
    }
}
