// The stamp of a reading.
ghost use Rattle.std.specs.Prelude.{◌≡◌, ◌<◌, ◌^◌, pos, nat_abs};
ghost use Rattle.std.proofs.Math.IntN.{sub_ℕ};
ghost use Rattle.std.specs.Int.Signed.{lt_z};
ghost use Rattle.reading.specs.Stamps.{has_stamp, count_of, stamp_number, stamp_at, stamp_of};

use super::checks::checked;
use super::universal::utc_of;
use super::{Fault, Reading, Refusal, Since2000, Utc};
use calendar::days::day_number;

// The count at the start of 1 January 2000.
const ZERO: i64 = 63114720886;

impl Since2000 {
    // Below zero, before the start of 2000.
    pub fn is_before(self) -> bool
        ensures { result ≡ lt_z self.0 (pos 0) }
    {
        self.0 < 0
    }

    // How far from the start of 2000, to either side.
    pub fn distance(self) -> u64
        ensures { result ≡ nat_abs self.0 }
    {
        self.0.unsigned_abs()
    }
}

#[tactic(auto, unfolding(crate::specs::Stamps::has_stamp))]
fn has_stamp(year: u16) -> bool
    ensures { result ≡ has_stamp year }
{
    (1990..=2099).contains(&year)
}

// 86401 seconds to a day, from the year 0 on.
#[tactic(auto, unfolding(crate::specs::Stamps::count_of))]
fn count_of(utc: Utc, second: u8) -> u64
    ensures value { result ≡ count_of utc second }
    ensures upper_bound { result < 2 ^ 42 }
{
    let date = utc.date;
    let day = u64::from(day_number(date));
    day * 86401 + (u64::from(utc.minute) * 60 + u64::from(second))
}

// The one subtraction that can go below zero.
fn from_zero(count: u64) -> Since2000
    requires { count < 2 ^ 42 }
    ensures { result ≡ record { 0 = sub_ℕ count 63114720886 } }
{
    let number = (count as i64) - ZERO;
    Since2000(number)
}

#[tactic(auto, using(crate::proofs::StampLaws::number_of))]
fn stamp_number(utc: Utc, second: u8) -> Since2000
    ensures { result ≡ record { 0 = stamp_number utc second } }
{
    from_zero(count_of(utc, second))
}

#[tactic(auto, unfolding(crate::specs::Stamps::stamp_at))]
fn stamp_at(utc: Utc, second: u8) -> Result<Since2000, Refusal>
    ensures { result ≡ stamp_at utc second }
{
    let date = utc.date;
    if !has_stamp(date.year) {
        return Err(Fault::OutsideYears.into());
    }
    Ok(stamp_number(utc, second))
}

#[tactic(auto, unfolding(crate::specs::Stamps::stamp_of))]
pub fn stamp_of(base: u16, r: Reading) -> Result<Since2000, Refusal>
    ensures { result ≡ stamp_of base r }
{
    checked(base, r)?;
    stamp_at(utc_of(r), r.second)
}
