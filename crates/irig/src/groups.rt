// Writing a frame: what each group of its pulses says, and the pulses, with the parity that makes their ones even.
ghost use Rattle.std.specs.Prelude.{◌≡◌, ◌++◌, ◌≤◌, length, drop};
ghost use Rattle.irig.specs.Faults.{frame_length};
ghost use Rattle.irig.specs.Writing.{groups_of, values_of, frame_of, write_fault};

use super::Ieee1344;
use super::faults::PARITY_PLACE;
use super::fields::second_of_day;
use super::offset::{halves_of, is_minus, odd_quarter};
use calendar::days::day_of_year;
use pulses::bit;
use reading::checks::checked;
use reading::{Fault, Reading};

// The value of each group; the parity's is 0.
#[tactic(auto, unfolding(crate::specs::Writing::groups_of))]
fn groups_of(r: Reading, day: u32, minus: u32, halves: u32) -> [u32; 32]
    ensures { result ≡ groups_of r day minus halves 0 }
{
    let second = u32::from(r.second);
    let minute = u32::from(r.minute);
    let hour = u32::from(r.hour);
    let year = u32::from(r.year);
    [
        0,
        0,
        0,
        second % 10,
        second / 10,
        minute % 10,
        minute / 10,
        hour % 10,
        hour / 10,
        day % 10,
        day / 10 % 10,
        day / 100,
        year % 10,
        year % 100 / 10,
        bit(r.leap),
        0,
        bit(r.change),
        bit(r.summer),
        minus,
        halves / 2,
        halves % 2,
        u32::from(r.quality),
        0,
        second_of_day(r),
        0,
        0,
        0,
        0,
        0,
        0,
        0,
        0,
    ]
}

#[tactic(auto, unfolding(crate::specs::Writing::values_of))]
fn values_of(r: Reading) -> [u32; 32]
    ensures { result ≡ values_of r 0 }
{
    let offset = r.offset;
    let added = offset.added();
    let day = u32::from(day_of_year(r.date()));
    groups_of(r, day, bit(is_minus(added)), halves_of(added))
}

#[tactic(auto, unfolding(crate::specs::Writing::write_fault, crate::specs::Writing::carried_of))]
pub(crate) fn write_fault(base: u16, r: Reading, room: usize) -> Result<(), Fault>
    ensures { result ≡ write_fault base r room }
{
    if room < Ieee1344::LENGTH {
        return Err(Fault::Length);
    }
    checked(base, r)?;
    // Last: an offset out of range is 8, although it may be odd.
    let offset = r.offset;
    if odd_quarter(offset) {
        return Err(Fault::NotCarried);
    }
    Ok(())
}

// The frame at the start of `out`: laid with parity 0, whose place then gets the parity of the others.
#[tactic(auto, using(crate::proofs::ParityLaws::mended))]
pub(crate) fn lay_frame(out: &mut [u8], r: Reading)
    requires { frame_length ≤ length out.old }
    ensures { out.new ≡ frame_of r ++ drop frame_length out.old }
{
    irig_table::lay(out, values_of(r));
    out[PARITY_PLACE] = (pulses::ones(out, 1, PARITY_PLACE - 1) % 2) as u8;
}
