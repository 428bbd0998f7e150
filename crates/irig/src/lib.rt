// The IEEE 1344 frame, a hundred pulses that say a time: its reader and its writer. Both take any base, any bytes and any reading.
#![tactic(auto)]

ghost use Rattle.std.specs.Prelude.{◌≡◌, true, length};
ghost use Rattle.reading.specs.Years.{is_base};
ghost use Rattle.reading.specs.Writing.{written_of, filled};
ghost use Rattle.irig.specs.Faults.{frame_length, read_frame};
ghost use Rattle.irig.specs.Writing.{frame_of, write_fault};

use fields::Sums;
use reading::years::is_base;
use reading::{Fault, Reading, Refusal};

mod faults;
mod fields;
mod groups;
mod offset;

// The first pulse of a frame is a mark.
const MARK: u8 = 2;

// The format.
#[derive(Clone, Copy, Debug, PartialEq, Eq)]
pub struct Ieee1344 {}

impl Ieee1344 {
    // The pulses of a frame.
    pub const LENGTH: usize = 100;

    // The place of the last of them.
    pub const LAST: usize = 99;

    #[tactic(auto, using(crate::proofs::RefusalLaws::wrong_length, crate::proofs::RefusalLaws::other_base_lem, crate::proofs::RefusalLaws::no_mark))]
    pub fn read(base: u16, s: &[u8]) -> Result<Reading, Refusal>
        ensures { result ≡ read_frame base s.now }
    {
        if s.len() != Ieee1344::LENGTH {
            return Err(Fault::Length.into());
        }
        if !is_base(base) {
            return Err(Fault::OtherBase.into());
        }
        // seen first, as a frame that is out of step is refused by it
        if s[0] != MARK {
            return Err(Fault::Byte(0).into());
        }
        whole(base, s)
    }

    #[tactic(auto, using(crate::proofs::WriteLaws::length_frame, crate::proofs::WriteLaws::room_enough))]
    pub fn write(base: u16, r: Reading, out: &mut [u8]) -> Result<usize, Refusal>
        ensures value { result ≡ written_of (write_fault base r (length out.old)) frame_length }
        ensures out_after { out.new ≡ filled (write_fault base r (length out.old)) (frame_of r) out.old }
    {
        groups::write_fault(base, r, out.len())?;
        groups::lay_frame(out, r);
        Ok(Ieee1344::LENGTH)
    }
}

// What is read of a hundred pulses; the early refusals stand before it.
fn whole(base: u16, s: &[u8]) -> Result<Reading, Refusal>
    requires { (length s.now ≡ frame_length) × (is_base base ≡ true) }
    ensures { result ≡ read_frame base s.now }
{
    let good = irig_table::good(s);
    if good <= Ieee1344::LAST {
        return Err(Fault::Byte(good).into());
    }
    let sums = Sums::of(s);
    faults::digit_fault(&sums)?;
    faults::parity_fault(s)?;
    let reading = sums.reading(base);
    faults::time_fault(reading)?;
    faults::rest_fault(&sums, reading)?;
    Ok(reading)
}
