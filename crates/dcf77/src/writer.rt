// The writer: what each group of the marks has to say, what is refused, and the marks themselves.
ghost use Rattle.std.specs.Prelude.{◌≡◌, false, ◌≤◌, length};
ghost use Rattle.pulses.specs.Row.{row, laid};
ghost use Rattle.reading.specs.Writing.{written_of, filled};
ghost use Rattle.dcf77_table.specs.Table.{minute_marks};
ghost use Rattle.dcf77.specs.Forms.{length_of, due_long};
ghost use Rattle.dcf77.specs.Writer.{plain_of, evened, with_parity, bytes_of, checked_with, not_carried, carry_fault, write_fault};

use super::Dcf77;
use super::rules::{due_long, length_of, places, week_of};
use super::zones::{offset_in, zone_of};
use pulses::bit;
use reading::checks::{date_bad, first_fault, leap_second_bad, quality_bad, time_bad};
use reading::offsets::same_offset;
use reading::years::is_base;
use reading::{Fault, Reading, Refusal};

// What each group says, in the order of the groups, with the parity marks left 0.
#[tactic(auto, unfolding(crate::specs::Writer::plain_of))]
fn plain_values(r: Reading, head: u16) -> [u32; 32]
    ensures { result ≡ plain_of r head }
{
    [
        0,
        0,
        0,
        u32::from(head),
        bit(r.change),
        zone_of(r.summer),
        bit(r.leap),
        u32::from(r.minute % 10),
        u32::from(r.minute / 10),
        0,
        u32::from(r.hour % 10),
        u32::from(r.hour / 10),
        0,
        u32::from(r.day % 10),
        u32::from(r.day / 10),
        week_of(r),
        u32::from(r.month % 10),
        u32::from(r.month / 10),
        u32::from(r.year % 10),
        u32::from(r.year / 10 % 10),
        0,
        0,
        0,
        0,
        0,
        0,
        0,
        0,
        0,
        0,
        0,
        0,
    ]
}

// The mark at `to` that makes the ones from `from` on even in number.
#[tactic(auto, unfolding(crate::specs::Writer::evened))]
fn evened(s: &[u8], from: usize, to: usize) -> u8
    requires { from ≤ to }
    ensures { result ≡ evened from to s.now }
{
    (pulses::ones(s, from, to - from) % 2) as u8
}

// Stores the minute whose groups say the values, where it fits: laid with the parity marks 0, to count the ones of the others.
fn lay_minute(out: &mut [u8], long: bool, plain: [u32; 32])
    ensures { out.new ≡ laid (minute_marks long) (with_parity plain (row (minute_marks false) plain)) out.old }
{
    if !dcf77_table::lay(out, long, plain) {
        return;
    }
    let minute = evened(out, places::MINUTE, places::MINUTE_PARITY);
    let hour = evened(out, places::HOUR, places::HOUR_PARITY);
    let date = evened(out, places::DAY, places::DATE_PARITY);
    out[places::MINUTE_PARITY] = minute;
    out[places::HOUR_PARITY] = hour;
    out[places::DATE_PARITY] = date;
}

// The shared checks, with the head's beside the quality's.
#[tactic(auto, unfolding(crate::specs::Writer::head_bad, crate::specs::Writer::checked_with))]
fn checked_with(base: u16, r: Reading, head: u16) -> Result<(), Fault>
    ensures { result ≡ checked_with base r head }
{
    if !is_base(base) {
        return Err(Fault::OtherBase);
    }
    let offset = r.offset;
    first_fault(
        time_bad(r),
        date_bad(base, r),
        quality_bad(r.quality) | (Dcf77::LAST_HEAD < head),
        !offset.is_good(),
        leap_second_bad(r),
    )
}

#[tactic(auto, unfolding(crate::specs::Writer::not_carried))]
fn not_carried(r: Reading) -> bool
    ensures { result ≡ not_carried r }
{
    let zone = same_offset(r.offset, offset_in(r.summer));
    !((r.second == 0) & ((r.quality == 0) & zone))
}

#[tactic(auto, unfolding(crate::specs::Writer::carry_fault))]
fn carry_fault(base: u16, r: Reading, head: u16) -> Result<(), Fault>
    ensures { result ≡ carry_fault base r head }
{
    checked_with(base, r, head)?;
    if not_carried(r) {
        return Err(Fault::NotCarried);
    }
    Ok(())
}

impl Dcf77 {
    #[tactic(auto, using(crate::proofs::WriteLaws::in_steps, crate::proofs::WriteLaws::left))]
    pub fn write(base: u16, r: Reading, head: u16, out: &mut [u8]) -> Result<usize, Refusal>
        ensures value { result ≡ written_of (write_fault base r head (length out.old)) (length_of (due_long r)) }
        ensures out_after { out.new ≡ filled (write_fault base r head (length out.old)) (bytes_of r head) out.old }
    {
        // too few for any minute, whatever is to be written
        if out.len() < Dcf77::LENGTH {
            return Err(Fault::Length.into());
        }
        carry_fault(base, r, head)?;
        let long = due_long(r);
        let length = length_of(long);
        if out.len() < length {
            return Err(Fault::Length.into());
        }
        lay_minute(out, long, plain_values(r, head));
        Ok(length)
    }
}
