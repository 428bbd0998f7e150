// Writing a Meinberg string: the reasons not to, and its bytes.
ghost use Rattle.std.specs.Prelude.{◌≡◌, length};
ghost use Rattle.calendar.specs.Calendar.{weekday_of};
ghost use Rattle.wire.specs.Digits.{ones};
ghost use Rattle.reading.specs.Universal.{date_of};
ghost use Rattle.reading.specs.Writing.{written_of, filled};
ghost use Rattle.meinberg.specs.Layout.{text_length};
ghost use Rattle.meinberg.specs.Writing.{announcement, year_digits, bytes_of, not_carried, write_fault};

use super::Meinberg;
use super::zones::{zone_carried, zone_letter};
use calendar::days::weekday;
use reading::checks::checked;
use reading::{Fault, Reading, Refusal};
use strings::letters::{mark, quality_unshown};
use wire::digits::{ones, tens};
use wire::put::put_at;

#[tactic(auto, unfolding(crate::specs::Writing::not_carried))]
fn not_carried(r: Reading) -> bool
    ensures { result ≡ not_carried r }
{
    !zone_carried(r.offset, r.summer) | (r.change & r.leap) | quality_unshown(r.quality)
}

#[tactic(auto, unfolding(crate::specs::Writing::write_fault))]
fn write_fault(base: u16, r: Reading, room: usize) -> Result<(), Fault>
    ensures { result ≡ write_fault base r room }
{
    if room < Meinberg::LENGTH {
        return Err(Fault::Length);
    }
    checked(base, r)?;
    if not_carried(r) {
        return Err(Fault::NotCarried);
    }
    Ok(())
}

#[tactic(auto, unfolding(crate::specs::Writing::announcement))]
fn announcement(change: bool, leap: bool) -> u8
    ensures { result ≡ announcement change leap }
{
    if change { b'!' } else { mark(leap, b'A') }
}

fn year_digits(year: u16) -> u8
    ensures { result ≡ year_digits year }
{
    (year % 100) as u8
}

fn weekday_digit(r: Reading) -> u8
    ensures { result ≡ ones (weekday_of (date_of r)) }
{
    ones(weekday(r.date()))
}

#[tactic(auto, unfolding(crate::specs::Writing::bytes_of))]
fn bytes_of(r: Reading, coasting: bool) -> [u8; 32]
    ensures { result ≡ bytes_of r coasting }
{
    let year = year_digits(r.year);
    [
        2,
        b'D',
        b':',
        tens(r.day),
        ones(r.day),
        b'.',
        tens(r.month),
        ones(r.month),
        b'.',
        tens(year),
        ones(year),
        b';',
        b'T',
        b':',
        weekday_digit(r),
        b';',
        b'U',
        b':',
        tens(r.hour),
        ones(r.hour),
        b'.',
        tens(r.minute),
        ones(r.minute),
        b'.',
        tens(r.second),
        ones(r.second),
        b';',
        mark(r.quality == 15, b'#'),
        mark(coasting, b'*'),
        zone_letter(r.offset, r.summer),
        announcement(r.change, r.leap),
        3,
    ]
}

// Every refusal is decided before the first store.
#[tactic(auto, using(crate::proofs::WriteLaws::stored_text))]
pub(crate) fn into(base: u16, r: Reading, coasting: bool, out: &mut [u8]) -> Result<usize, Refusal>
    ensures value { result ≡ written_of (write_fault base r (length out.old)) text_length }
    ensures out_after { out.new ≡ filled (write_fault base r (length out.old)) (bytes_of r coasting) out.old }
{
    write_fault(base, r, out.len())?;
    let text = bytes_of(r, coasting);
    put_at(out, 0, &text);
    Ok(Meinberg::LENGTH)
}
