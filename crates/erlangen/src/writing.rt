// The string of a reading, a coasting mark and a position, what its writer refuses, and the writer.
ghost use Rattle.std.specs.Prelude.{◌≡◌, cond, ◌++◌, ◌≤◌, length, drop};
ghost use Rattle.reading.specs.Writing.{written_of, filled};
ghost use Rattle.erlangen.specs.Layout.{size, position_size, minus, plus};
ghost use Rattle.erlangen.specs.Writing.{date_bytes, time_bytes, offset_bytes, flag_bytes, bytes_of, length_bad, carried_of, write_fault};

use super::offset::{is_behind, minutes_of};
use super::{Erlangen, layout};
use calendar::days::weekday;
use reading::checks::sound;
use reading::years::is_base;
use reading::{Fault, LocalMinusUtc, Reading, Refusal};
use strings::letters::{mark, quality_unshown};
use wire::digits::{ones, tens};
use wire::layout::unprintable_at;
use wire::put::put_at;

// How many bytes the position part has.
const POSITION_SIZE: usize = 26;

fn sign(behind: bool) -> u8
    ensures { result ≡ cond behind minus plus }
{
    if behind { b'-' } else { b'+' }
}

#[tactic(auto, unfolding(crate::specs::Writing::date_bytes))]
fn date_bytes(r: Reading) -> [u8; 14]
    ensures { result ≡ date_bytes r }
{
    let year = (r.year % 100) as u8;
    [
        2,
        tens(r.day),
        ones(r.day),
        b'.',
        tens(r.month),
        ones(r.month),
        b'.',
        tens(year),
        ones(year),
        b';',
        b' ',
        ones(weekday(r.date())),
        b';',
        b' ',
    ]
}

#[tactic(auto, unfolding(crate::specs::Writing::time_bytes))]
fn time_bytes(r: Reading) -> [u8; 10]
    ensures { result ≡ time_bytes r }
{
    [
        tens(r.hour),
        ones(r.hour),
        b':',
        tens(r.minute),
        ones(r.minute),
        b':',
        tens(r.second),
        ones(r.second),
        b';',
        b' ',
    ]
}

#[tactic(auto, unfolding(crate::specs::Writing::offset_bytes))]
fn offset_bytes(offset: LocalMinusUtc) -> [u8; 8]
    ensures { result ≡ offset_bytes offset.0 }
{
    let all = minutes_of(offset);
    let hours = (all / 60) as u8;
    let minutes = (all % 60) as u8;
    [
        sign(is_behind(offset)),
        tens(hours),
        ones(hours),
        b':',
        tens(minutes),
        ones(minutes),
        b';',
        b' ',
    ]
}

#[tactic(auto, unfolding(crate::specs::Writing::flag_bytes))]
fn flag_bytes(r: Reading, coasting: bool) -> [u8; 9]
    ensures { result ≡ flag_bytes r coasting }
{
    let failed = r.quality == 15;
    let sixty = r.second == 60;
    [
        mark(failed, b'#'),
        mark(coasting, b'*'),
        mark(r.summer, b'S'),
        mark(r.change, b'!'),
        mark(r.leap, b'A'),
        b' ',
        mark(sixty, b'L'),
        b';',
        b' ',
    ]
}

fn lay(r: Reading, coasting: bool, position: &[u8], out: &mut [u8])
    requires { (length position.now ≡ position_size) × (size ≤ length out.old) }
    ensures { out.new ≡ bytes_of r coasting position.now ++ drop size out.old }
{
    put_at(out, 0, &date_bytes(r));
    put_at(out, layout::HOUR, &time_bytes(r));
    put_at(out, layout::SIGN, &offset_bytes(r.offset));
    put_at(out, layout::FAILURE, &flag_bytes(r, coasting));
    put_at(out, layout::POSITION, position);
    put_at(out, Erlangen::LAST, &[3]);
}

#[tactic(auto, unfolding(crate::specs::Writing::length_bad))]
fn length_bad(position: &[u8], room: usize) -> bool
    ensures { result ≡ length_bad position.now room }
{
    (room < Erlangen::LENGTH) | (position.len() != POSITION_SIZE)
}

#[tactic(auto, unfolding(crate::specs::Writing::not_carried, crate::specs::Writing::carried_of))]
fn carried(base: u16, r: Reading) -> Result<(), Fault>
    ensures { result ≡ carried_of base r }
{
    sound(base, r)?;
    if quality_unshown(r.quality) {
        return Err(Fault::NotCarried);
    }
    Ok(())
}

#[tactic(auto, unfolding(crate::specs::Writing::write_fault))]
fn write_fault(base: u16, r: Reading, position: &[u8], room: usize) -> Result<(), Fault>
    ensures { result ≡ write_fault base r position.now room }
{
    if length_bad(position, room) {
        return Err(Fault::Length);
    }
    if !is_base(base) {
        return Err(Fault::OtherBase);
    }
    let good = unprintable_at(position);
    if good < POSITION_SIZE {
        return Err(Fault::Byte(good));
    }
    carried(base, r)
}

impl Erlangen {
    // Everything is decided before the first byte is stored.
    #[tactic(auto, using(crate::proofs::FaultLaws::given_size, crate::proofs::FaultLaws::given_room, crate::proofs::WriteLaws::stored_text))]
    pub fn write(
        base: u16,
        r: Reading,
        coasting: bool,
        position: &[u8],
        out: &mut [u8],
    ) -> Result<usize, Refusal>
        ensures value { result ≡ written_of (write_fault base r position.now (length out.old)) size }
        ensures out_after { out.new ≡ filled (write_fault base r position.now (length out.old)) (bytes_of r coasting position.now) out.old }
    {
        write_fault(base, r, position, out.len())?;
        lay(r, coasting, position, out);
        Ok(Erlangen::LENGTH)
    }
}
