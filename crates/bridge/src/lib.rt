// The bridge: reads a clock string and writes the IEEE 1344 frame of its reading. A frame has no place for the coasting mark: the
// clock looks worse in it, unless the caller names the way that drops the mark. The two announcements go over only in the minute
// before they come true. An odd quarter hour has no frame.
#![tactic(auto)]

ghost use Rattle.std.specs.Prelude.{◌≡◌, ◌&&◌, length, Err};
ghost use Rattle.reading.specs.Universal.{utc_of};
ghost use Rattle.reading.specs.Leap.{leap_window};
ghost use Rattle.bridge.specs.Bridge.{quality_by, carried_by, bridge_answer, bridge_filled};

use clock_string::read;
use irig::Ieee1344;
use reading::leap::{change_window, leap_window};
use reading::universal::utc_of;
use reading::{Fault, Reading, Refusal};

// What becomes of a string's coasting mark in its frame: quality 15, whatever the string's own is, or nothing.
#[derive(Clone, Copy, Debug, PartialEq, Eq)]
pub enum Coasting {
    Worse,
    Dropped,
}

// A clock that coasts looks worse.
pub fn bridge(base: u16, s: &[u8], out: &mut [u8]) -> Result<usize, Refusal>
    ensures value { result ≡ bridge_answer base s.now (length out.old) }
    ensures out_after { out.new ≡ bridge_filled Coasting.Worse base s.now out.old }
{
    bridge_with(base, s, Coasting::Worse, out)
}

// The same with the way named. The room is looked at before the string.
pub fn bridge_with(base: u16, s: &[u8], way: Coasting, out: &mut [u8]) -> Result<usize, Refusal>
    ensures value { result ≡ bridge_answer base s.now (length out.old) }
    ensures out_after { out.new ≡ bridge_filled way base s.now out.old }
{
    if out.len() < Ieee1344::LENGTH {
        return refuse(Fault::Length.into(), out);
    }
    match read(base, s) {
        Ok(told) => {
            let (r, coasting) = told.timed();
            Ieee1344::write(base, carried_by(way, coasting, r), out)
        }
        Err(why) => refuse(why, out),
    }
}

// The room's refusal and the string's: each says why, and leaves `out` as it was. No `?`, so that the contract which keeps the buffer
// is that of both. An odd quarter is refused by the frame's writer.
fn refuse(refusal: Refusal, out: &mut [u8]) -> Result<usize, Refusal>
    ensures value { result ≡ Err refusal }
    ensures out_unchanged { out.new ≡ out.old }
{
    Err(refusal)
}

// UTC is worked out only where a leap second is announced.
fn leap_pending(r: Reading) -> bool
    ensures { result ≡ (r.leap && leap_window (utc_of r) r.second) }
{
    r.leap && leap_window(utc_of(r), r.second)
}

// 15 is "failed", the worst that a frame can say of its clock.
#[tactic(auto, unfolding(crate::specs::Bridge::quality_by))]
fn quality_by(way: Coasting, coasting: bool, own: u8) -> u8
    ensures { result ≡ quality_by way coasting own }
{
    match (way, coasting) {
        (Coasting::Worse, true) => 15,
        _ => own,
    }
}

// A string announces well ahead; a frame says that something is pending in the last minute alone. A quality stands in the mark's
// place, and all else goes over as it is.
#[tactic(auto, unfolding(crate::specs::Bridge::carried_by, crate::specs::Bridge::graded, crate::specs::Bridge::pending_of))]
fn carried_by(way: Coasting, coasting: bool, r: Reading) -> Reading
    ensures { result ≡ carried_by way coasting r }
{
    Reading {
        leap: leap_pending(r),
        change: r.change & change_window(r.minute, r.second),
        quality: quality_by(way, coasting, r.quality),
        ..r
    }
}
