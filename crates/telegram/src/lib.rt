// A plant's own DCF77: the minute of marks that is sent during a minute of UTC and names the minute after it, by the plant's rule of
// summer time. The public function takes any value and answers as the definitions of specs/ say.
#![tactic(auto)]

mod checks;
mod named;

ghost use Rattle.std.specs.Prelude.{◌≡◌, length};
ghost use Rattle.reading.specs.Writing.{written_of, filled};
ghost use Rattle.dcf77.specs.Forms.{length_of, due_long};
ghost use Rattle.dcf77.specs.Writer.{bytes_of};
ghost use Rattle.telegram.specs.Telegram.{telegram_reading};
ghost use Rattle.telegram.specs.Faults.{telegram_fault};

use calendar::Date;
use checks::send_fault;
use dcf77::Dcf77;
use named::telegram_reading;
use reading::years::is_base;
use reading::{Fault, Refusal};
use summer::SummerRule;

// What a plant configures once.
#[derive(Clone, Copy, Debug, PartialEq, Eq)]
pub struct Sender {
    pub rule: SummerRule,
    // the day of UTC that a leap second closes, where the plant has configured one
    pub leap: Option<Date>,
}

// The minute of UTC that is being sent, or any numbers in the place of one.
#[derive(Clone, Copy, Debug, PartialEq, Eq)]
pub struct Sent {
    pub date: Date,
    pub hour: u8,
    pub minute: u8,
}

impl Sender {
    // Writes the telegram that is sent during a minute, which names the minute after it.
    #[tactic(auto, using(crate::proofs::TelegramLaws::in_steps), unfolding(crate::specs::Faults::send_fault, crate::specs::Faults::fault_with))]
    pub fn write(self, base: u16, sent: Sent, head: u16, out: &mut [u8]) -> Result<usize, Refusal>
        ensures value { result ≡ written_of (telegram_fault base self sent head (length out.old)) (length_of (due_long (telegram_reading self sent))) }
        ensures out_after { out.new ≡ filled (telegram_fault base self sent head (length out.old)) (bytes_of (telegram_reading self sent) head) out.old }
    {
        // too few for any minute, whatever is to be sent
        if out.len() < Dcf77::LENGTH {
            return Err(Fault::Length.into());
        }
        // before the named minute is worked out, which such a base has no use for
        if !is_base(base) {
            return Err(Fault::OtherBase.into());
        }
        let r = telegram_reading(self, sent);
        send_fault(base, self, sent, head, r.year)?;
        Dcf77::write(base, r, head, out)
    }
}
