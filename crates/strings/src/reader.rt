// The reader of a clock string, once for every format of one.
ghost use Rattle.std.specs.Prelude.{◌≡◌, ℕ};
ghost use Rattle.wire.specs.Layout.{all_good, good_places};
ghost use Rattle.strings.specs.Format.{Format, Fits, said_fault, read_as};

use reading::years::is_base;
use reading::{Fault, Reading, Refusal};

// A format: what may stand at each place of its strings, and what they say.
pub trait ClockString {
    ghost format: { Format };

    ghost LENGTH: { ℕ };

    ghost LAST: { ℕ };

    const LENGTH: usize;

    // The largest place.
    const LAST: usize;

    // Whether every byte may stand where it does, up to the end of the layout or of the bytes.
    fn all_allowed(s: &[u8]) -> bool
        ensures { result ≡ all_good format.layout s.now };

    // How many bytes from the start may stand where they do. It leaves at the first that may not, and is for bytes that have one.
    fn good_places(s: &[u8]) -> usize
        ensures { result ≡ good_places format.layout s.now };

    // Any bytes have a meaning; it is told only of a string without a fault.
    fn reading(base: u16, s: &[u8]) -> Reading
        ensures { result ≡ format.reading base s.now };

    fn said_fault(r: Reading, s: &[u8]) -> Result<(), Fault>
        ensures { result ≡ said_fault format r s.now };

    fn is_coasting(s: &[u8]) -> bool
        ensures { result ≡ format.coasting s.now };

    // What each format must prove.
    ghost fits: { Fits format LENGTH LAST };
}

// A bad byte is looked for only where there is one, so that the columns are laid out for that search only then.
fn places<F: ClockString>(s: &[u8]) -> usize
    ensures { result ≡ good_places F.format.layout s.now }
{
    if s.len() <= F::LENGTH && F::all_allowed(s) {
        s.len()
    } else {
        F::good_places(s)
    }
}

// For each format's own function of this name alone. The form comes first, so that a string of another form costs no more than
// finding that out.
pub fn for_clock_string<F: ClockString>(base: u16, s: &[u8]) -> Result<(Reading, bool), Refusal>
    ensures { result ≡ read_as F.format base s.now }
{
    if s.len() != F::LENGTH {
        return Err(Fault::Length.into());
    }
    if !is_base(base) {
        return Err(Fault::OtherBase.into());
    }
    let good = places::<F>(s);
    if good <= F::LAST {
        return Err(Fault::Byte(good).into());
    }
    let r = F::reading(base, s);
    F::said_fault(r, s)?;
    Ok((r, F::is_coasting(s)))
}
