// The stamp of a record, a step above the walk: what the listing says of it.
ghost use Rattle.std.specs.Prelude.{◌≡◌, option_map};
ghost use Rattle.book.specs.Stamps.{stamp_said, stamping_of};

use super::{Record, Stamping};
use reading::stamps::stamp_of;
use reading::{Reading, Refusal, Since2000};

// "An accepted body whose stamp is refused" is refused here, and not before.
fn stamp_said(base: u16, said: Result<Reading, Refusal>) -> Result<Since2000, Refusal>
    ensures { result ≡ stamp_said base said }
{
    stamp_of(base, said?)
}

pub fn stamping_of(base: u16, found: Record) -> Stamping
    ensures { result ≡ stamping_of base found }
{
    Stamping {
        kind: found.kind,
        stamp: stamp_said(base, found.said),
    }
}

// The same of what may stand at a place of a book: of nothing it is nothing.
pub fn stamping_at(base: u16, found: Option<Record>) -> Option<Stamping>
    ensures { result ≡ option_map (stamping_of base) found }
{
    found.map(|record| stamping_of(base, record))
}
