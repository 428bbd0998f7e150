// What may stand at each place of a string. A layout has one number a place, which packs four bytes; specs/Layout.antt
// says how. It is lent as that list of numbers, or as four columns, one byte a place in each. A loop over columns that never
// leaves early is compiled to 16 bytes an instruction.
ghost use Rattle.std.specs.Prelude.{◌≡◌, ◌<◌, min, leb, length, get_or};
ghost use Rattle.std.specs.List.{prefix_len};
ghost use Rattle.wire.specs.Layout.{packed, allowed, all_good, good_places, printable, printables};
ghost use Rattle.wire.specs.Columns.{entries};

// Most bytes are in their range, so that is asked first.
#[tactic(auto, using(crate::proofs::EntryLaws::allowed_packed))]
fn allowed_by(low: u8, high: u8, other: u8, third: u8, byte: u8) -> bool
    ensures { result ≡ allowed (packed low high other third) byte }
{
    if (low <= byte) & (byte <= high) {
        return true;
    }
    (byte == other) | (byte == third)
}

// An entry of a layout packs its four bytes with the lowest first.
#[tactic(auto, using(crate::proofs::EntryLaws::packed_bytes))]
fn allowed(entry: u32, byte: u8) -> bool
    ensures { result ≡ allowed entry byte }
{
    let [low, high, other, third] = entry.to_le_bytes();
    allowed_by(low, high, other, third, byte)
}

// How many bytes from the start are allowed where they stand. Readers go by `Columns`: this is kept for its promise, and for the wrong
// program `layout_other_place`.
pub fn good_places(layout: &[u32], text: &[u8]) -> usize
    ensures { result ≡ good_places layout.now text.now }
{
    layout
        .iter()
        .zip(text)
        .take_while(|(entry, byte)| allowed(**entry, **byte))
        .count()
}

// A layout as four columns: both ends of each place's range, and two bytes that are allowed beside it. It ends with the shortest.
#[derive(Clone, Copy)]
pub struct Columns<'a> {
    pub low: &'a [u8],
    pub high: &'a [u8],
    pub other: &'a [u8],
    pub third: &'a [u8],
}

impl Columns<'_> {
    // How many places the columns and the text have.
    #[tactic(auto, using(crate::proofs::ColumnLaws::of_columns))]
    fn shared_places(self, text: &[u8]) -> usize
        ensures { result ≡ min (length (entries self.entry)) (length text.now) }
    {
        let range = self.low.len().min(self.high.len());
        let beside = self.other.len().min(self.third.len());
        range.min(beside).min(text.len())
    }

    // The byte at a place that the columns and the text have is allowed there: what both loops below ask.
    #[tactic(auto, using(crate::proofs::ColumnLaws::of_columns))]
    fn allowed_at(self, text: &[u8], place: usize) -> bool
        requires { place < min (length (entries self)) (length text.now) }
        ensures { result ≡ allowed (get_or (entries self.entry) place 0) (get_or text.now place 0) }
    {
        allowed_by(
            self.low[place],
            self.high[place],
            self.other[place],
            self.third[place],
            text[place],
        )
    }

    // Whether every byte is allowed where it stands. All of them are looked at, whatever is found.
    #[tactic(auto, using(crate::proofs::LayoutLaws::good_next))]
    pub fn all_allowed(self, text: &[u8]) -> bool
        ensures { result ≡ all_good (entries self.entry) text.now }
    {
        let mut good = true;
        for place in 0..self.shared_places(text) {
            good &= self.allowed_at(text, place);
        }
        good
    }

    // How many bytes from the start are allowed where they stand. It leaves at the first that is not, and is for a text that has one.
    #[tactic(auto, using(crate::proofs::LayoutLaws::good_scan))]
    pub fn good_places(self, text: &[u8]) -> usize
        ensures { result ≡ good_places (entries self.entry) text.now }
    {
        let places = self.shared_places(text);
        for place in 0..places {
            if !self.allowed_at(text, place) {
                return place;
            }
        }
        places
    }
}

// The byte at a place; past the end it is 0, which no layout of ours allows.
pub fn byte_at(text: &[u8], at: usize) -> u8
    ensures { result ≡ get_or text.now at 0 }
{
    text.get(at).copied().unwrap_or(0)
}

#[tactic(auto, unfolding(crate::specs::Layout::printable))]
fn printable(byte: u8) -> bool
    ensures { result ≡ printable byte }
{
    (32 <= byte) & (byte <= 126)
}

// All bytes are looked at, whatever is found.
#[tactic(auto, using(crate::proofs::LayoutLaws::printables_next))]
fn all_printable(text: &[u8]) -> bool
    ensures { result ≡ leb (length text.now) (printables text.now) }
{
    let mut good = true;
    for byte in text {
        good &= printable(*byte);
    }
    good
}

fn first_unprintable(text: &[u8]) -> usize
    ensures { result ≡ prefix_len printable text.now }
{
    text.iter().take_while(|byte| printable(**byte)).count()
}

// How many of the first bytes are printable: where not all are, the place of the first that is not. A count, and so no Option.
#[tactic(auto, using(crate::proofs::LayoutLaws::printables_scan))]
pub fn unprintable_at(text: &[u8]) -> usize
    ensures { result ≡ printables text.now }
{
    if all_printable(text) {
        return text.len();
    }
    first_unprintable(text)
}
