// A row of pulses laid by the tags of its table. Every byte is a tag, and has a cell on a board of 256: the board is filled with the
// digits of all the values, and each place then takes the pulse that stands in the cell of its tag, without a test or a mask.
ghost use Rattle.std.specs.Prelude.{◌≡◌, ◌<◌, length};
ghost use Rattle.pulses.specs.Row.{up_to};
ghost use Rattle.pulses.specs.Laying.{low_byte, digit_in, cells_of, picked, tags_fit, tags_laid};

use super::TURN;

// So many values.
const VALUES: usize = 32;

// So many digits of each have a cell.
const DIGITS: usize = 8;

// The lowest byte of each value. A `map` was counted at 545 instructions more a row, and by `from_fn` the search did not prove it.
#[tactic(auto, using(crate::proofs::FillLaws::filled_none, crate::proofs::FillLaws::filled_next))]
fn low_bytes(values: [u32; 32]) -> [u8; 32]
    ensures { result ≡ up_to (low_byte values) 32 }
{
    let mut low = [0u8; 32];
    for i in 0..VALUES {
        low[i] = (values[i] % 256) as u8;
    }
    low
}

// Stores a row of cells: the digit k of each byte.
#[tactic(auto, using(crate::proofs::FillLaws::filled_none, crate::proofs::FillLaws::filled_next, crate::proofs::FillLaws::filled_whole))]
fn store_digits(row: &mut [u8], low: &[u8; 32], k: usize)
    requires { (k < 8) × (length row.old ≡ 32) }
    ensures { row.new ≡ up_to (digit_in low.now k) 32 }
{
    // By number: the library says nothing of what is stored through a `zip` of `iter_mut`.
    for (i, byte) in low.iter().enumerate() {
        row[i] = (*byte >> k) % 2;
    }
}

// The cells of all the tags: eight rows of digits, and the fixed pulses.
fn cells_of(values: [u32; 32]) -> [u8; 256]
    ensures { result ≡ cells_of values }
{
    let low = low_bytes(values);
    let mut cells = [0u8; 256];
    // Rows are cut by range, as the proof puts them together by their places.
    for k in 0..DIGITS {
        let from = VALUES * k;
        store_digits(&mut cells[from..from + VALUES], &low, k);
    }
    cells[0] = 0;
    cells[1] = 1;
    cells[2] = 2;
    cells
}

// Stores the pulses of the tags: each is looked up in the cell of its tag.
#[tactic(auto, using(crate::proofs::FillLaws::filled_none, crate::proofs::FillLaws::filled_next, crate::proofs::FillLaws::filled_whole))]
fn pick(out: &mut [u8], tags: &[u8], cells: &[u8; 256])
    requires { length out.old ≡ length tags.now }
    ensures { out.new ≡ up_to (picked tags.now cells.now) (length tags.now) }
{
    // By number: the library says nothing of what is stored through a `zip` of `iter_mut`.
    for (i, tag) in tags.iter().enumerate() {
        out[i] = cells[usize::from(*tag)];
    }
}

// Stores the row of pulses that says the values from the start of `out`, where it fits.
pub fn lay(out: &mut [u8], tags: &[u8], values: [u32; 32]) -> bool
    ensures value { result ≡ tags_fit tags.now out.old }
    ensures out_after { out.new ≡ tags_laid tags.now values out.old }
{
    let end = tags.len();
    if out.len() < end {
        return false;
    }
    let cells = cells_of(values);
    // A `for` over the turns divides first, and was counted at nine to eleven instructions more a row.
    let mut from = 0;
    while TURN <= end - from {
        let to = from + TURN;
        pick(&mut out[from..to], &tags[from..to], &cells);
        from = to;
    }
    pick(&mut out[from..end], &tags[from..end], &cells);
    true
}
