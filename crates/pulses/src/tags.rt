// A row of pulses by its tags: which pulses are good, and what each part says. Every pulse is put into the cell of its tag, and what a
// part says is read off its eight cells. Only the loop that finds a bad place ends early; the others the compiler takes many bytes at a
// time. specs/Tags.antt says what tags and cells are. Tags and pulses are lent as
// two slices and zipped: a struct of both would be taken apart in each function.
ghost use Rattle.std.specs.Prelude.{◌≡◌, cond, map, ◌≤◌, ◌<◌, min, ltb, length, get_or};
ghost use Rattle.pulses.specs.Row.{first_data, pulse_allowed, good_pulses, up_to};
ghost use Rattle.pulses.specs.Tags.{entry_of, fit_from, blocks_fit, CountedTo, cells_put, cells_say, tag_sums};

use super::{FIRST_DATA, TURN};

const PARTS: u8 = 32;

// So many bytes are looked at together.
const BLOCK: usize = 16;

#[tactic(auto, using(crate::proofs::TagLaws::tag_fixed, crate::proofs::TagLaws::tag_data))]
fn fits_tag(tag: u8, pulse: u8) -> bool
    ensures { result ≡ pulse_allowed (entry_of tag) pulse }
{
    let part = tag % PARTS;
    if usize::from(part) < FIRST_DATA {
        return pulse == part;
    }
    pulse < 2
}

// Whether the pulses are as their tags ask, up to the end of the shorter.
fn all_fit(tags: &[u8], pulses: &[u8]) -> bool
    ensures { result ≡ fit_from tags.now pulses.now 0 (min (length tags.now) (length pulses.now)) }
{
    let mut good = true;
    for (tag, pulse) in tags.iter().zip(pulses) {
        good = fits_tag(*tag, *pulse) & good;
    }
    good
}

// The last sixteen are looked at whole, so that none are left over to be taken one by one.
#[tactic(auto, using(crate::proofs::TagLaws::too_few, crate::proofs::TagLaws::enough))]
fn blocks_fit(tags: &[u8], pulses: &[u8]) -> bool
    requires { length tags.now ≡ length pulses.now }
    ensures { result ≡ blocks_fit tags.now pulses.now (length tags.now) }
{
    let end = tags.len();
    if end < BLOCK {
        return false;
    }
    let whole = end / BLOCK * BLOCK;
    let last = end - BLOCK;
    let most = all_fit(&tags[..whole], &pulses[..whole]);
    most & all_fit(&tags[last..], &pulses[last..])
}

// Where the first sixteen begin that are not all good, or fewer are left: those before are.
#[tactic(auto, using(crate::proofs::TagLaws::counted_part))]
fn good_blocks(tags: &[u8], pulses: &[u8]) -> usize
    requires { length tags.now ≡ length pulses.now }
    ensures { (result ≤ length tags.now) × CountedTo tags.now pulses.now result }
{
    let blocks = tags.len() / BLOCK;
    // By number, since the place of the block is what is answered.
    for block in 0..blocks {
        let from = BLOCK * block;
        if !all_fit(&tags[from..from + BLOCK], &pulses[from..from + BLOCK]) {
            return from;
        }
    }
    BLOCK * blocks
}

// How many of the first pulses are good, up to the first that is not, looked at one by one.
fn good_one_by_one(tags: &[u8], pulses: &[u8]) -> usize
    ensures { result ≡ good_pulses (map entry_of tags.now) pulses.now }
{
    tags.iter()
        .zip(pulses)
        .take_while(|(tag, pulse)| fits_tag(**tag, **pulse))
        .count()
}

// How many pulses from the start are as their tags ask; where all are, no place is looked for.
pub fn good(tags: &[u8], pulses: &[u8]) -> usize
    ensures { result ≡ good_pulses (map entry_of tags.now) pulses.now }
{
    let end = tags.len().min(pulses.len());
    let tags = &tags[..end];
    let pulses = &pulses[..end];
    if blocks_fit(tags, pulses) {
        return end;
    }
    let from = good_blocks(tags, pulses);
    from + good_one_by_one(&tags[from..], &pulses[from..])
}

// Puts the pulses into the cells of their tags, up to the end of the shorter.
fn put(cells: &mut [u8; 256], tags: &[u8], pulses: &[u8])
    ensures { cells.new ≡ cells_put cells.old tags.now pulses.now (min (length tags.now) (length pulses.now)) }
{
    for (tag, pulse) in tags.iter().zip(pulses) {
        cells[usize::from(*tag)] = *pulse;
    }
}

// What the eight cells of a part say, the highest digit first.
#[tactic(auto, using(crate::proofs::TagLaws::octet_is))]
fn octet(cells: &[u8; 256], part: usize) -> u8
    requires { part < 32 }
    ensures { result ≡ cells_say cells.now part }
{
    let a = cells[224 + part] % 2;
    let b = a * 2 + cells[192 + part] % 2;
    let c = b * 2 + cells[160 + part] % 2;
    let d = c * 2 + cells[128 + part] % 2;
    let e = d * 2 + cells[96 + part] % 2;
    let f = e * 2 + cells[64 + part] % 2;
    let g = f * 2 + cells[32 + part] % 2;
    g * 2 + cells[part] % 2
}

fn octets(cells: &[u8; 256]) -> [u8; 32]
    ensures { result ≡ up_to (cells_say cells.now) 32 }
{
    std::array::from_fn(|k| octet(cells, k))
}

// What is fixed says nothing.
fn widened(said: &[u8; 32]) -> [u32; 32]
    ensures { result ≡ up_to (λ k. cond (ltb k first_data) 0 (get_or said.now k 0)) 32 }
{
    let mut values = [0u32; 32];
    // By number: the library says nothing of what is stored through a `zip` of `iter_mut`.
    for k in FIRST_DATA..32 {
        values[k] = u32::from(said[k]);
    }
    values
}

// What each part says. The turns of twenty have no test within.
pub fn sums(tags: &[u8], pulses: &[u8]) -> [u32; 32]
    ensures { result ≡ tag_sums tags.now pulses.now }
{
    let end = tags.len().min(pulses.len());
    let whole = end / TURN;
    let mut cells = [0u8; 256];
    // Cut by range, as the proof puts the turns together by their places.
    for turn in 0..whole {
        let from = TURN * turn;
        put(
            &mut cells,
            &tags[from..from + TURN],
            &pulses[from..from + TURN],
        );
    }
    let from = TURN * whole;
    put(&mut cells, &tags[from..end], &pulses[from..end]);
    let said = octets(&cells);
    widened(&said)
}
