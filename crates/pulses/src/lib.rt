// A row of pulses, driven by a table that the caller lends: which pulses are good, what their groups add up to, the
// row that says given values, and the count of ones. Every function takes any slices and any numbers. `tags` and `laying` do the
// same work by a column of bytes, the tags of a table.
#![tactic(auto)]

pub mod laying;
pub mod outline;
pub mod tags;

ghost use Rattle.std.specs.Prelude.{◌≡◌, ◌+◌, ◌*◌, ◌%◌, ◌<◌, ◌≤◌, ◌↔◌, IsTrue, length};
ghost use Rattle.std.specs.Int.Count as Count;
ghost use Rattle.pulses.specs.Row.{
  group_of,
  weight_of,
  bit,
  digit_of,
  pulse_allowed,
  pulse_for,
  scan_of,
  fits_in,
  laid,
  ones_from,
  ones_of,
};

// An entry of a table is its group times this, and its weight: one number, as specs/Row.antt and the theorems on tables have it.
pub const UNIT: u32 = 134217728;

// The entry of a pulse that is always 0.
pub const ZERO: u32 = 0;

// Every weight is below this.
const WEIGHTS: u32 = 1048576;

// The first group that holds data. A pulse of a group below is always that group's number.
const FIRST_DATA: usize = 3;

// More places than this are not read, so that no sum outgrows its number.
const PLACES: usize = 4096;

// A word holds this many pulses, and two words are packed.
const WORD: usize = 63;

const MOST: usize = 126;

// So many pulses are read or laid in a turn, by a loop of known length, of which the compiler makes straight code.
const TURN: usize = 20;

// The group of an entry.
#[tactic(auto, unfolding(crate::specs::Row::group_of))]
pub fn group_of(entry: u32) -> usize
    ensures value { result ≡ group_of entry }
    ensures upper_bound { result < 32 }
{
    (entry / UNIT % 32) as usize
}

// The weight of an entry; a fixed pulse weighs nothing.
#[tactic(auto, unfolding(crate::specs::Row::weight_of))]
pub fn weight_of(entry: u32) -> u32
    ensures value { result ≡ weight_of entry }
    ensures upper_bound { result < 1048576 }
{
    if group_of(entry) < FIRST_DATA {
        return 0;
    }
    entry % WEIGHTS
}

// A flag as a pulse: the writers' name for `u32::from`, a function by itself since the wrong program `flag_as_2` is about it.
pub fn bit(flag: bool) -> u32
    ensures { result ≡ bit flag }
{
    u32::from(flag)
}

// What a pulse adds to its group.
fn share(entry: u32, pulse: u8) -> u32
    ensures value { result ≡ weight_of entry * (pulse % 2) }
    ensures upper_bound { result < 1048576 }
{
    weight_of(entry) * u32::from(pulse % 2)
}

// Whether a pulse is as its entry asks.
#[tactic(auto, unfolding(crate::specs::Row::pulse_allowed))]
fn is_allowed(entry: u32, pulse: u8) -> bool
    ensures { result ≡ pulse_allowed entry pulse }
{
    let group = group_of(entry);
    if group < FIRST_DATA {
        return pulse == group as u8;
    }
    pulse < 2
}

// What one pass over the pulses finds: how many of them are good, up to the first that is not, and what those add up to.
#[derive(Clone, Copy, Debug, PartialEq, Eq)]
pub struct Scan {
    pub good: usize,
    pub sums: [u32; 32],
}

// Leaves at the first pulse that is not as the table asks. Readers go by `tags`: this is kept for `scan_good`, `scan-sums` and their
// must-fail edits.
pub fn scanned(table: &[u32], pulses: &[u8]) -> Scan
    ensures { result ≡ scan_of table.now pulses.now }
{
    let read = &table[..table.len().min(PLACES)];
    let mut good = 0;
    let mut sums = [0u32; 32];
    for (entry, pulse) in read.iter().zip(pulses) {
        if !is_allowed(*entry, *pulse) {
            return Scan { good, sums };
        }
        let group = group_of(*entry);
        sums[group] += share(*entry, *pulse);
        good += 1;
    }
    Scan { good, sums }
}

// The binary digit of a value that a weight picks.
#[tactic(auto, unfolding(crate::specs::Row::digit_of))]
fn digit_of(value: u32, weight: u32) -> u8
    ensures { result ≡ digit_of value weight }
{
    u8::from(value & weight != 0)
}

// The pulse at an entry where each group says its number among the values.
#[tactic(auto, unfolding(crate::specs::Row::pulse_for, crate::specs::Row::pulse_of))]
fn pulse_for(entry: u32, values: &[u32; 32]) -> u8
    ensures { result ≡ pulse_for entry values.now }
{
    let group = group_of(entry);
    if group < FIRST_DATA {
        return group as u8;
    }
    digit_of(values[group], weight_of(entry))
}

// Stores the row of pulses that says the values from the start of `out`, where it fits. Writers go by `laying`: this is kept for `lay_one`
// and the must-fail edits `buffer_as_found` and `lay_stores_one_past`.
pub fn lay(out: &mut [u8], table: &[u32], values: [u32; 32]) -> bool
    ensures value { result ≡ fits_in table.now out.old }
    ensures out_after { out.new ≡ laid table.now values out.old }
{
    if out.len() < table.len() {
        return false;
    }
    // By number: the library says nothing of what is stored through a `zip` of `iter_mut`.
    for (i, entry) in table.iter().enumerate() {
        out[i] = pulse_for(*entry, &values);
    }
    true
}

// A part of `count` pulses from place `from` on lies within `length` pulses, and fits in two words.
fn lies_within(length: usize, from: usize, count: usize) -> bool
    ensures { IsTrue result ↔ (from + count ≤ length) × (count ≤ 126) }
{
    from <= length && count <= length - from && count <= MOST
}

// The pulses packed in a word, the first highest; a mark is a 0.
fn packed(pulses: &[u8]) -> u64
    requires { length pulses.now ≤ 63 }
    ensures { Count.ones result ≡ ones_from 0 (length pulses.now) pulses.now }
{
    let mut word: u64 = 0;
    for pulse in pulses {
        word = word * 2 + u64::from(*pulse % 2);
    }
    word
}

// The ones among `count` pulses from place `from` on, counted in two packed words; 0 for a part that is not there, as `ones_of` promises.
pub fn ones(pulses: &[u8], from: usize, count: usize) -> u32
    ensures value { result ≡ ones_of from count pulses.now }
    ensures upper_bound { result ≤ 126 }
{
    if !lies_within(pulses.len(), from, count) {
        return 0;
    }
    let part = &pulses[from..from + count];
    let first = count.min(WORD);
    let high = packed(&part[..first]).count_ones();
    let low = packed(&part[first..]).count_ones();
    high + low
}
