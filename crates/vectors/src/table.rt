// The table of a frame's pulses: the field and the weight of each place.
use super::print::{print_number, print_word};

pub(crate) fn tabled() {
    print_word(b"table");
    for place in 0..100usize {
        let pulse = irig_table::pulse_at(place);
        print_number(b' ', place as u64);
        print_number(b'=', u64::from(pulse.field));
        print_number(b'*', u64::from(pulse.weight));
    }
}
