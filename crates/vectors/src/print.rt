// Words, numbers and bytes on standard output. A count or a place is a `usize`; it is handed to these by `as u64`, in all of this
// program, since `u64` has no `From<usize>`.

pub(crate) fn print_word(text: &[u8]) {
    io::write_all(1, text);
}

// A mark, and a number behind it.
pub(crate) fn print_number(mark: u8, number: u64) {
    print_word(&[mark]);
    io::print_decimal(1, number);
}

// The same with a minus before a number below zero.
pub(crate) fn print_signed(mark: u8, number: i64) {
    let distance = number.unsigned_abs();
    if number < 0 {
        print_word(&[mark]);
        return print_number(b'-', distance);
    }
    print_number(mark, distance)
}

const GLYPHS: [u8; 16] = *b"0123456789abcdef";

fn glyph(digit: u8) -> u8 {
    GLYPHS[usize::from(digit % 16)]
}

// Bytes in lower-case hexadecimal digits, at most 256 of them; a hyphen where there are none.
pub(crate) fn print_hex(bytes: &[u8]) {
    if bytes.is_empty() {
        return print_word(b"-");
    }
    let mut text = [0u8; 512];
    for (digits, &byte) in text.chunks_exact_mut(2).zip(bytes) {
        digits[0] = glyph(byte / 16);
        digits[1] = glyph(byte);
    }
    let end = 2 * bytes.len().min(256);
    print_word(&text[..end])
}
