// The listing of a book on one line, a bar for each line feed.
use super::op::Bad;
use super::print::print_word;

fn print_barred(text: &mut [u8]) {
    for byte in text.iter_mut() {
        if *byte == b'\n' {
            *byte = b'|';
        }
    }
    print_word(text)
}

pub(crate) fn listed(base: u16, page: &mut [u8], book: &[u8]) -> Result<(), Bad> {
    let Ok(length) = listing::list(base, book, page) else {
        return Err(Bad);
    };
    let end = length.min(page.len());
    print_barred(&mut page[..end]);
    Ok(())
}
