// The tags of a minute's marks, by which reader and writer go: the part of a mark and, 32 times over, which binary digit of what the part says
// it is. That these are the tags of the paper's table is tested in proofs/TagLaws.antt and where they are lent. The table stands in both
// forms for speed: by bytes a minute is read and laid many marks at a time.
pub(crate) const TAGS: [u8; 60] = [
    // 0..9
    0, 3, 35, 67, 99, 131, 163, 195, 227, 21,
    // 10..19
    53, 85, 117, 149, 181, 213, 4, 5, 37, 6,
    // 20..29
    1, // always a 1
    7, 39, 71, 103, 8, 40, 72, 9, 10,
    // 30..39
    42, 74, 106, 11, 43, 12, 13, 45, 77, 109,
    // 40..49
    14, 46, 15, 47, 79, 16, 48, 80, 112, 17,
    // 50..59
    18, 50, 82, 114, 19, 51, 83, 115, 20, 2,
];

pub(crate) const LONG_TAGS: [u8; 61] = [
    // 0..9
    0, 3, 35, 67, 99, 131, 163, 195, 227, 21,
    // 10..19
    53, 85, 117, 149, 181, 213, 4, 5, 37, 6,
    // 20..29
    1, // in the long form too
    7, 39, 71, 103, 8, 40, 72, 9, 10,
    // 30..39
    42, 74, 106, 11, 43, 12, 13, 45, 77, 109,
    // 40..49
    14, 46, 15, 47, 79, 16, 48, 80, 112, 17,
    // 50..59
    18, 50, 82, 114, 19, 51, 83, 115, 20, 0,
    // 60
    2,
];
