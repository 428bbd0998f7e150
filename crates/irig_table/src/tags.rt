// The tags of a frame's pulses, by which reader and writer go: the part of a pulse and, 32 times over, which binary digit of what the part
// says it is. The table `PULSES` is the source; that these are its tags is tested in proofs/TagLaws.antt. It stands in both forms for speed:
// by bytes a frame is read and laid many pulses at a time.
pub(crate) const TAGS: [u8; 100] = [
    // 0..9
    2, 3, 35, 67, 99, 0, 4, 36, 68, 2,
    // 10..19
    5, 37, 69, 101, 0, 6, 38, 70, 0, 2,
    // 20..29
    7, 39, 71, 103, 0, 8, 40, 0, 0, 2,
    // 30..39
    9, 41, 73, 105, 0, 10, 42, 74, 106, 2,
    // 40..49
    11, 43, 0, 0, 0, 0, 0, 0, 0, 2,
    // 50..59
    12, 44, 76, 108, 0, 13, 45, 77, 109, 2,
    // 60..69
    14, 15, 16, 17, 18, 19, 51, 83, 115, 2,
    // 70..79
    20, 21, 53, 85, 117, 22, 0, 0, 0, 2,
    // 80..89
    23, 55, 87, 119, 151, 183, 215, 247, 24, 2,
    // 90..99
    56, 88, 120, 152, 184, 216, 248, 25, 0, 2,
];
