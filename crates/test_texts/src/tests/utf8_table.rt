//! Unicode's table of well-formed UTF-8, read in a plain and slow way.

/// The bytes of a sequence, each by its least and its greatest value.
type Sequence<'a> = &'a [(u8, u8)];

/// Unicode's table 3-7.
const WELL_FORMED: [Sequence<'static>; 9] = [
    &[(0x00, 0x7F)],
    &[(0xC2, 0xDF), (0x80, 0xBF)],
    &[(0xE0, 0xE0), (0xA0, 0xBF), (0x80, 0xBF)],
    &[(0xE1, 0xEC), (0x80, 0xBF), (0x80, 0xBF)],
    &[(0xED, 0xED), (0x80, 0x9F), (0x80, 0xBF)],
    &[(0xEE, 0xEF), (0x80, 0xBF), (0x80, 0xBF)],
    &[(0xF0, 0xF0), (0x90, 0xBF), (0x80, 0xBF), (0x80, 0xBF)],
    &[(0xF1, 0xF3), (0x80, 0xBF), (0x80, 0xBF), (0x80, 0xBF)],
    &[(0xF4, 0xF4), (0x80, 0x8F), (0x80, 0xBF), (0x80, 0xBF)],
];

/// What bytes begin with.
#[derive(Clone, Copy, Debug, PartialEq, Eq)]
pub(crate) enum Front {
    /// Nothing: there are no bytes.
    Empty,
    /// A character of this many bytes.
    Character(usize),
    /// A maximal subpart of this many bytes, or a byte that begins no character.
    Broken(usize),
    /// The beginning of a character, and nothing after it.
    Open,
}

// The length of the longest prefix of the bytes that matches the sequence.
fn matched(sequence: Sequence, bytes: &[u8]) -> usize {
    sequence
        .iter()
        .zip(bytes)
        .take_while(|(range, byte)| range.0 <= **byte && **byte <= range.1)
        .count()
}

/// What these bytes begin with, by the table alone.
pub(crate) fn front_of(bytes: &[u8]) -> Front {
    if bytes.is_empty() {
        return Front::Empty;
    }
    for sequence in WELL_FORMED {
        match matched(sequence, bytes) {
            0 => {}
            count if count == sequence.len() => return Front::Character(count),
            count if count == bytes.len() => return Front::Open,
            count => return Front::Broken(count),
        }
    }
    Front::Broken(1)
}
