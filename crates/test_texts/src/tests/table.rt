//! Which bytes are UTF-8 or WTF-8, by Unicode's table and the two rows of surrogates.

use crate::tests::utf8_table::{Front, front_of};

/// Whether the bytes are characters of the table, one after another.
pub(crate) fn is_utf8(bytes: &[u8]) -> bool {
    let mut rest = bytes;
    for _ in 0..bytes.len() {
        let Front::Character(len) = front_of(rest) else {
            return rest.is_empty();
        };
        rest = rest.get(len..).unwrap_or(b"");
    }
    rest.is_empty()
}

fn is_surrogate(bytes: &[u8], least: u8, greatest: u8) -> bool {
    match bytes {
        [0xED, second, third, ..] => {
            least <= *second && *second <= greatest && 0x80 <= *third && *third <= 0xBF
        }
        _ => false,
    }
}

fn is_lead(bytes: &[u8]) -> bool {
    is_surrogate(bytes, 0xA0, 0xAF)
}

fn is_trail(bytes: &[u8]) -> bool {
    is_surrogate(bytes, 0xB0, 0xBF)
}

// The length of the first character or surrogate, None for a lead that a trail follows.
fn wtf8_front(bytes: &[u8]) -> Option<usize> {
    if is_lead(bytes) {
        let is_pair = bytes.get(3..).is_some_and(is_trail);
        return if is_pair { None } else { Some(3) };
    }
    if is_trail(bytes) {
        return Some(3);
    }
    match front_of(bytes) {
        Front::Character(len) => Some(len),
        _ => None,
    }
}

/// Whether the bytes are characters of the table and surrogates, and no trail follows a lead.
pub(crate) fn is_wtf8(bytes: &[u8]) -> bool {
    let mut rest = bytes;
    for _ in 0..bytes.len() {
        let Some(len) = wtf8_front(rest) else {
            return rest.is_empty();
        };
        rest = rest.get(len..).unwrap_or(b"");
    }
    rest.is_empty()
}
