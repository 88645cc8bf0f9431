//! Calls whose condition is that the bytes are valid.

use tendril::fmt::CharFormat;
use tendril_bench::callers::leading_digits;

/// The first character of the bytes, if they are valid.
pub fn first_of<F: CharFormat>(bytes: &[u8]) -> Option<(char, usize)> {
    if F::validate(bytes) {
        F::first_char(bytes)
    } else {
        None
    }
}

/// The bytes split after their longest prefix of digits, if they are valid.
pub fn split_digits<F: CharFormat>(bytes: &[u8]) -> Option<(&[u8], &[u8])> {
    if F::validate(bytes) {
        Some(leading_digits::<F>(bytes))
    } else {
        None
    }
}

/// Whether the character is encoded as these bytes in the format, and they decode to it.
pub fn is_encoded_as<F: CharFormat>(character: char, bytes: &[u8]) -> bool {
    match F::encode_char(character) {
        Some(encoded) => {
            encoded.as_slice() == bytes && first_of::<F>(bytes) == Some((character, bytes.len()))
        }
        None => false,
    }
}
