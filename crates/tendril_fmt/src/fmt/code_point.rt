//! The WTF-8 of one code point.
ghost use Rattle.std.specs.Prelude.{◌≡◌, ◌+◌, ◌<◌, ◌≤◌, ◌∷◌, [], ◌++◌, encode_utf8, length, take};
ghost use Rattle.tendril_fmt.specs.CodePoints.{IsCodePoint};

/// Writes the WTF-8 of a code point at an offset, and returns the offset after it: one to four bytes, three for a
/// surrogate.
#[inline]
pub fn put_code_point(bytes: &mut [u8], at: usize, code: u32) -> usize
    requires point { IsCodePoint code }
    requires fits { at + length (encode_utf8 code) ≤ length bytes.old }
    ensures place { result ≡ at + length (encode_utf8 code) }
    ensures bytes { take result bytes.new ≡ take at bytes.old ++ encode_utf8 code }
{
    if code < 0x80 {
        return put(bytes, at, code as u8);
    }
    let last = (0x80 + code % 0x40) as u8;
    if code < 0x800 {
        let at = put(bytes, at, (0xC0 + code / 0x40) as u8);
        return put(bytes, at, last);
    }
    let third = (0x80 + code / 0x40 % 0x40) as u8;
    if code < 0x1_0000 {
        let at = put(bytes, at, (0xE0 + code / 0x1000) as u8);
        let at = put(bytes, at, third);
        return put(bytes, at, last);
    }
    let at = put(bytes, at, (0xF0 + code / 0x4_0000) as u8);
    let at = put(bytes, at, (0x80 + code / 0x1000 % 0x40) as u8);
    let at = put(bytes, at, third);
    put(bytes, at, last)
}

// Writes a byte at an offset, and returns the offset after it.
#[inline]
fn put(bytes: &mut [u8], at: usize, byte: u8) -> usize
    requires { at < length bytes.old }
    ensures place { result ≡ at + 1 }
    ensures bytes { take result bytes.new ≡ take at bytes.old ++ byte ∷ [] }
{
    bytes[at] = byte;
    at + 1
}
