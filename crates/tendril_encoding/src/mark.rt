//! Byte order marks at the start of a stream.
ghost use Rattle.std.specs.Prelude.{◌≡◌};
ghost use Rattle.tendril_encoding.specs.Marks.{seen_bytes, is_nothing, marks_for, sniffed};

use tendril_labels::Encoding;

/// What becomes of a byte order mark at the start of a stream.
#[derive(Clone, Copy, PartialEq, Eq, Hash, Debug)]
pub enum BomHandling {
    /// The mark of UTF-8, UTF-16LE or UTF-16BE decides the encoding, and is removed.
    Sniff,
    /// The mark of the encoding itself is removed.
    Remove,
    /// It is decoded as any other bytes.
    Keep,
}

/// A byte order mark.
#[derive(Clone, Copy, PartialEq, Eq, Debug)]
pub enum Mark {
    OfUtf8,
    OfUtf16Le,
    OfUtf16Be,
}

/// The marks that are looked for.
#[derive(Clone, Copy, PartialEq, Eq, Debug)]
pub struct Marks {
    pub utf8: bool,
    pub utf16_le: bool,
    pub utf16_be: bool,
}

/// The bytes of a stream so far, while they may begin a mark, in hexadecimal.
#[derive(Clone, Copy, PartialEq, Eq, Debug)]
pub enum Seen {
    Nothing,
    Ef,
    EfBb,
    Ff,
    Fe,
}

/// What a byte shows of the start of a stream.
#[derive(Clone, Copy, PartialEq, Eq, Debug)]
pub enum Sniffed {
    /// More bytes may complete a mark.
    Waits(Seen),
    /// The bytes so far are this mark.
    Marked(Mark),
    /// The stream begins with no mark.
    Plain,
}

impl Marks {
    /// Returns the marks that are looked for, or `None` if there are none.
    pub(crate) fn of(encoding: Encoding, bom: BomHandling) -> Option<Self>
        ensures { result ≡ marks_for encoding bom }
    {
        let (utf8, utf16_le, utf16_be) = match (bom, encoding) {
            (BomHandling::Sniff, _) => (true, true, true),
            (BomHandling::Remove, Encoding::Utf8) => (true, false, false),
            (BomHandling::Remove, Encoding::Utf16Le) => (false, true, false),
            (BomHandling::Remove, Encoding::Utf16Be) => (false, false, true),
            (BomHandling::Remove, _) | (BomHandling::Keep, _) => return None,
        };
        Some(Marks {
            utf8,
            utf16_le,
            utf16_be,
        })
    }
}

impl Seen {
    /// The bytes.
    pub(crate) fn bytes(self) -> &'static [u8]
        ensures { result.now ≡ seen_bytes self }
    {
        match self {
            Seen::Nothing => &[],
            Seen::Ef => &[0xEF],
            Seen::EfBb => &[0xEF, 0xBB],
            Seen::Ff => &[0xFF],
            Seen::Fe => &[0xFE],
        }
    }

    /// Whether there are none.
    pub(crate) fn is_nothing(self) -> bool
        ensures { result ≡ is_nothing self }
    {
        self == Seen::Nothing
    }

    /// What the byte after them shows.
    pub(crate) fn sniff(self, marks: Marks, byte: u8) -> Sniffed
        ensures { result ≡ sniffed marks self byte }
    {
        match self {
            Seen::Nothing => first_byte(marks, byte),
            Seen::Ef if byte == 0xBB => Sniffed::Waits(Seen::EfBb),
            Seen::EfBb if byte == 0xBF => Sniffed::Marked(Mark::OfUtf8),
            Seen::Ff if byte == 0xFE => Sniffed::Marked(Mark::OfUtf16Le),
            Seen::Fe if byte == 0xFF => Sniffed::Marked(Mark::OfUtf16Be),
            _ => Sniffed::Plain,
        }
    }
}

// What the first byte of a stream shows.
fn first_byte(marks: Marks, byte: u8) -> Sniffed
    ensures { result ≡ sniffed marks Seen.Nothing byte }
{
    match byte {
        0xEF if marks.utf8 => Sniffed::Waits(Seen::Ef),
        0xFF if marks.utf16_le => Sniffed::Waits(Seen::Ff),
        0xFE if marks.utf16_be => Sniffed::Waits(Seen::Fe),
        _ => Sniffed::Plain,
    }
}
