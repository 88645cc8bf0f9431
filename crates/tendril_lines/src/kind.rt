//! The formats that commands name.
ghost use Rattle.std.specs.Prelude.{◌≡◌, ◌↔◌, Some};
ghost use Rattle.tendril_lines.specs.Names.{kind_name};

/// A format, by its name.
#[derive(Clone, Copy, Debug, PartialEq, Eq)]
pub enum Kind {
    Bytes,
    Ascii,
    Utf8,
    Wtf8,
    Latin1,
}

impl Kind {
    /// Returns the format's name in lines.
    pub(crate) fn name(self) -> &'static str
        ensures { result.now ≡ kind_name self }
    {
        match self {
            Kind::Bytes => "bytes",
            Kind::Ascii => "ascii",
            Kind::Utf8 => "utf8",
            Kind::Wtf8 => "wtf8",
            Kind::Latin1 => "latin1",
        }
    }

    /// Returns the format with this name, or `None` if no format has it.
    pub(crate) fn from_name(name: &[u8]) -> Option<Self>
        ensures { (kind : _) → (result ≡ Some kind) ↔ (name.now ≡ kind_name kind) }
    {
        match name {
            b"bytes" => Some(Kind::Bytes),
            b"ascii" => Some(Kind::Ascii),
            b"utf8" => Some(Kind::Utf8),
            b"wtf8" => Some(Kind::Wtf8),
            b"latin1" => Some(Kind::Latin1),
            _ => None,
        }
    }
}
