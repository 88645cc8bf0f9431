//! The encodings, and what is known of each by itself.
ghost use Rattle.std.specs.Prelude.{◌≡◌, ◌≤◌, length, IfSome};
ghost use Rattle.std.specs.List.{Contains};
ghost use Rattle.tendril_labels.specs.Encodings.{bom_of, encoding_name, is_compatible};
ghost use Rattle.tendril_labels.specs.declared.encoding.Encoding.{Encoding};

/// An encoding of the WHATWG Encoding Standard.
///
/// Each has a constant too, by the name that it has in the Rust crate `encoding_rs`.
///
/// ```
/// let encoding = Encoding::Windows1252;
/// assert_eq!(rt; encoding, Encoding::WINDOWS_1252);
/// ```
#[derive(Clone, Copy, PartialEq, Eq, Hash, Debug)]
pub enum Encoding {
    Big5,
    EucJp,
    EucKr,
    Gb18030,
    /// Decoded as gb18030 is.
    Gbk,
    Ibm866,
    Iso2022Jp,
    Iso8859_10,
    Iso8859_13,
    Iso8859_14,
    Iso8859_15,
    Iso8859_16,
    Iso8859_2,
    Iso8859_3,
    Iso8859_4,
    Iso8859_5,
    Iso8859_6,
    Iso8859_7,
    Iso8859_8,
    /// Decoded as ISO-8859-8 is; only the order in which the text is shown differs.
    Iso8859_8I,
    Koi8R,
    Koi8U,
    Macintosh,
    /// For encodings that are unsafe to decode: a stream that isn't empty decodes to one U+FFFD.
    Replacement,
    ShiftJis,
    Utf16Be,
    Utf16Le,
    Utf8,
    Windows1250,
    Windows1251,
    /// Also what the labels `latin1`, `iso-8859-1` and `ascii` name.
    Windows1252,
    Windows1253,
    Windows1254,
    Windows1255,
    Windows1256,
    Windows1257,
    Windows1258,
    Windows874,
    XMacCyrillic,
    /// ASCII, and U+F780 to U+F7FF for the bytes from 0x80 on.
    XUserDefined,
}

#[rattlefmt::skip]
impl Encoding {
    pub const BIG5: Encoding = Encoding::Big5;
    pub const EUC_JP: Encoding = Encoding::EucJp;
    pub const EUC_KR: Encoding = Encoding::EucKr;
    pub const GB18030: Encoding = Encoding::Gb18030;
    pub const GBK: Encoding = Encoding::Gbk;
    pub const IBM866: Encoding = Encoding::Ibm866;
    pub const ISO_2022_JP: Encoding = Encoding::Iso2022Jp;
    pub const ISO_8859_10: Encoding = Encoding::Iso8859_10;
    pub const ISO_8859_13: Encoding = Encoding::Iso8859_13;
    pub const ISO_8859_14: Encoding = Encoding::Iso8859_14;
    pub const ISO_8859_15: Encoding = Encoding::Iso8859_15;
    pub const ISO_8859_16: Encoding = Encoding::Iso8859_16;
    pub const ISO_8859_2: Encoding = Encoding::Iso8859_2;
    pub const ISO_8859_3: Encoding = Encoding::Iso8859_3;
    pub const ISO_8859_4: Encoding = Encoding::Iso8859_4;
    pub const ISO_8859_5: Encoding = Encoding::Iso8859_5;
    pub const ISO_8859_6: Encoding = Encoding::Iso8859_6;
    pub const ISO_8859_7: Encoding = Encoding::Iso8859_7;
    pub const ISO_8859_8: Encoding = Encoding::Iso8859_8;
    pub const ISO_8859_8_I: Encoding = Encoding::Iso8859_8I;
    pub const KOI8_R: Encoding = Encoding::Koi8R;
    pub const KOI8_U: Encoding = Encoding::Koi8U;
    pub const MACINTOSH: Encoding = Encoding::Macintosh;
    pub const REPLACEMENT: Encoding = Encoding::Replacement;
    pub const SHIFT_JIS: Encoding = Encoding::ShiftJis;
    pub const UTF_16BE: Encoding = Encoding::Utf16Be;
    pub const UTF_16LE: Encoding = Encoding::Utf16Le;
    pub const UTF_8: Encoding = Encoding::Utf8;
    pub const WINDOWS_1250: Encoding = Encoding::Windows1250;
    pub const WINDOWS_1251: Encoding = Encoding::Windows1251;
    pub const WINDOWS_1252: Encoding = Encoding::Windows1252;
    pub const WINDOWS_1253: Encoding = Encoding::Windows1253;
    pub const WINDOWS_1254: Encoding = Encoding::Windows1254;
    pub const WINDOWS_1255: Encoding = Encoding::Windows1255;
    pub const WINDOWS_1256: Encoding = Encoding::Windows1256;
    pub const WINDOWS_1257: Encoding = Encoding::Windows1257;
    pub const WINDOWS_1258: Encoding = Encoding::Windows1258;
    pub const WINDOWS_874: Encoding = Encoding::Windows874;
    pub const X_MAC_CYRILLIC: Encoding = Encoding::XMacCyrillic;
    pub const X_USER_DEFINED: Encoding = Encoding::XUserDefined;
}

impl Encoding {
    /// All encodings, each once, in the order of their names.
    ///
    /// ```
    /// let all = Encoding::all();
    /// assert_eq!(rt; all.len(), 40);
    /// ```
    pub fn all() -> &'static [Encoding]
        ensures every { (e : Encoding) → Contains result.now e }
        ensures once { length result.now ≡ 40 }
    {
        &ALL
    }

    /// The name that the standard gives the encoding.
    ///
    /// ```
    /// let name = Encoding::ShiftJis.name();
    /// assert_eq!(rt; name, "Shift_JIS");
    /// ```
    pub fn name(self) -> &'static str
        ensures { result.now ≡ encoding_name self }
    {
        match self {
            Encoding::Big5 => "Big5",
            Encoding::EucJp => "EUC-JP",
            Encoding::EucKr => "EUC-KR",
            Encoding::Gb18030 => "gb18030",
            Encoding::Gbk => "GBK",
            Encoding::Ibm866 => "IBM866",
            Encoding::Iso2022Jp => "ISO-2022-JP",
            Encoding::Iso8859_10 => "ISO-8859-10",
            Encoding::Iso8859_13 => "ISO-8859-13",
            Encoding::Iso8859_14 => "ISO-8859-14",
            Encoding::Iso8859_15 => "ISO-8859-15",
            Encoding::Iso8859_16 => "ISO-8859-16",
            Encoding::Iso8859_2 => "ISO-8859-2",
            Encoding::Iso8859_3 => "ISO-8859-3",
            Encoding::Iso8859_4 => "ISO-8859-4",
            Encoding::Iso8859_5 => "ISO-8859-5",
            Encoding::Iso8859_6 => "ISO-8859-6",
            Encoding::Iso8859_7 => "ISO-8859-7",
            Encoding::Iso8859_8 => "ISO-8859-8",
            Encoding::Iso8859_8I => "ISO-8859-8-I",
            Encoding::Koi8R => "KOI8-R",
            Encoding::Koi8U => "KOI8-U",
            Encoding::Macintosh => "macintosh",
            Encoding::Replacement => "replacement",
            Encoding::ShiftJis => "Shift_JIS",
            Encoding::Utf16Be => "UTF-16BE",
            Encoding::Utf16Le => "UTF-16LE",
            Encoding::Utf8 => "UTF-8",
            Encoding::Windows1250 => "windows-1250",
            Encoding::Windows1251 => "windows-1251",
            Encoding::Windows1252 => "windows-1252",
            Encoding::Windows1253 => "windows-1253",
            Encoding::Windows1254 => "windows-1254",
            Encoding::Windows1255 => "windows-1255",
            Encoding::Windows1256 => "windows-1256",
            Encoding::Windows1257 => "windows-1257",
            Encoding::Windows1258 => "windows-1258",
            Encoding::Windows874 => "windows-874",
            Encoding::XMacCyrillic => "x-mac-cyrillic",
            Encoding::XUserDefined => "x-user-defined",
        }
    }

    /// Whether a byte below 0x80 at the beginning of a character always is that ASCII character. It isn't in UTF-16BE,
    /// UTF-16LE, ISO-2022-JP and replacement.
    ///
    /// ```
    /// assert_eq!(rt; Encoding::Gbk.is_ascii_compatible(), true);
    /// assert_eq!(rt; Encoding::Utf16Le.is_ascii_compatible(), false);
    /// ```
    pub fn is_ascii_compatible(self) -> bool
        ensures { result ≡ is_compatible self }
    {
        !matches!(
            self,
            Encoding::Iso2022Jp | Encoding::Replacement | Encoding::Utf16Be | Encoding::Utf16Le
        )
    }

    /// The encoding whose byte order mark the bytes begin with, and how many bytes the mark has: UTF-8 and 3, UTF-16BE
    /// and 2, or UTF-16LE and 2. None if they begin with no mark, or with a part of one.
    ///
    /// ```
    /// let found = Encoding::for_bom(b"\xFF\xFEa\0");
    /// assert_eq!(rt; found, Some((Encoding::Utf16Le, 2)));
    /// ```
    pub fn for_bom(bytes: &[u8]) -> Option<(Encoding, usize)>
        ensures mark { result ≡ bom_of bytes.now }
        ensures within { IfSome result (λ found. (found.1 ≤ 3) × (found.1 ≤ length bytes.now)) }
    {
        match bytes {
            [0xEF, 0xBB, 0xBF, ..] => Some((Encoding::Utf8, 3)),
            [0xFE, 0xFF, ..] => Some((Encoding::Utf16Be, 2)),
            [0xFF, 0xFE, ..] => Some((Encoding::Utf16Le, 2)),
            _ => None,
        }
    }
}

static ALL: [Encoding; 40] = [
    Encoding::Big5,
    Encoding::EucJp,
    Encoding::EucKr,
    Encoding::Gb18030,
    Encoding::Gbk,
    Encoding::Ibm866,
    Encoding::Iso2022Jp,
    Encoding::Iso8859_10,
    Encoding::Iso8859_13,
    Encoding::Iso8859_14,
    Encoding::Iso8859_15,
    Encoding::Iso8859_16,
    Encoding::Iso8859_2,
    Encoding::Iso8859_3,
    Encoding::Iso8859_4,
    Encoding::Iso8859_5,
    Encoding::Iso8859_6,
    Encoding::Iso8859_7,
    Encoding::Iso8859_8,
    Encoding::Iso8859_8I,
    Encoding::Koi8R,
    Encoding::Koi8U,
    Encoding::Macintosh,
    Encoding::Replacement,
    Encoding::ShiftJis,
    Encoding::Utf16Be,
    Encoding::Utf16Le,
    Encoding::Utf8,
    Encoding::Windows1250,
    Encoding::Windows1251,
    Encoding::Windows1252,
    Encoding::Windows1253,
    Encoding::Windows1254,
    Encoding::Windows1255,
    Encoding::Windows1256,
    Encoding::Windows1257,
    Encoding::Windows1258,
    Encoding::Windows874,
    Encoding::XMacCyrillic,
    Encoding::XUserDefined,
];
