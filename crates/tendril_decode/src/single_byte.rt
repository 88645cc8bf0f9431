//! Encodings of one byte a character: ASCII below 0x80, a table from there on.

use crate::decode::Decode;
use crate::packed::decode_packed;
use crate::part::Part;
use crate::tables;

/// An encoding of one byte a character. Its decoder has no other state.
#[derive(Clone, Copy, PartialEq, Eq, Hash, Debug)]
pub enum SingleByte {
    /// IBM866.
    Ibm866,
    /// ISO-8859-2.
    Iso8859_2,
    /// ISO-8859-3.
    Iso8859_3,
    /// ISO-8859-4.
    Iso8859_4,
    /// ISO-8859-5.
    Iso8859_5,
    /// ISO-8859-6.
    Iso8859_6,
    /// ISO-8859-7.
    Iso8859_7,
    /// ISO-8859-8.
    Iso8859_8,
    /// ISO-8859-8-I, which decodes as ISO-8859-8.
    Iso8859_8I,
    /// ISO-8859-10.
    Iso8859_10,
    /// ISO-8859-13.
    Iso8859_13,
    /// ISO-8859-14.
    Iso8859_14,
    /// ISO-8859-15.
    Iso8859_15,
    /// ISO-8859-16.
    Iso8859_16,
    /// KOI8-R.
    Koi8R,
    /// KOI8-U.
    Koi8U,
    /// macintosh.
    Macintosh,
    /// windows-874.
    Windows874,
    /// windows-1250.
    Windows1250,
    /// windows-1251.
    Windows1251,
    /// windows-1252.
    Windows1252,
    /// windows-1253.
    Windows1253,
    /// windows-1254.
    Windows1254,
    /// windows-1255.
    Windows1255,
    /// windows-1256.
    Windows1256,
    /// windows-1257.
    Windows1257,
    /// windows-1258.
    Windows1258,
    /// x-mac-cyrillic.
    XMacCyrillic,
    /// x-user-defined: the bytes from 0x80 on are U+F780 to U+F7FF.
    XUserDefined,
}

impl SingleByte {
    ghost use Rattle.tendril_decode.specs.Packed.{ArePacked};
    ghost use Rattle.tendril_decode.specs.Single.{table_of};

    /// The UTF-8 of each byte's character, first byte lowest, and its length in the top byte; 0 where there is none.
    #[tactic(auto, using(crate::proofs::PackedTables::packed_tables))]
    pub fn entries(self) -> &'static [u32; 256]
        ensures { ArePacked (table_of self) result.now }
    {
        match self {
            SingleByte::Ibm866 => &tables::ibm866::PACKED_IBM866,
            SingleByte::Iso8859_2 => &tables::iso_8859_2::PACKED_ISO_8859_2,
            SingleByte::Iso8859_3 => &tables::iso_8859_3::PACKED_ISO_8859_3,
            SingleByte::Iso8859_4 => &tables::iso_8859_4::PACKED_ISO_8859_4,
            SingleByte::Iso8859_5 => &tables::iso_8859_5::PACKED_ISO_8859_5,
            SingleByte::Iso8859_6 => &tables::iso_8859_6::PACKED_ISO_8859_6,
            SingleByte::Iso8859_7 => &tables::iso_8859_7::PACKED_ISO_8859_7,
            SingleByte::Iso8859_8 => &tables::iso_8859_8::PACKED_ISO_8859_8,
            SingleByte::Iso8859_8I => &tables::iso_8859_8::PACKED_ISO_8859_8,
            SingleByte::Iso8859_10 => &tables::iso_8859_10::PACKED_ISO_8859_10,
            SingleByte::Iso8859_13 => &tables::iso_8859_13::PACKED_ISO_8859_13,
            SingleByte::Iso8859_14 => &tables::iso_8859_14::PACKED_ISO_8859_14,
            SingleByte::Iso8859_15 => &tables::iso_8859_15::PACKED_ISO_8859_15,
            SingleByte::Iso8859_16 => &tables::iso_8859_16::PACKED_ISO_8859_16,
            SingleByte::Koi8R => &tables::koi8_r::PACKED_KOI8_R,
            SingleByte::Koi8U => &tables::koi8_u::PACKED_KOI8_U,
            SingleByte::Macintosh => &tables::macintosh::PACKED_MACINTOSH,
            SingleByte::Windows874 => &tables::windows_874::PACKED_WINDOWS_874,
            SingleByte::Windows1250 => &tables::windows_1250::PACKED_WINDOWS_1250,
            SingleByte::Windows1251 => &tables::windows_1251::PACKED_WINDOWS_1251,
            SingleByte::Windows1252 => &tables::windows_1252::PACKED_WINDOWS_1252,
            SingleByte::Windows1253 => &tables::windows_1253::PACKED_WINDOWS_1253,
            SingleByte::Windows1254 => &tables::windows_1254::PACKED_WINDOWS_1254,
            SingleByte::Windows1255 => &tables::windows_1255::PACKED_WINDOWS_1255,
            SingleByte::Windows1256 => &tables::windows_1256::PACKED_WINDOWS_1256,
            SingleByte::Windows1257 => &tables::windows_1257::PACKED_WINDOWS_1257,
            SingleByte::Windows1258 => &tables::windows_1258::PACKED_WINDOWS_1258,
            SingleByte::XMacCyrillic => &tables::x_mac_cyrillic::PACKED_X_MAC_CYRILLIC,
            SingleByte::XUserDefined => &tables::x_user_defined::PACKED_X_USER_DEFINED,
        }
    }
}

impl Decode for SingleByte {
    ghost use Rattle.std.specs.Prelude.{true};
    ghost use Rattle.tendril_decode.specs.Single.{none_few, single_byte};
    ghost use Rattle.tendril_decode.specs.declared.single_byte.SingleByte.TheVariants.{Windows1252};

    // Of the machines of these encodings. They differ only in where they start.
    ghost machine = { single_byte Windows1252 };

    ghost fits = { λ _. true };

    ghost weight = { λ _. 0 };

    ghost few = { λ _. none_few };

    fn is_complete(&self) -> bool {
        true
    }

    fn end(&mut self, _out: &mut [u8]) -> Part {
        Part::empty(false)
    }

    fn decode(&mut self, input: &[u8], out: &mut [u8]) -> Part {
        decode_packed(*self, self.entries(), input, out)
    }
}
