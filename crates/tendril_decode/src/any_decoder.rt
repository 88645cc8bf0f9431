//! A decoder of an encoding that is chosen at run time.

use crate::big5::Big5;
use crate::decode::Decode;
use crate::euc_jp::EucJp;
use crate::euc_kr::EucKr;
use crate::gb18030::Gb18030;
use crate::iso_2022_jp::Iso2022Jp;
use crate::part::Part;
use crate::replacement::Replacement;
use crate::shift_jis::ShiftJis;
use crate::single_byte::SingleByte;
use crate::utf16::{Utf16Be, Utf16Le};

/// The state of a decoder of an encoding that is chosen at run time, between two slices of a stream.
#[derive(Clone, Copy, PartialEq, Eq, Debug)]
pub enum AnyDecoder {
    /// An encoding of one byte a character.
    Single(SingleByte),
    /// Big5.
    Big5(Big5),
    /// EUC-JP.
    EucJp(EucJp),
    /// EUC-KR.
    EucKr(EucKr),
    /// gb18030 or GBK.
    Gb18030(Gb18030),
    /// ISO-2022-JP.
    Iso2022Jp(Iso2022Jp),
    /// Shift_JIS.
    ShiftJis(ShiftJis),
    /// UTF-16LE.
    Utf16Le(Utf16Le),
    /// UTF-16BE.
    Utf16Be(Utf16Be),
    /// The encoding `replacement`.
    Replacement(Replacement),
}

// A call of the decoder that was chosen.
macro_rules! on_chosen {
    ($decoder:expr, $state:ident => $call:expr) => {
        match $decoder {
            AnyDecoder::Single($state) => $call,
            AnyDecoder::Big5($state) => $call,
            AnyDecoder::EucJp($state) => $call,
            AnyDecoder::EucKr($state) => $call,
            AnyDecoder::Gb18030($state) => $call,
            AnyDecoder::Iso2022Jp($state) => $call,
            AnyDecoder::ShiftJis($state) => $call,
            AnyDecoder::Utf16Le($state) => $call,
            AnyDecoder::Utf16Be($state) => $call,
            AnyDecoder::Replacement($state) => $call,
        }
    };
}

impl Decode for AnyDecoder {
    ghost use Rattle.std.specs.Prelude.{false};
    ghost use Rattle.tendril_decode.specs.Any.{any_machine, is_fit, weight_few, weight_of};
    ghost use Rattle.tendril_decode.specs.declared.any_decoder.AnyDecoder.TheVariants.{Replacement};

    // This start is one of many: the machine's steps, and what it tells, don't depend on it.
    ghost machine = { any_machine (Replacement (record { seen = false })) };

    ghost fits = { λ s. is_fit s };

    ghost weight = { λ s. weight_of s };

    ghost few = { λ s. weight_few s };

    fn is_complete(&self) -> bool {
        on_chosen!(self, state => state.is_complete())
    }

    fn end(&mut self, out: &mut [u8]) -> Part {
        on_chosen!(self, state => state.end(out))
    }

    fn decode(&mut self, input: &[u8], out: &mut [u8]) -> Part {
        on_chosen!(self, state => state.decode(input, out))
    }
}
