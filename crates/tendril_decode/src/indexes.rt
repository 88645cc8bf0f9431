//! The indexes of the encodings of several bytes: the character of each pointer, 0 where there is none.
ghost use Rattle.std.specs.Prelude.{◌≡◌, ◌<◌, slice_index};
ghost use Rattle.std.specs.Char.{IsScalar};

use crate::tables::big5::BIG5;
use crate::tables::euc_kr::EUC_KR;
use crate::tables::gb18030::GB18030;
use crate::tables::jis0208::JIS0208;
use crate::tables::jis0212::JIS0212;

// The character of a pointer of the index big5, or 0.
#[inline(always)]
pub(crate) fn big5_at(pointer: usize) -> u32
    requires { pointer < 19782 }
    ensures value { result ≡ slice_index BIG5 pointer }
    ensures scalar { IsScalar result }
{
    BIG5[pointer]
}

// The character of a pointer of the index euc-kr, or 0.
#[inline(always)]
pub(crate) fn euc_kr_at(pointer: usize) -> u32
    requires { pointer < 23940 }
    ensures value { result ≡ slice_index EUC_KR pointer }
    ensures scalar { IsScalar result }
    ensures small { result < 0x1_0000 }
{
    EUC_KR[pointer] as u32
}

// The character of a pointer of the index gb18030, or 0.
#[inline(always)]
pub(crate) fn gb18030_at(pointer: usize) -> u32
    requires { pointer < 23940 }
    ensures value { result ≡ slice_index GB18030 pointer }
    ensures scalar { IsScalar result }
    ensures small { result < 0x1_0000 }
{
    GB18030[pointer] as u32
}

// The character of a pointer of the index jis0208, or 0.
#[inline(always)]
pub(crate) fn jis0208_at(pointer: usize) -> u32
    requires { pointer < 11280 }
    ensures value { result ≡ slice_index JIS0208 pointer }
    ensures scalar { IsScalar result }
    ensures small { result < 0x1_0000 }
{
    JIS0208[pointer] as u32
}

// The character of a pointer of the index jis0212, or 0.
#[inline(always)]
pub(crate) fn jis0212_at(pointer: usize) -> u32
    requires { pointer < 8836 }
    ensures value { result ≡ slice_index JIS0212 pointer }
    ensures scalar { IsScalar result }
    ensures small { result < 0x1_0000 }
{
    JIS0212[pointer] as u32
}
