//! Texts in WTF-8 and the 16-bit units of UTF-16.
ghost use Rattle.std.specs.Prelude.{◌≡◌, ◌≤◌, length, IfOk, IfErr};
ghost use Rattle.tendril_fmt.specs.Wtf8.{units as units_of, wtf8};
ghost use Rattle.tendril_errors.specs.Outcomes.{MemoryMay};
ghost use Rattle.tendril_text.specs.Making.{MakesText};

use crate::tendril::Tendril;
use std::alloc::Global;
use std::marker::PhantomData;
use tendril_block::{Atomicity, MAX_LEN, NODE_CAPACITY, Refusal};
use tendril_fmt::fmt::{WTF8, decode_wtf8, encode_wtf8, wtf8_len};
use tendril_storage::Storage;

impl<A: Atomicity> Tendril<WTF8, A> {
    /// Returns the text's UTF-16 units, lone surrogates included (the WTF-8 specification).
    ///
    /// Returns `Memory` if the allocation fails, which is two bytes for each byte of the text. Takes one pass.
    ///
    /// ```
    /// let text = StrTendril::from_slice(alloc, "é😀")?.into_superset::<WTF8>();
    /// assert_eq!(rt; text.to_units()?.as_slice(), [0xE9, 0xD83D, 0xDE00].as_slice());
    /// ```
    pub fn to_units(&self) -> Result<Vec<u16>, Refusal>
        ensures units { IfOk result (λ v. v.items ≡ units_of self.now.bytes) }
        ensures refusal { IfErr result (λ r. r ≡ Refusal.Memory) }
    {
        let bytes = self.as_byte_slice();
        let units = Vec::with_capacity(self.storage.allocator(), bytes.len())?;
        Ok(decode_wtf8(bytes, units))
    }

    /// Returns the text of UTF-16 units in WTF-8: a lead surrogate and the trail right after it are one character of
    /// four bytes, a lone surrogate is three bytes (the WTF-8 specification).
    ///
    /// Returns `TooLong` if it would have more than 4294967295 bytes, else `Memory` if an allocation fails. Allocates
    /// only for more than 8 bytes. Takes one pass to count the bytes and one to write them.
    ///
    /// ```
    /// let text = Tendril::<WTF8>::from_units(alloc, &[0xE9, 0xD83D, 0xDE00])?;
    /// assert_eq!(rt; text.try_as_subset::<UTF8>()?.as_str(), "é😀");
    /// ```
    pub fn from_units(alloc: Global, units: &[u16]) -> Result<Self, Refusal>
        ensures { MakesText (wtf8 units.now) result }
    {
        let len = wtf8_len(units);
        if len > MAX_LEN as usize {
            return Err(Refusal::TooLong);
        }
        Ok(Tendril {
            storage: encoded(alloc, units, len)?,
            format: PhantomData,
        })
    }
}

// Returns the WTF-8 of units, which has `len` bytes. Up to `NODE_CAPACITY` are written to an array and copied from
// there, without a vector.
fn encoded<A: Atomicity>(alloc: Global, units: &[u16], len: usize) -> Result<Storage<A>, Refusal>
    requires len { len ≡ length (wtf8 units.now) }
    requires fits { len ≤ MAX_LEN }
    ensures bytes { IfOk result (λ s. s.bytes ≡ wtf8 units.now) }
    ensures copied { IfOk result (λ s. s.copied ≡ len) }
    ensures refusal { IfErr result (MemoryMay len) }
{
    if len <= NODE_CAPACITY {
        let mut buffer = [0; NODE_CAPACITY];
        encode_wtf8(units, &mut buffer[..len]);
        return Storage::from_slice(alloc, &buffer[..len]);
    }
    let mut bytes = Vec::from_elem(alloc, 0, len)?;
    encode_wtf8(units, bytes.as_mut_slice());
    Storage::from_vec(alloc, bytes)
}
