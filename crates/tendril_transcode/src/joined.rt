//! A sink that joins texts.
ghost use Rattle.std.specs.Prelude.{◌≡◌, ◌++◌, [], IfErr, IsUtf8, OnErr, OnOk};

use std::alloc::{AllocError, Global};
use std::borrow::CowStr;
use std::marker::Model;
use tendril_stream::TendrilSink;
use tendril_text::StrTendril;
use tendril_text::block::Refusal;

/// The texts that were sent, as one. It is a vector, since it is never shared: a push onto it needs fewer tests.
#[derive(Drop)]
pub struct Joined {
    text: Vec<u8>,
}

impl Model for Joined {
    ghost use Rattle.std.specs.Prelude.{ℕ, List, IsUtf8};

    ghost Value = { List ℕ };

    ghost view = { λ j. j.text.items };

    ghost invariant = { λ j. IsUtf8 j.text.items };
}

impl Joined {
    /// Creates the sink, without texts. Allocates nothing.
    ///
    /// ```
    /// let sink = Joined::new(alloc);
    /// assert_eq!(rt; sink.as_bytes().len(), 0);
    /// ```
    pub fn new(alloc: Global) -> Self
        ensures { result ≡ [] }
    {
        Joined {
            text: Vec::new(alloc),
        }
    }

    /// Returns the bytes of the texts.
    ///
    /// ```
    /// let mut sink = Joined::new(alloc);
    /// sink.process(StrTendril::from_slice(alloc, "ab")?)?;
    /// assert_eq!(rt; sink.as_bytes(), b"ab".as_slice());
    /// ```
    pub fn as_bytes(&self) -> &[u8]
        ensures value { result.now ≡ self.now }
        ensures utf8 { IsUtf8 self.now }
    {
        self.text.as_slice()
    }

    /// Removes the texts and keeps the capacity.
    ///
    /// ```
    /// let mut sink = Joined::new(alloc);
    /// sink.process(StrTendril::from_slice(alloc, "ab")?)?;
    /// sink.clear();
    /// assert_eq!(rt; sink.as_bytes().len(), 0);
    /// ```
    pub fn clear(&mut self)
        ensures { self.new ≡ [] }
    {
        self.text.clear();
    }

    fn push(&mut self, text: &str) -> Result<(), Refusal>
        ensures ok { OnOk result (self.new ≡ self.old ++ text.now) }
        ensures err { OnErr result (self.new ≡ self.old) }
        ensures refusal { IfErr result (λ r. r ≡ Refusal.Memory) }
    {
        push_bytes(&mut self.text, text.as_bytes())?;
        Ok(())
    }
}

impl TendrilSink<StrTendril> for Joined {
    ghost use Rattle.std.specs.Prelude.{◌≡◌, ◌++◌, chars};
    ghost use Rattle.tendril_lossy.specs.Lossy.{characters};
    ghost use Rattle.tendril_stream.specs.Sinks.{told_of};
    ghost use Rattle.tendril_transcode.specs.Transcodings.{JoinRefused};

    type Output = Joined;

    ghost takes = { λ a e b. chars b ≡ chars a ++ characters (told_of e) };

    ghost refuses = { λ a e r b. (b ≡ a) × JoinRefused e r };

    ghost finishes = { λ a out. out ≡ a };

    ghost ends = { λ a r. ⊥ };

    fn process(&mut self, text: StrTendril) -> Result<(), Refusal> {
        let _utf8 = self.as_bytes();
        self.push(text.as_str())
    }

    fn error(&mut self, _words: CowStr<'static>) -> Result<(), Refusal> {
        Ok(())
    }

    fn finish(self) -> Result<Joined, Refusal> {
        Ok(self)
    }
}

// Appends bytes. One character of up to three bytes, as U+FFFD, is stored byte by byte: it is the most frequent text
// in broken input, and a call that copies it takes longer.
#[inline(always)]
fn push_bytes(to: &mut Vec<u8>, bytes: &[u8]) -> Result<(), AllocError>
    ensures ok { OnOk result (to.new.items ≡ to.old.items ++ bytes.now) }
    ensures err { OnErr result (to.new.items ≡ to.old.items) }
{
    match bytes {
        [first] => {
            to.reserve(1)?;
            to.push_reserved(*first);
            Ok(())
        }
        [first, second] => {
            to.reserve(2)?;
            to.push_reserved(*first);
            to.push_reserved(*second);
            Ok(())
        }
        [first, second, third] => {
            to.reserve(3)?;
            to.push_reserved(*first);
            to.push_reserved(*second);
            to.push_reserved(*third);
            Ok(())
        }
        _ => to.extend_from_slice(bytes),
    }
}
