//! A sink that joins all that it is sent.
ghost use Rattle.std.specs.Prelude.{◌≡◌, [], false};

use std::alloc::Global;
use std::borrow::CowStr;
use tendril_errors::Refusal;
use tendril_stream::{TendrilSink, Tracks};
use tendril_text::StrTendril;

/// The texts that were sent, joined, and whether an error was.
#[derive(Drop)]
pub struct Whole {
    text: StrTendril,
    malformed: bool,
}

impl Whole {
    pub(crate) fn new(alloc: Global) -> Self
        ensures text { result.text.bytes ≡ [] }
        ensures malformed { result.malformed ≡ false }
    {
        Whole {
            text: StrTendril::new(alloc),
            malformed: false,
        }
    }
}

impl TendrilSink<StrTendril> for Whole {
    ghost use Rattle.std.specs.Prelude.{◌≡◌, ◌++◌, ◌||◌};
    ghost use Rattle.tendril_stream.specs.SentBytes.{sent_bytes};
    ghost use Rattle.tendril_encoding.specs.HasMarks.{is_error};
    ghost use Rattle.tendril_encoding.specs.Outgrown.{AppendRefused};

    type Output = (StrTendril, bool);

    ghost takes = { λ a e b. (b.text.bytes ≡ a.text.bytes ++ sent_bytes e)
        × (b.malformed ≡ (a.malformed || is_error e)) };

    ghost refuses = { λ a e r b. AppendRefused a.text.bytes e r × (b ≡ a) };

    ghost finishes = { λ a out. (out.0.bytes ≡ a.text.bytes) × (out.1 ≡ a.malformed) };

    ghost ends = { λ a r. ⊥ };

    fn process(&mut self, text: StrTendril) -> Result<(), Refusal> {
        self.text.push_tendril(&text)
    }

    fn error(&mut self, _words: CowStr<'static>) -> Result<(), Refusal> {
        self.malformed = true;
        Ok(())
    }

    fn finish(self) -> Result<(StrTendril, bool), Refusal> {
        Ok((self.text, self.malformed))
    }
}

/// The text is the UTF-8 of the characters that were sent.
impl Tracks<StrTendril> for Whole {
    ghost use Rattle.std.specs.Prelude.{◌≡◌, encode_utf8_all};
    ghost use Rattle.tendril_lossy.specs.Lossy.{characters, has_marks};
    ghost use Rattle.tendril_encoding.specs.HasMarks.{whole_on};

    ghost after = { λ a t. (a.text.bytes ≡ encode_utf8_all (characters t)) × (a.malformed ≡ has_marks t) };

    ghost goes_on = { λ t a e b is_sent h c.
        whole_on a.text.bytes b.text.bytes a.malformed b.malformed e t is_sent h.0 h.1 c.0 c.1 };
}
