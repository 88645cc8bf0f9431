//! A record that isn't complete.
ghost use Rattle.std.specs.Prelude.{◌≡◌, ◌++◌, [], true, codes, encode_utf8, IfOk, OnOk};
ghost use Rattle.use_csv.specs.Spelled.{joined_fields, partial_bytes};

use crate::record::Record;
use std::alloc::Global;
use std::mem;
use tendril::StrTendril;
use tendril::block::Refusal;

/// The complete fields, and the prefix of the next one.
#[derive(Drop)]
pub(crate) struct PartialRecord {
    fields: Vec<StrTendril>,
    field: StrTendril,
    alloc: Global,
}

impl PartialRecord {
    /// Creates a record without fields.
    pub(crate) fn new(alloc: Global) -> Self
        ensures { partial_bytes result ≡ [] }
    {
        PartialRecord {
            fields: Vec::new(alloc),
            field: StrTendril::new(alloc),
            alloc,
        }
    }

    /// Returns whether no field is complete and no byte of one was read.
    pub(crate) fn is_empty(&self) -> bool
        ensures { result ≡ true → partial_bytes self.now ≡ [] }
    {
        self.fields.is_empty() && self.field.is_empty()
    }

    /// Appends a text to the field. An empty field becomes that text, without a copy.
    #[tactic(auto, using(crate::proofs::Joins::partial_on))]
    pub(crate) fn push_text(&mut self, more: StrTendril) -> Result<(), Refusal>
        ensures { OnOk result (partial_bytes self.new ≡ partial_bytes self.old ++ more.bytes) }
    {
        if self.field.is_empty() {
            self.field = more;
            return Ok(());
        }
        self.field.push_tendril(&more)
    }

    /// Appends a character to the field.
    #[tactic(auto, using(crate::proofs::Joins::partial_on))]
    pub(crate) fn push_char(&mut self, character: char) -> Result<(), Refusal>
        ensures { OnOk result (partial_bytes self.new ≡ partial_bytes self.old ++ encode_utf8 character) }
    {
        self.field.push_char(character)
    }

    /// Ends the field and begins another one.
    #[tactic(auto, using(crate::proofs::Joins::partial_next))]
    pub(crate) fn end_field(&mut self) -> Result<(), Refusal>
        ensures { OnOk result (partial_bytes self.new ≡ partial_bytes self.old ++ codes ",") }
    {
        let field = self.field.take();
        self.fields.push(field)?;
        Ok(())
    }

    /// Ends the field and the record, returns the record, and begins another one.
    #[tactic(auto, using(crate::proofs::Joins::partial_end))]
    pub(crate) fn end(&mut self) -> Result<Record, Refusal>
        ensures row { IfOk result (λ row. joined_fields row.fields.items ≡ partial_bytes self.old) }
        ensures next { OnOk result (partial_bytes self.new ≡ []) }
    {
        let field = self.field.take();
        self.fields.push(field)?;
        let fields = mem::replace(&mut self.fields, Vec::new(self.alloc));
        Ok(Record { fields })
    }
}
