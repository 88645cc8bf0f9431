//! Records, and sinks of records.

use tendril::StrTendril;
use tendril::block::Refusal;

/// A record. For a blank line it has no fields.
#[derive(Debug, PartialEq, Eq, Drop)]
pub struct Record {
    pub fields: Vec<StrTendril>,
}

/// A sink of records.
pub trait RecordSink: Drop {
    ghost use Rattle.std.specs.Prelude.{◌≡◌, List, [], ◌∷◌, ◌++◌, OnOk, OnErr};
    ghost use Rattle.use_csv.specs.declared.record.Record.{Record};

    /// The records that it received.
    ghost records: { Self → List Record };

    /// Receives a record. After an error the records are as before.
    fn take_record(&mut self, row: Record) -> Result<(), Refusal>
        ensures ok { OnOk result (records self.new ≡ records self.old ++ row ∷ []) }
        ensures err { OnErr result (records self.new ≡ records self.old) };
}

/// A sink that stores its records.
impl RecordSink for Vec<Record> {
    ghost records = { λ v. v.items };

    fn take_record(&mut self, row: Record) -> Result<(), Refusal> {
        self.push(row)?;
        Ok(())
    }
}
