//! A line of the log, cut into fields.
ghost use Rattle.std.specs.Prelude.{◌≡◌, IfOk, IfSome};
ghost use Rattle.use_logs.specs.Fields.{IsPathOf, spaced_fields};

use crate::Text;
use tendril::block::Refusal;

/// The fields of a line. Those of more than 8 bytes share its block.
#[derive(Debug, Drop)]
pub struct Record {
    pub time: Text,
    pub method: Text,
    pub target: Text,
    pub status: Text,
    pub size: Text,
    pub agent: Text,
}

impl Record {
    /// Cuts a line into fields, or returns None if there are too few.
    ///
    /// Returns `Count` if the line's block has as many references as it can have.
    pub fn from_line(line: Text) -> Result<Option<Record>, Refusal>
        ensures { IfOk result (λ found. IfSome found (λ it. spaced_fields it ≡ line.bytes)) }
    {
        let mut rest = line;
        let time = rest.pop_field(b' ')?.text;
        let method = rest.pop_field(b' ')?.text;
        let target = rest.pop_field(b' ')?.text;
        let status = rest.pop_field(b' ')?.text;
        let size = rest.pop_field(b' ')?;
        if size.is_last {
            return Ok(None);
        }
        Ok(Some(Record {
            time,
            method,
            target,
            status,
            size: size.text,
            agent: rest,
        }))
    }

    /// The target without its query. Returns `Count` if the target's block has as many references as it can have.
    pub fn path(&self) -> Result<Text, Refusal>
        ensures { IfOk result (λ path. IsPathOf self.now.target.bytes path.bytes) }
    {
        let mut target = self.target.clone()?;
        Ok(target.pop_field(b'?')?.text)
    }

    /// The number of bytes that were sent, or None if a field is malformed.
    pub fn size_if_well_formed(&self) -> Option<u64> {
        self.status.parse::<u16>().ok()?;
        if self.has_empty_field() || !is_quoted(&self.agent) {
            return None;
        }
        self.size.parse::<u64>().ok()
    }

    fn has_empty_field(&self) -> bool {
        self.time.is_empty() || self.method.is_empty() || self.target.is_empty()
    }
}

// Whether a text is between two quotes.
fn is_quoted(text: &str) -> bool {
    text.len() >= 2 && text.starts_with('"') && text.ends_with('"')
}
