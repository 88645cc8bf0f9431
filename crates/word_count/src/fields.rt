//! Header fields, one `Name: value` per line: texts used as `str`s.
ghost use Rattle.std.specs.Prelude.{◌≡◌, ◌++◌, codes, IfOk, IfSome};

use tendril::block::Refusal;
use tendril::{ByteSet, Members, StrTendril};

const COLON: ByteSet = ByteSet {
    members: Members::One(b':'),
};

/// A name and its value. Long ones share the block of their line.
#[derive(Clone, Debug, PartialEq, Eq, Drop)]
pub struct Field {
    pub name: StrTendril,
    pub value: StrTendril,
}

/// A line.
#[derive(Clone, Debug, PartialEq, Eq, Drop)]
pub enum Line {
    Blank,
    Comment(StrTendril),
    Field(Field),
    /// A line without a colon, or that begins with one.
    Malformed,
}

impl Field {
    /// Returns whether the value has a comma.
    pub fn is_list(&self) -> bool {
        self.value.find(',').is_some()
    }

    /// Returns the first word of the value.
    pub fn first_word(&self) -> Option<&str> {
        self.value.split_whitespace().next()
    }
}

const HEADER: &str = "Host: example.org\n# who asks\n\nAccept: text/html, text/plain\nnothing\n";

/// Prints each line of a header but blank ones.
pub fn print_fields(rt: &HostRuntime) -> anyhow::Result<()> {
    for line in HEADER.lines() {
        match read_line(StrTendril::from_slice(rt.alloc(), line)?)? {
            Line::Blank => {}
            Line::Comment(comment) => println!(rt; "comment: {}", comment.trim_start_matches('#'))?,
            Line::Field(field) if field.is_list() => println!(rt; "{} is a list", field.name)?,
            Line::Field(field) => println!(rt; "{} is {}", field.name, field.value.trim())?,
            Line::Malformed => println!(rt; "no field: {line}")?,
        }
    }
    Ok(())
}

/// Reads a line.
pub fn read_line(line: StrTendril) -> Result<Line, Refusal> {
    if is_blank(&line) {
        return Ok(Line::Blank);
    }
    if line.as_str().starts_with('#') {
        return Ok(Line::Comment(line));
    }
    match split_field(line)? {
        Some(field) => Ok(Line::Field(field)),
        None => Ok(Line::Malformed),
    }
}

/// Splits a line at its first colon. Returns None if it has no colon, or begins with one.
pub fn split_field(line: StrTendril) -> Result<Option<Field>, Refusal>
    ensures { IfOk result (λ found. IfSome found (λ field.
        line.bytes ≡ field.name.bytes ++ codes ":" ++ field.value.bytes)) }
{
    let mut value = line;
    let Some(name) = value.pop_front_until(&COLON)? else {
        return Ok(None);
    };
    if value.skip_prefix(":") {
        Ok(Some(Field { name, value }))
    } else {
        Ok(None)
    }
}

fn is_blank(text: &str) -> bool {
    text.trim().is_empty()
}
