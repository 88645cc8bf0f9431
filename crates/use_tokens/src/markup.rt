//! Finds where markup ends: the states of HTML's tokenization between `<` and `>`, as in html5ever.
ghost use Rattle.std.specs.Prelude.{◌≡◌, ◌<◌, ◌≤◌, ◌+◌, length, slice_index, IfSome, IfNone};
ghost use Rattle.use_tokens.specs.Ends.{EndsAt};

/// The state inside markup: it decides what the next byte does.
#[derive(Clone, Copy, Debug, PartialEq, Eq)]
pub enum Markup {
    EndTagOpen,
    TagName,
    BeforeAttributeName,
    AttributeName,
    BeforeAttributeValue,
    DoubleQuotedValue,
    SingleQuotedValue,
    UnquotedValue,
    SelfClosingTag,
    DeclarationOpen,
    DeclarationDash,
    CommentStart,
    CommentStartDash,
    Comment,
    CommentEndDash,
    CommentEnd,
    CommentEndBang,
    BogusComment,
}

impl Markup {
    /// Returns the state after `<` and this byte, or None if they begin no markup.
    pub fn opened_by(byte: u8) -> Option<Markup> {
        match byte {
            b'a'..=b'z' | b'A'..=b'Z' => Some(Markup::TagName),
            b'/' => Some(Markup::EndTagOpen),
            b'!' => Some(Markup::DeclarationOpen),
            b'?' => Some(Markup::BogusComment),
            _ => None,
        }
    }

    /// Scans bytes from `start` on. If the markup ends, returns the state before its last `>`, and how many bytes there
    /// are up to and including that `>`; else the state after all bytes, and None.
    pub fn scan(self, bytes: &[u8], start: usize) -> (Markup, Option<usize>)
        requires { start ≤ length bytes.now }
        ensures { IfSome result.1 (EndsAt bytes.now start) }
    {
        let mut markup = self;
        for at in start..bytes.len() {
            match markup.step(bytes[at]) {
                Some(next) => markup = next,
                None => return (markup, Some(at + 1)),
            }
        }
        (markup, None)
    }

    // The state after a byte, or None if the markup ends with it.
    fn step(self, byte: u8) -> Option<Markup>
        ensures { IfNone result (byte ≡ 62) }
    {
        match self {
            Markup::EndTagOpen => end_tag_open(byte),
            Markup::TagName => in_tag(byte, Markup::TagName),
            Markup::BeforeAttributeName => in_tag(byte, Markup::AttributeName),
            Markup::AttributeName => match byte {
                _ if byte > b'>' => Some(Markup::AttributeName),
                b'=' => Some(Markup::BeforeAttributeValue),
                _ if byte.is_ascii_whitespace() => Some(Markup::AttributeName),
                _ => in_tag(byte, Markup::AttributeName),
            },
            Markup::BeforeAttributeValue => before_attribute_value(byte),
            Markup::DoubleQuotedValue => until(b'"', byte, self),
            Markup::SingleQuotedValue => until(b'\'', byte, self),
            Markup::UnquotedValue => match byte {
                b'>' => None,
                _ if byte.is_ascii_whitespace() => Some(Markup::BeforeAttributeName),
                _ => Some(Markup::UnquotedValue),
            },
            Markup::SelfClosingTag => in_tag(byte, Markup::AttributeName),
            Markup::DeclarationOpen => in_declaration(byte, Markup::DeclarationDash),
            Markup::DeclarationDash => in_declaration(byte, Markup::CommentStart),
            Markup::CommentStart => comment_start(byte, Markup::CommentStartDash),
            Markup::CommentStartDash => comment_start(byte, Markup::CommentEnd),
            Markup::Comment => Some(in_comment(byte, Markup::CommentEndDash)),
            Markup::CommentEndDash => Some(in_comment(byte, Markup::CommentEnd)),
            Markup::CommentEnd => match byte {
                b'>' => None,
                b'!' => Some(Markup::CommentEndBang),
                _ => Some(in_comment(byte, Markup::CommentEnd)),
            },
            Markup::CommentEndBang => comment_start(byte, Markup::CommentEndDash),
            Markup::BogusComment => in_declaration(byte, Markup::BogusComment),
        }
    }
}

/// Whether the name of a tag ends before this byte.
pub(crate) fn ends_name(byte: u8) -> bool {
    matches!(byte, b'/' | b'>') || byte.is_ascii_whitespace()
}

fn end_tag_open(byte: u8) -> Option<Markup>
    ensures { IfNone result (byte ≡ 62) }
{
    match byte {
        b'a'..=b'z' | b'A'..=b'Z' => Some(Markup::TagName),
        b'>' => None,
        _ => Some(Markup::BogusComment),
    }
}

// Inside a tag, outside values. `other` is the state after a byte that is neither `/`, `>` nor white space. Most bytes
// are letters, which are greater than `>`: one comparison decides about them.
fn in_tag(byte: u8, other: Markup) -> Option<Markup>
    ensures { IfNone result (byte ≡ 62) }
{
    match byte {
        _ if byte > b'>' => Some(other),
        b'/' => Some(Markup::SelfClosingTag),
        b'>' => None,
        _ if byte.is_ascii_whitespace() => Some(Markup::BeforeAttributeName),
        _ => Some(other),
    }
}

fn before_attribute_value(byte: u8) -> Option<Markup>
    ensures { IfNone result (byte ≡ 62) }
{
    match byte {
        b'"' => Some(Markup::DoubleQuotedValue),
        b'\'' => Some(Markup::SingleQuotedValue),
        b'>' => None,
        _ if byte.is_ascii_whitespace() => Some(Markup::BeforeAttributeValue),
        _ => Some(Markup::UnquotedValue),
    }
}

// A quoted value ends at its second quote.
fn until(quote: u8, byte: u8, value: Markup) -> Option<Markup>
    ensures { IfNone result ⊥ }
{
    Some(if byte == quote {
        Markup::BeforeAttributeName
    } else {
        value
    })
}

// After `<!`, and in a bogus comment. `dash` is the state after a dash.
fn in_declaration(byte: u8, dash: Markup) -> Option<Markup>
    ensures { IfNone result (byte ≡ 62) }
{
    match byte {
        b'-' => Some(dash),
        b'>' => None,
        _ => Some(Markup::BogusComment),
    }
}

// In a comment that ends with the next `>`. `dash` is the state after a dash.
fn comment_start(byte: u8, dash: Markup) -> Option<Markup>
    ensures { IfNone result (byte ≡ 62) }
{
    match byte {
        b'>' => None,
        _ => Some(in_comment(byte, dash)),
    }
}

fn in_comment(byte: u8, dash: Markup) -> Markup {
    if byte == b'-' { dash } else { Markup::Comment }
}
