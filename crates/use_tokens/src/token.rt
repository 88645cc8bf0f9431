//! Tokens, and sinks of tokens.

use crate::markup::{Markup, ends_name};
use tendril::StrTendril;
use tendril::block::Refusal;

/// The kind of a token. A tag's name is as in the source, in either case.
#[derive(Debug, Drop)]
pub enum TokenKind {
    /// Text outside markup, up to the next `<` or to the end of a text that was sent.
    Text,
    StartTag {
        self_closing: bool,
        name: StrTendril,
    },
    EndTag {
        name: StrTendril,
    },
    Comment,
    /// Markup that is neither a tag nor a comment: a document type, or what HTML reads as a bogus comment.
    Other,
    /// Markup that the end of the input cut off.
    Cut,
}

impl TokenKind {
    /// Returns the kind of markup that was in this state before its last byte.
    #[inline(always)]
    pub(crate) fn of_markup(last: Markup, source: &StrTendril) -> Result<Self, Refusal> {
        match last {
            Markup::EndTagOpen
            | Markup::DeclarationOpen
            | Markup::DeclarationDash
            | Markup::BogusComment => Ok(TokenKind::Other),
            Markup::CommentStart
            | Markup::CommentStartDash
            | Markup::Comment
            | Markup::CommentEndDash
            | Markup::CommentEnd
            | Markup::CommentEndBang => Ok(TokenKind::Comment),
            _ => Self::of_tag(source, last == Markup::SelfClosingTag),
        }
    }

    #[inline(always)]
    fn of_tag(source: &StrTendril, self_closing: bool) -> Result<Self, Refusal> {
        if source.as_byte_slice().get(1) == Some(&b'/') {
            let name = tag_name(source, 2)?;
            return Ok(TokenKind::EndTag { name });
        }
        let name = tag_name(source, 1)?;
        Ok(TokenKind::StartTag { self_closing, name })
    }
}

// Returns the name of a tag, which begins at the offset `start` of its source.
#[inline(always)]
fn tag_name(source: &StrTendril, start: u32) -> Result<StrTendril, Refusal> {
    let mut inside = source.as_byte_slice().iter().skip(start as usize);
    let count = inside.position(|byte| ends_name(*byte)).unwrap_or(0);
    Ok(source.try_subtendril(start, count as u32)?)
}

/// A token: its kind, and its bytes in the input.
#[derive(Debug, Drop)]
pub struct Token {
    pub kind: TokenKind,
    pub source: StrTendril,
}

/// A sink of tokens.
pub trait TokenSink: Drop {
    ghost use Rattle.std.specs.Prelude.{◌≡◌, ◌<◌, List, [], ◌∷◌, ◌++◌, length, OnOk, OnErr};
    ghost use Rattle.use_tokens.specs.declared.token.Token.{Token};

    /// The tokens that it received.
    ghost tokens: { Self → List Token };

    /// Receives a token of at least one byte. After an error the tokens are as before.
    fn process_token(&mut self, token: Token) -> Result<(), Refusal>
        requires { 0 < length token.source.bytes }
        ensures ok { OnOk result (tokens self.new ≡ tokens self.old ++ token ∷ []) }
        ensures err { OnErr result (tokens self.new ≡ tokens self.old) };
}

/// A sink that stores its tokens.
impl TokenSink for Vec<Token> {
    ghost tokens = { λ v. v.items };

    #[inline(always)]
    fn process_token(&mut self, token: Token) -> Result<(), Refusal> {
        self.push(token)?;
        Ok(())
    }
}
