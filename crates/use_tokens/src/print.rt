//! Prints tokens, one per line.

use crate::token::{Token, TokenKind};
use std::io::{self, Write};

/// Prints each token: its kind, the name of a tag, and its source in quotes.
pub fn print_tokens<W: Write>(out: &mut W, tokens: &[Token]) -> io::Result<()> {
    for token in tokens {
        print(out, token)?;
    }
    Ok(())
}

fn print<W: Write>(out: &mut W, token: &Token) -> io::Result<()> {
    let source = token.source.as_str();
    match &token.kind {
        TokenKind::Text => writeln!(out, "text {source:?}"),
        TokenKind::StartTag {
            name,
            self_closing: false,
        } => writeln!(out, "start {name} {source:?}"),
        TokenKind::StartTag {
            name,
            self_closing: true,
        } => writeln!(out, "self-closing {name} {source:?}"),
        TokenKind::EndTag { name } => writeln!(out, "end {name} {source:?}"),
        TokenKind::Comment => writeln!(out, "comment {source:?}"),
        TokenKind::Other => writeln!(out, "other {source:?}"),
        TokenKind::Cut => writeln!(out, "cut {source:?}"),
    }
}
