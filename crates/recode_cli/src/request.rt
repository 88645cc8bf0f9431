//! What the words after the program's name ask for.

use clap::{Arg, ArgAction, Command, Error};
use std::alloc::Global;
use tendril_encoding::BomHandling;

/// The usage of the program.
pub const USAGE: &str = "recode --from LABEL [--bom sniff|remove|keep] [--strict] < IN > OUT
       recode --list";

const BOM_WORDS: [&str; 3] = ["sniff", "remove", "keep"];

/// What the words ask for.
#[derive(Clone, Copy, PartialEq, Eq, Debug)]
pub enum Request<'a> {
    /// To print the names and labels of all encodings.
    List,
    /// To decode the input.
    Recode(Options<'a>),
}

/// The words that ask to decode the input.
#[derive(Clone, Copy, PartialEq, Eq, Debug)]
pub struct Options<'a> {
    /// The label of the encoding, as it was written.
    pub label: &'a str,
    /// What becomes of a byte order mark, or `None` for the encoding's default.
    pub bom: Option<BomHandling>,
    /// Whether the first malformed sequence is an error.
    pub strict: bool,
}

/// Parses the program's arguments. The first one is its name.
pub fn parse<'a>(alloc: Global, words: &'a [&'a str]) -> Result<Request<'a>, Error> {
    let matches = command(alloc)?.try_get_matches_from(words)?;
    let Some(label) = matches.get_str("from") else {
        return Ok(Request::List);
    };
    Ok(Request::Recode(Options {
        label,
        bom: matches.get_str("bom").and_then(bom_of),
        strict: matches.get_flag("strict"),
    }))
}

fn command<'a>(alloc: Global) -> Result<Command<'a>, Error> {
    let from = Arg::new(alloc, "from")
        .long("from")
        .value_name("LABEL")
        .required_unless_present("list")?;
    let bom = Arg::new(alloc, "bom")
        .long("bom")
        .value_name("HANDLING")
        .value_parser(BOM_WORDS.as_slice());
    let strict = Arg::new(alloc, "strict")
        .long("strict")
        .action(ArgAction::SetTrue);
    let list = Arg::new(alloc, "list")
        .long("list")
        .exclusive(true)
        .action(ArgAction::SetTrue);
    let command = Command::new(alloc, "recode")
        .override_usage(USAGE)
        .disable_help_flag(true)
        .arg(from)?
        .arg(bom)?
        .arg(strict)?
        .arg(list)?;
    Ok(command)
}

fn bom_of(word: &str) -> Option<BomHandling> {
    match word {
        "sniff" => Some(BomHandling::Sniff),
        "remove" => Some(BomHandling::Remove),
        "keep" => Some(BomHandling::Keep),
        _ => None,
    }
}
