//! The state between texts.

use crate::markup::Markup;
use tendril::StrTendril;

/// What the texts so far end in.
#[derive(Drop)]
pub(crate) enum State {
    /// Nothing: the next text begins outside markup.
    Outside,
    /// Incomplete markup, whose bytes so far are `begun`.
    Inside { markup: Markup, begun: StrTendril },
}
