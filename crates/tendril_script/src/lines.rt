//! Lines of a script.

use std::alloc::Global;
use tendril_errors::Refusal;

/// A program's state, which carries out the lines of a script one after another.
pub trait Lines {
    ghost use Rattle.std.specs.Prelude.{◌≡◌, ℕ, List, IfOk, IfErr, OnErr, string_bytes};
    ghost use Rattle.tendril_script.specs.Sessions.{LineStops};

    /// The state that lines read and change, for contracts.
    ghost State: { Type 0 };

    /// The current state.
    ghost state: { Self → State };

    /// `answers old line text new`: from the state `old` the line prints `text` and leads to the state `new`.
    ghost answers: { State → List ℕ → List ℕ → State → Type 0 };

    /// Carries out a line, which isn't empty, and returns the text that it prints, without a line feed.
    ///
    /// `alloc` is for that text. The only error is Memory: then the line changed nothing, or was carried out and its
    /// text is lost.
    fn answer(&mut self, alloc: Global, line: &[u8]) -> Result<String, Refusal>
        ensures ok { IfOk result (λ text. answers (state self.old) line.now (string_bytes text) (state self.new)) }
        ensures refusal { IfErr result (λ r. r ≡ Refusal.Memory) }
        ensures stopped { OnErr result (LineStops answers (state self.old) line.now (state self.new)) };
}
