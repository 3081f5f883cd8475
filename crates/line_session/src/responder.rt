//! What answers lines.

ghost use Rattle.std.specs.Prelude.{◌≡◌, ◌≤◌, ℕ, List, [], ◌∷◌, ◌++◌, OnOk, OnErr, length, take, ⊤};
ghost use Rattle.line_text.specs.LineText.{line_bytes};
ghost use Rattle.line_text.specs.declared.limits.TheConstants.{LINE_HELD};
ghost use Rattle.line_session.specs.declared.limits.TheConstants.{REPLY_LIMIT};

use line_text::LineText;
use std::alloc::{AllocError, Global};

/// Answers one line after the other.
pub trait Responder {
    // These lines were answered by these replies, in order, since the responder was made.
    ghost answered: { Self → Self → List (List ℕ) → List (List ℕ) → Type 0 };

    // What holds between two lines, and what an answer needs.
    ghost ready: { Self → Type 0 };

    // Memory may run out at these lines alone, as they are handed in.
    ghost takes_memory: { List ℕ → Type 0 } = { λ _. ⊤ };

    /// Answers a line, of which at most the first `LINE_HELD` bytes are handed in, by a reply without LF. Out of
    /// memory, the line isn't answered and changed nothing.
    fn answer(&mut self, alloc: Global, line: &[u8], out: &mut LineText) -> Result<(), AllocError>
        requires text { line_bytes out.old ≡ [] }
        requires ready { ready self.old }
        ensures ready { ready self.new }
        ensures room { length (line_bytes out.new) ≤ REPLY_LIMIT }
        ensures answers { OnOk result ((begin : Self) (whole : List ℕ) (lines replies : List (List ℕ))
            → line.now ≡ take LINE_HELD whole → answered begin self.old lines replies
            → answered begin self.new (lines ++ whole ∷ []) (replies ++ line_bytes out.new ∷ [])) }
        ensures refuses { OnErr result ((begin : Self) (lines replies : List (List ℕ))
            → answered begin self.old lines replies → answered begin self.new lines replies) }
        ensures memory { OnErr result (takes_memory line.now) };
}
