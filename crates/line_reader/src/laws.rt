//! What holds of lines and of the limits of a session, whatever the bytes are.

ghost use Rattle.std.specs.Prelude.{◌≡◌, ◌⊎◌, ℕ, List, [], ◌∷◌, ◌++◌, All};
ghost use Rattle.line_reader.specs.Laws.{LinesAddUp};
ghost use Rattle.line_reader.specs.Limits.{IsWithin, RunsPast};
ghost use Rattle.line_reader.specs.Lines.{HasNoLf, lines_of, text_of};

/// Lines are the bytes, cut at each LF and nowhere else; the last one may be given the LF that it lacks.
pub fn lines_are_the_bytes()
    ensures whole { (bytes : List ℕ) → All HasNoLf (lines_of bytes) }
    ensures text { (bytes : List ℕ)
        → (text_of (lines_of bytes) ≡ bytes) ⊎ (text_of (lines_of bytes) ≡ bytes ++ 10 ∷ []) }
    ensures back { (lines : List (List ℕ)) → All HasNoLf lines → lines_of (text_of lines) ≡ lines }
{}

/// A session is within its limits or runs past them, and then does so whatever follows.
pub fn limits_are_passed_once()
    ensures either { (bytes : List ℕ) → IsWithin bytes ⊎ RunsPast bytes }
    ensures apart { (bytes : List ℕ) → IsWithin bytes → RunsPast bytes → ⊥ }
    ensures onward { (bytes more : List ℕ) → RunsPast bytes → RunsPast (bytes ++ more) }
{}

/// Whoever adds line to line comes to the lines of the whole, and knows by their number and their bytes how
/// they stand to the limits of a session.
pub fn lines_add_up()
    ensures { LinesAddUp }
{}
