//! The first word of a line, and what follows it.

ghost use Rattle.std.specs.Prelude.{◌≡◌, ◌≤◌, ◌+◌, ◌==◌, ◌∷◌, length, position, IfSome};
ghost use Rattle.std.specs.Option.{option_copied};
ghost use Rattle.line_model.specs.Words.{words};
ghost use Rattle.line_words.specs.Left.{left_words};

/// Cuts at the first space. Without one the line is the one word, and nothing follows it.
pub fn split_word(line: &[u8]) -> (&[u8], Option<&[u8]>)
    ensures words { words line.now ≡ result.0.now ∷ left_words (option_copied result.1) }
    ensures length { length result.0.now ≤ length line.now }
    ensures parts { IfSome (option_copied result.1)
        (λ rest. length result.0.now + 1 + length rest ≤ length line.now) }
{
    match find_space(line) {
        Some(space) => (&line[..space], Some(&line[space + 1..])),
        None => (line, None),
    }
}

/// The place of the first space.
fn find_space(line: &[u8]) -> Option<usize>
    ensures { result ≡ position (λ byte. byte == 32) line.now }
{
    line.iter().position(|byte| *byte == b' ')
}
