//! Numbers as decimal digits.

ghost use Rattle.std.specs.Prelude.{◌≡◌, ◌≤◌, length, Some, None, IfSome, if◌then◌else◌};
ghost use Rattle.std.specs.List.{list_all};
ghost use Rattle.std.specs.Char.{is_ascii_digit};
ghost use Rattle.req_tree.specs.NumericOrder.{number_of};
ghost use Rattle.line_model.specs.Words.{number_word};

/// The number of 1 to `most` digits, where it is at most the greatest.
pub fn read_number(word: &[u8], most: usize, greatest: u64) -> Option<u64>
    requires { most ≤ 19 }
    ensures number { result ≡ number_word most greatest word.now }
    ensures within { IfSome result (λ n. n ≤ greatest) }
{
    if word.is_empty() || word.len() > most {
        return None;
    }
    let number = read_digits(word)?;
    if number <= greatest {
        Some(number)
    } else {
        None
    }
}

fn read_digits(word: &[u8]) -> Option<u64>
    requires { length word.now ≤ 19 }
    ensures { result
        ≡ (if list_all is_ascii_digit word.now then Some (number_of word.now) else None) }
{
    let mut number = 0;
    for digit in word {
        if !digit.is_ascii_digit() {
            return None;
        }
        number = number * 10 + u64::from(*digit - b'0');
    }
    Some(number)
}
