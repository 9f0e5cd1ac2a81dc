//! The lines of a script, texts that begin with a word, and two numbers in a row.

ghost use Rattle.std.specs.Prelude.{◌≡◌, ◌≢◌, ◌<◌, ◌∷◌, ◌++◌, ℕ, ℤ, List, length, slice_index, MatchOption};
ghost use Rattle.std.specs.Str.Lines.{lines, strip_carriage_return};
ghost use Rattle.mg_script.specs.Spelling.{AreSpelled, IsFirst, StandsNowhere};

use mg_words::signed;

/// The first line of a script that is not empty, without its end, and the script behind it.
pub(crate) fn first_line(script: &[u8]) -> (&[u8], &[u8])
    requires { 0 < length script.now }
    ensures first { lines script.now ≡ result.0.now ∷ lines result.1.now }
    ensures shorter { length result.1.now < length script.now }
{
    match position_of(script, b'\n') {
        Some(end) => (without_return(&script[..end]), &script[end + 1..]),
        None => (script, &[]),
    }
}

/// A line without the carriage return before its end.
fn without_return(line: &[u8]) -> &[u8]
    ensures { result.now ≡ strip_carriage_return line.now }
{
    match line {
        [front @ .., b'\r'] => front,
        _ => line,
    }
}

/// Where a byte first stands.
pub(crate) fn position_of(bytes: &[u8], wanted: u8) -> Option<usize>
    ensures { MatchOption result (StandsNowhere bytes.now wanted) (IsFirst bytes.now wanted) }
{
    for (at, byte) in bytes.iter().enumerate() {
        if *byte == wanted {
            return Some(at);
        }
    }
    None
}

/// What stands behind a word, if a text begins with it.
pub(crate) fn behind<'a>(text: &'a [u8], word: &[u8]) -> Option<&'a [u8]>
    ensures { MatchOption result ((rest : List ℕ) → text.now ≢ word.now ++ rest)
        (λ rest. text.now ≡ word.now ++ rest.now) }
{
    let Some(rest) = text.strip_prefix(word) else {
        return None;
    };
    Some(rest)
}

/// Two numbers with a separator between them, which begins with a byte that no number has.
pub(crate) fn two_numbers(text: &[u8], separator: &[u8]) -> Option<(i64, i64)>
    requires some { 0 < length separator.now }
    requires apart { slice_index separator.now 0 < 45 }
    ensures { MatchOption result
        ((first second : ℤ) → AreSpelled text.now separator.now first second → ⊥)
        (λ both. AreSpelled text.now separator.now both.0 both.1) }
{
    let Some(end) = position_of(text, separator[0]) else {
        return None;
    };
    let (spelled, others) = text.split_at(end);
    let Some(rest) = behind(others, separator) else {
        return None;
    };
    let Some(first) = signed(spelled) else {
        return None;
    };
    let Some(second) = signed(rest) else {
        return None;
    };
    Some((first, second))
}
