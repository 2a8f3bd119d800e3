ghost use Rattle.std.specs.Prelude.{◌≡◌, ◌≤◌, ◌++◌, ℕ, true, List, MatchOption};
ghost use Rattle.std.specs.List.{list_all};
ghost use Rattle.fol_core.specs.Word.{is_digit as digit};
ghost use Rattle.fitch_file.specs.Numbering.{IsNumbered, bars, after_bars, ends_number};

use texts::counting_number;

/// What follows the number, where the text begins with this number. It ends with its digits.
pub(crate) fn after_number(number: u32, text: &[u8]) -> Option<&[u8]>
    requires low { 1 ≤ number }
    requires high { number ≤ 9999 }
    ensures value { MatchOption result ((body : List ℕ) → IsNumbered number text.now body → ⊥) (λ body. IsNumbered number text.now body.now) }
{
    let (digits, body) = split_digits(text);
    match counting_number(digits) {
        Some(found) => { if found == number { Some(body) } else { None } }
        None => None,
    }
}

/// The digits that the text begins with, and what follows them.
fn split_digits(text: &[u8]) -> (&[u8], &[u8])
    ensures joined { text.now ≡ result.0.now ++ result.1.now }
    ensures digits { list_all digit result.0.now ≡ true }
    ensures ends { ends_number result.1.now ≡ true }
{
    for place in 0..text.len() {
        if !is_digit(text[place]) {
            return text.split_at(place);
        }
    }
    (text, &[])
}

fn is_digit(byte: u8) -> bool
    ensures { result ≡ digit byte }
{
    matches!(byte, b'0'..=b'9')
}

/// How many bars the text begins with, with blanks between them or none, and what follows them and blanks.
pub(crate) fn split_bars(text: &[u8]) -> (usize, &[u8])
    ensures count { result.0 ≡ bars text.now }
    ensures rest { result.1.now ≡ after_bars text.now }
{
    let mut count = 0;
    let mut rest = text;
    while let [first, tail @ ..] = rest {
        match *first {
            b'|' => count += 1,
            b' ' | b'\t' => {}
            _ => break,
        }
        rest = tail;
    }
    (count, rest)
}
