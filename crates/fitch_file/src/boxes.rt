ghost use Rattle.std.specs.Prelude.{◌≡◌, ℕ, List, MatchOption};
ghost use Rattle.std.specs.List.{list_all};
ghost use Rattle.std.specs.Option.{option_copied};
ghost use Rattle.fol_core.specs.Word.{is_letter as letter, is_digit as digit, goes_on as continues, is_ident as ident, begins_with_capital as begins_capital, spells_variable as spells_a_variable, is_name as name_is};
ghost use Rattle.fitch_file.specs.Boxes.{BeginsBox, IsBoxed};

use texts::{after_prefix, cut};

/// The name that is boxed at the front of the text, and what follows the box. Where no box stands there, all of the text
/// follows.
pub(crate) fn split_box(text: &[u8]) -> (Option<&[u8]>, &[u8])
    ensures { IsBoxed text.now (option_copied result.0) result.1.now }
{
    match boxed(text) {
        Some((name, rest)) => (Some(name), rest),
        None => (None, text),
    }
}

/// The boxed name and what follows, where the text begins with a box.
fn boxed(text: &[u8]) -> Option<(&[u8], &[u8])>
    ensures { MatchOption result ((name : List ℕ) (after : List ℕ) → BeginsBox text.now name after → ⊥) (λ p. BeginsBox text.now p.0.now p.1.now) }
{
    let Some(inner) = after_prefix(text, b"[") else {
        return None;
    };
    let Some((name, rest)) = cut(inner, b']') else {
        return None;
    };
    if is_name(name) {
        Some((name, rest))
    } else {
        None
    }
}

/// Whether the word is a name: an identifier that begins with a small letter and is no variable.
#[tactic(auto, unfolding(fol_core::specs::Word::is_name))]
fn is_name(word: &[u8]) -> bool
    ensures { result ≡ name_is word.now }
{
    is_identifier(word) && !begins_with_capital(word) && !spells_variable(word)
}

fn is_identifier(word: &[u8]) -> bool
    ensures { result ≡ ident word.now }
{
    match word {
        [] => false,
        [first, rest @ ..] => is_letter(*first) && all_go_on(rest),
    }
}

fn begins_with_capital(word: &[u8]) -> bool
    ensures { result ≡ begins_capital word.now }
{
    matches!(word, [b'A'..=b'Z', ..])
}

/// Whether the word is a letter from t to z with four digits at most behind it.
fn spells_variable(word: &[u8]) -> bool
    ensures { result ≡ spells_a_variable word.now }
{
    match word {
        [] => false,
        [first, rest @ ..] => {
            matches!(*first, b't'..=b'z') && all_digits(rest) && rest.len() <= 4
        }
    }
}

fn is_letter(byte: u8) -> bool
    ensures { result ≡ letter byte }
{
    matches!(byte, b'A'..=b'Z' | b'a'..=b'z')
}

fn goes_on(byte: u8) -> bool
    ensures { result ≡ continues byte }
{
    is_letter(byte) || matches!(byte, b'0'..=b'9' | b'_')
}

fn all_go_on(text: &[u8]) -> bool
    ensures { result ≡ list_all continues text.now }
{
    text.iter().all(|byte| goes_on(*byte))
}

fn all_digits(text: &[u8]) -> bool
    ensures { result ≡ list_all digit text.now }
{
    text.iter().all(|byte| matches!(*byte, b'0'..=b'9'))
}
