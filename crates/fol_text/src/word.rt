ghost use Rattle.std.specs.Prelude.{◌≡◌};
ghost use Rattle.std.specs.List.{list_all};
ghost use Rattle.fol_core.specs.Word.{is_digit as digit, is_predicate as predicate, is_variable as variable, is_name as name, begins_with_capital as capital, spells_variable as spelled_as_variable};
ghost use Rattle.fol_text.specs.Machine.{word_of as read_of, read_term as read};

use crate::state::Read;
use fol_core::{Ident, Term};

/// Whether the identifier is a predicate.
#[tactic(auto, unfolding(fol_core::specs::Word::is_predicate))]
pub(crate) fn is_predicate(word: &Ident) -> bool
    ensures value { result ≡ predicate word.now }
{
    begins_with_capital(word.as_slice())
}

/// Whether the identifier is a variable.
#[tactic(auto, unfolding(fol_core::specs::Word::is_variable))]
pub(crate) fn is_variable(word: &Ident) -> bool
    ensures value { result ≡ variable word.now }
{
    spells_variable(word.as_slice())
}

/// Whether the identifier is a name, which is no variable.
#[tactic(auto, unfolding(fol_core::specs::Word::is_name))]
pub(crate) fn is_name(word: &Ident) -> bool
    ensures value { result ≡ name word.now }
{
    !begins_with_capital(word.as_slice()) && !spells_variable(word.as_slice())
}

/// What the identifier is of a term, where it is a word of one.
pub(crate) fn word_of(word: Ident) -> Option<Read>
    ensures value { result ≡ read_of word }
{
    if is_variable(&word) {
        Some(Read::Variable(word))
    } else if is_name(&word) {
        Some(Read::Symbol(word))
    } else {
        None
    }
}

/// The term that is read, where nothing more belongs to it.
pub(crate) fn read_term(term: Read) -> Term
    ensures value { result ≡ read term }
{
    match term {
        Read::Variable(x) => Term::Var(x),
        Read::Symbol(n) => Term::Name(n),
        Read::Function(whole) => whole,
    }
}

/// Whether the word begins with a capital letter.
fn begins_with_capital(word: &[u8]) -> bool
    ensures value { result ≡ capital word.now }
{
    matches!(word, [b'A'..=b'Z', ..])
}

/// Whether the word is a letter from t to z with four digits at most behind it.
fn spells_variable(word: &[u8]) -> bool
    ensures value { result ≡ spelled_as_variable word.now }
{
    match word {
        [] => false,
        [first, rest @ ..] => matches!(*first, b't'..=b'z') && all_digits(rest) && rest.len() <= 4,
    }
}

/// Whether each byte is a digit.
fn all_digits(text: &[u8]) -> bool
    ensures value { result ≡ list_all digit text.now }
{
    text.iter().all(|byte| matches!(*byte, b'0'..=b'9'))
}
