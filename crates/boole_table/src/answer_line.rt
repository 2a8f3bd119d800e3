ghost use Rattle.std.specs.Prelude.{◌≡◌, ◌↔◌, ◌++◌, ℕ, Bool, List, length, IsTrue, MatchOption};
ghost use Rattle.fitch_file.specs.Words.{before_blank, from_blank};
ghost use Rattle.boole_table.specs.declared.table.TableAnswer.{TableAnswer as Given};
ghost use Rattle.boole_table.specs.AnswerLines.{IsNumber, MayNumber, yes_word, IsAnswer};
ghost use Rattle.boole_table.specs.Readers.{asked_by};

use crate::asked::{Asked, suits_question};
use crate::list_line::text_behind;
use crate::row_line::is_blank;
use crate::table::TableAnswer;
use texts::{trim, trim_start};

/// The most digits of a question's number.
const MOST_DIGITS: usize = 4;

/// The answer that the line is; none where it is none to a question that may be answered.
pub(crate) fn answer_line(asked: Asked<'_>, line: &[u8]) -> Option<TableAnswer>
    ensures value { MatchOption result ((answer : Given) → IsAnswer (asked_by asked.entry) line.now answer → ⊥) (IsAnswer (asked_by asked.entry) line.now) }
{
    let Some(text) = text_behind(line, b"answer") else {
        return None;
    };
    let (word, behind) = split_word(trim_start(text));
    let Some(question) = number_of(word) else {
        return None;
    };
    let Some(yes) = yes_of(trim(behind)) else {
        return None;
    };
    if suits_question(asked, question) {
        Some(TableAnswer { question, yes })
    } else {
        None
    }
}

/// The bytes up to the first blank, and what follows them.
fn split_word(text: &[u8]) -> (&[u8], &[u8])
    ensures word { result.0.now ≡ before_blank text.now }
    ensures rest { result.1.now ≡ from_blank text.now }
{
    for place in 0..text.len() {
        if is_blank(text[place]) {
            return text.split_at(place);
        }
    }
    (text, &[])
}

/// The number that the text writes in one to four decimal digits; none where it writes none.
fn number_of(text: &[u8]) -> Option<u32>
    ensures value { MatchOption result ((n : ℕ) → IsNumber text.now n → ⊥) (IsNumber text.now) }
{
    if !may_number(text) {
        return None;
    }
    let Ok(digits) = str::from_utf8(text) else {
        return None;
    };
    match digits.parse::<u32>() {
        Ok(number) => Some(number),
        Err(_) => None,
    }
}

/// Whether the text has one to four bytes, the first of which is a digit.
fn may_number(text: &[u8]) -> bool
    ensures { IsTrue result ↔ MayNumber text.now }
{
    match text {
        [] => false,
        [first, ..] => text.len() <= MOST_DIGITS && matches!(*first, b'0'..=b'9'),
    }
}

/// What the word says: yes or no; none where it says neither.
fn yes_of(word: &[u8]) -> Option<bool>
    ensures value { MatchOption result ((yes : Bool) → word.now ≡ yes_word yes → ⊥) (λ yes. word.now ≡ yes_word yes) }
{
    if word == b"yes".as_slice() {
        Some(true)
    } else if word == b"no".as_slice() {
        Some(false)
    } else {
        None
    }
}
