ghost use Rattle.std.specs.Prelude.{◌≡◌, ◌+◌, ◌*◌, ◌-◌, ◌≤◌, ◌<◌, ◌&&◌, nat_le, ℕ, List, true, length, [], ◌∷◌, MatchOption, IfSome};
ghost use Rattle.std.specs.List.{list_all};
ghost use Rattle.fol_core.specs.Word.{is_digit};
ghost use Rattle.texts.specs.Blanks as blanks;
ghost use Rattle.world_text.specs.Lines as lines;
ghost use Rattle.world_text.specs.BlockLines as numbers;
ghost use Rattle.play_text.specs.Keywords.{IsBehind, ends_word as ends_word_of};

use texts::{after_prefix, trim, trim_start};

/// The text behind the keyword and a blank, without the blanks at its ends. The keyword may also end the line.
pub(crate) fn text_behind<'a>(line: &'a [u8], keyword: &[u8]) -> Option<&'a [u8]>
    ensures value { MatchOption result ((text : List ℕ) → IsBehind keyword.now line.now text → ⊥) (λ text. IsBehind keyword.now line.now text.now) }
{
    match after_prefix(line, keyword) {
        Some(tail) => {
            if ends_word(tail) {
                Some(trim(tail))
            } else {
                None
            }
        }
        None => None,
    }
}

/// Whether the text is over or a blank is next.
fn ends_word(text: &[u8]) -> bool
    ensures value { result ≡ ends_word_of text.now }
{
    match text {
        [] => true,
        [first, ..] => is_blank(*first),
    }
}

fn is_blank(byte: u8) -> bool
    ensures value { result ≡ blanks.is_blank byte }
{
    matches!(byte, b' ' | b'\t')
}

/// The first word of the text and what follows it; none where the text has no word.
#[tactic(auto, using(crate::proofs::Wording::no_word, crate::proofs::Wording::words_from, crate::proofs::Wording::shorter_from))]
pub(crate) fn next_word(text: &[u8]) -> Option<(&[u8], &[u8])>
    ensures value { MatchOption result (lines.words text.now ≡ []) (λ p. lines.words text.now ≡ p.0.now ∷ lines.words p.1.now) }
    ensures shorter { IfSome result (λ p. length p.1.now < length text.now) }
{
    let start = trim_start(text);
    if !begins_word(start) {
        return None;
    }
    Some(split_word(start))
}

fn begins_word(text: &[u8]) -> bool
    ensures value { result ≡ lines.begins_word text.now }
{
    match text {
        [first, ..] => !is_blank(*first),
        [] => false,
    }
}

/// The bytes up to the first blank, and what follows them.
fn split_word(text: &[u8]) -> (&[u8], &[u8])
    requires { lines.begins_word text.now ≡ true }
    ensures value { lines.words text.now ≡ result.0.now ∷ lines.words result.1.now }
    ensures shorter { length result.1.now < length text.now }
{
    for place in 0..text.len() {
        if is_blank(text[place]) {
            return text.split_at(place);
        }
    }
    (text, &[])
}

/// The number that the word writes in one to four decimal digits.
pub(crate) fn number_of(word: &[u8]) -> Option<u32>
    ensures value { result ≡ numbers.number_of word.now }
{
    if is_short_number(word) {
        Some(value_of(word))
    } else {
        None
    }
}

/// Whether the word is one to four decimal digits.
fn is_short_number(word: &[u8]) -> bool
    ensures value { result ≡ numbers.is_short_number word.now }
{
    is_short(word.len()) && are_digits(word)
}

/// Whether the count is from 1 to 4.
fn is_short(count: usize) -> bool
    ensures value { result ≡ (nat_le 1 count && nat_le count 4) }
{
    1 <= count && count <= 4
}

fn are_digits(word: &[u8]) -> bool
    ensures value { result ≡ list_all is_digit word.now }
{
    word.iter().all(|byte| matches!(*byte, b'0'..=b'9'))
}

/// The number that the digits write, of which there are at most four.
fn value_of(word: &[u8]) -> u32
    ensures value { length word.now ≤ 4 → result ≡ numbers.value_of word.now }
{
    match word {
        [a] => with_digit(0, *a),
        [a, b] => with_digit(with_digit(0, *a), *b),
        [a, b, c] => with_digit(with_digit(with_digit(0, *a), *b), *c),
        [a, b, c, d] => with_four(*a, *b, *c, *d),
        _ => 0,
    }
}

fn with_four(a: u8, b: u8, c: u8, d: u8) -> u32
    ensures value { result ≡ (((0 * 10 + (a - 48)) * 10 + (b - 48)) * 10 + (c - 48)) * 10 + (d - 48) }
{
    let front = with_digit(with_digit(with_digit(0, a), b), c);
    with_digit(front, d)
}

/// The number with one digit more behind it.
fn with_digit(front: u32, byte: u8) -> u32
    requires { front ≤ 100000 }
    ensures value { result ≡ front * 10 + (byte - 48) }
    ensures few { result ≤ front * 10 + 207 }
{
    front * 10 + u32::from(byte.saturating_sub(b'0'))
}
