ghost use Rattle.std.specs.Prelude.{◌≡◌, ◌+◌, ◌*◌, ◌-◌, ◌≤◌, ◌&&◌, nat_le, true, length, [], ◌∷◌, MatchOption};
ghost use Rattle.std.specs.List.{list_all};
ghost use Rattle.fol_core.specs.Word.{is_digit};
ghost use Rattle.texts.specs.Blanks as blanks;
ghost use Rattle.world_text.specs.Lines as lines;
ghost use Rattle.world_text.specs.BlockLines as spec;
ghost use Rattle.world_text.specs.inside.Squares.{said_as};

use texts::trim_start;
use worlds::{Names, Shape, Size};

/// What a line says of a block, on the board or off it.
#[derive(Clone, Copy)]
pub struct Said<'a> {
    /// The word that says which names there are.
    pub names: &'a [u8],
    pub shape: Shape,
    pub size: Size,
    pub column: u32,
    pub row: u32,
}

/// What the line says, where it is of the form: five words with blanks between them, and none before the first.
pub(crate) fn said_in(line: &[u8]) -> Option<Said<'_>>
    ensures value { said_as result ≡ spec.said_in line.now }
{
    if begins_blank(line) {
        return None;
    }
    let Some((names, rest)) = next_word(line) else {
        return None;
    };
    let Some((shape, rest)) = next_word(rest) else {
        return None;
    };
    let Some((size, rest)) = next_word(rest) else {
        return None;
    };
    let Some((column, rest)) = next_word(rest) else {
        return None;
    };
    let Some((row, rest)) = next_word(rest) else {
        return None;
    };
    if next_word(rest).is_some() || !says_names(names) {
        return None;
    }
    said_of(
        names,
        shape_of(shape),
        size_of(size),
        number_of(column),
        number_of(row),
    )
}

fn said_of(
    names: &[u8],
    shape: Option<Shape>,
    size: Option<Size>,
    column: Option<u32>,
    row: Option<u32>,
) -> Option<Said<'_>>
    ensures value { said_as result ≡ spec.said_of names.now shape size column row }
{
    match (shape, size, column, row) {
        (Some(shape), Some(size), Some(column), Some(row)) => Some(Said {
            names,
            shape,
            size,
            column,
            row,
        }),
        _ => None,
    }
}

fn begins_blank(line: &[u8]) -> bool
    ensures value { result ≡ lines.begins_blank line.now }
{
    matches!(line, [b' ' | b'\t', ..])
}

fn is_blank(byte: u8) -> bool
    ensures value { result ≡ blanks.is_blank byte }
{
    matches!(byte, b' ' | b'\t')
}

/// The first word of the text and what follows it; none where the text has no word.
#[tactic(auto, using(crate::proofs::Wording::no_word, crate::proofs::Wording::words_from))]
fn next_word(text: &[u8]) -> Option<(&[u8], &[u8])>
    ensures value { MatchOption result (lines.words text.now ≡ []) (λ p. lines.words text.now ≡ p.0.now ∷ lines.words p.1.now) }
{
    let start = trim_start(text);
    if !begins_word(start) {
        return None;
    }
    Some(split_word(start))
}

fn begins_word(text: &[u8]) -> bool
    ensures value { result ≡ lines.begins_word text.now }
{
    match text {
        [first, ..] => !is_blank(*first),
        [] => false,
    }
}

/// The bytes up to the first blank, and what follows them.
fn split_word(text: &[u8]) -> (&[u8], &[u8])
    requires { lines.begins_word text.now ≡ true }
    ensures value { lines.words text.now ≡ result.0.now ∷ lines.words result.1.now }
{
    for place in 0..text.len() {
        if is_blank(text[place]) {
            return text.split_at(place);
        }
    }
    (text, &[])
}

/// Whether the word says which names there are.
fn says_names(word: &[u8]) -> bool
    ensures value { result ≡ spec.says_names word.now }
{
    word == b"-".as_slice() || are_letters(word)
}

/// Whether the word is letters from a to f with commas between them.
fn are_letters(word: &[u8]) -> bool
    ensures value { result ≡ spec.are_letters word.now }
{
    let mut rest = word;
    while let [letter, comma, more @ ..] = rest {
        if !may_name(*letter) || *comma != b',' {
            return false;
        }
        rest = more;
    }
    match rest {
        [letter] => may_name(*letter),
        _ => false,
    }
}

/// Whether the byte is a letter that may be a name.
pub(crate) fn may_name(byte: u8) -> bool
    ensures value { result ≡ spec.may_name byte }
{
    matches!(byte, b'a'..=b'f')
}

/// Whether the byte stands in the word.
pub(crate) fn stands_in(byte: u8, word: &[u8]) -> bool
    ensures value { result ≡ spec.stands_in byte word.now }
{
    word.iter().any(|other| *other == byte)
}

/// The names that stand in the word.
pub(crate) fn names_in(word: &[u8]) -> Names
    ensures value { result ≡ spec.names_in word.now }
{
    Names {
        a: stands_in(b'a', word),
        b: stands_in(b'b', word),
        c: stands_in(b'c', word),
        d: stands_in(b'd', word),
        e: stands_in(b'e', word),
        f: stands_in(b'f', word),
    }
}

fn shape_of(word: &[u8]) -> Option<Shape>
    ensures value { result ≡ spec.shape_of word.now }
{
    if word == b"tet".as_slice() {
        Some(Shape::Tet)
    } else if word == b"cube".as_slice() {
        Some(Shape::Cube)
    } else if word == b"dodec".as_slice() {
        Some(Shape::Dodec)
    } else {
        None
    }
}

fn size_of(word: &[u8]) -> Option<Size>
    ensures value { result ≡ spec.size_of word.now }
{
    if word == b"small".as_slice() {
        Some(Size::Small)
    } else if word == b"medium".as_slice() {
        Some(Size::Medium)
    } else if word == b"large".as_slice() {
        Some(Size::Large)
    } else {
        None
    }
}

/// The number that the word writes in one to four decimal digits.
fn number_of(word: &[u8]) -> Option<u32>
    ensures value { result ≡ spec.number_of word.now }
{
    if is_short_number(word) {
        Some(value_of(word))
    } else {
        None
    }
}

/// Whether the word is one to four decimal digits.
fn is_short_number(word: &[u8]) -> bool
    ensures value { result ≡ spec.is_short_number word.now }
{
    is_short(word.len()) && are_digits(word)
}

/// Whether the count is from 1 to 4.
fn is_short(count: usize) -> bool
    ensures value { result ≡ (nat_le 1 count && nat_le count 4) }
{
    1 <= count && count <= 4
}

fn are_digits(word: &[u8]) -> bool
    ensures value { result ≡ list_all is_digit word.now }
{
    word.iter().all(|byte| matches!(*byte, b'0'..=b'9'))
}

/// The number that the first four digits at most write.
fn value_of(word: &[u8]) -> u32
    ensures value { length word.now ≤ 4 → result ≡ spec.value_of word.now }
{
    match word {
        [a] => with_digit(0, *a),
        [a, b] => with_digit(with_digit(0, *a), *b),
        [a, b, c] => with_digit(with_digit(with_digit(0, *a), *b), *c),
        [a, b, c, d] => with_four(*a, *b, *c, *d),
        _ => 0,
    }
}

fn with_four(a: u8, b: u8, c: u8, d: u8) -> u32
    ensures value { result ≡ (((0 * 10 + (a - 48)) * 10 + (b - 48)) * 10 + (c - 48)) * 10 + (d - 48) }
{
    let front = with_digit(with_digit(with_digit(0, a), b), c);
    with_digit(front, d)
}

/// The number with one digit more behind it.
fn with_digit(front: u32, byte: u8) -> u32
    requires { front ≤ 100000 }
    ensures value { result ≡ front * 10 + (byte - 48) }
    ensures few { result ≤ front * 10 + 207 }
{
    front * 10 + u32::from(byte.saturating_sub(b'0'))
}
