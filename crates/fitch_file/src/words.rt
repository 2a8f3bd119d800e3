ghost use Rattle.std.specs.Prelude.{◌≡◌, ◌≢◌, ◌<◌, ◌++◌, [], length, IfSome, MatchOption};
ghost use Rattle.texts.specs.Blanks.{is_blank as blank};
ghost use Rattle.fitch_file.specs.Words.{before_blank, from_blank, first_word, behind_word, begins_proof as begins_proof_of};

use texts::trim_start;

/// The first word of the text and what follows it; none where each byte is a blank.
pub(crate) fn next_word(text: &[u8]) -> Option<(&[u8], &[u8])>
    ensures none { MatchOption result (first_word text.now ≡ []) (λ p. first_word text.now ≢ []) }
    ensures word { IfSome result (λ p. p.0.now ≡ first_word text.now) }
    ensures behind { IfSome result (λ p. p.1.now ≡ behind_word text.now) }
    ensures shorter { IfSome result (λ p. length p.1.now < length text.now) }
{
    let (word, rest) = split_word(trim_start(text));
    if word.is_empty() {
        None
    } else {
        Some((word, rest))
    }
}

/// The bytes up to the first blank, and what follows them.
fn split_word(text: &[u8]) -> (&[u8], &[u8])
    ensures word { result.0.now ≡ before_blank text.now }
    ensures rest { result.1.now ≡ from_blank text.now }
    ensures joined { text.now ≡ result.0.now ++ result.1.now }
{
    for place in 0..text.len() {
        if is_blank(text[place]) {
            return text.split_at(place);
        }
    }
    (text, &[])
}

/// Whether the byte is a space or a tab.
pub(crate) fn is_blank(byte: u8) -> bool
    ensures { result ≡ blank byte }
{
    matches!(byte, b' ' | b'\t')
}

/// Whether the first word of the line is `proof`.
pub(crate) fn begins_proof(line: &[u8]) -> bool
    ensures value { result ≡ begins_proof_of line.now }
{
    let (word, _) = split_word(trim_start(line));
    word == b"proof".as_slice()
}
