ghost use Rattle.std.specs.Prelude.{◌≡◌, ℕ, List, MatchOption};
ghost use Rattle.texts.specs.Blanks as spec;
ghost use Rattle.texts.specs.Blanks.{BeginsBlank, after_blanks, before_blanks, trimmed};

/// Whether the byte is a blank: a space or a tab.
fn is_blank(byte: u8) -> bool
    ensures { result ≡ spec.is_blank byte }
{
    matches!(byte, b' ' | b'\t')
}

/// What follows the blank, a space or a tab, that the text begins with; none where it begins with none.
pub fn after_blank(text: &[u8]) -> Option<&[u8]>
    ensures value { MatchOption result ((rest : List ℕ) → BeginsBlank text.now rest → ⊥) (λ rest. BeginsBlank text.now rest.now) }
{
    match text {
        [first, rest @ ..] if is_blank(*first) => Some(rest),
        _ => None,
    }
}

/// The text without the blanks, spaces and tabs, that it begins with.
pub fn trim_start(text: &[u8]) -> &[u8]
    ensures value { result.now ≡ after_blanks text.now }
{
    let mut rest = text;
    while let [first, tail @ ..] = rest {
        if !is_blank(*first) {
            break;
        }
        rest = tail;
    }
    rest
}

/// The text without the blanks, spaces and tabs, that it ends with.
pub fn trim_end(text: &[u8]) -> &[u8]
    ensures value { result.now ≡ before_blanks text.now }
{
    let mut rest = text;
    while let [front @ .., last] = rest {
        if !is_blank(*last) {
            break;
        }
        rest = front;
    }
    rest
}

/// The text without the blanks, spaces and tabs, at its ends.
pub fn trim(text: &[u8]) -> &[u8]
    ensures value { result.now ≡ trimmed text.now }
{
    trim_end(trim_start(text))
}
