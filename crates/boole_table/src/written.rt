ghost use Rattle.std.specs.Prelude.{◌≡◌, ◌↔◌, ◌<◌, ◌≤◌, ◌+◌, [], ◌∷◌, length, IsTrue, IfSome, MatchOption};
ghost use Rattle.std.specs.Str.Lines.{lines};
ghost use Rattle.physical_lines.specs.Physical.{IsBlankLine};
ghost use Rattle.boole_table.specs.WrittenLines.{numbered, written_from};

use texts::{next_line, trim_start};

/// A physical line that isn't blank.
#[derive(Clone, Copy)]
pub struct Physical<'a> {
    /// The number of the line, counted from 1.
    pub place: u32,
    pub line: &'a [u8],
    /// The text behind the line.
    pub rest: &'a [u8],
}

/// The first line of the text that isn't blank, where the text begins behind the physical line `before`.
pub(crate) fn next_written(before: u32, text: &[u8]) -> Option<Physical<'_>>
    requires { before + length text.now < 4294967296 }
    ensures value { MatchOption result (written_from (before + 1) (lines text.now) ≡ []) (λ p. written_from (before + 1) (lines text.now) ≡ numbered p.place p.line.now ∷ written_from (p.place + 1) (lines p.rest.now)) }
    ensures within { IfSome result (λ p. p.place + length p.line.now + length p.rest.now ≤ before + 1 + length text.now) }
    ensures left { IfSome result (λ p. p.place + length p.rest.now ≤ before + length text.now) }
    ensures shorter { IfSome result (λ p. length p.rest.now < length text.now) }
    ensures fits { IfSome result (λ p. length p.line.now ≤ length text.now) }
{
    let mut place = before;
    let mut rest = text;
    while let Some((line, after)) = next_line(rest) {
        place += 1;
        if !is_blank(line) {
            return Some(Physical {
                place,
                line,
                rest: after,
            });
        }
        rest = after;
    }
    None
}

/// Whether the line has no byte but blanks.
fn is_blank(line: &[u8]) -> bool
    ensures { IsTrue result ↔ IsBlankLine line.now }
{
    trim_start(line).is_empty()
}
