ghost use Rattle.std.specs.Prelude.{◌≡◌, ◌↔◌, ◌≤◌, ◌+◌, ◌<◌, length, IsTrue, MatchOption, MatchResult};
ghost use Rattle.std.specs.Str.Lines.{lines};
ghost use Rattle.physical_lines.specs.Leading.{LeadsTo};
ghost use Rattle.physical_lines.specs.Physical.{IsBlankLine, AreBlank, ComesFirst, IsHeaded, LacksHeader};

use texts::{next_line, trim_end, trim_start};

/// A physical line that isn't blank.
#[derive(Clone, Copy)]
pub struct Physical<'a> {
    /// The number of the line, counted from 1.
    pub place: u32,
    pub line: &'a [u8],
    /// The text behind the line.
    pub rest: &'a [u8],
}

/// Whether the line has no byte but blanks.
pub fn is_blank(line: &[u8]) -> bool
    ensures { IsTrue result ↔ IsBlankLine line.now }
{
    trim_start(line).is_empty()
}

/// The first physical line that isn't blank.
pub fn first_line(text: &[u8]) -> Option<Physical<'_>>
    requires { length text.now < 4294967296 }
    ensures value { MatchOption result (AreBlank (lines text.now)) (λ p. ComesFirst 1 (lines text.now) p.place p.line.now (lines p.rest.now)) }
    ensures within { MatchOption result (Unit {0}) (λ p. p.place + length p.rest.now ≤ length text.now) }
    ensures leads { MatchOption result (Unit {0}) (λ p. LeadsTo 1 text.now p.place p.line.now p.rest.now) }
{
    let mut place = 0;
    let mut rest = text;
    while let Some((line, after)) = next_line(rest) {
        place += 1;
        if !is_blank(line) {
            return Some(Physical {
                place,
                line,
                rest: after,
            });
        }
        rest = after;
    }
    None
}

/// The number of the line that is the header, and what follows; or the number of the line where it is missing.
pub fn after_header<'a>(text: &'a [u8], header: &[u8]) -> Result<(u32, &'a [u8]), u32>
    requires { length text.now < 4294967296 }
    ensures value { MatchResult result (λ p. IsHeaded header.now (lines text.now) p.0 (lines p.1.now)) (λ n. LacksHeader header.now (lines text.now) n) }
    ensures within { MatchResult result (λ p. p.0 + length p.1.now ≤ length text.now) (λ n. Unit {0}) }
{
    match first_line(text) {
        None => Err(1),
        Some(first) => {
            if trim_end(first.line) == header {
                Ok((first.place, first.rest))
            } else {
                Err(first.place)
            }
        }
    }
}
