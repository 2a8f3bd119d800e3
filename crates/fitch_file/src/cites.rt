ghost use Rattle.std.specs.Prelude.{◌≡◌, IfOk};
ghost use Rattle.fitch_file.specs.Cites.{AreCites, IsCite, IsRange, subproof_cite};
ghost use Rattle.fitch_file.specs.Readers.{Finds, TakesCite};

use deriv_laws::{Cite, Cites};
use lists::Listed;
use std::alloc::{AllocError, Global};
use texts::{counting_number, cut, trim};

/// The most cites that a line may have.
const MOST_CITES: usize = 64;

/// Reads cites with commas between them.
pub(crate) fn read_cites(alloc: Global, text: &[u8]) -> Result<Option<Cites>, AllocError>
    ensures { IfOk result (Finds (AreCites text.now)) }
{
    let mut cites: Cites = Listed::new(alloc);
    let mut rest = text;
    while let Some((cite, after)) = cut(rest, b',') {
        if !put_cite(&mut cites, cite)? {
            return Ok(None);
        }
        rest = after;
    }
    if put_cite(&mut cites, rest)? {
        Ok(Some(cites))
    } else {
        Ok(None)
    }
}

/// Puts the cite that the text is last, where it is one and there is room for it.
fn put_cite(cites: &mut Cites, text: &[u8]) -> Result<bool, AllocError>
    ensures { IfOk result (TakesCite text.now cites.old cites.new) }
{
    let Some(cite) = read_cite(trim(text)) else {
        return Ok(false);
    };
    if cites.len() >= MOST_CITES {
        return Ok(false);
    }
    cites.add(cite)?;
    Ok(true)
}

/// The cite that the text is: the number of a line, or a range.
fn read_cite(text: &[u8]) -> Option<Cite>
    ensures { Finds (IsCite text.now) result }
{
    match counting_number(text) {
        Some(number) => Some(Cite {
            first: number,
            last: number,
            sub: false,
        }),
        None => read_range(text),
    }
}

/// The cite of a subproof that the text is.
fn read_range(text: &[u8]) -> Option<Cite>
    ensures { Finds (λ c. IsRange text.now c.first c.last × (c ≡ subproof_cite c.first c.last)) result }
{
    let (front, back) = cut(text, b'-')?;
    let first = counting_number(front)?;
    let last = counting_number(back)?;
    if first > last {
        return None;
    }
    Some(Cite {
        first,
        last,
        sub: true,
    })
}
