ghost use Rattle.std.specs.Prelude.{◌≡◌, MatchOption};
ghost use Rattle.fitch_file.specs.declared.task.Allowed.{Allowed as Rules};
ghost use Rattle.fitch_file.specs.Declarations.{AllowsOne, AllowsText};

use crate::task::Allowed;
use crate::words::next_word;

/// What the text allows, which is one to three different words.
pub(crate) fn read_allowed(text: &[u8]) -> Option<Allowed>
    ensures { MatchOption result ((a : Rules) → AllowsText text.now a → ⊥) (AllowsText text.now) }
{
    if text.is_empty() {
        return None;
    }
    let mut allowed = Allowed {
        taut: false,
        fo: false,
        ana: false,
    };
    let mut rest = text;
    while let Some((word, after)) = next_word(rest) {
        match allow(allowed, word) {
            Some(more) => allowed = more,
            None => return None,
        }
        rest = after;
    }
    Some(allowed)
}

/// What the word allows beside what is allowed already; none where it names no rule, or one that is allowed already.
fn allow(allowed: Allowed, word: &[u8]) -> Option<Allowed>
    ensures { MatchOption result ((a : Rules) → AllowsOne allowed word.now a → ⊥) (AllowsOne allowed word.now) }
{
    if word == b"Taut".as_slice() && !allowed.taut {
        Some(Allowed {
            taut: true,
            ..allowed
        })
    } else if word == b"FO".as_slice() && !allowed.fo {
        Some(Allowed {
            fo: true,
            ..allowed
        })
    } else if word == b"Ana".as_slice() && !allowed.ana {
        Some(Allowed {
            ana: true,
            ..allowed
        })
    } else {
        None
    }
}
