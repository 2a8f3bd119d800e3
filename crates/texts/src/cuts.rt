ghost use Rattle.std.specs.Prelude.{◌≡◌, ◌++◌, ℕ, List, MatchOption};
ghost use Rattle.texts.specs.Cuts.{Lacks, IsCut};

use memchr::memchr;

/// What stands before and after the first such byte; none where the text has no such byte.
#[tactic(auto, using(crate::proofs::Searching::nowhere_lacks))]
pub fn cut(text: &[u8], at: u8) -> Option<(&[u8], &[u8])>
    ensures value { MatchOption result (Lacks at text.now) (λ p. IsCut at text.now p.0.now p.1.now) }
{
    match memchr(at, text) {
        Some(place) => Some((&text[..place], &text[place + 1..])),
        None => None,
    }
}

/// What follows the prefix; none where the text doesn't begin with it.
pub fn after_prefix<'a>(text: &'a [u8], prefix: &[u8]) -> Option<&'a [u8]>
    ensures value { MatchOption result ((rest : List ℕ) → text.now ≡ prefix.now ++ rest → ⊥) (λ rest. text.now ≡ prefix.now ++ rest.now) }
{
    text.strip_prefix(prefix)
}
