ghost use Rattle.std.specs.Prelude.{◌≡◌, map};
ghost use Rattle.std.specs.List.{fold};
ghost use Rattle.taut_con.specs.inside.Digests as digests;

use fol_core::{Ident, Sent, Term};

/// A number made of the sentence. Identical sentences have one; that two others have the same one is rare, unless they
/// were made for it.
#[cycle(digest)]
pub(crate) fn digest(s: &Sent) -> u64
    ensures value { result ≡ digests.digest s.now }
{
    match s {
        Sent::Atom(p, terms) => mix_terms(mix(4, word_digest(p)), terms.as_slice()),
        Sent::Eq(a, b) => mix(mix(5, term_digest(a)), term_digest(b)),
        Sent::Bottom => 6,
        Sent::Not(a) => mix(7, digest(a.get())),
        Sent::And(parts) => mix_all(8, parts.as_slice()),
        Sent::Or(parts) => mix_all(9, parts.as_slice()),
        Sent::If(a, b) => mix(mix(10, digest(a.get())), digest(b.get())),
        Sent::Iff(a, b) => mix(mix(11, digest(a.get())), digest(b.get())),
        Sent::All(x, a) => mix(mix(12, word_digest(x)), digest(a.get())),
        Sent::Ex(x, a) => mix(mix(13, word_digest(x)), digest(a.get())),
    }
}

/// The number with the digests of the sentences mixed in.
#[cycle(digest)]
fn mix_all(start: u64, sentences: &[Sent]) -> u64
    ensures value { result ≡ fold digests.mix start (map digests.digest sentences.now) }
{
    let mut mixed = start;
    for s in sentences {
        mixed = mix(mixed, digest(s));
    }
    mixed
}

#[cycle(term_digest)]
fn term_digest(term: &Term) -> u64
    ensures value { result ≡ digests.term_digest term.now }
{
    match term {
        Term::Var(x) => mix(1, word_digest(x)),
        Term::Name(n) => mix(2, word_digest(n)),
        Term::App(g, args) => mix_terms(mix(3, word_digest(g)), args.as_slice()),
    }
}

/// The number with the digests of the terms mixed in.
#[cycle(term_digest)]
fn mix_terms(start: u64, terms: &[Term]) -> u64
    ensures value { result ≡ fold digests.mix start (map digests.term_digest terms.now) }
{
    let mut mixed = start;
    for term in terms {
        mixed = mix(mixed, term_digest(term));
    }
    mixed
}

fn word_digest(word: &Ident) -> u64
    ensures value { result ≡ digests.word_digest word.now }
{
    let bytes = word.as_slice();
    let mut mixed: u64 = 14695981039346656037;
    for byte in bytes {
        mixed = mix(mixed, *byte as u64);
    }
    mixed
}

/// The number with one more mixed in. The factor is the prime of the hash of Fowler, Noll and Vo for 64 bits, as the
/// number with which words begin is its offset.
fn mix(mixed: u64, next: u64) -> u64
    ensures value { result ≡ digests.mix mixed next }
{
    (mixed ^ next).wrapping_mul(1099511628211)
}
