ghost use Rattle.std.specs.Prelude.{◌≡◌, ◌<◌, map};
ghost use Rattle.tableau_branch.specs.inside.Weight.{mix as mixes, mixed, term_weight, weight, weight_of as weighs};

use fol_core::{Sent, Term};

#[tactic(auto, unfolding(crate::specs::inside::Weight::mix))]
fn mix(a: u32, b: u32) -> u32
    requires small { a < 65521 }
    requires less { b < 65521 }
    ensures value { result ≡ mixes a b }
    ensures below { result < 65521 }
{
    (a * 16777 + b) % 65521
}

fn mix_bytes(start: u32, bytes: &[u8]) -> u32
    requires { start < 65521 }
    ensures value { result ≡ mixed start bytes.now }
    ensures below { result < 65521 }
{
    let mut weight = start;
    for byte in bytes {
        weight = mix(weight, u32::from(*byte));
    }
    weight
}

#[cycle(term_weight)]
fn term(t: &Term) -> u32
    ensures value { result ≡ term_weight t.now }
    ensures below { result < 65521 }
{
    match t {
        Term::Var(x) => mix_bytes(1, x.as_slice()),
        Term::Name(n) => mix_bytes(2, n.as_slice()),
        Term::App(g, terms) => mix_terms(mix_bytes(13, g.as_slice()), terms.as_slice()),
    }
}

#[cycle(term_weight)]
fn mix_terms(start: u32, terms: &[Term]) -> u32
    ensures value { start < 65521 → result ≡ mixed start (map term_weight terms.now) }
    ensures below { start < 65521 → result < 65521 }
{
    let mut weight = if start < 65521 { start } else { 0 };
    for one in terms {
        weight = mix(weight, term(one));
    }
    weight
}

#[cycle(weight)]
fn sentence(s: &Sent) -> u32
    ensures value { result ≡ weight s.now }
    ensures below { result < 65521 }
{
    match s {
        Sent::Atom(p, terms) => mix_terms(mix_bytes(3, p.as_slice()), terms.as_slice()),
        Sent::Eq(a, b) => mix(mix(4, term(a)), term(b)),
        Sent::Bottom => 5,
        Sent::Not(a) => mix(6, sentence(a.get())),
        Sent::And(parts) => mix_parts(7, parts.as_slice()),
        Sent::Or(parts) => mix_parts(8, parts.as_slice()),
        Sent::If(a, b) => mix(mix(9, sentence(a.get())), sentence(b.get())),
        Sent::Iff(a, b) => mix(mix(10, sentence(a.get())), sentence(b.get())),
        Sent::All(x, a) => mix(mix_bytes(11, x.as_slice()), sentence(a.get())),
        Sent::Ex(x, a) => mix(mix_bytes(12, x.as_slice()), sentence(a.get())),
    }
}

#[cycle(weight)]
fn mix_parts(start: u32, parts: &[Sent]) -> u32
    ensures value { start < 65521 → result ≡ mixed start (map weight parts.now) }
    ensures below { start < 65521 → result < 65521 }
{
    let mut weight = if start < 65521 { start } else { 0 };
    for one in parts {
        weight = mix(weight, sentence(one));
    }
    weight
}

/// The number by which a signed sentence is looked up.
pub(crate) fn weight_of(holds: bool, s: &Sent) -> u32
    ensures value { result ≡ weighs holds s.now }
    ensures below { result < 65521 }
{
    mix(if holds { 1 } else { 2 }, sentence(s))
}
