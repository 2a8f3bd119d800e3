ghost use Rattle.std.specs.Prelude.{◌≡◌, min, map};
ghost use Rattle.fol_core.specs.Size.{depth, greatest, total, nodes, term_depth, term_nodes, within_limits};

use crate::sent::{Sent, SentFault, Term};

/// The greatest depth of a sentence. An atomic sentence without functions has depth 1.
const MOST_DEPTH: u32 = 60;

/// The greatest number of nodes of a sentence, where each term is one.
const MOST_NODES: u32 = 400;

/// Whether the sentence is within the limits. The depth is tested first; the fault is never `Memory`.
pub fn within(s: &Sent) -> Result<(), SentFault>
    ensures value { result ≡ within_limits s.now }
{
    if depth_of(s) > MOST_DEPTH {
        return Err(SentFault::TooDeep);
    }
    if nodes_of(s) > MOST_NODES {
        return Err(SentFault::TooMany);
    }
    Ok(())
}

/// The depth, as far as the type counts.
#[cycle(depth)]
fn depth_of(s: &Sent) -> u32
    ensures value { result ≡ min (depth s.now) 4294967295 }
{
    match s {
        Sent::Atom(_, terms) => deepest_term(terms.as_slice()).saturating_add(1),
        Sent::Eq(a, b) => {
            let left = term_depth_of(a);
            let right = term_depth_of(b);
            left.max(right).saturating_add(1)
        }
        Sent::Bottom => 1,
        Sent::Not(a) | Sent::All(_, a) | Sent::Ex(_, a) => depth_of(a.get()).saturating_add(1),
        Sent::And(parts) | Sent::Or(parts) => deepest(parts.as_slice()).saturating_add(1),
        Sent::If(a, b) | Sent::Iff(a, b) => {
            let left = depth_of(a.get());
            let right = depth_of(b.get());
            left.max(right).saturating_add(1)
        }
    }
}

#[cycle(depth)]
fn deepest(parts: &[Sent]) -> u32
    ensures value { result ≡ min (greatest (map depth parts.now)) 4294967295 }
{
    let mut most = 0;
    for part in parts {
        let here = depth_of(part);
        if here > most {
            most = here;
        }
    }
    most
}

/// The number of nodes, as far as the type counts.
#[cycle(nodes)]
fn nodes_of(s: &Sent) -> u32
    ensures value { result ≡ min (nodes s.now) 4294967295 }
{
    match s {
        Sent::Atom(_, terms) => nodes_of_terms(terms.as_slice()).saturating_add(1),
        Sent::Eq(a, b) => {
            let left = term_nodes_of(a);
            let right = term_nodes_of(b);
            left.saturating_add(right).saturating_add(1)
        }
        Sent::Bottom => 1,
        Sent::Not(a) | Sent::All(_, a) | Sent::Ex(_, a) => nodes_of(a.get()).saturating_add(1),
        Sent::And(parts) | Sent::Or(parts) => nodes_of_all(parts.as_slice()).saturating_add(1),
        Sent::If(a, b) | Sent::Iff(a, b) => {
            let left = nodes_of(a.get());
            let right = nodes_of(b.get());
            left.saturating_add(right).saturating_add(1)
        }
    }
}

#[cycle(nodes)]
fn nodes_of_all(parts: &[Sent]) -> u32
    ensures value { result ≡ min (total (map nodes parts.now)) 4294967295 }
{
    let mut total: u32 = 0;
    for part in parts {
        total = total.saturating_add(nodes_of(part));
    }
    total
}

/// The depth of a term, as far as the type counts.
#[cycle(term_depth)]
fn term_depth_of(term: &Term) -> u32
    ensures value { result ≡ min (term_depth term.now) 4294967295 }
{
    match term {
        Term::Var(_) | Term::Name(_) => 0,
        Term::App(_, args) => deepest_term(args.as_slice()).saturating_add(1),
    }
}

#[cycle(term_depth)]
fn deepest_term(terms: &[Term]) -> u32
    ensures value { result ≡ min (greatest (map term_depth terms.now)) 4294967295 }
{
    let mut most = 0;
    for term in terms {
        let here = term_depth_of(term);
        if here > most {
            most = here;
        }
    }
    most
}

/// The number of nodes of a term, as far as the type counts.
#[cycle(term_nodes)]
fn term_nodes_of(term: &Term) -> u32
    ensures value { result ≡ min (term_nodes term.now) 4294967295 }
{
    match term {
        Term::Var(_) | Term::Name(_) => 1,
        Term::App(_, args) => nodes_of_terms(args.as_slice()).saturating_add(1),
    }
}

#[cycle(term_nodes)]
fn nodes_of_terms(terms: &[Term]) -> u32
    ensures value { result ≡ min (total (map term_nodes terms.now)) 4294967295 }
{
    let mut total: u32 = 0;
    for term in terms {
        total = total.saturating_add(term_nodes_of(term));
    }
    total
}
