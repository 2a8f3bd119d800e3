ghost use Rattle.std.specs.Prelude.{◌≡◌, ◌≤◌, true, ◌++◌, ◌∷◌, [], length, map, IfOk, OnOk, Ok, if◌then◌else◌};
ghost use Rattle.fol_core.specs.Formed.{formed};
ghost use Rattle.fol_core.specs.Closed.{closed};
ghost use Rattle.fol_core.specs.Size.{within_limits};
ghost use Rattle.fol_text.specs.Readable.{SpellsText, IsReadable, most_bytes};
ghost use Rattle.fol_text.specs.Printed.{printed, shown, text_in, opening, closing, separated, term_text, atom_text};

use fol_core::{Ident, Sent, Term};
use lists::Listed;
use std::alloc::{AllocError, Global};

/// The bytes of a text.
type Bytes = Listed<u8>;

/// The text of the sentence, with the typed signs: one space on each side of a connective between parts, of `=` and of
/// `#`, and one behind a quantifier's variable. A part stands in parentheses where a connective joins it.
pub fn print_sentence(alloc: Global, s: &Sent) -> Result<Listed<u8>, AllocError>
    ensures text { IfOk result (λ text. text ≡ printed s.now) }

    // The text of a well-formed sentence spells it.
    ensures spelled { IfOk result (λ text. formed s.now ≡ true → SpellsText text s.now) }

    // It is read back where the sentence is moreover closed and within the limits, and the text is short enough.
    ensures readable { IfOk result (λ text. formed s.now ≡ true → closed s.now ≡ true → within_limits s.now ≡ Ok tt → length text ≤ most_bytes → IsReadable text s.now) }
{
    let mut text = Listed::new(alloc);
    add(s, false, &mut text)?;
    Ok(text)
}

/// Puts the text of the sentence last, as it stands alone or as it is a part.
#[cycle(print)]
fn add(s: &Sent, is_part: bool, text: &mut Bytes) -> Result<(), AllocError>
    ensures value { OnOk result (text.new ≡ text.old ++ text_in is_part (shown s.now)) }
{
    match s {
        Sent::Atom(predicate, terms) => add_atom(predicate, terms.as_slice(), text),
        Sent::Eq(a, b) => add_equation(a, b" = ", b, text),
        Sent::Bottom => text.extend(b"^"),
        Sent::Not(a) => match a.get() {
            Sent::Eq(b, c) => add_equation(b, b" # ", c, text),
            other => {
                text.extend(b"~")?;
                add(other, true, text)
            }
        },
        Sent::And(parts) => add_chain(parts.as_slice(), b" & ", is_part, text),
        Sent::Or(parts) => add_chain(parts.as_slice(), b" | ", is_part, text),
        Sent::If(a, b) => {
            begin_group(is_part, text)?;
            add(a.get(), true, text)?;
            text.extend(b" $ ")?;
            add(b.get(), true, text)?;
            end_group(is_part, text)
        }
        Sent::Iff(a, b) => {
            begin_group(is_part, text)?;
            add(a.get(), true, text)?;
            text.extend(b" % ")?;
            add(b.get(), true, text)?;
            end_group(is_part, text)
        }
        Sent::All(x, a) => {
            add_quantifier(b"@", x, text)?;
            add(a.get(), true, text)
        }
        Sent::Ex(x, a) => {
            add_quantifier(b"/", x, text)?;
            add(a.get(), true, text)
        }
    }
}

/// Puts the texts of the parts last, with the connective between them, in parentheses where the chain is a part itself.
#[cycle(print)]
fn add_chain(
    parts: &[Sent],
    connective: &[u8],
    is_part: bool,
    text: &mut Bytes,
) -> Result<(), AllocError>
    ensures value { OnOk result (text.new ≡ text.old ++ opening is_part ++ separated connective.now (map (λ s. (shown s).part) parts.now) ++ closing is_part) }
{
    begin_group(is_part, text)?;
    let mut is_first = true;
    for part in parts {
        separate(is_first, connective, text)?;
        is_first = false;
        add(part, true, text)?;
    }
    end_group(is_part, text)
}

/// Puts the parenthesis last in which a part begins.
fn begin_group(is_part: bool, text: &mut Bytes) -> Result<(), AllocError>
    ensures value { OnOk result (text.new ≡ text.old ++ opening is_part) }
{
    if is_part { text.extend(b"(") } else { Ok(()) }
}

/// Puts the parenthesis last in which a part ends.
fn end_group(is_part: bool, text: &mut Bytes) -> Result<(), AllocError>
    ensures value { OnOk result (text.new ≡ text.old ++ closing is_part) }
{
    if is_part { text.extend(b")") } else { Ok(()) }
}

/// Puts the separator last, unless the first of the separated texts comes next.
fn separate(is_first: bool, separator: &[u8], text: &mut Bytes) -> Result<(), AllocError>
    ensures value { OnOk result (text.new ≡ text.old ++ (if is_first then [] else separator.now)) }
{
    if is_first {
        Ok(())
    } else {
        text.extend(separator)
    }
}

/// Puts the quantifier with its variable and a space last.
fn add_quantifier(sign: &[u8], x: &Ident, text: &mut Bytes) -> Result<(), AllocError>
    ensures value { OnOk result (text.new ≡ text.old ++ sign.now ++ x.now ++ 32 ∷ []) }
{
    text.extend(sign)?;
    text.extend(x.as_slice())?;
    text.extend(b" ")
}

/// Puts the predicate with its terms last.
fn add_atom(predicate: &Ident, terms: &[Term], text: &mut Bytes) -> Result<(), AllocError>
    ensures value { OnOk result (text.new ≡ text.old ++ atom_text predicate.now terms.now) }
{
    text.extend(predicate.as_slice())?;
    if terms.is_empty() {
        return Ok(());
    }
    text.extend(b"(")?;
    add_terms(terms, text)?;
    text.extend(b")")
}

/// Puts the terms last, with commas between them.
#[cycle(terms)]
fn add_terms(terms: &[Term], text: &mut Bytes) -> Result<(), AllocError>
    ensures value { OnOk result (text.new ≡ text.old ++ separated (44 ∷ []) (map term_text terms.now)) }
{
    let mut is_first = true;
    for term in terms {
        separate(is_first, b",", text)?;
        is_first = false;
        add_term(term, text)?;
    }
    Ok(())
}

/// Puts the text of the term last.
#[cycle(terms)]
fn add_term(term: &Term, text: &mut Bytes) -> Result<(), AllocError>
    ensures value { OnOk result (text.new ≡ text.old ++ term_text term.now) }
{
    match term {
        Term::Var(x) => text.extend(x.as_slice()),
        Term::Name(n) => text.extend(n.as_slice()),
        Term::App(symbol, args) => {
            text.extend(symbol.as_slice())?;
            text.extend(b"(")?;
            add_terms(args.as_slice(), text)?;
            text.extend(b")")
        }
    }
}

/// Puts an equation or a denied one last.
fn add_equation(a: &Term, sign: &[u8], b: &Term, text: &mut Bytes) -> Result<(), AllocError>
    ensures value { OnOk result (text.new ≡ text.old ++ term_text a.now ++ sign.now ++ term_text b.now) }
{
    add_term(a, text)?;
    text.extend(sign)?;
    add_term(b, text)
}
