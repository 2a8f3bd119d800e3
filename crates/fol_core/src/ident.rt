ghost use Rattle.std.specs.Prelude.{◌≡◌, ◌≤◌, ◌↔◌, IfOk, IsTrue, if◌then◌else◌, length};
ghost use Rattle.std.specs.List.{list_all};
ghost use Rattle.std.specs.Str.{bytes_eq};
ghost use Rattle.fol_core.specs.Word.{is_ident, goes_on as continues, is_letter as letter};
ghost use Rattle.fol_core.specs.Kept.{bytes_at, Fits};

use std::alloc::{AllocError, Global};
use std::marker::Model;

/// How many bytes lie in the value itself.
const ROOM: usize = 14;

/// Where the bytes of an identifier lie.
#[derive(Debug)]
enum Place {
    /// The first so many of these.
    Here(u8, [u8; 14]),
    /// In memory of their own.
    Apart(Box<Vec<u8>>),
}

// Written by hand, it is one call wherever an identifier is dropped: a derived one is a case for each variant in the
// proofs of all that drops a sentence.
impl Drop for Place {
    fn drop(self) {
        match self {
            Place::Here(_, _) => {}
            Place::Apart(text) => drop(text),
        }
    }
}

/// An identifier: an ASCII letter, followed by ASCII letters, digits and underscores. Predicates, names and variables
/// are spelled so; contracts see the bytes.
#[derive(Debug, Drop)]
pub struct Ident {
    place: Place,
}

impl Model for Ident {
    ghost use Rattle.std.specs.Prelude.{List, ℕ, IsTrue};
    ghost use Rattle.fol_core.specs.Word.{is_ident};
    ghost use Rattle.fol_core.specs.Kept.{bytes_at, Fits};

    ghost Value = { List ℕ };

    ghost view = { λ i. bytes_at i.place };

    ghost invariant = { λ i. Fits i.place × IsTrue (is_ident (bytes_at i.place)) };
}

impl Ident {
    /// The identifier that the bytes spell, and none where they spell none. An error is want of memory.
    pub fn make(alloc: Global, text: &[u8]) -> Result<Option<Ident>, AllocError>
        ensures value { IfOk result (λ made. made ≡ (if is_ident text.now then Some text.now else None)) }
    {
        if !spells_ident(text) {
            return Ok(None);
        }
        let place = placed(alloc, text)?;
        Ok(Some(Ident { place }))
    }

    /// The bytes of the identifier.
    pub fn as_slice(&self) -> &[u8]
        ensures value { result.now ≡ self.now }
        ensures form { IsTrue (is_ident self.now) }
    {
        self.place.as_slice()
    }

    /// Does nothing. What is said is the form that the type keeps.
    pub(crate) fn form(&self)
        ensures form { IsTrue (is_ident self.now) }
    {
        let _text = self.as_slice();
    }

    /// The same identifier once more.
    pub fn copied(&self, alloc: Global) -> Result<Ident, AllocError>
        ensures value { IfOk result (λ copy. copy ≡ self.now) }
    {
        let place = self.place.copied(alloc)?;
        Ok(Ident { place })
    }
}

impl Place {
    /// The bytes that lie there.
    fn as_slice(&self) -> &[u8]
        requires fits { Fits self.now }
        ensures value { result.now ≡ bytes_at self.now }
    {
        match self {
            Place::Here(count, bytes) => &bytes[..*count as usize],
            Place::Apart(text) => text.as_slice(),
        }
    }

    /// A place with the same bytes.
    fn copied(&self, alloc: Global) -> Result<Place, AllocError>
        requires fits { Fits self.now }
        ensures value { IfOk result (λ copy. bytes_at copy ≡ bytes_at self.now) }
        ensures fits { IfOk result (λ copy. Fits copy) }
    {
        match self {
            Place::Here(count, bytes) => Ok(Place::Here(*count, *bytes)),
            Place::Apart(text) => apart(alloc, text.as_slice()),
        }
    }
}

/// A place for these bytes.
fn placed(alloc: Global, text: &[u8]) -> Result<Place, AllocError>
    ensures value { IfOk result (λ place. bytes_at place ≡ text.now) }
    ensures fits { IfOk result (λ place. Fits place) }
{
    if text.len() <= ROOM {
        return Ok(here(text));
    }
    apart(alloc, text)
}

/// The bytes in the value itself.
fn here(text: &[u8]) -> Place
    requires { length text.now ≤ 14 }
    ensures value { bytes_at result ≡ text.now }
    ensures fits { Fits result }
{
    let mut bytes = [0; 14];
    bytes[..text.len()].copy_from_slice(text);
    Place::Here(text.len() as u8, bytes)
}

/// The bytes in memory of their own.
fn apart(alloc: Global, text: &[u8]) -> Result<Place, AllocError>
    ensures value { IfOk result (λ place. bytes_at place ≡ text.now) }
    ensures fits { IfOk result (λ place. Fits place) }
{
    let text = Vec::from_slice(alloc, text)?;
    Ok(Place::Apart(Box::new(alloc, text)?))
}

/// Whether the two are one identifier, byte by byte.
pub fn same_ident(a: &Ident, b: &Ident) -> bool
    ensures value { result ≡ bytes_eq a.now b.now }
    ensures equal { IsTrue result ↔ (a.now ≡ b.now) }
{
    a.as_slice() == b.as_slice()
}

fn spells_ident(text: &[u8]) -> bool
    ensures value { result ≡ is_ident text.now }
{
    match text {
        [] => false,
        [first, rest @ ..] => is_letter(*first) && all_go_on(rest),
    }
}

fn is_letter(byte: u8) -> bool
    ensures value { result ≡ letter byte }
{
    matches!(byte, b'A'..=b'Z' | b'a'..=b'z')
}

fn goes_on(byte: u8) -> bool
    ensures value { result ≡ continues byte }
{
    is_letter(byte) || matches!(byte, b'0'..=b'9' | b'_')
}

fn all_go_on(text: &[u8]) -> bool
    ensures value { result ≡ list_all continues text.now }
{
    text.iter().all(|byte| goes_on(*byte))
}
