ghost use Rattle.std.specs.Prelude.{◌≡◌, ◌≤◌, None, Ok, length, IfOk, IsTrue};
ghost use Rattle.edge_io.specs.Names as names;
ghost use Rattle.edge_io.specs.Shelves.{Answers, HasShelfCause, IsWithinLimit, untold};

use crate::shelf::TEXT_LIMIT;
use crate::{Bytes, Shelf, ShelfFault};
use std::alloc::Global;
use std::io::{ErrorKind, Read};
use std::rt::Files;
use std::{fs, io, str};

/// The most bytes that are asked for at once.
const ROOM: usize = 4_096;

/// A shelf over the folder that the program runs in: each file there is a text under its own name. An error of the file
/// system counts as a fault, and so does a name that isn't UTF-8, for which it can't be asked.
#[derive(Drop)]
pub struct Folder<R> {
    /// The file system.
    pub files: R,
    /// How often it failed.
    pub faults: u64,
}

impl<R> Folder<R> {
    /// No fault was counted yet.
    pub fn new(files: R) -> Folder<R>
        ensures value { result ≡ record { files = files; faults = 0 } }
    {
        Folder { files, faults: 0 }
    }
}

impl<R: Files> Shelf for Folder<R> {
    ghost texts = { λ _. untold };

    ghost faults = { λ s. s.faults };

    ghost same_shelf = { λ _ _. Unit {0} };

    ghost shelf_refl = { λ _. tt };

    ghost shelf_trans = { λ _ _ _ _ _. tt };

    fn get(&mut self, alloc: Global, name: &Bytes) -> Result<Option<Bytes>, ShelfFault>
        ensures answer { Answers untold name.now result }
        ensures limit { IsWithinLimit result }
        ensures texts { untold ≡ untold }
        ensures cause { HasShelfCause self.old.faults self.new.faults result }
        ensures place { Unit {0} }
        ensures nameless { IsTrue (names.names_nothing name.now) → result ≡ Ok None }
    {
        let found = find_text(alloc, &self.files, name.as_slice());
        if let Err(ShelfFault::Failed) = found {
            self.faults = self.faults.saturating_add(1);
        }
        found
    }
}

/// Whether no file of a folder can have this name.
fn names_nothing(name: &[u8]) -> bool
    ensures value { result ≡ names.names_nothing name.now }
{
    is_dots(name) || has_bad_byte(name)
}

/// Whether the name is empty, `.` or `..`.
fn is_dots(name: &[u8]) -> bool
    ensures value { result ≡ names.is_dots name.now }
{
    name == b"".as_slice() || name == b".".as_slice() || name == b"..".as_slice()
}

/// Whether the name has a slash or a byte 0.
fn has_bad_byte(name: &[u8]) -> bool
    ensures value { result ≡ names.has_bad_byte name.now }
{
    name.iter().any(|byte| *byte == b'/' || *byte == 0)
}

/// The text of the file of this name, or none where there is no such file. A failure isn't counted here.
fn find_text<R: Files>(alloc: Global, files: &R, name: &[u8]) -> Result<Option<Bytes>, ShelfFault>
    ensures limit { IsWithinLimit result }
    ensures nameless { IsTrue (names.names_nothing name.now) → result ≡ Ok None }
{
    if names_nothing(name) {
        return Ok(None);
    }
    let Ok(path) = str::from_utf8(name) else {
        return Err(ShelfFault::Failed);
    };
    match fs::open(files, path) {
        Ok(file) => read_text(alloc, file),
        Err(error) => absent_or_failed(&error),
    }
}

/// What stands in the file, up to the limit.
fn read_text<F: Read + Drop>(alloc: Global, mut file: F) -> Result<Option<Bytes>, ShelfFault>
    ensures limit { IsWithinLimit result }
{
    let mut text = Bytes::new(alloc);
    let mut room = [0u8; ROOM];
    while text.len() <= TEXT_LIMIT {
        match file.read(&mut room) {
            Ok(0) => return Ok(Some(text)),
            Ok(count) => {
                if text.extend(&room[..count]).is_err() {
                    return Err(ShelfFault::Memory);
                }
            }
            Err(error) => return absent_or_failed(&error),
        }
    }
    Err(ShelfFault::TooLong)
}

/// What an error of the file system says: that there is no file of the name, or that the system failed.
fn absent_or_failed(error: &io::Error) -> Result<Option<Bytes>, ShelfFault>
    ensures none { IfOk result (λ found. found ≡ None) }
{
    match error.kind() {
        ErrorKind::NotFound | ErrorKind::IsADirectory | ErrorKind::InvalidFilename => Ok(None),
        _ => Err(ShelfFault::Failed),
    }
}
