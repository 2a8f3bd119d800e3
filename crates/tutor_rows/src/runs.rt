use crate::desk::Desk;
use crate::setup::{Setup, number, setup_of};
use edge_io::{MemShelf, MemSink, MemSource};
use std::alloc::{AllocError, Global};
use tutor_app::tutor::tutor;

/// How a run with these words and edges ends.
pub fn run(alloc: Global, desk: &Desk, texts: &[String]) -> Result<String, AllocError> {
    let setup = setup_of(alloc, desk.quoted.as_str(), texts)?;
    run_on(alloc, desk, &setup, setup.input.as_slice())
}

/// How the runs on the first so many bytes of the input end, for each number from one to the other: all in the same way, or
/// how the first one does, and which is the first that ends otherwise.
pub fn run_cut(
    alloc: Global,
    desk: &Desk,
    from: &str,
    to: &str,
    texts: &[String],
) -> Result<String, AllocError> {
    let setup = setup_of(alloc, desk.quoted.as_str(), texts)?;
    let told = run_front(alloc, desk, &setup, number(from))?;
    for length in number(from)..=number(to) {
        let now = run_front(alloc, desk, &setup, length)?;
        if now.as_str() != told.as_str() {
            return format!(in alloc; "{told}, but cut after {length} bytes {now}");
        }
    }
    Ok(told)
}

/// How the run on the first so many bytes of the input ends.
fn run_front(
    alloc: Global,
    desk: &Desk,
    setup: &Setup,
    length: usize,
) -> Result<String, AllocError> {
    match setup.input.split_at_checked(length) {
        Some((front, _)) => run_on(alloc, desk, setup, front),
        None => "the input is shorter".to_string(alloc),
    }
}

fn run_on(alloc: Global, desk: &Desk, setup: &Setup, bytes: &[u8]) -> Result<String, AllocError> {
    let mut input = MemSource::new(
        alloc,
        bytes,
        setup.read_piece.max(1),
        setup.reads.as_slice(),
    )?;
    let mut output = MemSink::new(
        alloc,
        setup.room,
        setup.write_piece.max(1),
        setup.writes.as_slice(),
    )?;
    let mut shelf = shelf_with(alloc, desk, setup.gets.as_slice())?;
    let status = tutor(alloc, &setup.words, &mut input, &mut output, &mut shelf);
    told(alloc, status.code, &input, &output, &shelf)
}

/// A shelf with the text of the desk.
fn shelf_with(alloc: Global, desk: &Desk, gets: &[u32]) -> Result<MemShelf, AllocError> {
    let mut shelf = MemShelf::new(alloc, gets)?;
    shelf.put(alloc, desk.name.as_bytes(), desk.text.as_bytes())?;
    Ok(shelf)
}

/// The status and what was written; and how many bytes weren't read and how often an edge failed, where it isn't 0.
fn told(
    alloc: Global,
    code: u8,
    input: &MemSource,
    output: &MemSink,
    shelf: &MemShelf,
) -> Result<String, AllocError> {
    let written = String::from_utf8_lossy(alloc, output.taken())?;
    let mut told = format!(in alloc; "{code} {written:?}")?;
    add_count(alloc, &mut told, input.left().len() as u64, "not read")?;
    add_count(alloc, &mut told, input.failed(), "read failed")?;
    add_count(alloc, &mut told, output.failed(), "write failed")?;
    add_count(alloc, &mut told, shelf.failed(), "get failed")?;
    Ok(told)
}

fn add_count(alloc: Global, told: &mut String, count: u64, what: &str) -> Result<(), AllocError> {
    if count == 0 {
        return Ok(());
    }
    told.push_str(format!(in alloc; ", {count} {what}")?.as_str())
}
