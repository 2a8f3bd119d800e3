use crate::words::{found, join, numbers, quoted};
use edge_io::{Bytes, Failed, MemShelf, MemSink, MemSource, Shelf, Sink, Source};
use std::alloc::{AllocError, Global};

/// What so many reads into a room of three bytes answer, each with the bytes that are left and the faults after it.
pub fn reads(
    alloc: Global,
    bytes: &str,
    piece: &str,
    fails: &str,
    calls: &str,
) -> Result<String, AllocError> {
    let piece: usize = piece.parse().unwrap_or(1);
    let fails = numbers(alloc, fails)?;
    let mut source = MemSource::new(alloc, bytes.as_bytes(), piece.max(1), fails.as_slice())?;
    told_reads(alloc, &mut source, calls.parse().unwrap_or(0))
}

fn told_reads(alloc: Global, source: &mut MemSource, calls: u32) -> Result<String, AllocError> {
    let mut room = [0u8; 3];
    let mut told = String::new(alloc);
    for _ in 0..calls {
        let answer = source.read(&mut room);
        join(
            &mut told,
            after(alloc, answer, source.left(), source.failed())?.as_str(),
        )?;
    }
    Ok(told)
}

/// What writes of these pieces answer, each with the bytes that were taken and the faults after it.
pub fn writes(
    alloc: Global,
    room: &str,
    piece: &str,
    fails: &str,
    pieces: &[String],
) -> Result<String, AllocError> {
    let room = room.parse().unwrap_or(0);
    let piece: usize = piece.parse().unwrap_or(1);
    let fails = numbers(alloc, fails)?;
    let mut sink = MemSink::new(alloc, room, piece.max(1), fails.as_slice())?;
    told_writes(alloc, &mut sink, pieces)
}

fn told_writes(alloc: Global, sink: &mut MemSink, pieces: &[String]) -> Result<String, AllocError> {
    let mut told = String::new(alloc);
    for piece in pieces {
        let answer = sink.write(piece.as_bytes());
        join(
            &mut told,
            after(alloc, answer, sink.taken(), sink.failed())?.as_str(),
        )?;
    }
    Ok(told)
}

fn after(
    alloc: Global,
    answer: Result<usize, Failed>,
    bytes: &[u8],
    failed: u64,
) -> Result<String, AllocError> {
    let bytes = quoted(alloc, bytes)?;
    format!(in alloc; "{answer:?} {bytes} {failed}")
}

/// What a shelf in memory answers, step by step. A step with `=` puts a text under the name before it; any other gets the
/// text under that name.
pub fn looks(alloc: Global, fails: &str, steps: &[String]) -> Result<String, AllocError> {
    let fails = numbers(alloc, fails)?;
    let mut shelf = MemShelf::new(alloc, fails.as_slice())?;
    let mut told = String::new(alloc);
    for step in steps {
        join(&mut told, look(alloc, &mut shelf, step)?.as_str())?;
    }
    Ok(told)
}

fn look(alloc: Global, shelf: &mut MemShelf, step: &str) -> Result<String, AllocError> {
    if let Some((name, text)) = step.split_once('=') {
        shelf.put(alloc, name.as_bytes(), text.as_bytes())?;
        return Ok(String::new(alloc));
    }
    let name = Bytes::from_slice(alloc, step.as_bytes())?;
    let answer = shelf.get(alloc, &name);
    found(alloc, &answer, shelf.failed())
}

/// As `looks`, with the shelf lent to code over shelves for each step that gets a text.
pub fn looks_lent(alloc: Global, fails: &str, steps: &[String]) -> Result<String, AllocError> {
    let fails = numbers(alloc, fails)?;
    let mut shelf = MemShelf::new(alloc, fails.as_slice())?;
    let mut told = String::new(alloc);
    for step in steps {
        join(&mut told, look_lent(alloc, &mut shelf, step)?.as_str())?;
    }
    Ok(told)
}

fn look_lent(alloc: Global, shelf: &mut MemShelf, step: &str) -> Result<String, AllocError> {
    if step.contains('=') {
        return look(alloc, shelf, step);
    }
    let name = Bytes::from_slice(alloc, step.as_bytes())?;
    let answer = text_of(alloc, &mut *shelf, &name);
    found(alloc, &answer, shelf.failed())
}

fn text_of<F: Shelf + Drop>(
    alloc: Global,
    mut shelf: F,
    name: &Bytes,
) -> Result<Option<Bytes>, edge_io::ShelfFault> {
    shelf.get(alloc, name)
}

/// What moving one byte answers, from a source to a sink that are both lent, and what each has after it.
pub fn moves_lent(alloc: Global, bytes: &str) -> Result<String, AllocError> {
    let mut source = MemSource::new(alloc, bytes.as_bytes(), 2, &[])?;
    let mut sink = MemSink::new(alloc, 2, 2, &[])?;
    let answer = move_one(&mut source, &mut sink);
    let left = quoted(alloc, source.left())?;
    let taken = quoted(alloc, sink.taken())?;
    format!(in alloc; "{answer:?} left {left} taken {taken}")
}

/// Moves one byte.
fn move_one<S: Source + Drop, W: Sink + Drop>(mut source: S, mut sink: W) -> Result<usize, Failed> {
    let mut room = [0u8; 1];
    let count = source.read(&mut room)?;
    sink.write(&room[..count])
}
