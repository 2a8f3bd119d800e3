use crate::failing::Failing;
use crate::words::{join, quoted};
use edge_io::{Failed, Reading, Sink, Source, Writing};
use std::alloc::{AllocError, Global};
use std::io::{Read, Write};

/// What so many reads of a reader over the bytes answer, into a room of two bytes.
pub fn stream_reads(alloc: Global, bytes: &str, calls: &str) -> Result<String, AllocError> {
    let mut source = Reading::new(bytes.as_bytes());
    told_reads(alloc, &mut source, calls.parse().unwrap_or(0))
}

/// What so many reads answer of a reader that fails at the first.
pub fn failing_reads(alloc: Global, calls: &str) -> Result<String, AllocError> {
    let mut source = Reading::new(Failing::new());
    told_reads(alloc, &mut source, calls.parse().unwrap_or(0))
}

/// What the reads answer, each with the room and the faults after it.
fn told_reads<R: Read>(
    alloc: Global,
    source: &mut Reading<R>,
    calls: u32,
) -> Result<String, AllocError> {
    let mut room = [b'-'; 2];
    let mut told = String::new(alloc);
    for _ in 0..calls {
        let answer = source.read(&mut room);
        let seen = quoted(alloc, &room)?;
        join(
            &mut told,
            after(alloc, answer, seen.as_str(), source.faults)?.as_str(),
        )?;
    }
    Ok(told)
}

/// What writes of the pieces answer over a writer into memory, and what it has after them.
pub fn stream_writes(alloc: Global, pieces: &[String]) -> Result<String, AllocError> {
    let mut sink = Writing::new(Vec::new(alloc));
    let told = told_writes(alloc, &mut sink, pieces)?;
    let taken = quoted(alloc, sink.inner.as_slice())?;
    format!(in alloc; "{told}; {taken}")
}

/// What writes of the pieces answer over a writer that fails at the first and takes nothing of the others.
pub fn failing_writes(alloc: Global, pieces: &[String]) -> Result<String, AllocError> {
    let mut sink = Writing::new(Failing::new());
    told_writes(alloc, &mut sink, pieces)
}

/// What the writes answer, each with the piece and the faults after it.
fn told_writes<W: Write>(
    alloc: Global,
    sink: &mut Writing<W>,
    pieces: &[String],
) -> Result<String, AllocError> {
    let mut told = String::new(alloc);
    for piece in pieces {
        let answer = sink.write(piece.as_bytes());
        let given = quoted(alloc, piece.as_bytes())?;
        join(
            &mut told,
            after(alloc, answer, given.as_str(), sink.faults)?.as_str(),
        )?;
    }
    Ok(told)
}

fn after(
    alloc: Global,
    answer: Result<usize, Failed>,
    bytes: &str,
    faults: u64,
) -> Result<String, AllocError> {
    format!(in alloc; "{answer:?} {bytes} {faults}")
}
