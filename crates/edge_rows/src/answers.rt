use crate::folders::{looks_in_broken_folder, looks_in_folder, make_file, make_folder, remove};
use crate::memory::{looks, looks_lent, moves_lent, reads, writes};
use crate::streams::{failing_reads, failing_writes, stream_reads, stream_writes};
use cases::{call_of, stands_for_itself, texts_of};
use std::alloc::AllocError;

/// The reply to a line. One that is empty or begins with `#` is its own reply.
pub fn reply(rt: &HostRuntime, line: &str) -> Result<String, AllocError> {
    let alloc = rt.alloc();
    if stands_for_itself(line) {
        return line.to_string(alloc);
    }
    let texts = texts_of(alloc, line)?;
    let call = call_of(line);
    match call {
        "Folder" | "file" | "folder" | "remove" => on_files(rt, call, texts.as_slice()),
        _ => answer(rt, call, texts.as_slice()),
    }
}

fn answer(rt: &HostRuntime, call: &str, texts: &[String]) -> Result<String, AllocError> {
    let alloc = rt.alloc();
    match (call, texts) {
        ("MemSource", [bytes, piece, fails, calls]) => reads(alloc, bytes, piece, fails, calls),
        ("MemSink", [room, piece, fails, pieces @ ..]) => writes(alloc, room, piece, fails, pieces),
        ("MemShelf", [fails, steps @ ..]) => looks(alloc, fails, steps),
        ("lent_shelf", [fails, steps @ ..]) => looks_lent(alloc, fails, steps),
        ("lent_edges", [bytes]) => moves_lent(alloc, bytes),
        ("Reading", [bytes, calls]) => stream_reads(alloc, bytes, calls),
        ("Writing", pieces) => stream_writes(alloc, pieces),
        ("failing_reader", [calls]) => failing_reads(alloc, calls),
        ("failing_writer", pieces) => failing_writes(alloc, pieces),
        ("broken_folder", [calls]) => looks_in_broken_folder(alloc, calls),
        _ => "no such call".to_string(alloc),
    }
}

/// What a call about the folder answers that the program runs in.
fn on_files(rt: &HostRuntime, call: &str, texts: &[String]) -> Result<String, AllocError> {
    match (call, texts) {
        ("Folder", names) => looks_in_folder(rt, names),
        ("file", [name, text]) => make_file(rt, name, text),
        ("folder", [name]) => make_folder(rt, name),
        ("remove", [name]) => remove(rt, name),
        _ => "no such call".to_string(rt.alloc()),
    }
}
