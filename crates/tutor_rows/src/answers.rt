use crate::desk::Desk;
use crate::runs::{run, run_cut};
use cases::{call_of, quoted_line, stands_for_itself, texts_of};
use std::alloc::{AllocError, Global};

/// The reply to a line. One that is empty, or begins with `#` or `| `, is its own reply.
pub fn reply(alloc: Global, desk: &mut Desk, line: &str) -> Result<String, AllocError> {
    if let Some(quoted) = quoted_line(line) {
        desk.quote(quoted)?;
        return line.to_string(alloc);
    }
    desk.close();
    if stands_for_itself(line) {
        return line.to_string(alloc);
    }
    let texts = texts_of(alloc, line)?;
    answer(alloc, desk, call_of(line), texts.as_slice())
}

fn answer(
    alloc: Global,
    desk: &mut Desk,
    call: &str,
    texts: &[String],
) -> Result<String, AllocError> {
    match (call, texts) {
        ("tutor", _) => run(alloc, desk, texts),
        ("cut", [from, to, words @ ..]) => run_cut(alloc, desk, from, to, words),
        ("shelf", [name]) => {
            desk.shelve_quoted(alloc, name)?;
            "on the shelf".to_string(alloc)
        }
        ("shelf", [name, text]) => {
            desk.shelve(alloc, name, text)?;
            "on the shelf".to_string(alloc)
        }
        _ => "no such call".to_string(alloc),
    }
}
