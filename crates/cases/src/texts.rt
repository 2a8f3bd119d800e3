use std::alloc::{AllocError, Global};

/// Whether the line is its own reply: it is empty, or a heading that begins with `#`.
pub fn stands_for_itself(line: &str) -> bool {
    line.is_empty() || line.starts_with('#')
}

/// What a line of a long text says: it begins with `| `, and belongs to the case that follows it.
pub fn quoted_line(line: &str) -> Option<&str> {
    match line {
        "|" => Some(""),
        line => line.strip_prefix("| "),
    }
}

/// The word that the case begins with.
pub fn call_of(case: &str) -> &str {
    match case.split_once(' ') {
        Some((call, _)) => call,
        None => case,
    }
}

/// The texts of the case. Each stands between quotes, with `\n` for a line feed, `\t` for a tab and `\r` for a carriage
/// return. `120*` before a text repeats it, and `+` before that joins it to the text before it.
pub fn texts_of(alloc: Global, case: &str) -> Result<Vec<String>, AllocError> {
    let mut texts: Vec<String> = Vec::new(alloc);
    let mut times = 1;
    let mut joins = false;
    let mut is_text = false;
    for part in case.split('"') {
        if is_text {
            add(&mut texts, text_of(alloc, part, times)?, joins)?;
        } else {
            times = times_in(part);
            joins = part.contains('+');
        }
        is_text = !is_text;
    }
    Ok(texts)
}

/// The text that stands between two quotes, so many times.
fn text_of(alloc: Global, quoted: &str, times: usize) -> Result<String, AllocError> {
    quoted
        .replace(alloc, "\\n", "\n")?
        .replace(alloc, "\\t", "\t")?
        .replace(alloc, "\\r", "\r")?
        .repeat(alloc, times)
}

/// Joins the text to the last one, or puts it behind that.
fn add(texts: &mut Vec<String>, text: String, joins: bool) -> Result<(), AllocError> {
    match texts.last_mut() {
        Some(last) if joins => last.push_str(text.as_str()),
        _ => Ok(texts.push(text)?),
    }
}

/// The number right before a `*`; 1 where there is none.
fn times_in(before: &str) -> usize {
    let Some((front, _)) = before.split_once('*') else {
        return 1;
    };
    let digits = front.rsplit_once(' ').map_or(front, |p| p.1);
    digits.parse().unwrap_or(1)
}
