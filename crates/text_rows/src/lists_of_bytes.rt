use crate::replies::{NoAnswer, quoted, shown};
use lists::{Listed, Several};
use std::alloc::{AllocError, Global};

/// The list of the bytes, changed by each of the changes in turn, and its length.
pub fn listed(alloc: Global, start: &str, changes: &[String]) -> Result<String, NoAnswer> {
    let mut list = Listed::from_slice(alloc, start.as_bytes())?;
    for change in changes {
        apply(alloc, &mut list, change)?;
    }
    let bytes = quoted(alloc, list.as_slice())?;
    let length = list.len();
    Ok(format!(in alloc; "{bytes}, {length}")?)
}

/// Changes the list by the call that the change names, with the bytes behind it.
fn apply(alloc: Global, list: &mut Listed<u8>, change: &str) -> Result<(), NoAnswer> {
    match change.split_once(' ') {
        Some(("extend", bytes)) => Ok(list.extend(bytes.as_bytes())?),
        Some(("append", bytes)) => Ok(append(alloc, list, bytes)?),
        Some(("push", bytes)) => Ok(push_each(list, bytes)?),
        Some(("add", bytes)) => Ok(add_each(list, bytes)?),
        _ => Err(NoAnswer::NoSuchCall),
    }
}

fn append(alloc: Global, list: &mut Listed<u8>, bytes: &str) -> Result<(), AllocError> {
    list.append(Listed::from_slice(alloc, bytes.as_bytes())?)
}

fn push_each(list: &mut Listed<u8>, bytes: &str) -> Result<(), AllocError> {
    for byte in bytes.as_bytes() {
        match list.push(*byte) {
            Ok(()) => {}
            Err((refused, _)) => return Err(refused),
        }
    }
    Ok(())
}

fn add_each(list: &mut Listed<u8>, bytes: &str) -> Result<(), AllocError> {
    for byte in bytes.as_bytes() {
        list.add(*byte)?;
    }
    Ok(())
}

/// Whether the list has just these bytes; it is taken to a vector and back before.
pub fn are_same(alloc: Global, list: &str, bytes: &str) -> Result<String, NoAnswer> {
    let list = list_of(alloc, list)?;
    let again = Listed::from_vec(list.into_vec());
    shown(alloc, &again.is(bytes.as_bytes()))
}

/// The list of the bytes, begun as the empty one.
fn list_of(alloc: Global, bytes: &str) -> Result<Listed<u8>, AllocError> {
    let mut list = Listed::new(alloc);
    add_each(&mut list, bytes)?;
    Ok(list)
}

/// The first two of the bytes as a pair, to which the others are added.
pub fn several(alloc: Global, items: &str) -> Result<String, NoAnswer> {
    match items.as_bytes() {
        [first, second, others @ ..] => {
            let mut items = Several::pair(alloc, *first, *second)?;
            push_all(&mut items, others)?;
            quoted(alloc, items.as_slice())
        }
        _ => Err(NoAnswer::NoSuchCall),
    }
}

fn push_all(items: &mut Several<u8>, others: &[u8]) -> Result<(), AllocError> {
    for item in others {
        match items.push(*item) {
            Ok(()) => {}
            Err((refused, _)) => return Err(refused),
        }
    }
    Ok(())
}

/// The list of the bytes, which are two or more.
pub fn several_of(alloc: Global, items: &str) -> Result<String, NoAnswer> {
    let items = list_of(alloc, items)?;
    if items.len() < 2 {
        return Err(NoAnswer::NoSuchCall);
    }
    let several = Several::of(items);
    quoted(alloc, several.as_slice())
}
