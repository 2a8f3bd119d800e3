use crate::broken::BrokenFiles;
use crate::words::{found, join};
use cases::bytes_of;
use edge_io::{Bytes, Folder, Shelf};
use std::alloc::{AllocError, Global};
use std::rt::Files;
use std::{fs, io};

/// What the folder that the program runs in answers on each of these names, with the faults after it.
pub fn looks_in_folder(rt: &HostRuntime, names: &[String]) -> Result<String, AllocError> {
    let alloc = rt.alloc();
    let mut shelf = Folder::new(rt);
    let mut told = String::new(alloc);
    for name in names {
        join(&mut told, look(alloc, &mut shelf, name)?.as_str())?;
    }
    Ok(told)
}

/// What a folder answers whose files give three bytes, then an error, then the end, where so many reads were made before.
pub fn looks_in_broken_folder(alloc: Global, calls: &str) -> Result<String, AllocError> {
    let calls = calls.parse().unwrap_or(0);
    let mut shelf = Folder::new(BrokenFiles { calls });
    look(alloc, &mut shelf, "text")
}

fn look<R: Files>(alloc: Global, shelf: &mut Folder<R>, name: &str) -> Result<String, AllocError> {
    let name = Bytes::from_vec(bytes_of(alloc, name)?);
    let answer = shelf.get(alloc, &name);
    found(alloc, &answer, shelf.faults)
}

pub fn make_file(rt: &HostRuntime, name: &str, text: &str) -> Result<String, AllocError> {
    said(rt.alloc(), &fs::write(rt, name, text), "made")
}

pub fn make_folder(rt: &HostRuntime, name: &str) -> Result<String, AllocError> {
    said(rt.alloc(), &fs::create_dir(rt, name), "made")
}

/// Removes the file, or the folder that has nothing in it.
pub fn remove(rt: &HostRuntime, name: &str) -> Result<String, AllocError> {
    let removed = match fs::remove_file(rt, name) {
        Ok(()) => Ok(()),
        Err(_) => fs::remove_dir(rt, name),
    };
    said(rt.alloc(), &removed, "removed")
}

fn said(alloc: Global, answer: &io::Result<()>, done: &str) -> Result<String, AllocError> {
    match answer {
        Ok(()) => done.to_string(alloc),
        Err(_) => "the file system refused".to_string(alloc),
    }
}
