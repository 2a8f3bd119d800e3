use std::alloc::Allocator;
use std::fs::{Metadata, OpenFile, OpenOptions};
use std::io;
use std::io::{ErrorKind, Read, Seek, SeekFrom, Write};
use std::rt::Files;

/// A file system in which each name is a file, and of which nothing but reading a file is asked.
#[derive(Drop)]
pub struct BrokenFiles {
    /// How many reads of a file were made before it is opened.
    pub calls: u8,
}

/// Gives three bytes, then an error, then the end.
#[derive(Drop)]
pub struct BrokenFile {
    calls: u8,
}

fn unsupported() -> io::Error {
    io::Error::from(ErrorKind::Unsupported)
}

impl Read for BrokenFile {
    fn read(&mut self, room: &mut [u8]) -> io::Result<usize> {
        self.calls = self.calls.saturating_add(1);
        match self.calls {
            1 => Ok(room.len().min(3)),
            2 => Err(io::Error::from(ErrorKind::TimedOut)),
            _ => Ok(0),
        }
    }
}

impl Write for BrokenFile {
    fn write(&mut self, _buf: &[u8]) -> io::Result<usize> {
        Err(unsupported())
    }

    fn flush(&mut self) -> io::Result<()> {
        Err(unsupported())
    }
}

impl Seek for BrokenFile {
    fn seek(&mut self, _pos: SeekFrom) -> io::Result<u64> {
        Err(unsupported())
    }
}

impl OpenFile for BrokenFile {
    fn metadata(&self) -> io::Result<Metadata> {
        Err(unsupported())
    }

    fn set_len(&self, _size: u64) -> io::Result<()> {
        Err(unsupported())
    }

    fn sync_all(&self) -> io::Result<()> {
        Err(unsupported())
    }

    fn sync_data(&self) -> io::Result<()> {
        Err(unsupported())
    }
}

impl Files for BrokenFiles {
    type File = BrokenFile;

    type Dir = BrokenFile;

    fn open_file(&self, _how: &OpenOptions, _path: &str) -> io::Result<BrokenFile> {
        Ok(BrokenFile { calls: self.calls })
    }

    fn open_dir(&self, _path: &str) -> io::Result<BrokenFile> {
        Err(unsupported())
    }

    fn metadata(&self, _path: &str) -> io::Result<Metadata> {
        Err(unsupported())
    }

    fn symlink_metadata(&self, _path: &str) -> io::Result<Metadata> {
        Err(unsupported())
    }

    fn copy(&self, _from: &str, _to: &str) -> io::Result<u64> {
        Err(unsupported())
    }

    fn rename(&self, _from: &str, _to: &str) -> io::Result<()> {
        Err(unsupported())
    }

    fn remove_file(&self, _path: &str) -> io::Result<()> {
        Err(unsupported())
    }

    fn create_dir(&self, _path: &str) -> io::Result<()> {
        Err(unsupported())
    }

    fn remove_dir(&self, _path: &str) -> io::Result<()> {
        Err(unsupported())
    }

    fn remove_dir_all<B: Allocator>(&self, _alloc: B, _path: &str) -> io::Result<()> {
        Err(unsupported())
    }
}
