ghost use Rattle.std.specs.Prelude.{◌≡◌, IfOk};

use std::io;
use std::io::{ErrorKind, Read, Write};

/// Fails at its first call, then reads and takes nothing.
#[derive(Drop)]
pub struct Failing {
    calls: u64,
}

impl Failing {
    pub fn new() -> Failing {
        Failing { calls: 0 }
    }

    fn next(&mut self) -> io::Result<usize>
        ensures nothing { IfOk result (λ n. n ≡ 0) }
    {
        self.calls = self.calls.saturating_add(1);
        if self.calls == 1 {
            return Err(io::Error::from(ErrorKind::BrokenPipe));
        }
        Ok(0)
    }
}

impl Read for Failing {
    fn read(&mut self, _buf: &mut [u8]) -> io::Result<usize> {
        self.next()
    }
}

impl Write for Failing {
    fn write(&mut self, _buf: &[u8]) -> io::Result<usize> {
        self.next()
    }

    fn flush(&mut self) -> io::Result<()> {
        Ok(())
    }
}
