use cases::bytes_of;
use std::alloc::{AllocError, Global};

/// The lines of a long text, which stand before the calls that take it.
#[derive(Drop)]
pub struct Page {
    text: String,
    /// Whether the next line of a text belongs to this one.
    goes_on: bool,
}

impl Page {
    pub fn new(alloc: Global) -> Page {
        Page {
            text: String::new(alloc),
            goes_on: true,
        }
    }

    /// Forgets the lines.
    pub fn clear(&mut self) {
        self.text.clear();
        self.goes_on = true;
    }

    /// Ends the text: the next line begins another one.
    pub fn close(&mut self) {
        self.goes_on = false;
    }

    /// Puts the line last; or first in another text.
    pub fn add(&mut self, line: &str) -> Result<(), AllocError> {
        if !self.goes_on {
            self.clear();
        }
        self.put(line)
    }

    fn put(&mut self, line: &str) -> Result<(), AllocError> {
        self.text.push_str(line)?;
        self.text.push('\n')
    }

    /// Puts lines last in this text that begin with the numbers from `first` to `last`, each with the same text behind it.
    pub fn add_numbered(
        &mut self,
        alloc: Global,
        first: u32,
        last: u32,
        behind: &str,
    ) -> Result<(), AllocError> {
        for number in first..=last {
            let line = format!(in alloc; "{number} {behind}")?;
            self.put(line.as_str())?;
        }
        Ok(())
    }

    /// The bytes of the lines, and of the texts behind them.
    pub fn text(&self, alloc: Global, behind: &[String]) -> Result<Vec<u8>, AllocError> {
        let mut text = self.text.as_str().to_string(alloc)?;
        for part in behind {
            text.push_str(part.as_str())?;
        }
        bytes_of(alloc, text.as_str())
    }
}
