use std::alloc::{AllocError, Global};

/// What the lines before a case have laid ready for it.
#[derive(Drop)]
pub struct Desk {
    /// The lines that began with `| `, each with its line feed: the input of the cases that follow.
    pub quoted: String,
    /// Whether the next such line belongs to those.
    is_open: bool,
    /// The text that stands on the shelf, and its name.
    pub name: String,
    pub text: String,
}

impl Desk {
    pub fn new(alloc: Global) -> Desk {
        Desk {
            quoted: String::new(alloc),
            is_open: false,
            name: String::new(alloc),
            text: String::new(alloc),
        }
    }

    /// Adds a line to the input; the first one after another kind of line begins it anew.
    pub fn quote(&mut self, line: &str) -> Result<(), AllocError> {
        if !self.is_open {
            self.quoted.clear();
        }
        self.is_open = true;
        self.quoted.push_str(line)?;
        self.quoted.push_str("\n")
    }

    /// Ends the lines of the input.
    pub fn close(&mut self) {
        self.is_open = false;
    }

    /// Puts the text on the shelf, in place of the one that stands there.
    pub fn shelve(&mut self, alloc: Global, name: &str, text: &str) -> Result<(), AllocError> {
        self.name = name.to_string(alloc)?;
        self.text = text.to_string(alloc)?;
        Ok(())
    }

    /// Puts the lines of the input on the shelf.
    pub fn shelve_quoted(&mut self, alloc: Global, name: &str) -> Result<(), AllocError> {
        self.name = name.to_string(alloc)?;
        self.text = self.quoted.as_str().to_string(alloc)?;
        Ok(())
    }
}
