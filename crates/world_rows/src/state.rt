use block_world::World;
use std::alloc::{AllocError, Global};

/// What the lines so far leave to the later ones.
#[derive(Drop)]
pub struct State {
    /// The text of the latest lines that begin with `| `.
    pub quoted: String,
    /// Whether the latest line is one of them, so that the next one goes on with their text.
    is_quoting: bool,
    /// The world that was read last.
    pub world: Option<World>,
}

impl State {
    /// No text and no world.
    pub fn new(alloc: Global) -> State {
        State {
            quoted: String::new(alloc),
            is_quoting: false,
            world: None,
        }
    }

    /// Adds a line to the text, or begins a new text with it behind a case.
    pub fn quote(&mut self, line: &str) -> Result<(), AllocError> {
        if !self.is_quoting {
            self.quoted.clear();
        }
        self.is_quoting = true;
        self.quoted.push_str(line)?;
        self.quoted.push_str("\n")
    }

    /// A case ends the text.
    pub fn end_text(&mut self) {
        self.is_quoting = false;
    }
}
