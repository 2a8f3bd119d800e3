//! The edges of the program: bytes that come in and go out, over traits whose contracts say what was moved and
//! count every failure.
#![tactic(auto)]

mod adapters;
mod calls;
mod edges;
mod folder;
mod mem_shelf;
mod mem_sink;
mod mem_source;
mod shelf;

pub use adapters::{Reading, Writing};
pub use calls::Calls;
pub use edges::{Failed, Sink, Source};
pub use folder::Folder;
pub use mem_shelf::{Labelled, MemShelf};
pub use mem_sink::MemSink;
pub use mem_source::MemSource;
pub use shelf::{Shelf, ShelfFault, TEXT_LIMIT};

/// A list of bytes.
pub type Bytes = lists::Listed<u8>;
