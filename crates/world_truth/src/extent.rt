/// How many columns a table has.
pub(crate) const COLUMNS: u32 = 64;

/// How many rows a table has.
pub(crate) const ROWS: u32 = 512;

/// How much of a table is in use: its first rows and, of each of these, its first columns.
#[derive(Clone, Copy)]
pub struct Extent {
    pub(crate) rows: u32,
    pub(crate) columns: u32,
}
