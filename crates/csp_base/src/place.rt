//! Places in a text.

/// A place in a text: its line and the byte in it, both counted from 1. A line feed ends a line.
#[derive(Clone, Copy, Debug, PartialEq, Eq)]
pub struct Place {
    /// The line.
    pub line: u32,
    /// The byte in the line.
    pub column: u32,
}
