//! Which printed trees need parentheses.

/// What a printed tree looks like from outside.
#[derive(Clone, Copy, PartialEq, Eq)]
pub enum Shape {
    /// A word, a number, a name, a call or a set: it needs no parentheses anywhere.
    Atom,
    /// A dotted event: it needs none as an item of a list.
    Dotted,
    /// Any other tree: it needs them as an operand and as an item.
    Compound,
}
