//! The operators of expressions, in texts and in programs.

/// The operators that stand between two operands.
#[derive(Clone, Copy, PartialEq, Eq, Hash)]
pub enum BinOp {
    /// `or`
    Or,
    /// `and`
    And,
    /// `==`
    Eq,
    /// `!=`
    Ne,
    /// `<`
    Lt,
    /// `<=`
    Le,
    /// `>`
    Gt,
    /// `>=`
    Ge,
    /// `+`
    Add,
    /// `-`
    Sub,
    /// `*`
    Mul,
    /// `/`
    Div,
    /// `%`
    Rem,
}

/// The operators on two sets.
#[derive(Clone, Copy, PartialEq, Eq, Hash)]
pub enum SetOp {
    /// `union`
    Union,
    /// `inter`
    Inter,
    /// `diff`
    Diff,
}
