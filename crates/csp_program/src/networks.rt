//! Networks: processes in alphabetised parallel.

use crate::expressions::Expr;
use crate::processes::Proc;
use containers::{Boxed, Items};

/// A network. Parts stand in the order of the text.
pub enum Net {
    /// A component.
    Leaf(Proc),
    /// The network definition with this number, and its arguments.
    Call(u32, Items<Expr>),
    /// `if a then N else M`
    If(Expr, Boxed<Net>, Boxed<Net>),
    /// `N [A || B] M`
    Pair(Boxed<Net>, Expr, Expr, Boxed<Net>),
    /// `|| x:S @ [A] N`
    Each(u32, Expr, Expr, Boxed<Net>),
}

impl Drop for Net {
    fn drop(self) {
        match self {
            Net::Leaf(_) => {}
            Net::Call(_, _) => {}
            Net::If(_, _, _) => {}
            Net::Pair(_, _, _, _) => {}
            Net::Each(_, _, _, _) => {}
        }
    }
}
