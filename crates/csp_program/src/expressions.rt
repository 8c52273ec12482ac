//! Expressions, which are worth an atom or a set of atoms.

use containers::{Boxed, Items};
use csp_atoms::Value;
use csp_base::{BinOp, SetOp};

/// An expression. Parts stand in the order of the text.
#[cycle(expression)]
#[derive(PartialEq, Eq, Hash)]
pub enum Expr {
    /// A number as it is written.
    Num(i64),
    /// `true` or `false`.
    Truth(bool),
    /// The constant of a datatype with this number.
    Const(u32),
    /// The bound name with this number.
    Bound(u32),
    /// A value that was put in for a bound name.
    Lit(Value),
    /// `-a`
    Neg(Boxed<Expr>),
    /// `not a`
    Not(Boxed<Expr>),
    /// An operator between two operands.
    Binary(BinOp, Boxed<Expr>, Boxed<Expr>),
    /// `if a then b else c`
    If(Boxed<Expr>, Boxed<Expr>, Boxed<Expr>),
    /// The definition with this number, and its arguments.
    Call(u32, Items<Expr>),
    /// The use of the nametype or datatype that the definition with this number is.
    SetName(u32),
    /// The event of the channel with this number whose fields have these values.
    Event(u32, Items<Expr>),
    /// `{a, b}`
    Display(Items<Expr>),
    /// `{a..b}`
    Range(Boxed<Expr>, Boxed<Expr>),
    /// `{a, b | gens}`
    Comp(Items<Expr>, Items<Gen>),
    /// `{| c.a, d | gens |}`
    Product(Items<EventPart>, Items<Gen>),
    /// `union(a, b)` and its kin.
    SetOp(SetOp, Boxed<Expr>, Boxed<Expr>),
}

impl Drop for Expr {
    #[cycle(expression)]
    fn drop(self) {
        match self {
            Expr::Num(_) => {}
            Expr::Truth(_) => {}
            Expr::Const(_) => {}
            Expr::Bound(_) => {}
            Expr::Lit(_) => {}
            Expr::Neg(_) => {}
            Expr::Not(_) => {}
            Expr::Binary(_, _, _) => {}
            Expr::If(_, _, _) => {}
            Expr::Call(_, _) => {}
            Expr::SetName(_) => {}
            Expr::Event(_, _) => {}
            Expr::Display(_) => {}
            Expr::Range(_, _) => {}
            Expr::Comp(_, _) => {}
            Expr::Product(_, _) => {}
            Expr::SetOp(_, _, _) => {}
        }
    }
}

/// The front of an event: a channel and its first fields.
#[cycle(expression)]
#[derive(PartialEq, Eq, Hash)]
pub struct EventPart {
    /// The number of the channel.
    pub channel: u32,
    /// The fields that are given, from the first one on.
    pub fields: Items<Expr>,
}

impl Drop for EventPart {
    #[cycle(expression)]
    fn drop(self) {
        let EventPart { channel: _, fields } = self;
    }
}

/// A part of a list of generators.
#[cycle(expression)]
#[derive(PartialEq, Eq, Hash)]
pub enum Gen {
    /// The bound name with this number takes each element of the set.
    From(u32, Expr),
    /// The condition holds.
    Cond(Expr),
}

impl Drop for Gen {
    #[cycle(expression)]
    fn drop(self) {
        match self {
            Gen::From(_, _) => {}
            Gen::Cond(_) => {}
        }
    }
}
