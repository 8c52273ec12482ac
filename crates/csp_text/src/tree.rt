//! Trees: what an expression or a process of a script looks like, before names have a meaning.

use containers::{Boxed, Items};
use csp_base::{BinOp, Name, SetOp};

/// An expression or a process. Parts stand in the order of the text; parentheses leave no trace.
#[cycle(tree)]
pub enum Tree {
    /// `STOP`
    Stop,
    /// `SKIP`
    Skip,
    /// A number.
    Num(u32),
    /// `true`
    True,
    /// `false`
    False,
    /// A name alone.
    Name(Name),
    /// `f(a, b)`
    Call(Name, Items<Tree>),
    /// `c.a.b`
    Dot(Name, Items<Tree>),
    /// `-a`
    Neg(Boxed<Tree>),
    /// `not a`
    Not(Boxed<Tree>),
    /// An operator between two operands.
    Binary(BinOp, Boxed<Tree>, Boxed<Tree>),
    /// `if a then b else c`
    If(Boxed<Tree>, Boxed<Tree>, Boxed<Tree>),
    /// `{a, b}`
    Display(Items<Tree>),
    /// `{a..b}`
    Range(Boxed<Tree>, Boxed<Tree>),
    /// `{a, b | gens}`
    Comp(Items<Tree>, Items<GenTree>),
    /// `{| c.a, d | gens |}`
    Product(Items<PartTree>, Items<GenTree>),
    /// `union(a, b)` and its kin.
    SetOp(SetOp, Boxed<Tree>, Boxed<Tree>),
    /// `c.a!b?x -> P`
    Prefix(EventTree, Boxed<Tree>),
    /// `a & P`
    Guard(Boxed<Tree>, Boxed<Tree>),
    /// `P [] Q [] R`
    External(Items<Tree>),
    /// `P |~| Q |~| R`
    Internal(Items<Tree>),
    /// `[] x:S @ P`
    EachExternal(Name, Boxed<Tree>, Boxed<Tree>),
    /// `|~| x:S @ P`
    EachInternal(Name, Boxed<Tree>, Boxed<Tree>),
    /// `P [A || B] Q`
    Parallel(Boxed<Tree>, Boxed<Tree>, Boxed<Tree>, Boxed<Tree>),
    /// `|| x:S @ [A] P`
    EachParallel(Name, Boxed<Tree>, Boxed<Tree>, Boxed<Tree>),
    /// `P ; Q`
    Seq(Boxed<Tree>, Boxed<Tree>),
    /// `P \ A`
    Hide(Boxed<Tree>, Boxed<Tree>),
    /// `P[[a <- b, c <- d | gens]]`
    Rename(Boxed<Tree>, Items<(PartTree, PartTree)>, Items<GenTree>),
}

impl Drop for Tree {
    #[cycle(tree)]
    fn drop(self) {
        match self {
            Tree::Stop => {}
            Tree::Skip => {}
            Tree::Num(_) => {}
            Tree::True => {}
            Tree::False => {}
            Tree::Name(_) => {}
            Tree::Call(_, _) => {}
            Tree::Dot(_, _) => {}
            Tree::Neg(_) => {}
            Tree::Not(_) => {}
            Tree::Binary(_, _, _) => {}
            Tree::If(_, _, _) => {}
            Tree::Display(_) => {}
            Tree::Range(_, _) => {}
            Tree::Comp(_, _) => {}
            Tree::Product(_, _) => {}
            Tree::SetOp(_, _, _) => {}
            Tree::Prefix(_, _) => {}
            Tree::Guard(_, _) => {}
            Tree::External(_) => {}
            Tree::Internal(_) => {}
            Tree::EachExternal(_, _, _) => {}
            Tree::EachInternal(_, _, _) => {}
            Tree::Parallel(_, _, _, _) => {}
            Tree::EachParallel(_, _, _, _) => {}
            Tree::Seq(_, _) => {}
            Tree::Hide(_, _) => {}
            Tree::Rename(_, _, _) => {}
        }
    }
}

/// The event of a prefix: a channel and its fields.
#[cycle(tree)]
pub struct EventTree {
    /// The channel.
    pub name: Name,
    /// The fields, in order.
    pub fields: Items<FieldTree>,
}

impl Drop for EventTree {
    #[cycle(tree)]
    fn drop(self) {
        let EventTree { name, fields } = self;
    }
}

/// A field of a prefix.
#[cycle(tree)]
#[derive(Drop)]
pub enum FieldTree {
    /// `.a`
    Dot(Tree),
    /// `!a`
    Output(Tree),
    /// `?x`, or `?x:S` with a set.
    Input(Name, Option<Tree>),
}

/// The front of an event: a channel and some of its fields.
#[cycle(tree)]
pub struct PartTree {
    /// The channel.
    pub name: Name,
    /// The fields that are given, from the first one on.
    pub fields: Items<Tree>,
}

impl Drop for PartTree {
    #[cycle(tree)]
    fn drop(self) {
        let PartTree { name, fields } = self;
    }
}

/// A part of a list of generators.
#[cycle(tree)]
pub enum GenTree {
    /// `x <- S`
    From(Name, Tree),
    /// A condition.
    Cond(Tree),
}

impl Drop for GenTree {
    #[cycle(tree)]
    fn drop(self) {
        match self {
            GenTree::From(_, _) => {}
            GenTree::Cond(_) => {}
        }
    }
}
