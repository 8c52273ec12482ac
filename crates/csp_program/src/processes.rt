//! Processes: what a component does.

use crate::expressions::{EventPart, Expr, Gen};
use containers::{Boxed, Items};
use csp_atoms::Value;

/// What the event of a prefix begins with.
#[derive(PartialEq, Eq, Hash)]
pub enum Head {
    /// The channel with this number.
    Channel(u32),
    /// The bound name with this number, without fields; its value must be an event.
    Bound(u32),
    /// The value that was put in for such a name.
    Put(Value),
}

impl Drop for Head {
    fn drop(self) {
        match self {
            Head::Channel(_) => {}
            Head::Bound(_) => {}
            Head::Put(_) => {}
        }
    }
}

/// A field of a prefix.
#[derive(PartialEq, Eq, Hash)]
pub enum Field {
    /// A field that has the value of the expression.
    Put(Expr),
    /// An input: the bound name with this number takes a value of the channel's field that is also in the set, where one is given.
    Get(u32, Option<Expr>),
}

impl Drop for Field {
    fn drop(self) {
        match self {
            Field::Put(_) => {}
            Field::Get(_, _) => {}
        }
    }
}

/// A process. Parts stand in the order of the text.
pub enum Proc {
    /// `STOP`
    Stop,
    /// `c.a?x -> P`
    Prefix(Head, Items<Field>, Boxed<Proc>),
    /// `a & P`
    Guard(Expr, Boxed<Proc>),
    /// `if a then P else Q`
    If(Expr, Boxed<Proc>, Boxed<Proc>),
    /// `P [] Q`
    External(Items<Proc>),
    /// `P |~| Q`
    Internal(Items<Proc>),
    /// `[] x:S @ P`
    EachExternal(u32, Expr, Boxed<Proc>),
    /// `|~| x:S @ P`
    EachInternal(u32, Expr, Boxed<Proc>),
    /// `P \ S`
    Hide(Boxed<Proc>, Expr),
    /// `P[[a <- b | gens]]`
    Rename(Boxed<Proc>, Items<(EventPart, EventPart)>, Items<Gen>),
    /// The definition with this number, and its arguments.
    Call(u32, Items<Expr>),
    /// `SKIP`
    Skip,
    /// `P ; Q`
    Seq(Boxed<Proc>, Boxed<Proc>),
    /// What stands after a tick. No text spells it.
    Ended,
}

impl Drop for Proc {
    fn drop(self) {
        match self {
            Proc::Stop => {}
            Proc::Prefix(_, _, _) => {}
            Proc::Guard(_, _) => {}
            Proc::If(_, _, _) => {}
            Proc::External(_) => {}
            Proc::Internal(_) => {}
            Proc::EachExternal(_, _, _) => {}
            Proc::EachInternal(_, _, _) => {}
            Proc::Hide(_, _) => {}
            Proc::Rename(_, _, _) => {}
            Proc::Call(_, _) => {}
            Proc::Skip => {}
            Proc::Seq(_, _) => {}
            Proc::Ended => {}
        }
    }
}
