//! Processes whose sub-processes are places in a pool.

use containers::Items;
use csp_program::{EventPart, Expr, Field, Gen, Head};
use pool_parts::ProcId;

/// One layer of a process: its expressions, and the place of each of its sub-processes.
#[derive(Clone, Copy)]
pub enum Node<'p> {
    /// `STOP`
    Stop,
    /// `c.a?x -> P`
    Prefix(&'p Head, &'p Items<Field>, ProcId),
    /// `a & P`
    Guard(&'p Expr, ProcId),
    /// `if a then P else Q`
    If(&'p Expr, ProcId, ProcId),
    /// `P [] Q`
    External(&'p Items<ProcId>),
    /// `P |~| Q`
    Internal(&'p Items<ProcId>),
    /// `[] x:S @ P`
    EachExternal(u32, &'p Expr, ProcId),
    /// `|~| x:S @ P`
    EachInternal(u32, &'p Expr, ProcId),
    /// `P \ S`
    Hide(ProcId, &'p Expr),
    /// `P[[a <- b | gens]]`
    Rename(ProcId, &'p Items<(EventPart, EventPart)>, &'p Items<Gen>),
    /// The definition with this number, and its arguments.
    Call(u32, &'p Items<Expr>),
    /// `SKIP`
    Skip,
    /// `P ; Q`
    Seq(ProcId, ProcId),
    /// What stands after a tick. No text spells it.
    Ended,
}
