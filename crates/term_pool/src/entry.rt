//! Nodes as a pool keeps them.

ghost use Rattle.term_pool.specs.ExactEntry.{exact_entry};

use containers::Exact;
use pool_parts::ProcId;

/// A node whose own parts are numbers in the stores of a pool, as are the lists of places of choices.
#[derive(Clone, Copy, PartialEq, Eq, Hash)]
pub(crate) enum Entry {
    /// `STOP`
    Stop,
    /// The number of its head, that of its fields, and the place of the process after them.
    Prefix(usize, usize, ProcId),
    /// The number of the condition, and the place of the process under it.
    Guard(usize, ProcId),
    /// The number of the condition, and the place of either process.
    If(usize, ProcId, ProcId),
    /// The number of the list of the places of its processes.
    External(usize),
    /// The same.
    Internal(usize),
    /// The bound name, the number of its set, and the place of the process.
    EachExternal(u32, usize, ProcId),
    /// The same.
    EachInternal(u32, usize, ProcId),
    /// The place of the process, and the number of the set.
    Hide(ProcId, usize),
    /// The place of the process, the number of its pairs, and that of its generators.
    Rename(ProcId, usize, usize),
    /// The definition, and the number of its arguments.
    Call(u32, usize),
    /// `SKIP`
    Skip,
    /// The places of both processes.
    Seq(ProcId, ProcId),
    /// What stands after a tick.
    Ended,
}

impl Exact for Entry {
    ghost exact = { exact_entry };
}
