//! Why a script has no program.

use csp_base::Name;
use csp_program::ValueKind;

/// Why a script has no program. Declarations are numbered from 0 in the order of the text.
pub enum ResolveFault {
    /// No deadlock assertion is in the script.
    NoAssert,
    /// A name is neither bound nor declared.
    Unknown {
        /// The declaration.
        inside: u32,
        /// The name.
        name: Name,
    },
    /// A name is declared, bound or annotated that may not be again.
    Twice {
        /// The declaration.
        inside: u32,
        /// The name.
        name: Name,
    },
    /// What stands at a place is not what the place needs.
    WrongKind {
        /// The declaration.
        inside: u32,
    },
    /// A name has the wrong number of arguments, fields or parameters.
    WrongCount {
        /// The declaration.
        inside: u32,
        /// The name.
        name: Name,
    },
    /// A parallel or the use of a network definition stands inside a component.
    ParallelInside {
        /// The declaration.
        inside: u32,
    },
    /// There are more than 16,384 events.
    EventLimit {
        /// Their number, or the greatest of its type where there are more.
        count: u64,
    },
    /// A definition of data is more than 800 deep with all of its uses expanded, or without an end.
    DataDepth {
        /// The declaration.
        inside: u32,
    },
    /// The type of a channel's field has no value that fits.
    Value {
        /// The declaration.
        inside: u32,
        /// Why.
        kind: ValueKind,
    },
}

impl Drop for ResolveFault {
    fn drop(self) {
        match self {
            ResolveFault::NoAssert => {}
            ResolveFault::Unknown { inside, name } => {}
            ResolveFault::Twice { inside, name } => {}
            ResolveFault::WrongKind { inside } => {}
            ResolveFault::WrongCount { inside, name } => {}
            ResolveFault::ParallelInside { inside } => {}
            ResolveFault::EventLimit { count } => {}
            ResolveFault::DataDepth { inside } => {}
            ResolveFault::Value { inside, kind } => {}
        }
    }
}
