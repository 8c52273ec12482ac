//! Why a component has no normal table.

use csp_base::Trace;
use csp_program::ValueKind;

/// Why a component of a network has no normal table within the limits.
pub enum ComponentFault {
    /// A term that it reaches has no steps for want of a value (2).
    Value {
        /// Why there is none.
        kind: ValueKind,
    },
    /// It has more than 16,384 terms (10).
    TermCount,
    /// It has a term of a depth over 800 (10).
    TermDepth,
    /// Its terms and those of the components before it are too large together (10).
    TermTotal,
    /// It and the components before it have too many steps together (11).
    StepCount,
    /// It can do silent steps without an end (12).
    Diverges,
    /// More than 2,048 sets of its terms are reached by traces (13).
    SubsetLimit,
    /// It can end (19).
    Terminates {
        /// Events after which it can.
        trace: Trace,
    },
}

impl Drop for ComponentFault {
    fn drop(self) {
        match self {
            ComponentFault::Value { kind } => {}
            ComponentFault::TermCount => {}
            ComponentFault::TermDepth => {}
            ComponentFault::TermTotal => {}
            ComponentFault::StepCount => {}
            ComponentFault::Diverges => {}
            ComponentFault::SubsetLimit => {}
            ComponentFault::Terminates { trace } => {}
        }
    }
}
