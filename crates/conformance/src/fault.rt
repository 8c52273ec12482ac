//! Why a component does not conform to its specification.

use csp_base::Trace;

/// Why a component does not conform to its specification.
#[derive(Drop)]
pub enum ConformFault {
    /// The component does the trace, and its specification does not (43).
    Outside {
        /// The trace. Without its last event both do it.
        trace: Trace,
    },
    /// After the trace the component can come to offer less than its specification has to, though each of its traces is one of the
    /// specification (44).
    Refuses {
        /// The trace.
        trace: Trace,
    },
}
