//! Why a text is no script.

use csp_base::Place;

/// The text is no script.
#[derive(Clone, Copy)]
pub struct NoScript {
    /// The place at which it turned out to be none.
    pub at: Place,
}
