//! What a declaration says at its names and forms.

use crate::kinds::{Class, Place, Sense, Use};

/// What is said at a name or a form. Its names are borrowed by the code, and whole in what contracts say.
#[derive(Clone, Copy)]
pub enum Occurrence<N> {
    /// The name is declared; whether it was declared before.
    Declares(N, bool),
    /// The name is bound; whether it is a parameter that repeats.
    Binds(N, bool),
    /// The process is annotated; whether it was before by an annotation of this kind.
    Notes(N, bool),
    /// The name, which stands for this, is used so.
    Uses(N, Sense, Use),
    /// A form of this class.
    Form(Class, Place),
    /// A parallel.
    Parallel(Place),
}
