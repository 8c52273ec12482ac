//! Why a call has no result.

use crate::NoMemory;

/// Why a call has no result.
#[derive(Drop)]
pub enum Stop<F> {
    /// Memory ran out.
    NoMemory,
    /// This is told: a fault, or an answer with which a walk ends.
    Told(F),
}

impl<F> From<NoMemory> for Stop<F> {
    ghost use Rattle.std.specs.Prelude.{◌≡◌};
    ghost use Rattle.csp_base.specs.declared.stop.Stop.TheVariants as stop;

    ghost from_gives = { λ _ s. s ≡ stop.NoMemory };

    fn from(_error: NoMemory) -> Stop<F> {
        Stop::NoMemory
    }
}
