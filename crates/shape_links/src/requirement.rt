//! What is required of a component after each of its runs.

ghost use Rattle.std.specs.Prelude.{◌≡◌, ◌<◌, ℕ, Bool, IfOk};

use csp_base::Made;

/// What is required of a component wherever it stands, by the node and by the state of an observer.
pub trait Requirement {
    /// Of how many nodes it can be told whether they meet it.
    ghost nodes: { Self → ℕ };

    /// Whether the node meets it in this state.
    ghost meets: { Self → ℕ → ℕ → Bool };

    /// Whether the node meets it in this state.
    fn is_met(&self, node: u32, state: u32) -> Made<bool>
        requires { node < nodes self.now }
        ensures { IfOk result (λ met. met ≡ meets self.now node state) };
}
