//! What watches the events of a run.

ghost use Rattle.std.specs.Prelude.{◌≡◌, ℕ};

use csp_base::Event;

/// A small deterministic machine that watches the events of a run: its state is 0 before the first event, and each event leads to the next one.
pub trait Observer {
    /// The state after an event, from the state before it.
    ghost step: { Self → ℕ → ℕ → ℕ };

    /// The state after `event`, from the one before it.
    fn next(&self, state: u32, event: Event) -> u32
        ensures { result ≡ step self.now state event };
}
