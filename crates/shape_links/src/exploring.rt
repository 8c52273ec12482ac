//! The exploration of a component with an observer of links, and runs after which it does not meet what is required.

ghost use Rattle.std.specs.Prelude.{◌≡◌, ◌<◌, ◌≤◌, ℕ, true, IfOk, length};
ghost use Rattle.csp_tables.specs.Prelude.{end_of};
ghost use Rattle.observed_runs.specs.Prelude.{AreFound, IsExploration, SeesOnly, observed, pair_at};
ghost use Rattle.shape_links.specs.Component.{IsDecided, IsFirstFailing, table_of};

use crate::component::Component;
use crate::requirement::Requirement;
use csp_base::{Made, Trace};
use observed_runs::{Explored, Observer, explore};
use std::alloc::Global;

impl<'a> Component<'a> {
    /// The pairs of a node and a state to which runs lead, where the observer sees shared events alone.
    pub fn explore<O: Observer>(&self, alloc: Global, observer: &O) -> Made<Explored>
        requires { SeesOnly self.now.shape.now.vocabulary (O.step observer.now) }
        ensures pairs { IfOk result (λ made. IsExploration (table_of self.now) (O.step observer.now) 0 made.pairs) }
        ensures found { IfOk result (λ made. AreFound (table_of self.now) (O.step observer.now) 0 made) }
    {
        explore(alloc, self.part(), self.rows(), observer)
    }

    /// A run after which the component does not meet what is required, in the state that the observer has then; none where it
    /// meets it after each run.
    pub fn failing_run<O: Observer, R: Requirement>(
        &self,
        alloc: Global,
        observer: &O,
        required: &R,
    ) -> Made<Option<Trace>>
        requires only { SeesOnly self.now.shape.now.vocabulary (O.step observer.now) }
        requires nodes { length (table_of self.now) ≤ R.nodes required.now }
        ensures { IfOk result (IsDecided self.now.shape.now self.now.number (λ s.
            R.meets required.now (end_of (table_of self.now) 0 s) (observed (O.step observer.now) 0 s) ≡ true)) }
    {
        let _form = self.shape.shape();
        let explored = self.explore(alloc, observer)?;
        let place = first_failing(explored.pairs(), required)?;
        explored.run_if_any(alloc, place)
    }
}

// The place of the first pair that does not meet what is required.
fn first_failing<R: Requirement>(pairs: &[(u32, u32)], required: &R) -> Made<Option<usize>>
    requires { (k : ℕ) → k < length pairs.now → (pair_at pairs.now k).0 < R.nodes required.now }
    ensures { IfOk result (IsFirstFailing (R.meets required.now) pairs.now) }
{
    for (place, (node, state)) in pairs.iter().enumerate() {
        if !required.is_met(*node, *state)? {
            return Ok(Some(place));
        }
    }
    Ok(None)
}
