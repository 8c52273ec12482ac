//! The first component that breaks a condition.

ghost use Rattle.std.specs.Prelude.{◌≡◌, ◌<◌, ◌≤◌, ℕ, List, IfErr, IfOk, OnOk, length};
ghost use Rattle.csp_base.specs.Prelude.{Tells};
ghost use Rattle.csp_tables.specs.Prelude.{Shape};
ghost use Rattle.design_rules.specs.Prelude.{AllKeep};
ghost use Rattle.resource_conditions.specs.Finding.{FindsRun, IsFirstFault};

use csp_base::{Made, Stop, Trace};
use design_rules::{Condition, RuleFault};
use std::alloc::Global;

/// What decides whether the components of a shape keep a condition after each of their runs.
pub trait Decider {
    /// The shape.
    ghost shape: { Self → Shape };

    /// Whether the component with this number keeps the condition after a run.
    ghost keeps: { Self → ℕ → List ℕ → Type 0 };

    /// A run after which the component does not keep the condition, if there is one.
    fn broken_run(&self, alloc: Global, part: u32) -> Made<Option<Trace>>
        requires { part < length (shape self.now).parts }
        ensures { IfOk result (FindsRun (shape self.now) part (keeps self.now part)) };
}

/// Succeeds where each of so many components keeps the condition, and else tells the first that does not.
pub fn check<D: Decider>(
    alloc: Global,
    count: u32,
    decider: &D,
    condition: Condition,
) -> Result<(), Stop<RuleFault>>
    requires count { count ≡ length (D.shape decider.now).parts }
    requires past { (i : ℕ) (s : List ℕ) → count ≤ i → D.keeps decider.now i s }
    ensures keeps { OnOk result (AllKeep (D.keeps decider.now)) }
    ensures fault { IfErr result (Tells (IsFirstFault (D.shape decider.now) (D.keeps decider.now) condition)) }
{
    for part in 0..count {
        if let Some(trace) = decider.broken_run(alloc, part)? {
            return Err(Stop::Told(RuleFault::Broken {
                condition,
                part,
                trace,
            }));
        }
    }
    Ok(())
}
