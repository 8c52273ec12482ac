//! The way to a term, over the steps by which terms were found.

ghost use Rattle.std.specs.Prelude.{◌≡◌, ◌+◌, ◌<◌, ◌≤◌, ◌++◌, ℕ, Some, List, length, slice_get, IfOk, OnOk};
ghost use Rattle.csp_program.specs.declared.processes.Proc.{Proc};
ghost use Rattle.local_tables.specs.Prelude.{AreLed, LeadsToTerm, Origin, step_events, Task};

use csp_base::{Event, Made, Trace};
use std::alloc::Global;

// The trace along the way to the term with this number.
pub(crate) fn trace_to(alloc: Global, origins: &[(u32, Option<Event>)], number: u32) -> Made<Trace>
    requires within { number < length origins.now + 1 }
    requires earlier { (k : ℕ) (o : Origin) → slice_get origins.now k ≡ Some o → o.0 ≤ k }
    ensures { (task : Task) (terms : List Proc) → AreLed task terms origins.now
        → IfOk result (λ trace. LeadsToTerm task terms trace number) }
{
    let mut events = Vec::new(alloc);
    let mut at = number as usize;
    while at > 0 {
        let (earlier, event) = origins[at - 1];
        push_event(&mut events, event)?;
        at = earlier as usize;
    }
    events.reverse();
    let trace = Trace::from_slice(alloc, events.as_slice())?;
    Ok(trace)
}

// The event of a step, if it has one, at the end.
fn push_event(events: &mut Vec<Event>, event: Option<Event>) -> Made<()>
    ensures { OnOk result (events.new.items ≡ events.old.items ++ step_events event) }
{
    let Some(event) = event else {
        return Ok(());
    };
    events.push(event)?;
    Ok(())
}
