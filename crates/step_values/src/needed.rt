//! The values that steps need.

ghost use Rattle.process_steps.specs.Needed as meant;
ghost use Rattle.value_operators.specs.Gives.{Gives};

use containers::Items;
use csp_atoms::{AtomSet, Value};
use csp_base::{EventSet, Stop};
use csp_program::{Expr, Program, ValueKind};
use csp_values::{EvalResult, eval, eval_all_under, eval_set};
use std::alloc::Global;
use value_operators::operators::to_truth;

/// Whether a condition is true. Faults are those of `eval`; a value that is no truth value has the kind `Kind`.
pub fn truth_in(alloc: Global, program: &Program, c: &Expr) -> EvalResult<bool>
    ensures { Gives result (meant.truth_in program.now c.now) }
{
    let value = eval(alloc, program, c)?;
    to_truth(&value)
}

/// A set of values. Faults are those of `eval_set`.
pub fn set_in(alloc: Global, program: &Program, s: &Expr) -> EvalResult<AtomSet>
    ensures { Gives result (meant.set_in program.now s.now) }
{
    eval_set(alloc, program, s)
}

/// A set that holds nothing but events. Faults are those of `eval_set`; a set that holds anything else has the kind `Kind`.
pub fn events_in(alloc: Global, program: &Program, s: &Expr) -> EvalResult<EventSet>
    ensures { Gives result (meant.events_in program.now s.now) }
{
    let atoms = set_in(alloc, program, s)?;
    match atoms.to_event_set(alloc)? {
        Some(events) => Ok(events),
        None => Err(Stop::Told(ValueKind::Kind)),
    }
}

/// The values of arguments, from the left. Faults are those of `eval`, of the first argument that has one.
pub fn arguments_in(alloc: Global, program: &Program, args: &[Expr]) -> EvalResult<Items<Value>>
    ensures { Gives result (meant.arguments_in program.now args.now) }
{
    eval_all_under(alloc, program, &[], args)
}
