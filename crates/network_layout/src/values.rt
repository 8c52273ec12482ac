//! The values that the walk of a network needs.

ghost use Rattle.std.specs.Prelude.{◌≡◌, [], ◌∷◌, ◌++◌, IfOk};
ghost use Rattle.csp_atoms.specs.Sets.{event_numbers};
ghost use Rattle.csp_program.specs.Prelude.{Outcome, given_by, proc_with};
ghost use Rattle.process_steps.specs.Prelude.{arguments_under, events_under, needed_events, set_under, truth_under, value_under};
ghost use Rattle.network_layout.specs.Lays.{Needs, names_of};
ghost use Rattle.value_operators.specs.Prelude.{env_in, Gives};

use containers::{Boxed, Items};
use csp_atoms::{Atom, AtomSet, Value};
use csp_base::{EventSet, Made, NoMemory, Stop};
use csp_program::{Expr, Proc, Program, ValueKind};
use csp_values::{eval_all_with, eval_with};
use network_trees::LayoutFault;
use std::alloc::Global;
use substitution::{Values, put_proc};
use value_operators::EvalResult;
use value_operators::names::Names;
use value_operators::operators::{to_set, to_truth};

// What a walk goes by: a program, names with their values, and how deep it may go.
#[derive(Drop)]
pub(crate) struct Scope<'a> {
    /// Where memory comes from.
    pub alloc: Global,
    /// The program.
    pub program: &'a Program,
    /// The parameters of the definition that the walk stands in.
    pub params: &'a [u32],
    /// The values of its arguments.
    pub args: &'a [Value],
    /// The names of the operands around, the last one bound at the end.
    pub bound: &'a [(u32, Atom)],
    /// How many nodes may still be entered, one inside another.
    pub levels: u32,
}

// The names of a scope for the evaluator.
fn names<'a>(scope: &Scope<'a>) -> Names<'a>
    ensures { env_in result ≡ names_of scope.now }
{
    Names {
        params: scope.params,
        args: scope.args,
        placed: &[],
        bound: scope.bound,
    }
}

// What was found, or why the walk ends there.
fn value_or_stop<T>(found: EvalResult<T>) -> Result<T, Stop<LayoutFault>>
    ensures { (outcome : Outcome T) → Gives found outcome → Needs result outcome }
{
    match found {
        Ok(value) => Ok(value),
        Err(Stop::NoMemory) => Err(Stop::NoMemory),
        Err(Stop::Told(kind)) => Err(Stop::Told(LayoutFault::Value { kind })),
    }
}

// The value of an expression.
fn value(scope: &Scope<'_>, expr: &Expr) -> Result<Value, Stop<LayoutFault>>
    ensures { Needs result (value_under scope.now.program.now (names_of scope.now) expr.now) }
{
    value_or_stop(eval_with(scope.alloc, scope.program, &names(scope), expr))
}

// Whether a condition holds.
pub(crate) fn truth(scope: &Scope<'_>, expr: &Expr) -> Result<bool, Stop<LayoutFault>>
    ensures { Needs result (truth_under scope.now.program.now (names_of scope.now) expr.now) }
{
    let value = value(scope, expr)?;
    value_or_stop(to_truth(&value))
}

// The atoms of a set.
pub(crate) fn set(scope: &Scope<'_>, expr: &Expr) -> Result<AtomSet, Stop<LayoutFault>>
    ensures { Needs result (set_under scope.now.program.now (names_of scope.now) expr.now) }
{
    let value = value(scope, expr)?;
    value_or_stop(to_set(value))
}

// The events that a set holds, where it holds nothing else.
pub(crate) fn events_of(alloc: Global, atoms: &AtomSet) -> EvalResult<EventSet>
    ensures { Gives result (needed_events (event_numbers atoms.now)) }
{
    match atoms.to_event_set(alloc)? {
        Some(events) => Ok(events),
        None => Err(Stop::Told(ValueKind::Kind)),
    }
}

// The events of a set.
pub(crate) fn events(scope: &Scope<'_>, expr: &Expr) -> Result<EventSet, Stop<LayoutFault>>
    ensures { Needs result (events_under scope.now.program.now (names_of scope.now) expr.now) }
{
    let atoms = set(scope, expr)?;
    value_or_stop(events_of(scope.alloc, &atoms))
}

// The values of arguments, from the left.
pub(crate) fn arguments(
    scope: &Scope<'_>,
    exprs: &[Expr],
) -> Result<Items<Value>, Stop<LayoutFault>>
    ensures { Needs result (arguments_under scope.now.program.now (names_of scope.now) exprs.now) }
{
    value_or_stop(eval_all_with(scope.alloc, scope.program, &names(scope), exprs))
}

// The names of the operands around, and one more.
pub(crate) fn with_name(scope: &Scope<'_>, name: u32, atom: Atom) -> Made<Items<(u32, Atom)>>
    ensures { IfOk result (λ made. made ≡ scope.now.bound.now ++ (name, atom) ∷ []) }
{
    let mut bound = Items::from_slice(scope.alloc, scope.bound)?;
    bound.push((name, atom))?;
    Ok(bound)
}

// A process with the values in place of its free names.
pub(crate) fn put(scope: &Scope<'_>, process: &Proc) -> Made<Boxed<Proc>>
    ensures { IfOk result (λ made. made ≡ proc_with (given_by (names_of scope.now)) process.now) }
{
    let values = Values::with_bound(scope.alloc, scope.params, scope.args, scope.bound);
    Ok(Boxed::new(scope.alloc, put_proc(process, &values)?)?)
}
