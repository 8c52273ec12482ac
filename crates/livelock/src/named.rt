//! The set of events that a name stands for.

ghost use Rattle.std.specs.Prelude.{◌≡◌, IfErr, IfOk, Ok, Some};
ghost use Rattle.csp_base.specs.Standard.{find, option_copied};
ghost use Rattle.process_steps.specs.Needed.{events_in as meant_events};
ghost use Rattle.csp_base.specs.Stops.{Tells};
ghost use Rattle.livelock.specs.Bounded.{LacksValue, NamesNoSet};
ghost use Rattle.livelock.specs.Named as meant;
ghost use Rattle.livelock.specs.Stopping.{stop_without_value};

use csp_base::{EventSet, Stop};
use csp_program::{Body, Def, Expr, Program};
use report::{Refusal, Site};
use std::alloc::Global;
use step_values::events_in;
use value_operators::EvalFault;

// The expression of a definition that is data without parameters.
fn datum(def: &Def) -> Option<&Expr>
    ensures { option_copied result ≡ meant.datum def.now }
{
    if !def.params.is_empty() {
        return None;
    }
    match &def.body {
        Body::Datum(expr) => Some(expr),
        _ => None,
    }
}

// Whether a definition is data without parameters, and has the name.
fn is_data_named(def: &Def, name: &[u8]) -> bool
    ensures { result ≡ meant.is_data_named name.now def.now }
{
    def.name.as_slice() == name && datum(def).is_some()
}

// The first such definition.
fn definition_named<'a>(defs: &'a [Def], name: &[u8]) -> Option<&'a Def>
    ensures { option_copied result ≡ find (meant.is_data_named name.now) defs.now }
{
    defs.iter().find(|def| is_data_named(def, name))
}

// Its expression.
fn data_among<'a>(defs: &'a [Def], name: &[u8]) -> Option<&'a Expr>
    ensures { option_copied result ≡ meant.data_among defs.now name.now }
{
    match definition_named(defs, name) {
        Some(def) => datum(def),
        None => None,
    }
}

/// The expression of the first definition of data without parameters that has the name, or that there is none.
pub(crate) fn expression_named<'a>(
    program: &'a Program,
    name: &[u8],
) -> Result<&'a Expr, Stop<Refusal>>
    ensures ok { IfOk result (λ expr. meant.data_named program.now name.now ≡ Some expr.now) }
    ensures told { IfErr result (Tells (NamesNoSet program.now name.now)) }
{
    match data_among(program.content().defs.as_slice(), name) {
        Some(expr) => Ok(expr),
        None => Err(Stop::Told(Refusal::NoSet)),
    }
}

/// The events of the set that an expression is worth, or why it is worth none.
pub(crate) fn hidden_set(
    alloc: Global,
    program: &Program,
    expr: &Expr,
) -> Result<EventSet, Stop<Refusal>>
    ensures ok { IfOk result (λ events. meant_events program.now expr.now ≡ Ok events) }
    ensures told { IfErr result (Tells (LacksValue program.now expr.now)) }
{
    match events_in(alloc, program, expr) {
        Ok(events) => Ok(events),
        Err(fault) => Err(valueless(fault)),
    }
}

// How it is told that the set has no value.
fn valueless(fault: EvalFault) -> Stop<Refusal>
    ensures { result ≡ stop_without_value fault }
{
    match fault {
        Stop::NoMemory => Stop::NoMemory,
        Stop::Told(kind) => Stop::Told(Refusal::Value {
            kind,
            site: Site::HiddenSet,
        }),
    }
}
