//! The values of bound names.

ghost use Rattle.std.specs.Prelude.{◌≡◌, ◌++◌, Ok, IsTrue};
ghost use Rattle.csp_program.specs.Value.{bound_value, bound_to};
ghost use Rattle.value_operators.specs.Prelude.{ArePlaces, env_in, numbered_from, parameters, Gives};

use crate::EvalResult;
use csp_atoms::{Atom, Value};
use csp_base::Stop;
use csp_program::ValueKind;
use std::alloc::Global;

/// The names that an expression may read.
#[derive(Drop)]
pub struct Names<'a> {
    /// The parameters of the definition that the expression stands in.
    pub params: &'a [u32],
    /// The values of its arguments.
    pub args: &'a [Value],
    /// The values of its arguments in place of these two, where the number of each parameter is its place.
    pub placed: &'a [Value],
    /// The names that generators bind, the last one bound at the end.
    pub bound: &'a [(u32, Atom)],
}

/// The same value. The only fault is want of memory.
pub fn copy_value(alloc: Global, value: &Value) -> EvalResult<Value>
    ensures { Gives result (Ok value.now) }
{
    Ok(value.try_clone(alloc)?)
}

// Whether the number of each parameter is its place.
fn are_places(params: &[u32]) -> bool
    ensures { IsTrue result → ArePlaces params.now }
{
    for (place, param) in params.iter().enumerate() {
        if *param as usize != place {
            return false;
        }
    }
    true
}

// Whether the number of each argument's parameter is its place.
fn are_placed(params: &[u32], args: &[Value]) -> bool
    ensures { IsTrue result → bound_to params.now args.now ≡ numbered_from 0 args.now }
{
    if args.len() != params.len() {
        return false;
    }
    are_places(params)
}

/// The names that the body of a definition may read, with the values of its arguments.
pub fn names_in<'a>(params: &'a [u32], args: &'a [Value]) -> Names<'a>
    ensures { env_in result ≡ bound_to params.now args.now }
{
    if are_placed(params, args) {
        return Names {
            params: &[],
            args: &[],
            placed: args,
            bound: &[],
        };
    }
    Names {
        params,
        args,
        placed: &[],
        bound: &[],
    }
}

// The value of a parameter whose number is its place.
fn at_place(alloc: Global, placed: &[Value], slot: u32) -> EvalResult<Value>
    ensures { Gives result (bound_value (numbered_from 0 placed.now) slot) }
{
    match placed.get(slot as usize) {
        Some(value) => copy_value(alloc, value),
        None => Err(Stop::Told(ValueKind::Kind)),
    }
}

// The value of a parameter.
fn argument(alloc: Global, names: &Names<'_>, slot: u32) -> EvalResult<Value>
    ensures { Gives result (bound_value (parameters names.now) slot) }
{
    let mut params = names.params;
    let mut args = names.args;
    while let Some((param, other_params)) = params.split_first() {
        let Some((arg, other_args)) = args.split_first() else {
            return at_place(alloc, names.placed, slot);
        };
        if *param == slot {
            return copy_value(alloc, arg);
        }
        params = other_params;
        args = other_args;
    }
    at_place(alloc, names.placed, slot)
}

/// The value of the name with the number `slot`, of the one bound last. Where no name has the number, there is a fault of kind `Kind`.
pub fn bound_value(alloc: Global, names: &Names<'_>, slot: u32) -> EvalResult<Value>
    ensures { Gives result (bound_value (env_in names.now) slot) }
{
    let mut rest = names.bound;
    while let Some((last, front)) = rest.split_last() {
        if last.0 == slot {
            return Ok(Value::One(last.1));
        }
        rest = front;
    }
    argument(alloc, names, slot)
}
