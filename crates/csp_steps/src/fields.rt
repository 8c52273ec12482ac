//! What comes next in the fields of a prefix, under the values of the inputs before.

ghost use Rattle.std.specs.Prelude.{ℕ, ◌≡◌, ◌≤◌, [], length, IfOk, OnOk};
ghost use Rattle.csp_program.specs.Prelude.{and_then, Env};
ghost use Rattle.csp_program.specs.declared.programs.Content.{Content};
ghost use Rattle.process_steps.specs.Prefix as meant;
ghost use Rattle.value_operators.specs.Env.{with_bound};
ghost use Rattle.value_operators.specs.Gives.{Gives};
ghost use Rattle.csp_steps.specs.Prelude.{AreSets, is_blocked, is_plain, next_weight, number_of, turn_ways, value_in, ways_by_number, weight, GivesNext, IsAfter, IsLonger};

use crate::sets::{Sets, copy_set};
use crate::walk::{FieldValue, FieldValues, Input, Turn, add_value};
use csp_atoms::{Atom, AtomSet, Value};
use csp_base::Stop;
use csp_program::{Expr, Field, Program, ValueKind};
use csp_values::{EvalResult, eval_under};
use std::alloc::Global;
use step_values::Start;
use term_pool::ProcId;
use value_operators::numbers::place_in;
use value_operators::operators::to_set;

/// What the fields of a prefix are filled over.
#[derive(Clone, Copy)]
pub(crate) struct Filling<'a> {
    /// Where memory comes from.
    pub alloc: Global,
    /// The program.
    pub program: &'a Program,
    /// The events among which that of the prefix is.
    pub start: &'a Start<'a>,
    /// The place of the process after it.
    pub to: ProcId,
}

/// What comes after the outputs at the front of some fields.
#[derive(Drop)]
pub(crate) enum Next<'a> {
    /// Nothing.
    End,
    /// An input.
    Input(Input<'a>),
}

// Whether the field is an input without a set.
fn is_plain(field: &Field) -> bool
    ensures { result ≡ is_plain field.now }
{
    match field {
        Field::Get(_, None) => true,
        Field::Get(_, Some(_)) => false,
        Field::Put(_) => false,
    }
}

/// Whether the fields begin with inputs without a set, one of which has no value to take: nothing is evaluated before it, so there is no way to fill them.
pub(crate) fn are_blocked(sets: &[AtomSet], fields: &[Field]) -> bool
    ensures { result ≡ is_blocked sets.now fields.now }
{
    let mut sets = sets;
    let mut fields = fields;
    while let Some((set, rest)) = sets.split_first() {
        let Some((field, later)) = fields.split_first() else {
            return false;
        };
        if !is_plain(field) {
            return false;
        }
        if set.is_empty() {
            return true;
        }
        sets = rest;
        fields = later;
    }
    false
}

// The value of an expression under names that are bound.
#[tactic(auto, unfolding(csp_values::specs::Worth::worth))]
fn value_under(filling: &Filling<'_>, bound: &[(u32, Atom)], expr: &Expr) -> EvalResult<Value>
    ensures { Gives result (meant.value_under filling.now.program.now (with_bound bound.now []) expr.now) }
{
    eval_under(filling.alloc, filling.program, bound, expr)
}

// A set of values under names that are bound. Where there are none yet, it is closed.
fn set_under(
    filling: &Filling<'_>,
    kept: &mut Sets,
    bound: &[(u32, Atom)],
    set: &Expr,
) -> EvalResult<AtomSet>
    requires { AreSets filling.now.program.now kept.old }
    ensures set { Gives result (meant.set_under filling.now.program.now (with_bound bound.now []) set.now) }
    ensures kept { OnOk result (AreSets filling.now.program.now kept.new) }
{
    if bound.is_empty() {
        return copy_set(filling.alloc, filling.program, kept, set);
    }
    let value = value_under(filling, bound, set)?;
    to_set(value)
}

// The values that an input may take, where a set is given.
fn values_given(
    filling: &Filling<'_>,
    kept: &mut Sets,
    bound: &[(u32, Atom)],
    set: &Option<Expr>,
) -> EvalResult<Option<AtomSet>>
    requires { AreSets filling.now.program.now kept.old }
    ensures kept { OnOk result (AreSets filling.now.program.now kept.new) }
    ensures given { Gives result (meant.given_under filling.now.program.now (with_bound bound.now []) set.now) }
{
    match set {
        Some(set) => {
            let atoms = set_under(filling, kept, bound, set)?;
            Ok(Some(atoms))
        }
        None => Ok(None),
    }
}

// The value of an output, among those of its field.
fn value_of_output(
    filling: &Filling<'_>,
    bound: &[(u32, Atom)],
    set: &AtomSet,
    output: &Expr,
) -> EvalResult<FieldValue>
    ensures { Gives result (and_then (meant.value_under filling.now.program.now (with_bound bound.now []) output.now)
        (value_in set.now)) }
{
    let value = value_under(filling, bound, output)?;
    let place = place_in(set, &value)?;
    Ok(FieldValue {
        place,
        count: set.len() as u64,
    })
}

// What comes after outputs where no set is left.
fn end_of<'a>(fields: &[Field]) -> EvalResult<Next<'a>>
    ensures next { (p : Content) → (env : Env) → (n : ℕ) → GivesNext p env n result (ways_by_number p [] fields.now env n) }
    ensures before { (n : ℕ) → IfOk result (IsAfter n) }
    ensures less { IfOk result (λ next. next_weight next ≡ 1) }
{
    if fields.is_empty() {
        return Ok(Next::End);
    }
    Err(Stop::Told(ValueKind::OutsideChannel))
}

/// What comes after the outputs at the front of the fields that are on turn. The values of these outputs are added.
pub(crate) fn next_of<'a>(
    filling: &Filling<'_>,
    kept: &mut Sets,
    bound: &[(u32, Atom)],
    values: &mut FieldValues,
    turn: &Turn<'a>,
) -> EvalResult<Next<'a>>
    requires { AreSets filling.now.program.now kept.old }
    ensures kept { OnOk result (AreSets filling.now.program.now kept.new) }
    ensures next { GivesNext filling.now.program.now (with_bound bound.now []) (number_of values.new.items) result
        (turn_ways filling.now.program.now (with_bound bound.now []) (number_of values.old.items) turn.now) }
    ensures longer { OnOk result (IsLonger values.old.items values.new.items) }
    ensures before { IfOk result (IsAfter (length values.new.items)) }
    ensures less { IfOk result (λ next. next_weight next ≤ weight turn.now.sets.now) }
{
    let mut sets = turn.sets;
    let mut fields = turn.fields;
    while let Some((set, rest)) = sets.split_first() {
        let Some((field, later)) = fields.split_first() else {
            return Err(Stop::Told(ValueKind::OutsideChannel));
        };
        match field {
            Field::Put(output) => {
                let value = value_of_output(filling, bound, set, output)?;
                add_value(values, value)?;
                sets = rest;
                fields = later;
            }
            Field::Get(name, given) => {
                let given = values_given(filling, kept, bound, given)?;
                return Ok(Next::Input(Input {
                    name: *name,
                    set,
                    given,
                    sets: rest,
                    fields: later,
                    before: values.len(),
                }));
            }
        }
    }
    end_of(fields)
}
