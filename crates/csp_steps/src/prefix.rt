//! The ways to fill the fields of a prefix.

ghost use Rattle.std.specs.Prelude.{ℕ, ◌≡◌, ◌<◌, ◌≤◌, ◌++◌, ◌∷◌, [], true, length, map, OnOk, Some};
ghost use Rattle.csp_atoms.specs.declared.value.Value.TheVariants as value;
ghost use Rattle.csp_program.specs.Prelude.{Env};
ghost use Rattle.csp_program.specs.declared.programs.Content.{Content};
ghost use Rattle.process_steps.specs.Prefix as meant;
ghost use Rattle.term_pool.specs.Prelude.{IsFront, tree_at};
ghost use Rattle.value_operators.specs.Env.{with_bound};
ghost use Rattle.csp_steps.specs.Prelude.{all_within, AreMoves, GivesMoves, AreSets, seen, filled, input_ways, nth_event, number_of, number_with, turned_ways, turned_weight, way_move, ways_by_number, weight, GivesRound, GivesTurned, IsSound, IsTaken, IsUnder};

use crate::fields::{Filling, Next, are_blocked, next_of};
use crate::sets::Sets;
use crate::step::StepTo;
use crate::walk::{
    FieldValue, Frame, Input, Turn, Turned, Walk, add_value, begin, bind, number_of, pop,
};
use containers::Items;
use csp_atoms::{Atom, AtomSet};
use csp_base::{Event, Made};
use csp_program::{Field, Program};
use csp_values::EvalResult;
use process_steps::Label;
use std::alloc::Global;
use step_values::Start;
use substitution::Values;
use term_pool::{Pool, ProcId};

// Whether an input may take the value.
fn is_given(given: &Option<AtomSet>, atom: Atom) -> bool
    ensures { result ≡ meant.is_given given.now atom }
{
    match given {
        Some(atoms) => atoms.contains(atom),
        None => true,
    }
}

// What comes after an input that takes a value; nothing, where it may not take it.
fn turn_after<'a>(input: &Input<'a>, atom: &Atom) -> Option<Turn<'a>>
    ensures ways { (p : Content) → (env : Env) → (n k : ℕ)
        → turned_ways p ((input.now.name, value.One atom.now) ∷ env) (number_with n input.now.set.now k) result
        ≡ input_ways p env n input.now k atom.now }
    ensures less { turned_weight result ≤ weight input.now.sets.now }
{
    if !is_given(&input.given, *atom) {
        return None;
    }
    Some(Turn {
        sets: input.sets,
        fields: input.fields,
    })
}

// Lets an input take the value at a place, where there is one.
fn take<'a>(walk: &mut Walk<'a>, input: Input<'a>, place: usize) -> Made<()>
    requires { IsUnder walk.old input }
    ensures { OnOk result (IsTaken walk.old walk.new input.entry place) }
{
    // Its contract says that the number of the values, and so the place after each of them, is one of this type.
    let count = input.set.len();
    walk.values.truncate(input.before);
    let Some(atom) = input.set.get(place) else {
        walk.turn = None;
        return Ok(());
    };
    let value = FieldValue {
        place: place as u64,
        count: count as u64,
    };
    add_value(&mut walk.values, value)?;
    walk.turn = turn_after(&input, &atom);
    bind(&mut walk.bound, input.name, atom)?;
    let frame = Frame {
        input,
        atom,
        next: place + 1,
    };
    walk.frames.push(frame)?;
    Ok(())
}

// Goes on with the fields on turn: through outputs to their end, which is a way to fill all fields, or to an input.
fn go_on<'a>(
    filling: &Filling<'_>,
    sets: &mut Sets,
    walk: &mut Walk<'a>,
    turn: &Turn<'a>,
) -> EvalResult<Turned>
    requires turn { walk.old.turn ≡ Some turn.now }
    requires sound { IsSound walk.old }
    requires sets { AreSets filling.now.program.now sets.old }
    ensures turned { GivesTurned result filling.now.program.now walk.old walk.new }
    ensures sets { OnOk result (AreSets filling.now.program.now sets.new) }
{
    match next_of(filling, sets, walk.bound.as_slice(), &mut walk.values, turn)? {
        Next::End => {
            walk.turn = None;
            Ok(Turned::Way)
        }
        Next::Input(input) => {
            take(walk, input, 0)?;
            Ok(Turned::On)
        }
    }
}

// One turn of a walk: the fields on turn, or the next value of the last input.
fn advance(filling: &Filling<'_>, sets: &mut Sets, walk: &mut Walk<'_>) -> EvalResult<Turned>
    requires sound { IsSound walk.old }
    requires sets { AreSets filling.now.program.now sets.old }
    ensures sets { OnOk result (AreSets filling.now.program.now sets.new) }
    ensures turned { GivesTurned result filling.now.program.now walk.old walk.new }
{
    if let Some(turn) = walk.turn {
        return go_on(filling, sets, walk, &turn);
    }
    match pop(walk) {
        Some(frame) => {
            let Frame {
                input,
                atom: _atom,
                next,
            } = frame;
            take(walk, input, next)?;
            Ok(Turned::On)
        }
        None => Ok(Turned::End),
    }
}

// The event that has `number` among those of its channel, whose first one has the number `first`. Counting stops at the end of 32 bits.
fn event_at(first: u64, number: u64) -> Event
    ensures { result ≡ nth_event first number }
{
    match u32::try_from(first.saturating_add(number)) {
        Ok(event) => Event(event),
        Err(_) => Event(u32::MAX),
    }
}

// Adds the step of a way to fill fields: its event leads to the process after the prefix with the values of the names that are bound.
fn add_way(
    filling: &Filling<'_>,
    pool: &mut Pool,
    bound: &[(u32, Atom)],
    number: u64,
    steps: &mut Items<StepTo>,
) -> Made<()>
    requires to { filling.now.to.0 < length pool.old }
    requires within { all_within (length pool.old) steps.old ≡ true }
    ensures steps { OnOk result (AreMoves pool.new steps.new (map (seen pool.old) steps.old
        ++ way_move filling.now.start.now.first (tree_at pool.old filling.now.to)
        (with_bound bound.now [], number) ∷ [])) }
    ensures front { IsFront pool.old pool.new }
{
    let values = Values::from_bound(filling.alloc, bound);
    let to = pool.put_all_in(filling.to, &values)?;
    steps.push(StepTo {
        label: Label::Visible(event_at(filling.start.first, number)),
        to,
    })?;
    Ok(())
}

// One turn of a walk, with the step of the way to which it comes: whether the walk was not at its end.
fn turn_on(
    filling: &Filling<'_>,
    pool: &mut Pool,
    sets: &mut Sets,
    walk: &mut Walk<'_>,
    steps: &mut Items<StepTo>,
) -> EvalResult<bool>
    requires sound { IsSound walk.old }
    requires to { filling.now.to.0 < length pool.old }
    requires within { all_within (length pool.old) steps.old ≡ true }
    requires sets { AreSets filling.now.program.now sets.old }
    ensures sets { OnOk result (AreSets filling.now.program.now sets.new) }
    ensures round { GivesRound filling.now.program.now filling.now.start.now.first filling.now.to result
        pool.old pool.new walk.old walk.new steps.old steps.new }
    ensures front { IsFront pool.old pool.new }
{
    match advance(filling, sets, walk)? {
        Turned::Way => {
            let number = number_of(walk.values.as_slice());
            add_way(filling, pool, walk.bound.as_slice(), number, steps)?;
            Ok(true)
        }
        Turned::On => Ok(true),
        Turned::End => Ok(false),
    }
}

/// The steps of a prefix with these fields.
pub(crate) fn prefix_steps(
    filling: &Filling<'_>,
    pool: &mut Pool,
    sets: &mut Sets,
    fields: &[Field],
) -> EvalResult<Items<StepTo>>
    requires within { filling.now.to.0 < length pool.old }
    requires sets { AreSets filling.now.program.now sets.old }
    ensures sets { OnOk result (AreSets filling.now.program.now sets.new) }
    ensures steps { GivesMoves pool.new result (filled [] filling.now.start.now.first (tree_at pool.old filling.now.to)
        (ways_by_number filling.now.program.now filling.now.start.now.sets.now fields.now [] 0)) }
    ensures front { IsFront pool.old pool.new }
{
    let mut steps = Items::new(filling.alloc);
    let sets_of_fields = filling.start.sets;
    if are_blocked(sets_of_fields, fields) {
        return Ok(steps);
    }
    let first = Turn {
        sets: sets_of_fields,
        fields,
    };
    let mut walk = begin(filling.alloc, first);
    'turns: while turn_on(filling, pool, sets, &mut walk, &mut steps)? {}
    Ok(steps)
}
