//! Operators round the steps of a process.

ghost use Rattle.std.specs.Prelude.{◌≡◌, ◌<◌, ◌++◌, ◌∷◌, [], if◌then◌else◌, true, List, length, map, slice_get, IfOk, OnOk, Some};
ghost use Rattle.csp_program.specs.Prelude.{joined};
ghost use Rattle.csp_program.specs.declared.programs.Content.{Content};
ghost use Rattle.csp_program.specs.declared.processes.Proc.TheVariants as proc;
ghost use Rattle.term_pool.specs.Prelude.{with_first, IsFront, tree_at};
ghost use Rattle.csp_steps.specs.Prelude.{all_within, AreMoves, GivesMoves, IsMove, effect_as, hides, labels_by, last_by, moves_of, renamed_labels, IsWithin, around, AreNoted, Fits, IsNumbered, seen};
ghost use Rattle.csp_steps.specs.declared.operator.Operator.{Operator as Kept};
ghost use Rattle.step_values.specs.Images.{becomes};

use crate::evaluated::{Evaluated, keep, operator_number};
use crate::operator::Operator;
use crate::step::StepTo;
use containers::Items;
use csp_base::{Event, EventSet, Made};
use csp_program::Program;
use csp_values::EvalResult;
use process_steps::Label;
use std::alloc::Global;
use std::collections::HashMap;
use step_values::{Images, images_of};
use term_pool::{Node, Pool, ProcId};

// An operator with its number, and the place of the process that it makes.
#[derive(Clone, Copy)]
struct Round<'a> {
    operator: &'a Operator,
    number: usize,
    id: ProcId,
}

/// The place of a process that has ended.
pub(crate) fn put_ended(pool: &mut Pool) -> Made<ProcId>
    ensures process { IfOk result (λ made. slice_get pool.new made.0 ≡ Some proc.Ended) }
    ensures front { IsFront pool.old pool.new }
{
    pool.put_node(Node::Ended)
}

// The step of the whole where the process below ends.
fn last_step(pool: &mut Pool, operator: &Operator) -> Made<StepTo>
    requires { IsWithin (length pool.old) operator.now }
    ensures move_ { IfOk result (λ made. IsMove pool.new made (last_by pool.old operator.now)) }
    ensures front { IsFront pool.old pool.new }
{
    if let Operator::Seq(second) = operator {
        return Ok(StepTo {
            label: Label::Silent,
            to: *second,
        });
    }
    let to = put_ended(pool)?;
    Ok(StepTo {
        label: Label::Tick,
        to,
    })
}

// Whether the label is one of the hidden events.
fn is_hidden(hidden: &EventSet, label: &Label) -> bool
    ensures { result ≡ hides hidden.now label.now }
{
    match label {
        Label::Visible(event) => hidden.contains(*event),
        Label::Silent => false,
        Label::Tick => false,
    }
}

// What is seen of a label where events are hidden.
fn label_of(hidden: &EventSet, label: Label) -> Label
    ensures { result ≡ (if hides hidden.now label then Label.Silent else label) }
{
    if is_hidden(hidden, &label) {
        return Label::Silent;
    }
    label
}

// Adds a step by each of the events to a place.
fn add_events(events: &[Event], to: ProcId, steps: &mut Items<StepTo>) -> Made<()>
    ensures { OnOk result (steps.new ≡ steps.old ++ map (λ e. record { label = Label.Visible e; to = to }) events.now) }
{
    for event in events {
        steps.push(StepTo {
            label: Label::Visible(*event),
            to,
        })?;
    }
    Ok(())
}

// Adds a step to a place by each label that a renaming makes of one.
fn add_renamed(alloc: Global, images: &Images, step: StepTo, steps: &mut Items<StepTo>) -> Made<()>
    ensures { OnOk result (steps.new ≡ steps.old ++ map (λ l.
        record { label = l; to = step.to }) (renamed_labels (becomes images.now) step.label)) }
{
    let StepTo { label, to } = step;
    match label {
        Label::Visible(event) => {
            let events = images_of(alloc, images, event)?;
            add_events(events.as_slice(), to, steps)?;
            Ok(())
        }
        Label::Silent => steps.push(StepTo { label, to }),
        Label::Tick => Ok(()),
    }
}

// Adds a step to a place by each label as which an operator lets one be seen.
fn add_seen(alloc: Global, operator: &Operator, step: StepTo, steps: &mut Items<StepTo>) -> Made<()>
    ensures { OnOk result (steps.new ≡ steps.old ++ map (λ l.
        record { label = l; to = step.to }) (labels_by operator.now step.label)) }
{
    let StepTo { label, to } = step;
    match operator {
        Operator::Hide(hidden) => steps.push(StepTo {
            label: label_of(hidden, label),
            to,
        }),
        Operator::Rename(images) => add_renamed(alloc, images, step, steps),
        Operator::Seq(_) => steps.push(StepTo { label, to }),
    }
}

// Adds what is made of a step by which the process below goes on. The process after it has the same operator.
fn add_going(
    pool: &mut Pool,
    places: &mut HashMap<usize, usize>,
    round: &Round<'_>,
    step: StepTo,
    steps: &mut Items<StepTo>,
) -> Made<()>
    requires id { round.now.id.0 < length pool.old }
    requires below { step.to.0 < length pool.old }
    requires within { all_within (length pool.old) steps.old ≡ true }
    ensures steps { OnOk result (AreMoves pool.new steps.new (map (seen pool.old) steps.old
        ++ map (λ l. (l, with_first (tree_at pool.old round.now.id) (tree_at pool.old step.to)))
        (labels_by round.now.operator.now step.label))) }
    ensures front { IsFront pool.old pool.new }
    ensures noted { (p : Content) → (operators : List Kept) → IsNumbered p pool.old operators round.now
        → AreNoted p pool.old operators places.old → OnOk result (AreNoted p pool.new operators places.new) }
{
    let to = pool.put_with_first(round.id, step.to)?;
    keep(places, to.0, round.number)?;
    let made = StepTo {
        label: step.label,
        to,
    };
    add_seen(pool.alloc(), round.operator, made, steps)?;
    Ok(())
}

// Adds what an operator makes of a step of the process below.
fn add_made(
    pool: &mut Pool,
    places: &mut HashMap<usize, usize>,
    round: &Round<'_>,
    step: StepTo,
    steps: &mut Items<StepTo>,
) -> Made<()>
    requires id { round.now.id.0 < length pool.old }
    requires operator { IsWithin (length pool.old) round.now.operator.now }
    requires below { step.to.0 < length pool.old }
    requires within { all_within (length pool.old) steps.old ≡ true }
    ensures steps { OnOk result (AreMoves pool.new steps.new (map (seen pool.old) steps.old
        ++ moves_of (effect_as pool.old round.now.operator.now) (tree_at pool.old round.now.id) step.label
        (tree_at pool.old step.to))) }
    ensures front { IsFront pool.old pool.new }
    ensures noted { (p : Content) → (operators : List Kept) → IsNumbered p pool.old operators round.now
        → AreNoted p pool.old operators places.old → OnOk result (AreNoted p pool.new operators places.new) }
{
    match step.label {
        Label::Tick => {
            let last = last_step(pool, round.operator)?;
            steps.push(last)?;
            Ok(())
        }
        _ => {
            add_going(pool, places, round, step, steps)?;
            Ok(())
        }
    }
}

// What an operator makes of the steps of the process below.
fn made_of(
    pool: &mut Pool,
    places: &mut HashMap<usize, usize>,
    round: &Round<'_>,
    below: &[StepTo],
) -> Made<Items<StepTo>>
    requires id { round.now.id.0 < length pool.old }
    requires operator { IsWithin (length pool.old) round.now.operator.now }
    requires below { all_within (length pool.old) below.now ≡ true }
    ensures steps { IfOk result (λ made. AreMoves pool.new made
        (joined (map (λ m. moves_of (effect_as pool.old round.now.operator.now)
        (tree_at pool.old round.now.id) m.0 m.1) (map (seen pool.old) below.now)))) }
    ensures front { IsFront pool.old pool.new }
    ensures noted { (p : Content) → (operators : List Kept) → IsNumbered p pool.old operators round.now
        → AreNoted p pool.old operators places.old → OnOk result (AreNoted p pool.new operators places.new) }
{
    let mut steps = Items::new(pool.alloc());
    for step in below {
        add_made(pool, places, round, *step, &mut steps)?;
    }
    Ok(steps)
}

/// The steps of the hiding, the renaming or the sequence at a place, from those of the process below.
pub(crate) fn steps_around(
    program: &Program,
    pool: &mut Pool,
    evaluated: &mut Evaluated,
    id: ProcId,
    below: &[StepTo],
) -> EvalResult<Items<StepTo>>
    requires within { id.0 < length pool.old }
    requires below { all_within (length pool.old) below.now ≡ true }
    requires fits { Fits program.now pool.old evaluated.old }
    ensures steps { GivesMoves pool.new result (around program.now (tree_at pool.old id)
        (map (seen pool.old) below.now)) }
    ensures front { IsFront pool.old pool.new }
    ensures fits { OnOk result (Fits program.now pool.new evaluated.new) }
{
    let number = operator_number(program, pool, evaluated, id)?;
    let round = Round {
        operator: &evaluated.operators.as_slice()[number],
        number,
        id,
    };
    let steps = made_of(pool, &mut evaluated.places, &round, below)?;
    Ok(steps)
}
