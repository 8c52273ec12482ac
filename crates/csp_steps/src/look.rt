//! What the steps of a process come from.

ghost use Rattle.std.specs.Prelude.{◌≡◌, ◌<◌, ◌∷◌, [], true, length, map, List, Ok, IfOk, OnOk};
ghost use Rattle.csp_program.specs.declared.expressions.Expr.{Expr as Expression};
ghost use Rattle.csp_program.specs.declared.processes.Field.{Field as LogicField};
ghost use Rattle.csp_program.specs.declared.processes.Head.{Head as LogicHead};
ghost use Rattle.csp_program.specs.declared.processes.Proc.{Proc as Process};
ghost use Rattle.csp_program.specs.declared.processes.Proc.TheVariants as proc;
ghost use Rattle.csp_program.specs.declared.programs.Content.{Content};
ghost use Rattle.process_steps.specs.Needed as need;
ghost use Rattle.process_steps.specs.Ways as meant;
ghost use Rattle.term_pool.specs.Prelude.{IsFront, all_below, tree_at};
ghost use Rattle.csp_steps.specs.Prelude.{GivesLook, AreSets, Fits};
ghost use Rattle.step_values.specs.Starts.{IsStart};
ghost use Rattle.value_operators.specs.Gives.{Gives};

use crate::around::put_ended;
use crate::choice::{each_put, silent_to};
use crate::entered::enter;
use crate::evaluated::Evaluated;
use crate::fields::Filling;
use crate::prefix::prefix_steps;
use crate::sets::{Sets, atoms_of, set_of};
use crate::step::StepTo;
use containers::Items;
use csp_atoms::{Atom, Value};
use csp_base::{Made, Stop};
use csp_program::copies::copy_fields;
use csp_program::{Expr, Field, Program, ValueKind};
use csp_values::EvalResult;
use process_steps::Label;
use std::alloc::Global;
use step_values::{arguments_in, of_head, truth_in};
use term_pool::{Node, Pool, ProcId};

/// What the steps of a process come from.
#[derive(Drop)]
pub(crate) enum Look {
    /// They are these.
    Steps(Items<StepTo>),
    /// They are those of the process at the place.
    Same(ProcId),
    /// They are those of the choice between the processes at the places.
    Choice(Items<ProcId>),
    /// They are made of those of the process at the place.
    Around(ProcId),
}

// One step.
fn one_step(alloc: Global, label: Label, to: ProcId) -> Made<Items<StepTo>>
    ensures { IfOk result (λ made. made ≡ record { label = label; to = to } ∷ []) }
{
    let mut steps = Items::new(alloc);
    steps.push(StepTo { label, to })?;
    Ok(steps)
}

// A guard.
fn look_guard(alloc: Global, program: &Program, c: &Expr, id: ProcId) -> EvalResult<Look>
    ensures { (trees : List Process) → id.0 < length trees
        → GivesLook program.now trees result (proc.Guard c.now (tree_at trees id)) }
{
    let holds = truth_in(alloc, program, c)?;
    if holds {
        return Ok(Look::Same(id));
    }
    let none = Items::new(alloc);
    Ok(Look::Steps(none))
}

// One of two processes.
fn look_if(
    alloc: Global,
    program: &Program,
    c: &Expr,
    first: ProcId,
    second: ProcId,
) -> EvalResult<Look>
    ensures { (trees : List Process) → first.0 < length trees → second.0 < length trees
        → GivesLook program.now trees result (proc.If c.now (tree_at trees first) (tree_at trees second)) }
{
    let holds = truth_in(alloc, program, c)?;
    if holds {
        return Ok(Look::Same(first));
    }
    Ok(Look::Same(second))
}

// A choice that the process makes by itself.
fn look_internal(alloc: Global, ids: &[ProcId]) -> EvalResult<Look>
    ensures { (trees : List Process) → (p : Content) → all_below (length trees) ids.now ≡ true
        → GivesLook p trees result (proc.Internal (map (tree_at trees) ids.now)) }
{
    let steps = silent_to(alloc, ids)?;
    Ok(Look::Steps(steps))
}

// A process that ends.
fn look_skip(pool: &mut Pool) -> EvalResult<Look>
    ensures look { (p : Content) → GivesLook p pool.new result proc.Skip }
    ensures front { IsFront pool.old pool.new }
{
    let to = put_ended(pool)?;
    let steps = one_step(pool.alloc(), Label::Tick, to)?;
    Ok(Look::Steps(steps))
}

// A prefix, from its fields.
fn look_prefix(
    filling: &Filling<'_>,
    pool: &mut Pool,
    sets: &mut Sets,
    fields: Made<Items<Field>>,
) -> EvalResult<Look>
    requires within { filling.now.to.0 < length pool.old }
    requires sets { AreSets filling.now.program.now sets.old }
    ensures sets { OnOk result (AreSets filling.now.program.now sets.new) }
    ensures look { (head : LogicHead) → (written : List LogicField) → IfOk fields (λ fs. fs ≡ written)
        → (among : meant.Among) → meant.of_head filling.now.program.now head ≡ Ok among
        → IsStart filling.now.program.now filling.now.start.now among
        → GivesLook filling.now.program.now pool.new result
        (proc.Prefix head written (tree_at pool.old filling.now.to)) }
    ensures front { IsFront pool.old pool.new }
{
    let fields = fields?;
    let steps = prefix_steps(filling, pool, sets, fields.as_slice())?;
    Ok(Look::Steps(steps))
}

// A choice between processes.
fn look_external(alloc: Global, ids: &[ProcId]) -> EvalResult<Look>
    ensures { (trees : List Process) → (p : Content) → all_below (length trees) ids.now ≡ true
        → GivesLook p trees result (proc.External (map (tree_at trees) ids.now)) }
{
    let ids = Items::from_slice(alloc, ids)?;
    Ok(Look::Choice(ids))
}

// A choice between what a process is with each value of a set.
fn look_each_external(pool: &mut Pool, name: u32, atoms: &[Atom], id: ProcId) -> EvalResult<Look>
    requires within { id.0 < length pool.old }
    ensures look { (p : Content) → (s : Expression) → need.set_in p s ≡ Ok atoms.now
        → GivesLook p pool.new result (proc.EachExternal name s (tree_at pool.old id)) }
    ensures front { IsFront pool.old pool.new }
{
    let ids = each_put(pool, name, atoms, id)?;
    Ok(Look::Choice(ids))
}

// The same of a choice that the process makes by itself, which isn't there over the empty set.
fn look_each_internal(pool: &mut Pool, name: u32, atoms: &[Atom], id: ProcId) -> EvalResult<Look>
    requires within { id.0 < length pool.old }
    ensures look { (p : Content) → (s : Expression) → need.set_in p s ≡ Ok atoms.now
        → GivesLook p pool.new result (proc.EachInternal name s (tree_at pool.old id)) }
    ensures front { IsFront pool.old pool.new }
{
    if atoms.is_empty() {
        return Err(Stop::Told(ValueKind::EmptyChoice));
    }
    let ids = each_put(pool, name, atoms, id)?;
    let steps = silent_to(pool.alloc(), ids.as_slice())?;
    Ok(Look::Steps(steps))
}

// A call, from what its arguments come to.
fn look_call(
    program: &Program,
    pool: &mut Pool,
    evaluated: &mut Evaluated,
    def: u32,
    values: EvalResult<Items<Value>>,
) -> EvalResult<Look>
    requires fits { Fits program.now pool.old evaluated.old }
    ensures look { (args : List Expression) → Gives values (need.arguments_in program.now args)
        → GivesLook program.now pool.new result (proc.Call def args) }
    ensures front { IsFront pool.old pool.new }
    ensures fits { OnOk result (Fits program.now pool.new evaluated.new) }
{
    let values = values?;
    let to = enter(program, pool, evaluated, def, values.as_slice())?;
    let steps = one_step(pool.alloc(), Label::Silent, to)?;
    Ok(Look::Steps(steps))
}

/// What the steps of the process at a place come from. What they lead to is put into the pool.
pub(crate) fn look_at(
    program: &Program,
    pool: &mut Pool,
    evaluated: &mut Evaluated,
    id: ProcId,
) -> EvalResult<Look>
    requires within { id.0 < length pool.old }
    requires fits { Fits program.now pool.old evaluated.old }
    ensures look { GivesLook program.now pool.new result (tree_at pool.old id) }
    ensures front { IsFront pool.old pool.new }
    ensures fits { OnOk result (Fits program.now pool.new evaluated.new) }
{
    let alloc = pool.alloc();
    match pool.node(id) {
        Node::Stop => {
            let none = Items::new(alloc);
            Ok(Look::Steps(none))
        }
        Node::Ended => {
            let none = Items::new(alloc);
            Ok(Look::Steps(none))
        }
        Node::Skip => look_skip(pool),
        Node::Guard(c, below) => look_guard(alloc, program, c, below),
        Node::If(c, first, second) => look_if(alloc, program, c, first, second),
        Node::Internal(ids) => look_internal(alloc, ids.as_slice()),
        Node::External(ids) => look_external(alloc, ids.as_slice()),
        Node::Hide(below, _) => Ok(Look::Around(below)),
        Node::Rename(below, _, _) => Ok(Look::Around(below)),
        Node::Seq(first, _) => Ok(Look::Around(first)),
        Node::Prefix(head, fields, to) => {
            let start = of_head(program, head)?;
            let fields = copy_fields(alloc, fields.as_slice());
            let filling = Filling {
                alloc,
                program,
                start: &start,
                to,
            };
            look_prefix(&filling, pool, &mut evaluated.sets, fields)
        }
        Node::EachExternal(name, set, below) => {
            let number = set_of(alloc, program, &mut evaluated.sets, set)?;
            let atoms = atoms_of(&evaluated.sets, number);
            look_each_external(pool, name, atoms, below)
        }
        Node::EachInternal(name, set, below) => {
            let number = set_of(alloc, program, &mut evaluated.sets, set)?;
            let atoms = atoms_of(&evaluated.sets, number);
            look_each_internal(pool, name, atoms, below)
        }
        Node::Call(def, args) => {
            let values = arguments_in(alloc, program, args.as_slice());
            look_call(program, pool, evaluated, def, values)
        }
    }
}
