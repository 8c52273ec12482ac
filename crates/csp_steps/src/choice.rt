//! Choices between processes at places of a pool.

ghost use Rattle.std.specs.Prelude.{◌≡◌, ◌<◌, true, length, map, slice_get, slice_set, IfOk, Some};
ghost use Rattle.csp_atoms.specs.declared.value.Value.TheVariants as value;
ghost use Rattle.csp_program.specs.Substitution.{one, proc_with};
ghost use Rattle.csp_program.specs.declared.processes.Proc.TheVariants as proc;
ghost use Rattle.process_steps.specs.Step as meant;
ghost use Rattle.process_steps.specs.StepList as lists;
ghost use Rattle.term_pool.specs.Prelude.{IsFront, all_below, tree_at};
ghost use Rattle.csp_steps.specs.Prelude.{all_within, AreAt, AreMoves, IsMove, seen};

use crate::step::StepTo;
use containers::Items;
use csp_atoms::Atom;
use csp_base::Made;
use process_steps::Label;
use std::alloc::Global;
use std::slice::from_ref;
use substitution::Values;
use term_pool::{Node, Pool, ProcId};

// The place of what the process at `id` is with the atom in place of the name.
fn put_atom(pool: &mut Pool, name: u32, atom: Atom, id: ProcId) -> Made<ProcId>
    requires within { id.0 < length pool.old }
    ensures process { IfOk result (λ made. slice_get pool.new made.0
        ≡ Some (proc_with (one name (value.One atom)) (tree_at pool.old id))) }
    ensures front { IsFront pool.old pool.new }
{
    let bound = (name, atom);
    let values = Values::from_bound(pool.alloc(), from_ref(&bound));
    pool.put_all_in(id, &values)
}

/// The places of what the process at `id` is with each of the atoms in place of the name.
pub(crate) fn each_put(
    pool: &mut Pool,
    name: u32,
    atoms: &[Atom],
    id: ProcId,
) -> Made<Items<ProcId>>
    requires within { id.0 < length pool.old }
    ensures places { IfOk result (λ ids. AreAt pool.new ids (meant.each_put name atoms.now (tree_at pool.old id))) }
    ensures front { IsFront pool.old pool.new }
{
    let mut ids = Items::new(pool.alloc());
    for atom in atoms {
        ids.push_made(put_atom(pool, name, *atom, id))?;
    }
    Ok(ids)
}

// The places with another one at an index.
fn with_place(alloc: Global, ids: &[ProcId], index: usize, id: ProcId) -> Made<Items<ProcId>>
    requires within { index < length ids.now }
    ensures { IfOk result (λ made. made ≡ slice_set ids.now index id) }
{
    let mut made = Vec::from_slice(alloc, ids)?;
    made[index] = id;
    Ok(Items::from_vec(made))
}

// The place of the choice in which another process is the operand at an index.
fn with_operand(pool: &mut Pool, ids: &[ProcId], index: usize, id: ProcId) -> Made<ProcId>
    requires operands { all_below (length pool.old) ids.now ≡ true }
    requires index { index < length ids.now }
    requires within { id.0 < length pool.old }
    ensures process { IfOk result (λ made. slice_get pool.new made.0
        ≡ Some (proc.External (slice_set (map (tree_at pool.old) ids.now) index (tree_at pool.old id)))) }
    ensures front { IsFront pool.old pool.new }
{
    let operands = with_place(pool.alloc(), ids, index, id)?;
    pool.put_node(Node::External(&operands))
}

// What a step of an operand makes of the choice.
fn in_choice(pool: &mut Pool, ids: &[ProcId], index: usize, step: StepTo) -> Made<StepTo>
    requires operands { all_below (length pool.old) ids.now ≡ true }
    requires index { index < length ids.now }
    requires within { step.to.0 < length pool.old }
    ensures move_ { IfOk result (λ made. IsMove pool.new made
        (lists.in_choice (map (tree_at pool.old) ids.now) index step.label (tree_at pool.old step.to))) }
    ensures front { IsFront pool.old pool.new }
{
    match step.label {
        Label::Silent => {
            let to = with_operand(pool, ids, index, step.to)?;
            Ok(StepTo {
                label: Label::Silent,
                to,
            })
        }
        Label::Visible(_) => Ok(step),
        Label::Tick => Ok(step),
    }
}

/// What the steps of the operand at an index make of the choice.
pub(crate) fn of_operand(
    pool: &mut Pool,
    ids: &[ProcId],
    index: usize,
    below: &[StepTo],
) -> Made<Items<StepTo>>
    requires operands { all_below (length pool.old) ids.now ≡ true }
    requires index { index < length ids.now }
    requires below { all_within (length pool.old) below.now ≡ true }
    ensures steps { IfOk result (λ made. AreMoves pool.new made
        (map (λ m. lists.in_choice (map (tree_at pool.old) ids.now) index m.0 m.1) (map (seen pool.old) below.now))) }
    ensures front { IsFront pool.old pool.new }
{
    let mut steps = Items::new(pool.alloc());
    for step in below {
        steps.push_made(in_choice(pool, ids, index, *step))?;
    }
    Ok(steps)
}

/// A silent step to each of the places.
pub(crate) fn silent_to(alloc: Global, ids: &[ProcId]) -> Made<Items<StepTo>>
    ensures { IfOk result (λ steps. steps ≡ map (λ id. record { label = Label.Silent; to = id }) ids.now) }
{
    let mut steps = Items::new(alloc);
    for id in ids {
        steps.push(StepTo {
            label: Label::Silent,
            to: *id,
        })?;
    }
    Ok(steps)
}
