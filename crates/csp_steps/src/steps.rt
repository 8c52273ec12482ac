//! The steps of a process of a pool.

ghost use Rattle.std.specs.Prelude.{◌≡◌, ◌<◌, true, length, map, IfOk, OnOk};
ghost use Rattle.process_steps.specs.StepList.{steps_of, steps_of_choice};
ghost use Rattle.term_pool.specs.Prelude.{IsFront, all_below, tree_at};
ghost use Rattle.csp_steps.specs.Prelude.{GivesEach, Fits, AreStepsOf, FaultIs};

use crate::around::steps_around;
use crate::choice::of_operand;
use crate::evaluated::{Evaluated, find_steps, keep_steps};
use crate::look::{Look, look_at};
use crate::once::{add_each, drop_repeats, numbered_steps};
use crate::step::StepTo;
use containers::{Items, Numbering};
use csp_program::Program;
use csp_values::EvalResult;
use term_pool::{Pool, ProcId};

// The steps of the process at a place, each once, where it first stands.
#[cycle(steps_at)]
fn steps_at(
    program: &Program,
    pool: &mut Pool,
    evaluated: &mut Evaluated,
    id: ProcId,
) -> EvalResult<Items<StepTo>>
    requires within { id.0 < length pool.old }
    requires fits { Fits program.now pool.old evaluated.old }
    ensures steps { GivesEach pool.new result (steps_of program.now (tree_at pool.old id)) }
    ensures front { IsFront pool.old pool.new }
    ensures fits { OnOk result (Fits program.now pool.new evaluated.new) }
{
    let alloc = pool.alloc();
    if let Some(steps) = find_steps(alloc, evaluated, id)? {
        return Ok(steps);
    }
    let found = look_at(program, pool, evaluated, id)?;
    match found {
        Look::Steps(steps) => {
            // Its contract says that no process stands at two places.
            let _ = pool.len();
            let steps = drop_repeats(alloc, steps)?;
            Ok(steps)
        }
        Look::Same(same) => steps_at(program, pool, evaluated, same),
        Look::Choice(ids) => {
            let steps = steps_of_operands(program, pool, evaluated, ids.as_slice())?;
            keep_steps(alloc, evaluated, id, steps.as_slice())?;
            Ok(steps)
        }
        Look::Around(below) => {
            let below = steps_at(program, pool, evaluated, below)?;
            let steps = steps_around(program, pool, evaluated, id, below.as_slice())?;
            // Its contract says that no process stands at two places.
            let _ = pool.len();
            let steps = drop_repeats(alloc, steps)?;
            keep_steps(alloc, evaluated, id, steps.as_slice())?;
            Ok(steps)
        }
    }
}

// The steps of the choice between the processes at the places, each once, where it first stands.
#[cycle(steps_at)]
fn steps_of_operands(
    program: &Program,
    pool: &mut Pool,
    evaluated: &mut Evaluated,
    ids: &[ProcId],
) -> EvalResult<Items<StepTo>>
    requires within { all_below (length pool.old) ids.now ≡ true }
    requires fits { Fits program.now pool.old evaluated.old }
    ensures steps { GivesEach pool.new result (steps_of_choice program.now (steps_of program.now)
        (map (tree_at pool.old) ids.now)) }
    ensures front { IsFront pool.old pool.new }
    ensures fits { OnOk result (Fits program.now pool.new evaluated.new) }
{
    let mut numbered = Numbering::new(pool.alloc());
    for (index, id) in ids.iter().enumerate() {
        let below = steps_at(program, pool, evaluated, *id)?;
        let made = of_operand(pool, ids, index, below.as_slice())?;
        // Its contract says that no process stands at two places.
        let _ = pool.len();
        add_each(&mut numbered, made.as_slice())?;
    }
    let steps = numbered_steps(pool.alloc(), &numbered)?;
    Ok(steps)
}

/// The steps of the process at a place of the pool, each once, in the order of its list of steps. The processes after them are put into the pool, and what is evaluated of hidings and
/// renamings on the way is kept in `evaluated`, so that no later step evaluates it again. A fault is told only where
/// the process has no list of steps for want of a value, with the kind of the first value that there isn't.
pub fn steps_in(
    program: &Program,
    pool: &mut Pool,
    evaluated: &mut Evaluated,
    id: ProcId,
) -> EvalResult<Items<StepTo>>
    requires within { id.0 < length pool.old }
    requires fits { Fits program.now pool.old evaluated.old }
    ensures steps { IfOk result (λ steps. AreStepsOf program.now pool.new (tree_at pool.old id) steps) }
    ensures front { IsFront pool.old pool.new }
    ensures fits { OnOk result (Fits program.now pool.new evaluated.new) }
    ensures fault { FaultIs result (steps_of program.now (tree_at pool.old id)) }
{
    steps_at(program, pool, evaluated, id)
}
