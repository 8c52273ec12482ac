//! Operators round a process, with what is evaluated for them.

ghost use Rattle.std.specs.Prelude.{◌<◌, length};
ghost use Rattle.csp_program.specs.declared.programs.Content.{Content};
ghost use Rattle.process_steps.specs.Renaming as renaming;
ghost use Rattle.term_pool.specs.Trees.{tree_at};
ghost use Rattle.csp_steps.specs.Evaluated.{GivesImages, GivesOperator};

use csp_base::{EventSet, Stop};
use csp_program::{EventPart, Gen, Program, ValueKind};
use csp_values::EvalResult;
use std::alloc::Global;
use step_values::{Images, events_in, images_by_event, renaming_in};
use term_pool::{Node, Pool, ProcId};

/// An operator round a process.
#[derive(Drop)]
pub(crate) enum Operator {
    /// A hiding of these events.
    Hide(EventSet),
    /// A renaming, by which events become these.
    Rename(Images),
    /// A sequence, with the process at the place as its second part.
    Seq(ProcId),
}

// What events become by a renaming.
fn images_in(
    alloc: Global,
    program: &Program,
    pairs: &[(EventPart, EventPart)],
    gens: &[Gen],
) -> EvalResult<Images>
    ensures { GivesImages result (renaming.renaming_in program.now pairs.now gens.now) }
{
    let renamed = renaming_in(alloc, program, pairs, gens)?;
    let images = images_by_event(alloc, renamed.as_slice())?;
    Ok(images)
}

/// The operator at a place. Faults are those of its set of events, or of its pairs; any other process has the kind `Kind`.
pub(crate) fn operator_at(program: &Program, pool: &Pool, id: ProcId) -> EvalResult<Operator>
    requires { id.0 < length pool.now }
    ensures { GivesOperator program.now pool.now result (tree_at pool.now id) }
{
    let alloc = pool.alloc();
    match pool.node(id) {
        Node::Hide(_, set) => {
            let hidden = events_in(alloc, program, set)?;
            Ok(Operator::Hide(hidden))
        }
        Node::Rename(_, pairs, gens) => {
            let images = images_in(alloc, program, pairs.as_slice(), gens.as_slice())?;
            Ok(Operator::Rename(images))
        }
        Node::Seq(_, second) => Ok(Operator::Seq(second)),
        _ => Err(Stop::Told(ValueKind::Kind)),
    }
}
