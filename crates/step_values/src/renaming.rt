//! The pairs of an old event and a new one that a renaming makes.

ghost use Rattle.std.specs.Prelude.{[], ◌++◌, Ok};
ghost use Rattle.csp_program.specs.Outcome.{and_then};
ghost use Rattle.process_steps.specs.Renaming as meant;
ghost use Rattle.value_operators.specs.Env.{with_bound};
ghost use Rattle.value_operators.specs.Gives.{Gives};
ghost use Rattle.step_values.specs.Walked.{binding_renamed, gathering_of, pairs_renamed, renamed_walk, GivesTally};

use crate::renamed::{add_pair, channels_of};
use containers::Items;
use csp_atoms::Atom;
use csp_base::{Event, Stop};
use csp_program::{EventPart, Gen, Program, ValueKind};
use csp_values::{EvalResult, Walk, binding_under};
use dl_limits::MOST_BINDINGS;
use std::alloc::Global;

// What a renaming is evaluated over.
#[derive(Clone, Copy)]
struct Scope<'a> {
    /// Where memory comes from.
    alloc: Global,
    /// The program.
    program: &'a Program,
    /// The pairs of the renaming.
    pairs: &'a [(EventPart, EventPart)],
}

/// How far a renaming is evaluated.
#[derive(Drop)]
pub(crate) struct Tally {
    /// How many bindings there were.
    pub bindings: u32,
    /// What they renamed.
    pub renamed: Items<(Event, Event)>,
}

// What is renamed, with what the pairs rename under a binding.
fn add_pairs(
    scope: &Scope<'_>,
    bound: &[(u32, Atom)],
    renamed: Items<(Event, Event)>,
) -> EvalResult<Items<(Event, Event)>>
    ensures { Gives result (and_then (pairs_renamed scope.now.program.now
        (with_bound bound.now []) scope.now.pairs.now) (λ more. Ok (renamed ++ more))) }
{
    // Its contract says that the program is in order.
    let _ = channels_of(scope.program);
    let mut renamed = renamed;
    for pair in scope.pairs {
        renamed = add_pair(scope.alloc, scope.program, bound, pair, renamed)?;
    }
    Ok(renamed)
}

// One more binding.
fn gather(scope: &Scope<'_>, bound: &[(u32, Atom)], tally: Tally) -> EvalResult<Tally>
    ensures { GivesTally result (binding_renamed scope.now.program.now scope.now.pairs.now
        (with_bound bound.now []) (gathering_of tally)) }
{
    let Tally { bindings, renamed } = tally;
    if bindings >= MOST_BINDINGS {
        return Err(Stop::Told(ValueKind::SetLimit));
    }
    let renamed = add_pairs(scope, bound, renamed)?;
    Ok(Tally {
        bindings: bindings + 1,
        renamed,
    })
}

// What all bindings of generators rename.
fn gather_all(scope: &Scope<'_>, gens: &[Gen], tally: Tally) -> EvalResult<Tally>
    ensures { GivesTally result (renamed_walk scope.now.program.now scope.now.pairs.now gens.now []
        (gathering_of tally)) }
{
    let mut walk = Walk::new(scope.alloc, &[])?;
    let mut tally = tally;
    'bindings: while binding_under(scope.alloc, scope.program, gens, &mut walk)? {
        tally = gather(scope, walk.bound_names(), tally)?;
    }
    Ok(tally)
}

/// What a renaming makes of events: pairs of an old event and a new one.
///
/// Faults are those of `eval`, of the generators and, under each binding, of the events that the pairs name, from the left. More than 1,048,576
/// bindings have the kind `SetLimit`.
pub fn renaming_in(
    alloc: Global,
    program: &Program,
    pairs: &[(EventPart, EventPart)],
    gens: &[Gen],
) -> EvalResult<Items<(Event, Event)>>
    ensures { Gives result (meant.renaming_in program.now pairs.now gens.now) }
{
    let scope = Scope {
        alloc,
        program,
        pairs,
    };
    let renamed = Items::new(alloc);
    let start = Tally {
        bindings: 0,
        renamed,
    };
    let tally = gather_all(&scope, gens, start)?;
    let Tally {
        bindings: _,
        renamed,
    } = tally;
    Ok(renamed)
}
