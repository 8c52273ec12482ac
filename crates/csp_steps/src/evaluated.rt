//! What was evaluated for the processes of a pool, so that it is evaluated once.

ghost use Rattle.std.specs.Prelude.{◌≡◌, ◌<◌, [], ◌∷◌, ◌++◌, length, List, nat_eq, slice_get, IfOk, IfSome, OnOk, OnErr, Some};
ghost use Rattle.std.specs.HashMap.{get, IsUnchanged, Updates};
ghost use Rattle.csp_program.specs.declared.processes.Proc.{Proc as Process};
ghost use Rattle.csp_program.specs.declared.programs.Content.{Content};
ghost use Rattle.process_steps.specs.StepList.{steps_of};
ghost use Rattle.term_pool.specs.Prelude.{IsFront, tree_at};
ghost use Rattle.csp_steps.specs.Prelude.{AreEach, body_of, AreBodies, Fits, GivesNumber};

use crate::operator::{Operator, operator_at};
use crate::sets::Sets;
use crate::step::StepTo;
use containers::{Items, Key};
use csp_base::{Made, NoMemory, Stop};
use csp_program::{Proc, Program};
use csp_values::EvalResult;
use std::alloc::Global;
use std::collections::HashMap;
use term_pool::{Pool, ProcId};

// So many steps are kept at most, unless there are more at one place.
const MOST_KEPT: usize = 4_194_304;

/// What was evaluated for the processes of a pool: operators, and the places of the bodies of definitions; steps; and sets.
#[derive(Drop)]
pub struct Evaluated {
    /// Operators round processes.
    pub(crate) operators: Items<Operator>,
    /// The number of its operator, for the place of a hiding, a renaming or a sequence.
    pub(crate) places: HashMap<usize, usize>,
    /// The place of its body, for the number of a definition.
    pub(crate) bodies: HashMap<usize, usize>,
    /// The steps of choices, hidings, renamings and sequences.
    pub(crate) lists: Items<Items<StepTo>>,
    /// The number of its steps, for the place of each of them.
    pub(crate) stepped: HashMap<usize, usize>,
    /// How many steps are kept.
    pub(crate) kept: usize,
    /// Sets that expressions are worth.
    pub(crate) sets: Sets,
}

impl Evaluated {
    /// Nothing yet. Expressions are found by their hashes under this key.
    pub fn new(alloc: Global, key: Key) -> Evaluated
        ensures { (p : Content) → (trees : List Process) → Fits p trees result }
    {
        Evaluated {
            operators: Items::new(alloc),
            places: HashMap::new(alloc),
            bodies: HashMap::new(alloc),
            lists: Items::new(alloc),
            stepped: HashMap::new(alloc),
            kept: 0,
            sets: Sets::new(alloc, key.quick()),
        }
    }
}

// The number that is kept for the key.
fn find_number(numbers: &HashMap<usize, usize>, key: usize) -> Option<usize>
    ensures { result ≡ get nat_eq numbers.now key }
{
    numbers.get(&key).copied()
}

/// Keeps a number for the key.
pub(crate) fn keep(numbers: &mut HashMap<usize, usize>, key: usize, number: usize) -> Made<()>
    ensures ok { OnOk result (Updates nat_eq numbers.old numbers.new key (Some number)) }
    ensures err { OnErr result (IsUnchanged numbers.old numbers.new) }
{
    match numbers.insert(key, number) {
        Ok(_) => Ok(()),
        Err(_) => Err(NoMemory),
    }
}

// Keeps a value, and its number for the key.
fn put_value<T: Drop>(
    values: &mut Items<T>,
    numbers: &mut HashMap<usize, usize>,
    key: usize,
    value: T,
) -> Made<usize>
    ensures number { IfOk result (λ number. number ≡ length values.old) }
    ensures values { OnOk result (values.new ≡ values.old ++ value ∷ []) }
    ensures numbers { IfOk result (λ number. Updates nat_eq numbers.old numbers.new key (Some number)) }
{
    let number = values.len();
    values.push(value)?;
    keep(numbers, key, number)?;
    Ok(number)
}

/// The number of the operator at a place, which is evaluated if it isn't yet.
pub(crate) fn operator_number(
    program: &Program,
    pool: &Pool,
    evaluated: &mut Evaluated,
    id: ProcId,
) -> EvalResult<usize>
    requires within { id.0 < length pool.now }
    requires fits { Fits program.now pool.now evaluated.old }
    ensures { GivesNumber program.now pool.now evaluated.new result (tree_at pool.now id) }
{
    if let Some(number) = find_number(&evaluated.places, id.0) {
        return Ok(number);
    }
    let operator = operator_at(program, pool, id)?;
    let Ok(number) = put_value(
        &mut evaluated.operators,
        &mut evaluated.places,
        id.0,
        operator,
    ) else {
        return Err(Stop::NoMemory);
    };
    Ok(number)
}

/// The place of the body of the definition with this number, which is put into the pool if it isn't there yet.
pub(crate) fn body_place(
    pool: &mut Pool,
    bodies: &mut HashMap<usize, usize>,
    number: u32,
    body: &Proc,
) -> Made<ProcId>
    ensures process { (p : Content) → AreBodies p pool.old bodies.old
        → body_of (slice_get p.defs number) ≡ Some body.now
        → IfOk result (λ id. slice_get pool.new id.0 ≡ Some body.now) }
    ensures front { IsFront pool.old pool.new }
    ensures bodies { (p : Content) → AreBodies p pool.old bodies.old
        → body_of (slice_get p.defs number) ≡ Some body.now → OnOk result (AreBodies p pool.new bodies.new) }
{
    if let Some(place) = find_number(bodies, number as usize) {
        return Ok(ProcId(place));
    }
    let id = pool.put(body)?;
    keep(bodies, number as usize, id.0)?;
    Ok(id)
}

/// The steps of the process at a place, where they are kept.
pub(crate) fn find_steps(
    alloc: Global,
    evaluated: &Evaluated,
    id: ProcId,
) -> Made<Option<Items<StepTo>>>
    ensures { (p : Content) → (trees : List Process) → Fits p trees evaluated.now
        → IfOk result (λ found. IfSome found (λ steps. AreEach trees steps (steps_of p (tree_at trees id)))) }
{
    let Some(number) = find_number(&evaluated.stepped, id.0) else {
        return Ok(None);
    };
    let Some(steps) = evaluated.lists.get(number) else {
        return Ok(None);
    };
    let copy = Items::from_slice(alloc, steps.as_slice())?;
    Ok(Some(copy))
}

// Lets the steps go that are kept, where there would be too many with so many more.
fn make_room(alloc: Global, evaluated: &mut Evaluated, more: usize)
    ensures { (p : Content) → (trees : List Process) → Fits p trees evaluated.old → Fits p trees evaluated.new }
{
    let kept = evaluated.kept.saturating_add(more);
    if kept <= MOST_KEPT {
        evaluated.kept = kept;
        return;
    }
    evaluated.lists = Items::new(alloc);
    evaluated.stepped = HashMap::new(alloc);
    evaluated.kept = more;
}

/// Keeps the steps of the process at a place.
pub(crate) fn keep_steps(
    alloc: Global,
    evaluated: &mut Evaluated,
    id: ProcId,
    steps: &[StepTo],
) -> Made<()>
    ensures { (p : Content) → (trees : List Process) → Fits p trees evaluated.old → id.0 < length trees
        → AreEach trees steps.now (steps_of p (tree_at trees id)) → OnOk result (Fits p trees evaluated.new) }
{
    make_room(alloc, evaluated, steps.len());
    let copy = Items::from_slice(alloc, steps)?;
    put_value(&mut evaluated.lists, &mut evaluated.stepped, id.0, copy)?;
    Ok(())
}
