//! Sets that closed expressions are worth, each evaluated once.

ghost use Rattle.std.specs.Prelude.{◌≡◌, List, Ok, IfOk, OnOk, slice_get, Some};
ghost use Rattle.csp_atoms.specs.declared.atom.Atom.{Atom as LogicAtom};
ghost use Rattle.csp_program.specs.declared.programs.Content.{Content};
ghost use Rattle.process_steps.specs.Needed as need;
ghost use Rattle.value_operators.specs.Gives.{Gives};
ghost use Rattle.csp_steps.specs.Evaluated.{AreSets, GivesSet, HasSet};

use containers::{Items, Numbering, QuickKey};
use csp_atoms::{Atom, AtomSet};
use csp_base::{Made, NoMemory, Stop};
use csp_program::copies::copy_expr;
use csp_program::{Expr, Program};
use csp_values::EvalResult;
use std::alloc::Global;
use step_values::set_in;

// So many atoms are kept at most, unless there are more in one set. Each set counts as one more.
const MOST_KEPT: usize = 1_048_576;

/// Sets that expressions are worth.
#[derive(Drop)]
pub(crate) struct Sets {
    /// The expressions.
    pub exprs: Numbering<Expr, QuickKey>,
    /// The set that each of them is worth.
    pub atoms: Items<AtomSet>,
    /// How many atoms are kept.
    pub kept: usize,
}

impl Sets {
    /// None yet.
    pub(crate) fn new(alloc: Global, key: QuickKey) -> Sets
        ensures { (p : Content) → AreSets p result }
    {
        Sets {
            exprs: Numbering::under(alloc, key),
            atoms: Items::new(alloc),
            kept: 0,
        }
    }
}

// Lets the sets go that are kept, where there would be too many atoms with a set of so many more.
fn make_room(alloc: Global, program: &Program, sets: &mut Sets, more: usize)
    requires { AreSets program.now sets.old }
    ensures { AreSets program.now sets.new }
{
    let more = more.saturating_add(1);
    let kept = sets.kept.saturating_add(more);
    if kept <= MOST_KEPT {
        sets.kept = kept;
        return;
    }
    *sets = Sets::new(alloc, program.key().quick());
    sets.kept = more;
}

// Keeps the set that an expression is worth: its number.
fn keep_set(alloc: Global, sets: &mut Sets, expr: &Expr, atoms: AtomSet) -> Made<usize>
    ensures { (p : Content) → AreSets p sets.old → need.set_in p expr.now ≡ Ok atoms
        → IfOk result (λ number. HasSet p sets.new number expr.now) }
{
    let copy = copy_expr(alloc, expr)?;
    let (number, is_new) = sets.exprs.insert_full(copy)?;
    if !is_new {
        return Ok(number);
    }
    sets.atoms.push(atoms)?;
    Ok(number)
}

/// The number of the set that a closed expression is worth, which is evaluated if it isn't kept.
pub(crate) fn set_of(
    alloc: Global,
    program: &Program,
    sets: &mut Sets,
    expr: &Expr,
) -> EvalResult<usize>
    requires { AreSets program.now sets.old }
    ensures { GivesSet program.now sets.new result expr.now }
{
    if let Some(number) = sets.exprs.find(expr) {
        return Ok(number);
    }
    let atoms = set_in(alloc, program, expr)?;
    make_room(alloc, program, sets, atoms.len());
    let number = keep_set(alloc, sets, expr, atoms)?;
    Ok(number)
}

/// The set that a closed expression is worth.
pub(crate) fn copy_set(
    alloc: Global,
    program: &Program,
    sets: &mut Sets,
    expr: &Expr,
) -> EvalResult<AtomSet>
    requires { AreSets program.now sets.old }
    ensures set { Gives result (need.set_in program.now expr.now) }
    ensures sets { OnOk result (AreSets program.now sets.new) }
{
    let number = set_of(alloc, program, sets, expr)?;
    let Some(atoms) = sets.atoms.get(number) else {
        return Err(Stop::NoMemory);
    };
    let copy = atoms.try_clone(alloc)?;
    Ok(copy)
}

/// The atoms of the set with a number; none, where no set has it.
pub(crate) fn atoms_of(sets: &Sets, number: usize) -> &[Atom]
    ensures { (atoms : List LogicAtom) → slice_get sets.now.atoms number ≡ Some atoms → result.now ≡ atoms }
{
    match sets.atoms.get(number) {
        Some(atoms) => atoms.as_slice(),
        None => &[],
    }
}
