//! A set that grows by atoms in any order: most of it in one part, and a few atoms that wait to be merged into that.

ghost use Rattle.std.specs.Prelude.{◌≡◌, ◌≤◌, ◌+◌, true, [], IfOk, IfSome, IsTrue};
ghost use Rattle.dl_limits.specs.declared.TheConstants.{MOST_ELEMENTS};
ghost use Rattle.csp_atoms.specs.Sets.{fits, union_of, with_atom};
ghost use Rattle.csp_program.specs.Atoms.{added, limited};
ghost use Rattle.value_operators.specs.Prelude.{Gives, IsParted};

use crate::EvalResult;
use csp_atoms::atom::order;
use csp_atoms::{Atom, AtomSet};
use csp_base::{Made, NoMemory, Stop};
use csp_program::ValueKind;
use dl_limits::MOST_ELEMENTS;
use std::alloc::Global;
use std::marker::Model;

// So many atoms may wait.
const MOST_WAITING: usize = 256;

/// A set that grows. Contracts see the list of its members, which rises strictly.
#[derive(Drop)]
pub struct GrowingSet {
    settled: AtomSet,
    waiting: AtomSet,
}

impl Model for GrowingSet {
    ghost use Rattle.std.specs.Prelude.{List};
    ghost use Rattle.csp_atoms.specs.Prelude.{union_of};
    ghost use Rattle.csp_atoms.specs.declared.atom.Atom.{Atom};
    ghost use Rattle.value_operators.specs.Parted.{IsParted};

    ghost Value = { List Atom };

    ghost view = { λ s. union_of s.settled s.waiting };

    ghost invariant = { λ s. IsParted s.settled s.waiting };
}

// Whether the set can take the atom.
fn can_take(atoms: &AtomSet, one: &Atom) -> bool
    ensures { result ≡ fits atoms.now one.now }
{
    match atoms.as_slice().first() {
        None => true,
        Some(first) => first.is_of_kind(one),
    }
}

// Whether an atom is put at little cost: the set is small, or the atom comes after all of it.
fn goes_last(atoms: &AtomSet, one: &Atom) -> bool {
    match atoms.as_slice().last() {
        None => true,
        Some(last) => atoms.len() < MOST_WAITING || order(last, one).is_lt(),
    }
}

// The set with an atom of its kind.
fn with_one(atoms: AtomSet, one: Atom) -> Made<AtomSet>
    requires { fits atoms one ≡ true }
    ensures { IfOk result (λ more. more ≡ with_atom atoms one) }
{
    let mut atoms = atoms;
    match atoms.insert(one) {
        Ok(()) => Ok(atoms),
        Err(_) => Err(NoMemory),
    }
}

// Whether parts of these lengths may stay as they are.
fn are_few(settled: usize, waiting: usize) -> bool
    ensures { IsTrue result → settled + waiting ≤ MOST_ELEMENTS }
{
    waiting < MOST_WAITING && settled <= MOST_ELEMENTS - waiting
}

// The members of both parts.
fn merge(alloc: Global, settled: &AtomSet, waiting: &AtomSet) -> Made<AtomSet>
    ensures { IfOk result (λ all. all ≡ union_of settled.now waiting.now) }
{
    match settled.union(alloc, waiting) {
        Ok(atoms) => Ok(atoms),
        Err(_) => Err(NoMemory),
    }
}

// The set with an atom that both parts take, in the part where it costs least.
fn put(settled: AtomSet, waiting: AtomSet, one: Atom) -> Made<GrowingSet>
    requires parted { IsParted settled waiting }
    requires settled_takes { fits settled one ≡ true }
    requires waiting_takes { fits waiting one ≡ true }
    ensures { IfOk result (λ more. more ≡ with_atom (union_of settled waiting) one) }
{
    if goes_last(&settled, &one) {
        let settled = with_one(settled, one)?;
        return Ok(GrowingSet { settled, waiting });
    }
    if settled.contains(one) {
        return Ok(GrowingSet { settled, waiting });
    }
    let waiting = with_one(waiting, one)?;
    Ok(GrowingSet { settled, waiting })
}

// The set in one part, unless it has too many elements.
fn settle_parts(alloc: Global, settled: &AtomSet, waiting: &AtomSet) -> EvalResult<GrowingSet>
    requires { IsParted settled.now waiting.now }
    ensures { Gives result (limited (union_of settled.now waiting.now)) }
{
    let settled = merge(alloc, settled, waiting)?;
    if settled.len() > MOST_ELEMENTS {
        return Err(Stop::Told(ValueKind::SetLimit));
    }
    Ok(GrowingSet {
        settled,
        waiting: AtomSet::new(alloc),
    })
}

impl GrowingSet {
    /// The empty set.
    pub fn new(alloc: Global) -> GrowingSet
        ensures { result ≡ [] }
    {
        GrowingSet {
            settled: AtomSet::new(alloc),
            waiting: AtomSet::new(alloc),
        }
    }

    // The set, unless it has too many elements.
    fn limit(self, alloc: Global) -> EvalResult<GrowingSet>
        ensures { Gives result (limited self) }
    {
        if are_few(self.settled.len(), self.waiting.len()) {
            return Ok(self);
        }
        settle_parts(alloc, &self.settled, &self.waiting)
    }

    /// The set with one more atom. An atom of another kind has the fault `Kind`; more than 16,384 elements have the fault `SetLimit`.
    pub fn with(self, alloc: Global, one: Atom) -> EvalResult<GrowingSet>
        ensures { Gives result (added self one) }
    {
        let GrowingSet { settled, waiting } = self;
        if !can_take(&settled, &one) {
            return Err(Stop::Told(ValueKind::Kind));
        }
        if !can_take(&waiting, &one) {
            return Err(Stop::Told(ValueKind::Kind));
        }
        put(settled, waiting, one)?.limit(alloc)
    }

    /// The set, where it is in one part.
    pub fn in_one_part(&self) -> Option<&AtomSet>
        ensures { IfSome result (λ atoms. atoms.now ≡ self.now) }
    {
        if self.waiting.is_empty() {
            return Some(&self.settled);
        }
        None
    }

    /// The set in one part.
    pub fn settle(self, alloc: Global) -> Made<GrowingSet>
        ensures { IfOk result (λ atoms. atoms ≡ self) }
    {
        if self.waiting.is_empty() {
            return Ok(self);
        }
        let settled = merge(alloc, &self.settled, &self.waiting)?;
        Ok(GrowingSet {
            settled,
            waiting: AtomSet::new(alloc),
        })
    }

    /// The set.
    pub fn into_set(self, alloc: Global) -> Made<AtomSet>
        ensures { IfOk result (λ atoms. atoms ≡ self) }
    {
        let GrowingSet { settled, waiting } = self;
        if waiting.is_empty() {
            return Ok(settled);
        }
        merge(alloc, &settled, &waiting)
    }
}
