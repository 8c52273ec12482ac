//! Sets of atoms of one kind. Contracts see the list of the members, which rises strictly.

ghost use Rattle.std.specs.Prelude.{◌≡◌, ◌↔◌, ◌&&◌, ◌||◌, not, [], false, length, slice_get, IfOk, OnOk, OnErr, IsErrOf, IsTrue};
ghost use Rattle.csp_atoms.specs.Prelude.{same, IsAtomSet, IsRising, IsOneKind, alike, diff_of, event_numbers, fits, has_atom, inter_of, place_of, union_of, with_atom, Atom};
ghost use Rattle.csp_base.specs.declared.stop.Stop.TheVariants as stop;

use crate::atom::Atom;
use crate::error::MixedKinds;
use crate::sorted;
use containers::Items;
use csp_base::{EventSet, Made, SetOp, Stop};
use std::alloc::Global;
use std::marker::Model;

/// A set of atoms of one kind. Contracts see the list of its members, which rises strictly.
#[derive(PartialEq, Eq, Hash)]
pub struct AtomSet {
    atoms: Items<Atom>,
}

impl Drop for AtomSet {
    fn drop(self) {
        let AtomSet { atoms } = self;
    }
}

impl Model for AtomSet {
    ghost use Rattle.std.specs.Prelude.{List};
    ghost use Rattle.csp_atoms.specs.Sets.{IsAtomSet};
    ghost use Rattle.csp_atoms.specs.declared.atom.Atom.{Atom};

    ghost Value = { List Atom };

    ghost view = { λ s. s.atoms };

    ghost invariant = { λ s. IsAtomSet s.atoms };

    ghost inverse = { λ atoms. record { atoms = atoms } };
}

impl AtomSet {
    /// The empty set. It takes no memory yet.
    pub fn new(alloc: Global) -> Self
        ensures { result ≡ [] }
    {
        AtomSet {
            atoms: Items::new(alloc),
        }
    }

    /// The set of the events that the atoms are, `None` where one of them is no event.
    pub fn to_event_set(&self, alloc: Global) -> Made<Option<EventSet>>
        ensures { IfOk result (λ found. found ≡ event_numbers self.now) }
    {
        match sorted::events(alloc, self.atoms.as_slice())? {
            Some(events) => EventSet::from_sorted(alloc, &events).map(Some),
            None => Ok(None),
        }
    }

    /// The atoms, in rising order.
    pub fn as_slice(&self) -> &[Atom]
        ensures members { result.now ≡ self.now }
        ensures rising { IsRising self.now }
        ensures one_kind { IsOneKind self.now }
    {
        self.atoms.as_slice()
    }

    /// How many atoms there are.
    pub fn len(&self) -> usize
        ensures { result ≡ length self.now }
    {
        self.atoms.len()
    }

    /// Whether there are none.
    pub fn is_empty(&self) -> bool
        ensures { IsTrue result ↔ (self.now ≡ []) }
    {
        self.atoms.is_empty()
    }

    /// The atom at a place, counted from 0 in rising order.
    pub fn get(&self, place: usize) -> Option<Atom>
        ensures { result ≡ slice_get self.now place }
    {
        self.atoms.get(place).copied()
    }

    /// Whether the atom is a member.
    pub fn contains(&self, atom: Atom) -> bool
        ensures { result ≡ has_atom self.now atom }
    {
        sorted::contains(self.atoms.as_slice(), &atom)
    }

    /// The place of the atom, counted from 0 in rising order, where it is a member.
    pub fn place_of(&self, atom: Atom) -> Option<usize>
        ensures { result ≡ place_of self.now atom }
    {
        sorted::find(self.atoms.as_slice(), &atom)
    }

    /// Adds an atom, where it isn't there yet. An error changes nothing.
    pub fn insert(&mut self, atom: Atom) -> Result<(), Stop<MixedKinds>>
        ensures ok { OnOk result (self.new ≡ with_atom self.old atom) }
        ensures members { OnOk result ((a : Atom) → has_atom self.new a ≡ (same atom a || has_atom self.old a)) }
        ensures mixed { IsErrOf result (stop.Told (record {})) ↔ (fits self.old atom ≡ false) }
        ensures err { OnErr result (self.new ≡ self.old) }
    {
        if !sorted::can_take(self.atoms.as_slice(), &atom) {
            return Err(Stop::Told(MixedKinds));
        }
        sorted::include(&mut self.atoms, &atom)?;
        Ok(())
    }

    /// The atoms of either set, if they are of one kind.
    pub fn union(&self, alloc: Global, other: &AtomSet) -> Result<AtomSet, Stop<MixedKinds>>
        ensures value { IfOk result (λ made. made ≡ union_of self.now other.now) }
        ensures members { IfOk result (λ made. (a : Atom)
            → has_atom made a ≡ (has_atom self.now a || has_atom other.now a)) }
        ensures set { IfOk result IsAtomSet }
        ensures mixed { IsErrOf result (stop.Told (record {})) ↔ (alike self.now other.now ≡ false) }
    {
        if !sorted::can_join(self.atoms.as_slice(), other.atoms.as_slice()) {
            return Err(Stop::Told(MixedKinds));
        }
        let atoms = sorted::merge(
            alloc,
            SetOp::Union,
            self.atoms.as_slice(),
            other.atoms.as_slice(),
        )?;
        Ok(AtomSet { atoms })
    }

    /// The atoms of both sets.
    pub fn inter(&self, alloc: Global, other: &AtomSet) -> Made<AtomSet>
        ensures value { IfOk result (λ made. made ≡ inter_of self.now other.now) }
        ensures members { IfOk result (λ made. (a : Atom)
            → has_atom made a ≡ (has_atom self.now a && has_atom other.now a)) }
        ensures set { IfOk result IsAtomSet }
    {
        let atoms = sorted::merge(
            alloc,
            SetOp::Inter,
            self.atoms.as_slice(),
            other.atoms.as_slice(),
        )?;
        Ok(AtomSet { atoms })
    }

    /// The atoms of this set that are no members of the other.
    pub fn diff(&self, alloc: Global, other: &AtomSet) -> Made<AtomSet>
        ensures value { IfOk result (λ made. made ≡ diff_of self.now other.now) }
        ensures members { IfOk result (λ made. (a : Atom)
            → has_atom made a ≡ (has_atom self.now a && not (has_atom other.now a))) }
        ensures set { IfOk result IsAtomSet }
    {
        let atoms = sorted::merge(
            alloc,
            SetOp::Diff,
            self.atoms.as_slice(),
            other.atoms.as_slice(),
        )?;
        Ok(AtomSet { atoms })
    }

    /// A second set of the same atoms.
    pub fn try_clone(&self, alloc: Global) -> Made<AtomSet>
        ensures { IfOk result (λ copy. copy ≡ self.now) }
    {
        let atoms = Items::from_slice(alloc, self.atoms.as_slice())?;
        Ok(AtomSet { atoms })
    }
}
