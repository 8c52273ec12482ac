//! Where a walk over the bindings of generators stands, with a stack of its own: no number of generators costs stack of the program.

ghost use Rattle.std.specs.Prelude.{◌≡◌, None, IfOk, OnOk};
ghost use Rattle.csp_values.specs.Course.{IsPopped, begun, taken};

use containers::Items;
use csp_atoms::{Atom, AtomSet};
use csp_base::Made;
use std::alloc::Global;

/// A generator under which a walk stands.
#[derive(Drop)]
pub struct Frame {
    /// Its name, with the value that is on turn.
    pub(crate) name: (u32, Atom),
    /// All values that the name takes.
    pub(crate) atoms: AtomSet,
    /// The place of the value that comes after the one on turn.
    pub(crate) next: usize,
    /// The place of the generator that comes after it.
    pub(crate) rest: usize,
}

/// A walk over the bindings of generators, in nested loops.
#[derive(Drop)]
pub struct Walk {
    /// The names that are bound, the last one bound at the end.
    pub(crate) bound: Items<(u32, Atom)>,
    /// The generators that bind the last ones of them.
    pub(crate) frames: Items<Frame>,
    /// The place of the generator that comes next; none where the last frame goes on.
    pub(crate) turn: Option<usize>,
}

impl Walk {
    /// A walk that begins, under names that are bound around the generators.
    pub fn new(alloc: Global, around: &[(u32, Atom)]) -> Made<Walk>
        ensures { IfOk result (λ walk. walk ≡ begun around.now) }
    {
        let bound = Items::from_slice(alloc, around)?;
        Ok(Walk {
            bound,
            frames: Items::new(alloc),
            turn: Some(0),
        })
    }

    /// The names that are bound, the last one bound at the end.
    pub fn bound_names(&self) -> &[(u32, Atom)]
        ensures { result.now ≡ self.now.bound }
    {
        self.bound.as_slice()
    }

    /// Lets a name take the value at a place, where there is one; the generators from `rest` on come next.
    pub(crate) fn take(&mut self, slot: u32, atoms: AtomSet, place: usize, rest: usize) -> Made<()>
        ensures { OnOk result (self.new ≡ taken self.old slot atoms place rest) }
    {
        match atoms.get(place) {
            Some(atom) => {
                let frame = Frame {
                    name: (slot, atom),
                    atoms,
                    next: place + 1,
                    rest,
                };
                self.bound.push(frame.name)?;
                self.frames.push(frame)?;
                self.turn = Some(rest);
            }
            None => self.turn = None,
        }
        Ok(())
    }

    /// The last frame with its name, which are taken away.
    pub(crate) fn pop(&mut self) -> Option<Frame>
        ensures { IsPopped self.old self.new result }
    {
        let frame = self.frames.pop()?;
        self.bound.pop();
        Some(frame)
    }
}

/// What a step of a walk comes to.
#[derive(Clone, Copy)]
pub(crate) enum Step {
    /// The walk goes on.
    On,
    /// A binding.
    Binding,
    /// No binding is left.
    End,
}
