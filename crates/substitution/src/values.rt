//! Names with the values that they get.

ghost use Rattle.std.specs.Prelude.{◌≡◌, [], is_some, IfOk, IsTrue, OnOk};
ghost use Rattle.csp_program.specs.Prelude.{with_bound, given_by, without, bound_to};
ghost use Rattle.substitution.specs.Named.{NoneFrom};

use crate::lookup::{end_by, find_bound, find_listed, first_of, first_of_bound};
use containers::Items;
use csp_atoms::Atom;
use csp_base::Made;
use csp_program::Value;
use csp_program::copies::copy_value;
use std::alloc::Global;
use std::marker::Model;

/// Names, and the value that each of them gets. Contracts see them as an environment.
#[derive(Drop)]
pub struct Values<'a> {
    alloc: Global,
    names: &'a [u32],
    values: &'a [Value],
    // names that are bound over the others, the last one bound at the end
    bound: &'a [(u32, Atom)],
    // the first of `names`, and of the names in `bound`, where these count up
    first: Option<u32>,
    first_bound: Option<u32>,
    // names that are bound further in, and get no value there
    hidden: Items<u32>,
}

impl<'a> Model for Values<'a> {
    ghost use Rattle.std.specs.Coded.{codes};
    ghost use Rattle.std.specs.Prelude.{map};
    ghost use Rattle.csp_program.specs.Prelude.{with_bound, Env, bound_to};
    ghost use Rattle.csp_atoms.specs.contracts.value.Value as value;
    ghost use Rattle.substitution.specs.Named.{but_for, CountUp};

    ghost Value = { Env };

    ghost coded = { Prim.hlevel (codes, value.the_row.coded) };

    ghost view = { λ s. but_for s.hidden (with_bound s.bound.now (bound_to s.names.now s.values.now)) };

    ghost invariant = { λ s. CountUp s.first s.names.now × CountUp s.first_bound (map (λ b. b.0) s.bound.now) };
}

impl<'a> Values<'a> {
    /// The values, each for the name at its place.
    pub fn new(alloc: Global, names: &'a [u32], values: &'a [Value]) -> Values<'a>
        ensures { result ≡ bound_to names.now values.now }
    {
        Values::with_bound(alloc, names, values, &[])
    }

    /// The atoms for the names beside them. Of two atoms for one name the last one counts.
    pub fn from_bound(alloc: Global, bound: &'a [(u32, Atom)]) -> Values<'a>
        ensures { result ≡ with_bound bound.now [] }
    {
        Values::with_bound(alloc, &[], &[], bound)
    }

    /// The values, each for the name at its place, and atoms for names that are bound over those.
    pub fn with_bound(
        alloc: Global,
        names: &'a [u32],
        values: &'a [Value],
        bound: &'a [(u32, Atom)],
    ) -> Values<'a>
        ensures { result ≡ with_bound bound.now (bound_to names.now values.now) }
    {
        Values {
            alloc,
            names,
            values,
            bound,
            first: first_of(names),
            first_bound: first_of_bound(bound),
            hidden: Items::new(alloc),
        }
    }

    /// Where memory comes from.
    pub fn alloc(&self) -> Global {
        self.alloc
    }

    /// The same names and values.
    pub fn copy(&self) -> Made<Values<'a>>
        ensures { IfOk result (λ copy. copy ≡ self.now) }
    {
        Ok(Values {
            alloc: self.alloc,
            names: self.names,
            values: self.values,
            bound: self.bound,
            first: self.first,
            first_bound: self.first_bound,
            hidden: Items::from_slice(self.alloc, self.hidden.as_slice())?,
        })
    }

    /// The value of a name, if it gets one.
    pub fn find(&self, name: u32) -> Made<Option<Value>>
        ensures { IfOk result (λ found. found ≡ given_by self.now name) }
    {
        if self.hidden.as_slice().contains(&name) {
            return Ok(None);
        }
        if let Some(atom) = find_bound(self.bound, self.first_bound, name) {
            return Ok(Some(Value::One(atom)));
        }
        match find_listed(self.names, self.values, self.first, name) {
            Some(value) => copy_value(self.alloc, value).map(Some),
            None => Ok(None),
        }
    }

    /// Whether a name gets a value.
    pub fn has(&self, name: u32) -> bool
        ensures { result ≡ is_some (given_by self.now name) }
    {
        if self.hidden.as_slice().contains(&name) {
            return false;
        }
        if find_bound(self.bound, self.first_bound, name).is_some() {
            return true;
        }
        find_listed(self.names, self.values, self.first, name).is_some()
    }

    /// Takes the value of a name away.
    pub fn hide(&mut self, name: u32) -> Made<()>
        ensures { OnOk result (given_by self.new ≡ without name (given_by self.old)) }
    {
        if !self.has(name) {
            return Ok(());
        }
        self.hidden.push(name)?;
        Ok(())
    }

    /// The values without that of a name.
    pub fn without(&self, name: u32) -> Made<Values<'a>>
        ensures { IfOk result (λ left. given_by left ≡ without name (given_by self.now)) }
    {
        let mut left = self.copy()?;
        left.hide(name)?;
        Ok(left)
    }

    /// Whether all names that get a value are known to be below the number.
    pub fn are_below(&self, least: u32) -> bool
        ensures { IsTrue result → NoneFrom least (given_by self.now) }
    {
        end_by(self.first, self.names.len(), least)
            && end_by(self.first_bound, self.bound.len(), least)
    }
}
