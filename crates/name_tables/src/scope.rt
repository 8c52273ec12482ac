//! Bound names with their numbers.

ghost use Rattle.std.specs.Prelude.{◌≡◌, ◌<◌, ◌≤◌, ◌-◌, true, [], ◌∷◌, ◌++◌, is_some, length, map, take, OnOk};
ghost use Rattle.name_tables.specs.Prelude.{at_name, shown, KeepHidden, HasNumbers, Writes};
ghost use Rattle.script_names.specs.Typed.{number_of};

use crate::numbers::{forget, number_at, rewrite, spelling_of, write};
use csp_base::{Made, Name};
use std::alloc::Global;
use std::collections::BTreeMap;
use std::marker::Model;

/// A bound name, and what it hides.
pub struct Binding {
    name: Name,
    number: u32,
    /// The number of the bound name of the same spelling that it hides.
    hidden: Option<u32>,
}

impl Drop for Binding {
    fn drop(self) {
        let Binding {
            name,
            number,
            hidden,
        } = self;
    }
}

/// The bound names at a place with their numbers, in the order in which they were bound. The last one of a spelling is found
/// by its place in the order of names.
pub struct Scope {
    alloc: Global,
    bindings: Vec<Binding>,
    last: BTreeMap<Vec<u8>, u32>,
}

impl Drop for Scope {
    fn drop(self) {
        let Scope {
            alloc,
            bindings,
            last,
        } = self;
    }
}

impl Model for Scope {
    ghost use Rattle.std.specs.Prelude.{[], map};
    ghost use Rattle.script_names.specs.Typed.{Scope as Bound};
    ghost use Rattle.name_tables.specs.Hidden.{shown, KeepHidden, HasNumbers};

    ghost Value = { Bound };

    ghost view = { λ s. map shown s.bindings.items };

    ghost invariant = { λ s. KeepHidden [] s.bindings.items × HasNumbers s.last (map shown s.bindings.items) };
}

impl Scope {
    /// No name is bound.
    pub fn new(alloc: Global) -> Scope
        ensures { result ≡ [] }
    {
        Scope {
            alloc,
            bindings: Vec::new(alloc),
            last: BTreeMap::new(alloc),
        }
    }

    /// How many names are bound.
    pub fn len(&self) -> usize
        ensures { result ≡ length self.now }
    {
        self.bindings.len()
    }

    /// The number of a bound name: that of the last one of its spelling.
    pub fn find(&self, name: &Name) -> Option<u32>
        ensures { result ≡ number_of self.now name.now }
    {
        number_at(&self.last, name)
    }

    /// Binds one more name.
    pub fn bind(&mut self, name: &Name, number: u32) -> Made<()>
        ensures { OnOk result (self.new ≡ self.old ++ (name.now, number) ∷ []) }
    {
        let spelling = spelling_of(self.alloc, name)?;
        let name = name.try_clone(self.alloc)?;
        bind_in(&mut self.bindings, &mut self.last, name, spelling, number)
    }

    /// Takes out the names that were bound after the first `count`.
    pub fn leave(&mut self, count: usize)
        requires { count ≤ length self.old }
        ensures { self.new ≡ take count self.old }
    {
        leave_in(&mut self.bindings, &mut self.last, count);
    }
}

// Binds one more name.
fn bind_in(
    bindings: &mut Vec<Binding>,
    last: &mut BTreeMap<Vec<u8>, u32>,
    name: Name,
    spelling: Vec<u8>,
    number: u32,
) -> Made<()>
    requires kept { KeepHidden [] bindings.old.items }
    requires numbers { HasNumbers last.old (map shown bindings.old.items) }
    requires same { spelling.items ≡ name }
    ensures ok { OnOk result (map shown bindings.new.items ≡ map shown bindings.old.items ++ (name, number) ∷ []) }
    ensures kept { KeepHidden [] bindings.new.items }
    ensures numbers { HasNumbers last.new (map shown bindings.new.items) }
{
    let hidden = number_at(last, &name);
    let binding = Binding {
        name,
        number,
        hidden,
    };
    bindings.push(binding)?;
    match write(last, spelling, number) {
        Ok(_) => Ok(()),
        Err(error) => {
            bindings.pop();
            Err(error)
        }
    }
}

// Gives a name back the number that was hidden.
fn restore(last: &mut BTreeMap<Vec<u8>, u32>, name: &Name, hidden: Option<u32>)
    requires { is_some (at_name last.old name.now) ≡ true }
    ensures { Writes last.old last.new name.now hidden }
{
    match hidden {
        Some(number) => rewrite(last, name, number),
        None => forget(last, name),
    }
}

// Takes the last name out.
fn unbind_in(bindings: &mut Vec<Binding>, last: &mut BTreeMap<Vec<u8>, u32>)
    requires some { 0 < length bindings.old.items }
    requires kept { KeepHidden [] bindings.old.items }
    requires numbers { HasNumbers last.old (map shown bindings.old.items) }
    ensures items { bindings.new.items ≡ take (length bindings.old.items - 1) bindings.old.items }
    ensures kept { KeepHidden [] bindings.new.items }
    ensures numbers { HasNumbers last.new (map shown bindings.new.items) }
{
    if let Some(binding) = bindings.pop() {
        restore(last, &binding.name, binding.hidden);
    }
}

// Takes out the names that were bound after the first `count`.
fn leave_in(bindings: &mut Vec<Binding>, last: &mut BTreeMap<Vec<u8>, u32>, count: usize)
    requires count { count ≤ length bindings.old.items }
    requires kept { KeepHidden [] bindings.old.items }
    requires numbers { HasNumbers last.old (map shown bindings.old.items) }
    ensures items { map shown bindings.new.items ≡ take count (map shown bindings.old.items) }
    ensures kept { KeepHidden [] bindings.new.items }
    ensures numbers { HasNumbers last.new (map shown bindings.new.items) }
{
    while bindings.len() > count {
        unbind_in(bindings, last);
    }
}
