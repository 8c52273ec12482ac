//! Sets of names.

ghost use Rattle.std.specs.Prelude.{◌≡◌, [], ◌∷◌, ◌++◌, not, IfOk, OnOk};
ghost use Rattle.name_tables.specs.Firsts.{SameNames};
ghost use Rattle.script_names.specs.Names.{is_among};

use containers::Key;
use csp_base::{Made, Name};
use indexmap::IndexSet;
use std::alloc::Global;
use std::marker::Model;

/// A set of names. A name is found by its hash under a key.
#[derive(Drop)]
pub struct NameSet {
    alloc: Global,
    names: IndexSet<Name, Key>,
}

impl Model for NameSet {
    ghost use Rattle.std.specs.Prelude.{List};
    ghost use Rattle.script_names.specs.Names.{Name};

    ghost Value = { List Name };

    ghost view = { λ s. s.names.keys };
}

impl NameSet {
    /// No name is in it. Names are found under this key.
    pub fn new(alloc: Global, key: Key) -> NameSet
        ensures { result ≡ [] }
    {
        NameSet {
            alloc,
            names: IndexSet::with_hasher(alloc, key),
        }
    }

    /// Puts the name in, and says whether it was there before.
    pub fn add(&mut self, name: &Name) -> Made<bool>
        ensures told { IfOk result (λ before. before ≡ is_among self.old name.now) }
        ensures names { OnOk result (SameNames self.new (self.old ++ name.now ∷ [])) }
    {
        let name = name.try_clone(self.alloc)?;
        let is_new = put_in(&mut self.names, name)?;
        Ok(!is_new)
    }
}

// Puts a name in, and says whether it is new.
fn put_in(names: &mut IndexSet<Name, Key>, name: Name) -> Made<bool>
    ensures told { IfOk result (λ new. new ≡ not (is_among names.old.keys name)) }
    ensures names { OnOk result (SameNames names.new.keys (names.old.keys ++ name ∷ [])) }
{
    let (_, is_new) = names.insert_full(name)?;
    Ok(is_new)
}
