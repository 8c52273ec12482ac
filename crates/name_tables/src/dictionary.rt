//! Declared names with what their first declarations make them.

ghost use Rattle.std.specs.Prelude.{◌≡◌, false, [], ◌∷◌, ◌++◌, is_some, OnOk};
ghost use Rattle.name_tables.specs.Firsts.{SameFirsts};
ghost use Rattle.script_names.specs.Names.{first_of};

use crate::name_set::NameSet;
use containers::Key;
use csp_base::{Made, Name};
use indexmap::IndexMap;
use script_names::Entity;
use std::alloc::Global;
use std::marker::Model;

// Names with what they are declared as.
type Entities = IndexMap<Name, Entity, Key>;

/// Declared names with what their first declarations make them. A name is found by its hash under a key that the whole script makes, so that no choice of
/// names makes that slow.
#[derive(Drop)]
pub struct Dictionary {
    alloc: Global,
    key: Key,
    entities: Entities,
}

impl Model for Dictionary {
    ghost use Rattle.script_names.specs.Names.{Entities};

    ghost Value = { Entities };

    ghost view = { λ d. d.entities.entries };
}

impl Dictionary {
    /// No name is declared. Names are found under this key.
    pub fn new(alloc: Global, key: Key) -> Dictionary
        ensures { result ≡ [] }
    {
        Dictionary {
            alloc,
            key,
            entities: IndexMap::with_hasher(alloc, key),
        }
    }

    /// A set of no names, which finds them under the same key.
    pub fn new_set(&self) -> NameSet
        ensures { result ≡ [] }
    {
        NameSet::new(self.alloc, self.key)
    }

    /// What the first declaration of the name makes it, if there is one.
    pub fn find(&self, name: &Name) -> Option<Entity>
        ensures { result ≡ first_of self.now name.now }
    {
        find_in(&self.entities, name)
    }

    /// One more declaration. It changes nothing where the name is declared already.
    pub fn declare(&mut self, name: &Name, entity: Entity) -> Made<()>
        ensures { OnOk result (SameFirsts self.new (self.old ++ (name.now, entity) ∷ [])) }
    {
        declare_in(self.alloc, &mut self.entities, name, entity)
    }
}

// What the map has for the name.
fn find_in(entities: &Entities, name: &Name) -> Option<Entity>
    ensures { result ≡ first_of entities.now.entries name.now }
{
    entities.get(name).copied()
}

// One more declaration, which changes nothing where the name is there already.
fn declare_in(alloc: Global, entities: &mut Entities, name: &Name, entity: Entity) -> Made<()>
    ensures { OnOk result (SameFirsts entities.new.entries (entities.old.entries ++ (name.now, entity) ∷ [])) }
{
    if find_in(entities, name).is_some() {
        return Ok(());
    }
    let name = name.try_clone(alloc)?;
    put_new(entities, name, entity)
}

// Puts a name in that is not there.
fn put_new(entities: &mut Entities, name: Name, entity: Entity) -> Made<()>
    requires { is_some (first_of entities.old.entries name) ≡ false }
    ensures { OnOk result (entities.new.entries ≡ entities.old.entries ++ (name, entity) ∷ []) }
{
    entities.insert(name, entity)?;
    Ok(())
}
