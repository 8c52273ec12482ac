//! What is known of the declarations that were passed.

ghost use Rattle.std.specs.Prelude.{◌≡◌, ◌+◌, ◌<◌};
ghost use Rattle.name_faults.specs.Prelude.{MOST_BYTES, nothing_known, defines};

use csp_text::Decl;
use name_tables::{Dictionary, NameSet};

/// What is known of the declarations that were passed.
#[derive(Drop)]
pub(crate) struct Known {
    /// How many there are.
    pub(crate) declarations: u32,
    /// How many definitions, nametypes and datatypes there are.
    pub(crate) definitions: u32,
    /// The names that they declare.
    pub(crate) declared: NameSet,
    /// The processes that they annotate with roles.
    pub(crate) roles: NameSet,
    /// The processes that they annotate with a resource.
    pub(crate) uses: NameSet,
}

impl Known {
    /// No declaration was passed. Names are found as those of the script are.
    pub(crate) fn new(names: &Dictionary) -> Known
        ensures { result ≡ nothing_known }
    {
        Known {
            declarations: 0,
            definitions: 0,
            declared: names.new_set(),
            roles: names.new_set(),
            uses: names.new_set(),
        }
    }

    /// Counts a declaration.
    pub(crate) fn count(&mut self, decl: &Decl)
        requires declarations { self.old.declarations < MOST_BYTES }
        requires definitions { self.old.definitions < MOST_BYTES }
        ensures { self.new ≡ record self.old {
          declarations = self.old.declarations + 1;
          definitions = self.old.definitions + defines decl.now;
        } }
    {
        self.declarations += 1;
        match decl {
            Decl::Define(_, _, _) | Decl::Nametype(_, _) | Decl::Datatype(_, _) => {
                self.definitions += 1;
            }
            Decl::Channel(_, _) | Decl::Assert(_) | Decl::Roles(_) | Decl::Resource(_) => {}
        }
    }
}
