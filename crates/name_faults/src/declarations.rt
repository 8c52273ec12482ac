//! What declarations say.

ghost use Rattle.std.specs.Prelude.{◌≡◌, ◌+◌, ◌≤◌, ◌∷◌, ◌++◌};
ghost use Rattle.name_faults.specs.Prelude.{[], map, OnOk, IfOk, greatest, tree_depth, MOST_TREE_DEPTH, declaration_depth, first_of, is_among, sense_in, tree_says, data_place, declared_after, parameters_after, types_say, with_roles, with_uses, Notes, SameNames, names_in, resource_said, roles_said, says_after, after};
ghost use Rattle.script_names.specs.declared.kinds.Use.TheVariants as how;
ghost use Rattle.name_faults.specs.Walked as walked;

use crate::known::Known;
use crate::places;
use crate::walk::Walk;
use csp_base::{Made, Name};
use csp_text::{Decl, ResourceNames, RolesNames, Tree};
use name_tables::NameSet;
use script_names::{Kind, Place, Sense, Use};

impl<'a> Walk<'a> {
    /// Says what a declaration says that comes after those that are known.
    pub(crate) fn declaration(
        &mut self,
        kinds: &[Kind],
        known: &mut Known,
        decl: &'a Decl,
    ) -> Made<()>
        requires depth { declaration_depth decl.now ≤ MOST_TREE_DEPTH }
        requires bound { self.old.bound ≡ [] }
        ensures said { OnOk result
            (self.new ≡ after self.old (says_after (first_of self.old.names) kinds.now known.old decl.now)) }
        ensures declared { OnOk result (SameNames known.new.declared (known.old.declared ++ names_in decl.now)) }
        ensures roles { OnOk result (SameNames known.new.roles (known.old.roles ++ with_roles decl.now)) }
        ensures uses { OnOk result (SameNames known.new.uses (known.old.uses ++ with_uses decl.now)) }
        ensures declarations { OnOk result (known.new.declarations ≡ known.old.declarations) }
        ensures definitions { OnOk result (known.new.definitions ≡ known.old.definitions) }
    {
        match decl {
            Decl::Channel(xs, types) => {
                self.channels(&mut known.declared, xs.as_slice(), types.as_slice())
            }
            Decl::Datatype(x, ks) => self.datatype(&mut known.declared, x, ks.as_slice()),
            Decl::Nametype(x, tree) => self.nametype(&mut known.declared, x, tree),
            Decl::Define(x, params, tree) => {
                let place = places::body_place(kinds, known.definitions as usize);
                self.definition(&mut known.declared, place, x, params.as_slice(), tree)
            }
            Decl::Assert(tree) => self.body(&[], tree, places::root_place()),
            Decl::Roles(roles) => self.roles(&mut known.roles, roles),
            Decl::Resource(resource) => self.resource(&mut known.uses, resource),
        }
    }

    // Says the names and the types of channels.
    #[tactic(auto, using(crate::proofs::Lists::left_lists))]
    fn channels(&mut self, declared: &mut NameSet, xs: &'a [Name], types: &'a [Tree]) -> Made<()>
        requires depth { greatest (map tree_depth types.now) ≤ MOST_TREE_DEPTH }
        requires bound { self.old.bound ≡ [] }
        ensures said { OnOk result
            (self.new ≡ after self.old (declared_after declared.old xs.now
            ++ types_say (first_of self.old.names) types.now)) }
        ensures declared { OnOk result (SameNames declared.new (declared.old ++ xs.now)) }
    {
        self.declare_all(declared, xs)?;
        self.types(types)?;
        Ok(())
    }

    // Says the names of a datatype and of its constants.
    fn datatype(&mut self, declared: &mut NameSet, x: &'a Name, ks: &'a [Name]) -> Made<()>
        ensures said { OnOk result (self.new ≡ after self.old (declared_after declared.old (x.now ∷ ks.now))) }
        ensures declared { OnOk result (SameNames declared.new (declared.old ++ x.now ∷ ks.now)) }
    {
        self.declare(declared, x)?;
        self.declare_all(declared, ks)?;
        Ok(())
    }

    // Says the name and the set of a nametype.
    #[tactic(auto, using(crate::proofs::Lists::left_lists))]
    fn nametype(&mut self, declared: &mut NameSet, x: &'a Name, tree: &'a Tree) -> Made<()>
        requires depth { tree_depth tree.now ≤ MOST_TREE_DEPTH }
        requires bound { self.old.bound ≡ [] }
        ensures said { OnOk result (self.new ≡ after self.old (declared_after declared.old (x.now ∷ [])
            ++ tree_says (first_of self.old.names) tree.now data_place [])) }
        ensures declared { OnOk result (SameNames declared.new (declared.old ++ x.now ∷ [])) }
    {
        self.declare(declared, x)?;
        self.body(&[], tree, places::data_place())?;
        Ok(())
    }

    // Says the name, the parameters and the body of a definition.
    #[tactic(auto, using(crate::proofs::Lists::left_lists))]
    fn definition(
        &mut self,
        declared: &mut NameSet,
        place: Place,
        x: &'a Name,
        params: &'a [Name],
        tree: &'a Tree,
    ) -> Made<()>
        requires depth { place.level + tree_depth tree.now ≤ MOST_TREE_DEPTH + 1 }
        requires bound { self.old.bound ≡ [] }
        ensures said { OnOk result (self.new ≡ after self.old (declared_after declared.old (x.now ∷ [])
            ++ (parameters_after [] params.now ++ tree_says (first_of self.old.names) tree.now place params.now))) }
        ensures declared { OnOk result (SameNames declared.new (declared.old ++ x.now ∷ [])) }
    {
        self.declare(declared, x)?;
        self.parameters(params)?;
        self.body(params, tree, place)?;
        Ok(())
    }

    // Says an annotation of roles.
    #[tactic(auto, using(crate::proofs::Lists::left_lists))]
    fn roles(&mut self, annotated: &mut NameSet, roles: &'a RolesNames) -> Made<()>
        requires { self.old.bound ≡ [] }
        ensures said { OnOk result
            (self.new ≡ after self.old (roles_said (first_of self.old.names) annotated.old roles.now)) }
        ensures annotated { OnOk result (SameNames annotated.new (annotated.old ++ roles.now.process ∷ [])) }
    {
        let process = self.note_process(annotated, &roles.process)?;
        self.sets(process, &roles.creq, &roles.cack)?;
        self.sets(process, &roles.sreq, &roles.sack)?;
        Ok(())
    }

    // Says an annotation of a resource.
    #[tactic(auto, using(crate::proofs::Lists::left_lists))]
    fn resource(&mut self, annotated: &mut NameSet, resource: &'a ResourceNames) -> Made<()>
        requires { self.old.bound ≡ [] }
        ensures said { OnOk result
            (self.new ≡ after self.old (resource_said (first_of self.old.names) annotated.old resource.now)) }
        ensures annotated { OnOk result (SameNames annotated.new (annotated.old ++ resource.now.process ∷ [])) }
    {
        let process = self.note_process(annotated, &resource.process)?;
        self.sets(process, &resource.acquire, &resource.release)?;
        Ok(())
    }

    // Says that a name is declared.
    fn declare(&mut self, declared: &mut NameSet, x: &'a Name) -> Made<()>
        ensures said { OnOk result (self.new ≡ after self.old (declared_after declared.old (x.now ∷ []))) }
        ensures declared { OnOk result (SameNames declared.new (declared.old ++ x.now ∷ [])) }
    {
        let before = declared.add(x)?;
        self.declares(x, before)?;
        Ok(())
    }

    // Says that names are declared.
    fn declare_all(&mut self, declared: &mut NameSet, xs: &'a [Name]) -> Made<()>
        ensures said { OnOk result (self.new ≡ after self.old (declared_after declared.old xs.now)) }
        ensures declared { OnOk result (SameNames declared.new (declared.old ++ xs.now)) }
    {
        for x in xs {
            self.declare(declared, x)?;
        }
        Ok(())
    }

    // Says that the parameters of a definition are bound.
    fn parameters(&mut self, xs: &'a [Name]) -> Made<()>
        ensures { OnOk result (self.new ≡ after self.old (parameters_after [] xs.now)) }
    {
        let mut before = self.new_set();
        for x in xs {
            let repeats = before.add(x)?;
            self.binds(x, repeats)?;
        }
        Ok(())
    }

    // Says what the types of channels say.
    fn types(&mut self, types: &'a [Tree]) -> Made<()>
        requires depth { greatest (map tree_depth types.now) ≤ MOST_TREE_DEPTH }
        requires bound { self.old.bound ≡ [] }
        ensures { OnOk result (self.new ≡ after self.old (types_say (first_of self.old.names) types.now)) }
    {
        for tree in types {
            self.body(&[], tree, places::data_place())?;
        }
        Ok(())
    }

    // Says the process of an annotation, and tells what it stands for.
    #[tactic(auto, using(crate::proofs::Lists::left_lists))]
    fn note_process(&mut self, annotated: &mut NameSet, x: &'a Name) -> Made<Sense>
        ensures sense { IfOk result (λ sense. sense ≡ sense_in (first_of self.old.names) self.old.bound x.now) }
        ensures said { OnOk result (self.new ≡ after self.old
            (Notes x.now (is_among annotated.old x.now)
            ∷ walked.used self.old x.now how.Annotated ∷ [])) }
        ensures annotated { OnOk result (SameNames annotated.new (annotated.old ++ x.now ∷ [])) }
    {
        let before = annotated.add(x)?;
        let sense = self.sense_of(x);
        self.notes(x, before)?;
        self.uses(x, Use::Annotated)?;
        Ok(sense)
    }

    // Says two sets of the annotation of a process that stands for this.
    #[tactic(auto, using(crate::proofs::Lists::left_lists))]
    fn sets(&mut self, process: Sense, first: &'a Name, second: &'a Name) -> Made<()>
        ensures { OnOk result (self.new ≡ after self.old (walked.used self.old first.now (how.Annotates process)
            ∷ walked.used self.old second.now (how.Annotates process) ∷ [])) }
    {
        self.uses(first, Use::Annotates(process))?;
        self.uses(second, Use::Annotates(process))?;
        Ok(())
    }
}
