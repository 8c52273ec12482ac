//! A walk over trees that lists what they say.

ghost use Rattle.std.specs.Prelude.{◌≡◌, ◌+◌, ◌≤◌, ◌∷◌, ◌++◌};
ghost use Rattle.name_faults.specs.Prelude.{false, [], length, map, take, OnOk, greatest, event_depth, field_depth, gen_depth, greatest_of_pairs, part_depth, tree_depth, MOST_TREE_DEPTH, after, seen};
ghost use Rattle.script_names.specs.Names.{first_of, sense_in};
ghost use Rattle.name_faults.specs.Walked as walked;

use csp_base::{Made, Name};
use csp_text::{EventTree, FieldTree, GenTree, PartTree, Tree};
use name_tables::{Dictionary, NameSet, Scope};
use script_names::{Class, Need, Occurrence, Place, Sense, Use};
use std::alloc::Global;
use std::marker::Model;

/// A walk over trees: what names stand for, which are bound, and what was said.
#[derive(Drop)]
pub(crate) struct Walk<'a> {
    names: &'a Dictionary,
    bound: Scope,
    list: Vec<Occurrence<&'a Name>>,
}

impl<'a> Model for Walk<'a> {
    ghost use Rattle.std.specs.Prelude.{map};
    ghost use Rattle.script_names.specs.Typed.{names_of};
    ghost use Rattle.name_faults.specs.Walked.{Walked, seen};

    ghost Value = { Walked };

    ghost view = { λ w. record { names = w.names.now; bound = names_of w.bound; list = map seen w.list.items } };
}

// The place in what stands at a place.
fn place_inside(place: Place, need: Need, network: bool) -> Place
    requires { place.level ≤ MOST_TREE_DEPTH }
    ensures { result ≡ record { need = need; network = network; level = place.level + 1 } }
{
    Place {
        need,
        network,
        level: place.level + 1,
    }
}

impl<'a> Walk<'a> {
    /// Nothing is bound or said.
    pub(crate) fn new(alloc: Global, names: &'a Dictionary) -> Walk<'a>
        ensures { result ≡ record { names = names.now; bound = []; list = [] } }
    {
        Walk {
            names,
            bound: Scope::new(alloc),
            list: Vec::new(alloc),
        }
    }

    /// A set of no names.
    pub(crate) fn new_set(&self) -> NameSet
        ensures { result ≡ [] }
    {
        self.names.new_set()
    }

    /// Forgets what was bound and said.
    pub(crate) fn clear(&mut self)
        ensures { self.new ≡ record self.old { bound = []; list = [] } }
    {
        self.bound.leave(0);
        self.list.clear();
    }

    /// What was said.
    pub(crate) fn occurrences(&self) -> &[Occurrence<&'a Name>]
        ensures { map seen result.now ≡ self.now.list }
    {
        self.list.as_slice()
    }

    /// Binds names.
    pub(crate) fn bind_all(&mut self, xs: &'a [Name]) -> Made<()>
        ensures { OnOk result (self.new ≡ record self.old { bound = self.old.bound ++ xs.now }) }
    {
        for x in xs {
            self.bind(x)?;
        }
        Ok(())
    }

    /// Says what a tree says at a place under parameters, which are left again.
    #[tactic(auto, unfolding(crate::specs::Walked::tree_said))]
    pub(crate) fn body(&mut self, params: &'a [Name], tree: &'a Tree, place: Place) -> Made<()>
        requires depth { place.level + tree_depth tree.now ≤ MOST_TREE_DEPTH + 1 }
        requires bound { self.old.bound ≡ [] }
        ensures { OnOk result (self.new ≡ walked.after_body self.old params.now tree.now place) }
    {
        self.bind_all(params)?;
        self.tree(tree, place)?;
        self.leave(0);
        Ok(())
    }

    // How many names are bound.
    fn mark(&self) -> usize
        ensures { result ≡ length self.now.bound }
    {
        self.bound.len()
    }

    // Binds one more name.
    fn bind(&mut self, x: &'a Name) -> Made<()>
        ensures { OnOk result (self.new ≡ record self.old { bound = self.old.bound ++ x.now ∷ [] }) }
    {
        self.bound.bind(x, 0)
    }

    // Takes out the names that were bound after the first `count`.
    fn leave(&mut self, count: usize)
        requires { count ≤ length self.old.bound }
        ensures { self.new ≡ record self.old { bound = take count self.old.bound } }
    {
        self.bound.leave(count);
    }

    /// Says that a name is declared, and whether it was before.
    pub(crate) fn declares(&mut self, x: &'a Name, before: bool) -> Made<()>
        ensures { OnOk result (self.new ≡ after self.old (Occurrence.Declares x.now before ∷ [])) }
    {
        self.list.push(Occurrence::Declares(x, before))?;
        Ok(())
    }

    /// Says that a name is bound, and whether it is a parameter that repeats.
    pub(crate) fn binds(&mut self, x: &'a Name, repeats: bool) -> Made<()>
        ensures { OnOk result (self.new ≡ after self.old (Occurrence.Binds x.now repeats ∷ [])) }
    {
        self.list.push(Occurrence::Binds(x, repeats))?;
        Ok(())
    }

    /// Says that a process is annotated, and whether it was before.
    pub(crate) fn notes(&mut self, x: &'a Name, before: bool) -> Made<()>
        ensures { OnOk result (self.new ≡ after self.old (Occurrence.Notes x.now before ∷ [])) }
    {
        self.list.push(Occurrence::Notes(x, before))?;
        Ok(())
    }

    /// Says the use of a name.
    pub(crate) fn uses(&mut self, x: &'a Name, how: Use) -> Made<()>
        ensures { OnOk result (self.new ≡ after self.old (walked.used self.old x.now how ∷ [])) }
    {
        let sense = name_tables::ends::sense_in(self.names, &self.bound, x);
        self.list.push(Occurrence::Uses(x, sense, how))?;
        Ok(())
    }

    // Says a form.
    fn form(&mut self, class: Class, place: Place) -> Made<()>
        ensures { OnOk result (self.new ≡ after self.old (Occurrence.Form class place ∷ [])) }
    {
        self.list.push(Occurrence::Form(class, place))?;
        Ok(())
    }

    // Says a parallel.
    fn parallel(&mut self, place: Place) -> Made<()>
        ensures { OnOk result (self.new ≡ after self.old (Occurrence.Parallel place ∷ [])) }
    {
        self.list.push(Occurrence::Parallel(place))?;
        Ok(())
    }

    /// What a name stands for.
    pub(crate) fn sense_of(&self, x: &Name) -> Sense
        ensures { result ≡ sense_in (first_of self.now.names) self.now.bound x.now }
    {
        name_tables::ends::sense_in(self.names, &self.bound, x)
    }

    // Binds the names of generators.
    #[tactic(auto, using(crate::proofs::Lists::said_lists))]
    fn bind_gens(&mut self, gens: &'a [GenTree]) -> Made<()>
        ensures { OnOk result (self.new ≡ walked.under_gens_of self.old gens.now) }
    {
        for generator in gens {
            self.bind_gen(generator)?;
        }
        Ok(())
    }

    // Binds the name of a generator, if it has one.
    #[tactic(auto, using(crate::proofs::Says::part_forms))]
    fn bind_gen(&mut self, generator: &'a GenTree) -> Made<()>
        ensures { OnOk result (self.new ≡ walked.under_gen_of self.old generator.now) }
    {
        match generator {
            GenTree::From(x, _) => self.bind(x),
            GenTree::Cond(_) => Ok(()),
        }
    }
}

impl<'a> Walk<'a> {
    /// Says what a tree says at a place, under the names that are bound.
    #[tactic(auto, using(crate::proofs::Says::tree_forms))]
    #[cycle(walk)]
    pub(crate) fn tree(&mut self, tree: &'a Tree, place: Place) -> Made<()>
        requires { place.level + tree_depth tree.now ≤ MOST_TREE_DEPTH + 1 }
        ensures { OnOk result (self.new ≡ walked.after_tree self.old tree.now place) }
    {
        let data = place_inside(place, Need::Data, false);
        let process = place_inside(place, Need::Process, false);
        let network = place_inside(place, Need::Process, true);
        let part = place_inside(place, place.need, place.network);
        match tree {
            Tree::Num(_) | Tree::True | Tree::False => self.form(Class::Data, place),
            Tree::Stop | Tree::Skip => self.form(Class::Process, place),
            Tree::Name(x) => self.uses(x, Use::Alone(place)),
            Tree::Call(f, args) => {
                self.uses(f, Use::Called(args.len(), place))?;
                self.trees(args.as_slice(), data)?;
                Ok(())
            }
            Tree::Dot(c, fields) => {
                self.form(Class::Data, place)?;
                self.uses(c, Use::Dotted(fields.len()))?;
                self.trees(fields.as_slice(), data)?;
                Ok(())
            }
            Tree::Neg(a) | Tree::Not(a) => {
                self.form(Class::Data, place)?;
                self.tree(a.get(), data)?;
                Ok(())
            }
            Tree::Binary(_, a, b) | Tree::Range(a, b) | Tree::SetOp(_, a, b) => {
                self.form(Class::Data, place)?;
                self.two_trees(a.get(), data, b.get(), data)?;
                Ok(())
            }
            Tree::If(c, a, b) => {
                self.tree(c.get(), data)?;
                self.two_trees(a.get(), part, b.get(), part)?;
                Ok(())
            }
            Tree::Display(items) => {
                self.form(Class::Data, place)?;
                self.trees(items.as_slice(), data)?;
                Ok(())
            }
            Tree::Comp(items, gens) => {
                self.form(Class::Data, place)?;
                self.comprehension(items.as_slice(), gens.as_slice(), place)?;
                Ok(())
            }
            Tree::Product(parts, gens) => {
                self.form(Class::Data, place)?;
                self.product(parts.as_slice(), gens.as_slice(), place)?;
                Ok(())
            }
            Tree::Prefix(event, p) => {
                self.form(Class::Process, place)?;
                self.prefix(event, p.get(), place)?;
                Ok(())
            }
            Tree::Guard(c, p) => {
                self.form(Class::Process, place)?;
                self.two_trees(c.get(), data, p.get(), process)?;
                Ok(())
            }
            Tree::External(ps) | Tree::Internal(ps) => {
                self.form(Class::Process, place)?;
                self.trees(ps.as_slice(), process)?;
                Ok(())
            }
            Tree::EachExternal(x, s, p) | Tree::EachInternal(x, s, p) => {
                self.form(Class::Process, place)?;
                self.each(x, s.get(), p.get(), place)?;
                Ok(())
            }
            Tree::Parallel(p, a, b, q) => {
                self.parallel(place)?;
                self.two_trees(p.get(), network, a.get(), data)?;
                self.two_trees(b.get(), data, q.get(), network)?;
                Ok(())
            }
            Tree::EachParallel(x, s, a, p) => {
                self.parallel(place)?;
                self.each_parallel(x, s.get(), a.get(), p.get(), place)?;
                Ok(())
            }
            Tree::Seq(p, q) => {
                self.form(Class::Process, place)?;
                self.two_trees(p.get(), process, q.get(), process)?;
                Ok(())
            }
            Tree::Hide(p, s) => {
                self.form(Class::Process, place)?;
                self.two_trees(p.get(), process, s.get(), data)?;
                Ok(())
            }
            Tree::Rename(p, pairs, gens) => {
                self.form(Class::Process, place)?;
                self.tree(p.get(), process)?;
                self.renaming(pairs.as_slice(), gens.as_slice(), place)?;
                Ok(())
            }
        }
    }

    // Says what two trees say, each at its place.
    #[tactic(auto, using(crate::proofs::Lists::left_lists))]
    #[cycle(walk)]
    fn two_trees(&mut self, a: &'a Tree, at: Place, b: &'a Tree, then: Place) -> Made<()>
        requires first { at.level + tree_depth a.now ≤ MOST_TREE_DEPTH + 1 }
        requires second { then.level + tree_depth b.now ≤ MOST_TREE_DEPTH + 1 }
        ensures { OnOk result (self.new ≡ walked.after_both self.old a.now at b.now then) }
    {
        self.tree(a, at)?;
        self.tree(b, then)?;
        Ok(())
    }

    // Says the items of a comprehension under the names of its generators, and these.
    #[tactic(auto, using(crate::proofs::Lists::left_lists))]
    #[cycle(walk)]
    fn comprehension(&mut self, items: &'a [Tree], gens: &'a [GenTree], place: Place) -> Made<()>
        requires items { place.level + greatest (map tree_depth items.now) ≤ MOST_TREE_DEPTH }
        requires gens { place.level + greatest (map gen_depth gens.now) ≤ MOST_TREE_DEPTH }
        ensures { OnOk result (self.new ≡ walked.after_comprehension self.old items.now gens.now place) }
    {
        let mark = self.mark();
        self.bind_gens(gens)?;
        self.trees(items, place_inside(place, Need::Data, false))?;
        self.leave(mark);
        self.gens(gens, place)?;
        self.leave(mark);
        Ok(())
    }

    // Says the parts of a set of events under the names of its generators, and these.
    #[tactic(auto, using(crate::proofs::Lists::left_lists))]
    #[cycle(walk)]
    fn product(&mut self, parts: &'a [PartTree], gens: &'a [GenTree], place: Place) -> Made<()>
        requires parts { place.level + greatest (map part_depth parts.now) ≤ MOST_TREE_DEPTH }
        requires gens { place.level + greatest (map gen_depth gens.now) ≤ MOST_TREE_DEPTH }
        ensures { OnOk result (self.new ≡ walked.after_product self.old parts.now gens.now place) }
    {
        let mark = self.mark();
        self.bind_gens(gens)?;
        self.parts(parts, place)?;
        self.leave(mark);
        self.gens(gens, place)?;
        self.leave(mark);
        Ok(())
    }

    // Says the pairs of a renaming under the names of its generators, and these.
    #[tactic(auto, using(crate::proofs::Lists::left_lists))]
    #[cycle(walk)]
    fn renaming(
        &mut self,
        pairs: &'a [(PartTree, PartTree)],
        gens: &'a [GenTree],
        place: Place,
    ) -> Made<()>
        requires pairs { place.level + walked.pairs_depth pairs.now ≤ MOST_TREE_DEPTH }
        requires gens { place.level + greatest (map gen_depth gens.now) ≤ MOST_TREE_DEPTH }
        ensures { OnOk result (self.new ≡ walked.after_renaming self.old pairs.now gens.now place) }
    {
        let mark = self.mark();
        self.bind_gens(gens)?;
        self.pairs(pairs, place)?;
        self.leave(mark);
        self.gens(gens, place)?;
        self.leave(mark);
        Ok(())
    }

    // Says the event of a prefix, and the process under the names that it binds.
    #[tactic(auto, using(crate::proofs::Lists::left_lists))]
    #[cycle(walk)]
    fn prefix(&mut self, event: &'a EventTree, p: &'a Tree, place: Place) -> Made<()>
        requires event { place.level + event_depth event.now ≤ MOST_TREE_DEPTH }
        requires process { place.level + tree_depth p.now ≤ MOST_TREE_DEPTH }
        ensures { OnOk result (self.new ≡ walked.after_prefix self.old event.now p.now place) }
    {
        self.uses(&event.name, Use::Heads(event.fields.len()))?;
        let mark = self.mark();
        self.fields(event.fields.as_slice(), place)?;
        self.tree(p, place_inside(place, Need::Process, false))?;
        self.leave(mark);
        Ok(())
    }

    // Says a name that is bound to the values of a set, the set, and a process under the name.
    #[tactic(auto, using(crate::proofs::Lists::left_lists))]
    #[cycle(walk)]
    fn each(&mut self, x: &'a Name, s: &'a Tree, p: &'a Tree, place: Place) -> Made<()>
        requires set { place.level + tree_depth s.now ≤ MOST_TREE_DEPTH }
        requires process { place.level + tree_depth p.now ≤ MOST_TREE_DEPTH }
        ensures { OnOk result (self.new ≡ walked.after_each self.old x.now s.now p.now place) }
    {
        self.binds(x, false)?;
        self.tree(s, place_inside(place, Need::Data, false))?;
        let mark = self.mark();
        self.bind(x)?;
        self.tree(p, place_inside(place, Need::Process, false))?;
        self.leave(mark);
        Ok(())
    }

    // Says a name that is bound to the values of a set, the set, and a network under the name.
    #[tactic(auto, using(crate::proofs::Lists::left_lists))]
    #[cycle(walk)]
    fn each_parallel(
        &mut self,
        x: &'a Name,
        s: &'a Tree,
        a: &'a Tree,
        p: &'a Tree,
        place: Place,
    ) -> Made<()>
        requires set { place.level + tree_depth s.now ≤ MOST_TREE_DEPTH }
        requires events { place.level + tree_depth a.now ≤ MOST_TREE_DEPTH }
        requires network { place.level + tree_depth p.now ≤ MOST_TREE_DEPTH }
        ensures { OnOk result (self.new ≡ walked.after_each_parallel self.old x.now s.now a.now p.now place) }
    {
        let data = place_inside(place, Need::Data, false);
        self.binds(x, false)?;
        self.tree(s, data)?;
        let mark = self.mark();
        self.bind(x)?;
        self.two_trees(a, data, p, place_inside(place, Need::Process, true))?;
        self.leave(mark);
        Ok(())
    }

    // Says what trees say.
    #[tactic(auto, using(crate::proofs::Lists::said_lists))]
    #[cycle(walk)]
    fn trees(&mut self, trees: &'a [Tree], place: Place) -> Made<()>
        requires { place.level + greatest (map tree_depth trees.now) ≤ MOST_TREE_DEPTH + 1 }
        ensures { OnOk result (self.new ≡ walked.after_trees self.old trees.now place) }
    {
        for tree in trees {
            self.tree(tree, place)?;
        }
        Ok(())
    }

    // Says what fields say, and binds their names.
    #[tactic(auto, using(crate::proofs::Lists::said_lists))]
    #[cycle(walk)]
    fn fields(&mut self, fields: &'a [FieldTree], place: Place) -> Made<()>
        requires { place.level + greatest (map field_depth fields.now) ≤ MOST_TREE_DEPTH }
        ensures { OnOk result (self.new ≡ walked.after_fields self.old fields.now place) }
    {
        for field in fields {
            self.field(field, place)?;
        }
        Ok(())
    }

    // Says what a field says, and binds its name.
    #[tactic(auto, using(crate::proofs::Says::part_forms))]
    #[cycle(walk)]
    fn field(&mut self, field: &'a FieldTree, place: Place) -> Made<()>
        requires { place.level + field_depth field.now ≤ MOST_TREE_DEPTH }
        ensures { OnOk result (self.new ≡ walked.after_field self.old field.now place) }
    {
        let data = place_inside(place, Need::Data, false);
        match field {
            FieldTree::Dot(tree) => self.tree(tree, data),
            FieldTree::Output(tree) => self.tree(tree, data),
            FieldTree::Input(x, set) => {
                self.binds(x, false)?;
                if let Some(set) = set {
                    self.tree(set, data)?;
                    self.bind(x)?;
                    return Ok(());
                }
                self.bind(x)?;
                Ok(())
            }
        }
    }

    // Says what generators say, and binds their names.
    #[tactic(auto, using(crate::proofs::Lists::said_lists))]
    #[cycle(walk)]
    fn gens(&mut self, gens: &'a [GenTree], place: Place) -> Made<()>
        requires { place.level + greatest (map gen_depth gens.now) ≤ MOST_TREE_DEPTH }
        ensures { OnOk result (self.new ≡ walked.after_gens self.old gens.now place) }
    {
        for generator in gens {
            self.generator(generator, place)?;
        }
        Ok(())
    }

    // Says what a generator says, and binds its name.
    #[tactic(auto, using(crate::proofs::Says::part_forms))]
    #[cycle(walk)]
    fn generator(&mut self, generator: &'a GenTree, place: Place) -> Made<()>
        requires { place.level + gen_depth generator.now ≤ MOST_TREE_DEPTH }
        ensures { OnOk result (self.new ≡ walked.after_gen self.old generator.now place) }
    {
        let data = place_inside(place, Need::Data, false);
        match generator {
            GenTree::From(x, set) => {
                self.binds(x, false)?;
                self.tree(set, data)?;
                self.bind(x)?;
                Ok(())
            }
            GenTree::Cond(condition) => self.tree(condition, data),
        }
    }

    // Says what the fronts of events say.
    #[tactic(auto, using(crate::proofs::Lists::said_lists))]
    #[cycle(walk)]
    fn parts(&mut self, parts: &'a [PartTree], place: Place) -> Made<()>
        requires { place.level + greatest (map part_depth parts.now) ≤ MOST_TREE_DEPTH }
        ensures { OnOk result (self.new ≡ walked.after_parts self.old parts.now place) }
    {
        for part in parts {
            self.part(part, place)?;
        }
        Ok(())
    }

    // Says what the front of an event says.
    #[tactic(auto, using(crate::proofs::Says::part_forms))]
    #[cycle(walk)]
    fn part(&mut self, part: &'a PartTree, place: Place) -> Made<()>
        requires { place.level + part_depth part.now ≤ MOST_TREE_DEPTH }
        ensures { OnOk result (self.new ≡ walked.after_part self.old part.now place) }
    {
        let data = place_inside(place, Need::Data, false);
        self.uses(&part.name, Use::Begins(part.fields.len()))?;
        self.trees(part.fields.as_slice(), data)?;
        Ok(())
    }

    // Says what the pairs of a renaming say.
    #[tactic(auto, using(crate::proofs::Lists::said_lists))]
    #[cycle(walk)]
    fn pairs(&mut self, pairs: &'a [(PartTree, PartTree)], place: Place) -> Made<()>
        requires { place.level + walked.pairs_depth pairs.now ≤ MOST_TREE_DEPTH }
        ensures { OnOk result (self.new ≡ walked.after_pairs self.old pairs.now place) }
    {
        for (old, new) in pairs {
            let sense = self.sense_of(&new.name);
            self.uses(
                &old.name,
                Use::Renamed(old.fields.len(), sense, new.fields.len()),
            )?;
            self.part(old, place)?;
            self.part(new, place)?;
        }
        Ok(())
    }
}
