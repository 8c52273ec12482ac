//! Trees as processes.

ghost use Rattle.std.specs.Prelude.{◌≡◌, ◌+◌, ◌≤◌};
ghost use Rattle.typed_trees.specs.Prelude.{IfOk, OnOk, MOST_BYTES, all_tokens, field_tokens, fields_tokens, gens_tokens, pairs_tokens, part_tokens, set_tokens, tokens, past, after_field, after_fields, bound, expr_at, field_at, fields_at, gens_at, pairs_at, part_at, proc_at, procs_at, set_at, sides_at};

use crate::counts::count_pairs;
use crate::walk::Walk;
use containers::{Boxed, Items};
use csp_base::{Made, Name};
use csp_program::{EventPart, Expr, Field, Gen, Proc};
use csp_text::{EventTree, FieldTree, GenTree, PartTree, Tree};

// An expression from the heap, where there is one.
fn out_of_box(set: Option<Boxed<Expr>>) -> Option<Expr>
    ensures { result ≡ set }
{
    match set {
        Some(set) => Some(set.into_inner()),
        None => None,
    }
}

impl<'a> Walk<'a> {
    // The set of an input, where it has one.
    fn input_set(&mut self, set: &Option<Tree>) -> Made<Option<Boxed<Expr>>>
        requires { self.old.next + set_tokens set.now ≤ MOST_BYTES }
        ensures made { IfOk result (λ made. made ≡ set_at self.old set.now) }
        ensures walk { OnOk result (self.new ≡ past self.old (set_tokens set.now)) }
    {
        match set {
            Some(set) => self.box_expr(set).map(Some),
            None => Ok(None),
        }
    }

    // An input. Its name is bound afterwards.
    fn input(&mut self, x: &Name, set: &Option<Tree>) -> Made<Field>
        requires { self.old.next + 1 + set_tokens set.now ≤ MOST_BYTES }
        ensures made { IfOk result (λ made. made ≡ Field.Get self.old.next (set_at (past self.old 1) set.now)) }
        ensures walk { OnOk result (self.new ≡ past (bound self.old x.now) (set_tokens set.now)) }
    {
        let number = self.take_number();
        let set = self.input_set(set)?;
        self.bind(x, number)?;
        Ok(Field::Get(number, out_of_box(set)))
    }

    // A field. Its name is bound afterwards.
    #[tactic(auto, using(script_sizes::proofs::TokenForms::field_tokens_forms, crate::proofs::ProcForms::field_forms))]
    fn field(&mut self, tree: &FieldTree) -> Made<Field>
        requires { self.old.next + field_tokens tree.now ≤ MOST_BYTES }
        ensures made { IfOk result (λ made. made ≡ field_at self.old tree.now) }
        ensures walk { OnOk result (self.new ≡ after_field self.old tree.now) }
    {
        match tree {
            FieldTree::Dot(a) | FieldTree::Output(a) => self.expression(a).map(Field::Put),
            FieldTree::Input(x, set) => self.input(x, set),
        }
    }

    // Fields. Their names are bound afterwards.
    fn fields(&mut self, trees: &[FieldTree]) -> Made<Items<Field>>
        requires { self.old.next + fields_tokens trees.now ≤ MOST_BYTES }
        ensures made { IfOk result (λ made. made ≡ fields_at self.old trees.now) }
        ensures walk { OnOk result (self.new ≡ after_fields self.old trees.now) }
    {
        let mut made = Items::new(self.alloc());
        for tree in trees {
            made.push_made(self.field(tree))?;
        }
        Ok(made)
    }

    // The pairs of a renaming, numbered one after another.
    fn pairs(&mut self, trees: &[(PartTree, PartTree)]) -> Made<Items<(EventPart, EventPart)>>
        requires { self.old.next + pairs_tokens trees.now ≤ MOST_BYTES }
        ensures made { IfOk result (λ made. made ≡ pairs_at self.old trees.now) }
        ensures walk { OnOk result (self.new ≡ past self.old (pairs_tokens trees.now)) }
    {
        let mut made = Items::new(self.alloc());
        for tree in trees {
            made.push_made(self.pair(tree))?;
        }
        Ok(made)
    }

    // A pair of a renaming.
    fn pair(&mut self, tree: &(PartTree, PartTree)) -> Made<(EventPart, EventPart)>
        requires { self.old.next + part_tokens tree.now.0 + part_tokens tree.now.1 ≤ MOST_BYTES }
        ensures old { IfOk result (λ made. made.0 ≡ part_at self.old tree.now.0) }
        ensures new { IfOk result (λ made. made.1 ≡ part_at (past self.old (part_tokens tree.now.0)) tree.now.1) }
        ensures walk { OnOk result (self.new ≡ past self.old (part_tokens tree.now.0 + part_tokens tree.now.1)) }
    {
        let old = self.front(&tree.0)?;
        let new = self.front(&tree.1)?;
        Ok((old, new))
    }

    /// A tree as a process. What is data there, which nothing is in a script without faults, is `STOP`.
    #[tactic(auto, using(csp_text::specs::declared::tree::Tree::the_lemmas, script_sizes::proofs::TokenForms::token_forms, crate::proofs::ProcForms::proc_forms))]
    #[cycle(typed_proc)]
    pub(crate) fn process(&mut self, tree: &Tree) -> Made<Proc>
        requires { self.old.next + tokens tree.now ≤ MOST_BYTES }
        ensures made { IfOk result (λ made. made ≡ proc_at self.old tree.now) }
        ensures walk { OnOk result (self.new ≡ past self.old (tokens tree.now)) }
    {
        match tree {
            Tree::Stop => Ok(Proc::Stop),
            Tree::Skip => Ok(Proc::Skip),
            Tree::Name(x) => Ok(Proc::Call(self.definition(x), Items::new(self.alloc()))),
            Tree::Call(f, args) => self.proc_call(f, args),
            Tree::If(c, p, q) => self.proc_choice(c, p, q),
            Tree::Prefix(event, p) => self.prefix(event, p),
            Tree::Guard(c, p) => self.guard(c, p),
            Tree::External(ps) => self.processes(ps.as_slice()).map(Proc::External),
            Tree::Internal(ps) => self.processes(ps.as_slice()).map(Proc::Internal),
            Tree::EachExternal(x, set, p) => {
                self.for_each(x, set, p).map(|(number, set, p)| Proc::EachExternal(
                    number,
                    set.into_inner(),
                    p,
                ))
            }
            Tree::EachInternal(x, set, p) => {
                self.for_each(x, set, p).map(|(number, set, p)| Proc::EachInternal(
                    number,
                    set.into_inner(),
                    p,
                ))
            }
            Tree::Seq(p, q) => self.sequence(p, q),
            Tree::Hide(p, set) => self.hiding(p, set),
            Tree::Rename(p, sides, gens) => self.renaming(p, sides, gens),
            _ => {
                self.skip(tree);
                Ok(Proc::Stop)
            }
        }
    }

    // The use of the definition `f`.
    #[tactic(auto, using(script_sizes::proofs::TokenForms::token_forms, crate::proofs::ProcForms::proc_forms))]
    fn proc_call(&mut self, f: &Name, args: &Items<Tree>) -> Made<Proc>
        requires { self.old.next + tokens (Tree.Call f.now args.now) ≤ MOST_BYTES }
        ensures made { IfOk result (λ made. made ≡ proc_at self.old (Tree.Call f.now args.now)) }
        ensures walk { OnOk result (self.new ≡ past self.old (tokens (Tree.Call f.now args.now))) }
    {
        let def = self.definition(f);
        self.expressions(args.as_slice())
            .map(|args| Proc::Call(def, args))
    }

    // One of two processes.
    #[tactic(auto, using(csp_text::specs::declared::tree::Tree::the_lemmas, script_sizes::proofs::TokenForms::token_forms, crate::proofs::ProcForms::proc_forms))]
    #[cycle(typed_proc)]
    fn proc_choice(&mut self, c: &Boxed<Tree>, p: &Boxed<Tree>, q: &Boxed<Tree>) -> Made<Proc>
        requires { self.old.next + tokens (Tree.If c.now p.now q.now) ≤ MOST_BYTES }
        ensures made { IfOk result (λ made. made ≡ proc_at self.old (Tree.If c.now p.now q.now)) }
        ensures walk { OnOk result (self.new ≡ past self.old (tokens (Tree.If c.now p.now q.now))) }
    {
        let c = self.box_expr(c.get())?;
        self.two_procs(p, q)
            .map(|(p, q)| Proc::If(c.into_inner(), p, q))
    }

    // A prefix of a process.
    #[tactic(auto, using(csp_text::specs::declared::tree::Tree::the_lemmas, script_sizes::proofs::TokenForms::token_forms, crate::proofs::ProcForms::proc_forms, crate::proofs::Scopes::scope_laws))]
    #[cycle(typed_proc)]
    fn prefix(&mut self, event: &EventTree, p: &Boxed<Tree>) -> Made<Proc>
        requires { self.old.next + tokens (Tree.Prefix event.now p.now) ≤ MOST_BYTES }
        ensures made { IfOk result (λ made. made ≡ proc_at self.old (Tree.Prefix event.now p.now)) }
        ensures walk { OnOk result (self.new ≡ past self.old (tokens (Tree.Prefix event.now p.now))) }
    {
        let mark = self.mark();
        let fields = self.fields(event.fields.as_slice())?;
        let p = self.box_proc(p)?;
        self.leave(mark);
        let first = self.head(&event.name);
        Ok(Proc::Prefix(first, fields, p))
    }

    // A process under a condition.
    #[tactic(auto, using(csp_text::specs::declared::tree::Tree::the_lemmas, script_sizes::proofs::TokenForms::token_forms, crate::proofs::ProcForms::proc_forms))]
    #[cycle(typed_proc)]
    fn guard(&mut self, c: &Boxed<Tree>, p: &Boxed<Tree>) -> Made<Proc>
        requires { self.old.next + tokens (Tree.Guard c.now p.now) ≤ MOST_BYTES }
        ensures made { IfOk result (λ made. made ≡ proc_at self.old (Tree.Guard c.now p.now)) }
        ensures walk { OnOk result (self.new ≡ past self.old (tokens (Tree.Guard c.now p.now))) }
    {
        let c = self.box_expr(c.get())?;
        self.box_proc(p).map(|p| Proc::Guard(c.into_inner(), p))
    }

    // A process for a value of a set: the number of its name, the set and the process.
    #[tactic(auto, using(crate::proofs::Scopes::scope_laws))]
    #[cycle(typed_proc)]
    fn for_each(
        &mut self,
        x: &Name,
        set: &Boxed<Tree>,
        p: &Boxed<Tree>,
    ) -> Made<(u32, Boxed<Expr>, Boxed<Proc>)>
        requires { self.old.next + 1 + tokens set.now + tokens p.now ≤ MOST_BYTES }
        ensures number { IfOk result (λ made. made.0 ≡ self.old.next) }
        ensures set { IfOk result (λ made. made.1 ≡ expr_at (past self.old 1) set.now) }
        ensures process { IfOk result (λ made. made.2 ≡ proc_at (past (bound self.old x.now) (tokens set.now)) p.now) }
        ensures walk { OnOk result (self.new ≡ past self.old (1 + tokens set.now + tokens p.now)) }
    {
        let mark = self.mark();
        let (number, set) = self.bind_over(x, set.get())?;
        let p = self.box_proc(p)?;
        self.leave(mark);
        Ok((number, set, p))
    }

    // One process after the other.
    #[tactic(auto, using(csp_text::specs::declared::tree::Tree::the_lemmas, script_sizes::proofs::TokenForms::token_forms, crate::proofs::ProcForms::proc_forms))]
    #[cycle(typed_proc)]
    fn sequence(&mut self, p: &Boxed<Tree>, q: &Boxed<Tree>) -> Made<Proc>
        requires { self.old.next + tokens (Tree.Seq p.now q.now) ≤ MOST_BYTES }
        ensures made { IfOk result (λ made. made ≡ proc_at self.old (Tree.Seq p.now q.now)) }
        ensures walk { OnOk result (self.new ≡ past self.old (tokens (Tree.Seq p.now q.now))) }
    {
        self.two_procs(p, q).map(|(p, q)| Proc::Seq(p, q))
    }

    // A process with a set hidden.
    #[tactic(auto, using(csp_text::specs::declared::tree::Tree::the_lemmas, script_sizes::proofs::TokenForms::token_forms, crate::proofs::ProcForms::proc_forms))]
    #[cycle(typed_proc)]
    fn hiding(&mut self, p: &Boxed<Tree>, set: &Boxed<Tree>) -> Made<Proc>
        requires { self.old.next + tokens (Tree.Hide p.now set.now) ≤ MOST_BYTES }
        ensures made { IfOk result (λ made. made ≡ proc_at self.old (Tree.Hide p.now set.now)) }
        ensures walk { OnOk result (self.new ≡ past self.old (tokens (Tree.Hide p.now set.now))) }
    {
        let p = self.box_proc(p)?;
        self.box_expr(set.get())
            .map(|set| Proc::Hide(p, set.into_inner()))
    }

    // The pairs of a renaming and its generators.
    #[tactic(auto, using(crate::proofs::Scopes::scope_laws))]
    fn sides_under(
        &mut self,
        sides: &Items<(PartTree, PartTree)>,
        gens: &Items<GenTree>,
    ) -> Made<(Items<(EventPart, EventPart)>, Items<Gen>)>
        requires { self.old.next + pairs_tokens sides.now + gens_tokens gens.now ≤ MOST_BYTES }
        ensures sides { IfOk result (λ made. made.0 ≡ sides_at self.old sides.now gens.now) }
        ensures gens { IfOk result (λ made. made.1 ≡ gens_at (past self.old (pairs_tokens sides.now)) gens.now) }
        ensures walk { OnOk result (self.new ≡ past self.old (pairs_tokens sides.now + gens_tokens gens.now)) }
    {
        let mark = self.mark();
        let count = count_pairs(sides.as_slice());
        let (gens, last) = self.generators_after(count, gens.as_slice())?;
        let sides = self.pairs(sides.as_slice())?;
        self.leave(mark);
        self.go_to(last);
        Ok((sides, gens))
    }

    // A process renamed.
    #[tactic(auto, using(csp_text::specs::declared::tree::Tree::the_lemmas, script_sizes::proofs::TokenForms::token_forms, crate::proofs::ProcForms::proc_forms))]
    #[cycle(typed_proc)]
    fn renaming(
        &mut self,
        p: &Boxed<Tree>,
        sides: &Items<(PartTree, PartTree)>,
        gens: &Items<GenTree>,
    ) -> Made<Proc>
        requires { self.old.next + tokens (Tree.Rename p.now sides.now gens.now) ≤ MOST_BYTES }
        ensures made { IfOk result (λ made. made ≡ proc_at self.old (Tree.Rename p.now sides.now gens.now)) }
        ensures walk { OnOk result (self.new ≡ past self.old (tokens (Tree.Rename p.now sides.now gens.now))) }
    {
        let p = self.box_proc(p)?;
        self.sides_under(sides, gens)
            .map(|(sides, gens)| Proc::Rename(p, sides, gens))
    }

    // Two trees as processes on the heap.
    #[cycle(typed_proc)]
    fn two_procs(&mut self, p: &Boxed<Tree>, q: &Boxed<Tree>) -> Made<(Boxed<Proc>, Boxed<Proc>)>
        requires { self.old.next + tokens p.now + tokens q.now ≤ MOST_BYTES }
        ensures first { IfOk result (λ made. made.0 ≡ proc_at self.old p.now) }
        ensures second { IfOk result (λ made. made.1 ≡ proc_at (past self.old (tokens p.now)) q.now) }
        ensures walk { OnOk result (self.new ≡ past self.old (tokens p.now + tokens q.now)) }
    {
        let p = self.box_proc(p)?;
        let q = self.box_proc(q)?;
        Ok((p, q))
    }

    // A tree as a process on the heap.
    #[cycle(typed_proc)]
    fn box_proc(&mut self, tree: &Boxed<Tree>) -> Made<Boxed<Proc>>
        requires { self.old.next + tokens tree.now ≤ MOST_BYTES }
        ensures made { IfOk result (λ made. made ≡ proc_at self.old tree.now) }
        ensures walk { OnOk result (self.new ≡ past self.old (tokens tree.now)) }
    {
        let alloc = self.alloc();
        self.process(tree.get())
            .and_then(|made| Boxed::new(alloc, made))
    }

    // Trees as processes, numbered one after another.
    #[cycle(typed_proc)]
    fn processes(&mut self, trees: &[Tree]) -> Made<Items<Proc>>
        requires { self.old.next + all_tokens trees.now ≤ MOST_BYTES }
        ensures made { IfOk result (λ made. made ≡ procs_at self.old trees.now) }
        ensures walk { OnOk result (self.new ≡ past self.old (all_tokens trees.now)) }
    {
        let mut made = Items::new(self.alloc());
        for tree in trees {
            made.push_made(self.process(tree))?;
        }
        Ok(made)
    }
}
