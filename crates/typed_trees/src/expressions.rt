//! Trees as expressions.

ghost use Rattle.std.specs.Prelude.{◌≡◌, ◌+◌, ◌≤◌};
ghost use Rattle.typed_trees.specs.Prelude.{IfOk, OnOk, MOST_BYTES, all_tokens, gen_tokens, gens_tokens, part_tokens, parts_tokens, tokens, past, after_gen, after_gens, bound, expr_at, exprs_at, gen_at, gens_at, part_at, parts_at, under_gens};

use crate::counts::{count_parts, count_trees};
use crate::walk::Walk;
use containers::{Boxed, Items};
use csp_base::{Made, Name};
use csp_program::{EventPart, Expr, Gen};
use csp_text::{GenTree, PartTree, Tree};

impl<'a> Walk<'a> {
    /// A tree as an expression. What is a process there, which nothing is in a script without faults, is 0.
    #[tactic(auto, using(csp_text::specs::declared::tree::Tree::the_lemmas, script_sizes::proofs::TokenForms::token_forms, crate::proofs::ExprForms::expr_forms))]
    #[cycle(typed_expr)]
    pub(crate) fn expression(&mut self, tree: &Tree) -> Made<Expr>
        requires { self.old.next + tokens tree.now ≤ MOST_BYTES }
        ensures made { IfOk result (λ made. made ≡ expr_at self.old tree.now) }
        ensures walk { OnOk result (self.new ≡ past self.old (tokens tree.now)) }
    {
        match tree {
            Tree::Num(number) => Ok(Expr::Num(i64::from(*number))),
            Tree::True => Ok(Expr::Truth(true)),
            Tree::False => Ok(Expr::Truth(false)),
            Tree::Name(x) => Ok(self.name(x)),
            Tree::Call(f, args) => {
                let def = self.definition(f);
                self.expressions(args.as_slice())
                    .map(|args| Expr::Call(def, args))
            }
            Tree::Dot(c, fields) => {
                let channel = self.channel(c);
                self.expressions(fields.as_slice())
                    .map(|fields| Expr::Event(channel, fields))
            }
            Tree::Neg(a) => self.box_expr(a.get()).map(Expr::Neg),
            Tree::Not(a) => self.box_expr(a.get()).map(Expr::Not),
            Tree::Binary(op, a, b) => self.two_exprs(a, b).map(|(a, b)| Expr::Binary(*op, a, b)),
            Tree::If(c, a, b) => self.expr_choice(c, a, b),
            Tree::Display(items) => self.expressions(items.as_slice()).map(Expr::Display),
            Tree::Range(a, b) => self.two_exprs(a, b).map(|(a, b)| Expr::Range(a, b)),
            Tree::Comp(items, gens) => self.comprehension(items, gens),
            Tree::Product(parts, gens) => self.product(parts, gens),
            Tree::SetOp(op, a, b) => self.two_exprs(a, b).map(|(a, b)| Expr::SetOp(*op, a, b)),
            _ => {
                self.skip(tree);
                Ok(Expr::Num(0))
            }
        }
    }

    /// A tree as an expression on the heap.
    #[cycle(typed_expr)]
    pub(crate) fn box_expr(&mut self, tree: &Tree) -> Made<Boxed<Expr>>
        requires { self.old.next + tokens tree.now ≤ MOST_BYTES }
        ensures made { IfOk result (λ made. made ≡ expr_at self.old tree.now) }
        ensures walk { OnOk result (self.new ≡ past self.old (tokens tree.now)) }
    {
        let alloc = self.alloc();
        self.expression(tree)
            .and_then(|made| Boxed::new(alloc, made))
    }

    /// Two trees as expressions on the heap.
    #[cycle(typed_expr)]
    pub(crate) fn two_exprs(
        &mut self,
        a: &Boxed<Tree>,
        b: &Boxed<Tree>,
    ) -> Made<(Boxed<Expr>, Boxed<Expr>)>
        requires { self.old.next + tokens a.now + tokens b.now ≤ MOST_BYTES }
        ensures first { IfOk result (λ made. made.0 ≡ expr_at self.old a.now) }
        ensures second { IfOk result (λ made. made.1 ≡ expr_at (past self.old (tokens a.now)) b.now) }
        ensures walk { OnOk result (self.new ≡ past self.old (tokens a.now + tokens b.now)) }
    {
        let a = self.box_expr(a.get())?;
        let b = self.box_expr(b.get())?;
        Ok((a, b))
    }

    // One of two expressions.
    #[tactic(auto, using(csp_text::specs::declared::tree::Tree::the_lemmas, script_sizes::proofs::TokenForms::token_forms, crate::proofs::ExprForms::expr_forms))]
    #[cycle(typed_expr)]
    fn expr_choice(&mut self, c: &Boxed<Tree>, a: &Boxed<Tree>, b: &Boxed<Tree>) -> Made<Expr>
        requires { self.old.next + tokens (Tree.If c.now a.now b.now) ≤ MOST_BYTES }
        ensures made { IfOk result (λ made. made ≡ expr_at self.old (Tree.If c.now a.now b.now)) }
        ensures walk { OnOk result (self.new ≡ past self.old (tokens (Tree.If c.now a.now b.now))) }
    {
        let c = self.box_expr(c.get())?;
        self.two_exprs(a, b).map(|(a, b)| Expr::If(c, a, b))
    }

    // The set of some expressions under generators.
    #[tactic(auto, using(csp_text::specs::declared::tree::Tree::the_lemmas, script_sizes::proofs::TokenForms::token_forms, crate::proofs::ExprForms::expr_forms, crate::proofs::Scopes::scope_laws))]
    #[cycle(typed_expr)]
    fn comprehension(&mut self, items: &Items<Tree>, gens: &Items<GenTree>) -> Made<Expr>
        requires { self.old.next + tokens (Tree.Comp items.now gens.now) ≤ MOST_BYTES }
        ensures made { IfOk result (λ made. made ≡ expr_at self.old (Tree.Comp items.now gens.now)) }
        ensures walk { OnOk result (self.new ≡ past self.old (tokens (Tree.Comp items.now gens.now))) }
    {
        let mark = self.mark();
        let count = count_trees(items.as_slice());
        let (gens, last) = self.generators_after(count, gens.as_slice())?;
        let items = self.expressions(items.as_slice())?;
        self.leave(mark);
        self.go_to(last);
        Ok(Expr::Comp(items, gens))
    }

    // The set of the events that begin with some fronts, under generators.
    #[tactic(auto, using(csp_text::specs::declared::tree::Tree::the_lemmas, script_sizes::proofs::TokenForms::token_forms, crate::proofs::ExprForms::expr_forms, crate::proofs::Scopes::scope_laws))]
    #[cycle(typed_expr)]
    fn product(&mut self, parts: &Items<PartTree>, gens: &Items<GenTree>) -> Made<Expr>
        requires { self.old.next + tokens (Tree.Product parts.now gens.now) ≤ MOST_BYTES }
        ensures made { IfOk result (λ made. made ≡ expr_at self.old (Tree.Product parts.now gens.now)) }
        ensures walk { OnOk result (self.new ≡ past self.old (tokens (Tree.Product parts.now gens.now))) }
    {
        let mark = self.mark();
        let count = count_parts(parts.as_slice());
        let (gens, last) = self.generators_after(count, gens.as_slice())?;
        let parts = self.fronts(parts.as_slice())?;
        self.leave(mark);
        self.go_to(last);
        Ok(Expr::Product(parts, gens))
    }

    /// Trees as expressions, numbered one after another.
    #[cycle(typed_expr)]
    pub(crate) fn expressions(&mut self, trees: &[Tree]) -> Made<Items<Expr>>
        requires { self.old.next + all_tokens trees.now ≤ MOST_BYTES }
        ensures made { IfOk result (λ made. made ≡ exprs_at self.old trees.now) }
        ensures walk { OnOk result (self.new ≡ past self.old (all_tokens trees.now)) }
    {
        let mut made = Items::new(self.alloc());
        for tree in trees {
            made.push_made(self.expression(tree))?;
        }
        Ok(made)
    }

    /// Binds the name `x` that takes the values of a set: its number, and the set.
    #[cycle(typed_expr)]
    pub(crate) fn bind_over(&mut self, x: &Name, set: &Tree) -> Made<(u32, Boxed<Expr>)>
        requires { self.old.next + 1 + tokens set.now ≤ MOST_BYTES }
        ensures number { IfOk result (λ made. made.0 ≡ self.old.next) }
        ensures set { IfOk result (λ made. made.1 ≡ expr_at (past self.old 1) set.now) }
        ensures walk { OnOk result (self.new ≡ past (bound self.old x.now) (tokens set.now)) }
    {
        let number = self.take_number();
        let set = self.box_expr(set)?;
        self.bind(x, number)?;
        Ok((number, set))
    }

    // A generator. Its name is bound afterwards.
    #[tactic(auto, using(csp_text::specs::declared::tree::Tree::the_lemmas, script_sizes::proofs::TokenForms::gen_tokens_forms, crate::proofs::ExprForms::gen_forms))]
    #[cycle(typed_expr)]
    fn generator(&mut self, tree: &GenTree) -> Made<Gen>
        requires { self.old.next + gen_tokens tree.now ≤ MOST_BYTES }
        ensures made { IfOk result (λ made. made ≡ gen_at self.old tree.now) }
        ensures walk { OnOk result (self.new ≡ after_gen self.old tree.now) }
    {
        match tree {
            GenTree::From(x, set) => {
                self.bind_over(x, set)
                    .map(|(number, set)| Gen::From(number, set.into_inner()))
            }
            GenTree::Cond(condition) => self.expression(condition).map(Gen::Cond),
        }
    }

    // Generators. Their names are bound afterwards.
    #[cycle(typed_expr)]
    fn generators(&mut self, trees: &[GenTree]) -> Made<Items<Gen>>
        requires { self.old.next + gens_tokens trees.now ≤ MOST_BYTES }
        ensures made { IfOk result (λ made. made ≡ gens_at self.old trees.now) }
        ensures walk { OnOk result (self.new ≡ after_gens self.old trees.now) }
    {
        let mut made = Items::new(self.alloc());
        for tree in trees {
            made.push_made(self.generator(tree))?;
        }
        Ok(made)
    }

    /// Generators whose tokens come after so many others: the generators, and the number of the token after theirs.
    /// The walk goes on before the others, under the names that the generators bind.
    #[cycle(typed_expr)]
    pub(crate) fn generators_after(
        &mut self,
        count: u32,
        trees: &[GenTree],
    ) -> Made<(Items<Gen>, u32)>
        requires { self.old.next + count + gens_tokens trees.now ≤ MOST_BYTES }
        ensures made { IfOk result (λ made. made.0 ≡ gens_at (past self.old count) trees.now) }
        ensures last { IfOk result (λ made. made.1 ≡ self.old.next + count + gens_tokens trees.now) }
        ensures walk { OnOk result (self.new ≡ under_gens self.old count trees.now) }
    {
        let first = self.pass(count);
        let gens = self.generators(trees)?;
        let last = self.go_to(first);
        Ok((gens, last))
    }

    /// The front of an event.
    #[tactic(auto, using(csp_text::specs::declared::tree::Tree::the_lemmas, script_sizes::proofs::TokenForms::part_tokens_forms, crate::proofs::ExprForms::part_forms))]
    #[cycle(typed_expr)]
    pub(crate) fn front(&mut self, part: &PartTree) -> Made<EventPart>
        requires { self.old.next + part_tokens part.now ≤ MOST_BYTES }
        ensures made { IfOk result (λ made. made ≡ part_at self.old part.now) }
        ensures walk { OnOk result (self.new ≡ past self.old (part_tokens part.now)) }
    {
        let channel = self.channel(&part.name);
        self.expressions(part.fields.as_slice())
            .map(|fields| EventPart { channel, fields })
    }

    // The fronts of events, numbered one after another.
    #[cycle(typed_expr)]
    fn fronts(&mut self, parts: &[PartTree]) -> Made<Items<EventPart>>
        requires { self.old.next + parts_tokens parts.now ≤ MOST_BYTES }
        ensures made { IfOk result (λ made. made ≡ parts_at self.old parts.now) }
        ensures walk { OnOk result (self.new ≡ past self.old (parts_tokens parts.now)) }
    {
        let mut made = Items::new(self.alloc());
        for part in parts {
            made.push_made(self.front(part))?;
        }
        Ok(made)
    }
}
