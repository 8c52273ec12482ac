//! Trees as networks.

ghost use Rattle.std.specs.Prelude.{◌≡◌, ◌+◌, ◌≤◌};
ghost use Rattle.typed_trees.specs.Prelude.{true, IfOk, OnOk, MOST_BYTES, tokens, past, net_at, networked_at, proc_at};

use crate::walk::Walk;
use containers::{Boxed, Items};
use csp_base::{Made, Name};
use csp_program::{Expr, Net};
use csp_text::Tree;

impl<'a> Walk<'a> {
    // Whether a tree holds, through the parts of `if`s, a parallel or the use of a network definition.
    #[tactic(auto, using(crate::proofs::NetForms::networked_forms))]
    fn holds_network(&self, tree: &Tree) -> bool
        ensures { result ≡ networked_at self.now tree.now }
    {
        match tree {
            Tree::Name(x) => self.names_network(x),
            Tree::Call(f, _) => self.names_network(f),
            Tree::If(_, p, q) => {
                if self.holds_network(p.get()) {
                    return true;
                }
                self.holds_network(q.get())
            }
            Tree::Parallel(_, _, _, _) | Tree::EachParallel(_, _, _, _) => true,
            _ => false,
        }
    }

    /// A tree as a network. One that holds no parallel and no use of a network definition is a component.
    #[tactic(auto, using(csp_text::specs::declared::tree::Tree::the_lemmas, script_sizes::proofs::TokenForms::token_forms, crate::proofs::NetForms::net_forms))]
    #[cycle(typed_net)]
    pub(crate) fn network(&mut self, tree: &Tree) -> Made<Net>
        requires { self.old.next + tokens tree.now ≤ MOST_BYTES }
        ensures made { IfOk result (λ made. made ≡ net_at self.old tree.now) }
        ensures walk { OnOk result (self.new ≡ past self.old (tokens tree.now)) }
    {
        if !self.holds_network(tree) {
            return self.leaf(tree);
        }
        match tree {
            Tree::Name(x) => Ok(Net::Call(self.definition(x), Items::new(self.alloc()))),
            Tree::Call(f, args) => self.net_call(f, args),
            Tree::If(c, p, q) => self.net_choice(c, p, q),
            Tree::Parallel(p, a, b, q) => self.net_pair(p, a, b, q),
            Tree::EachParallel(x, set, a, p) => self.each(x, set, a, p),
            _ => self.leaf(tree),
        }
    }

    // The use of the network definition `f`.
    #[tactic(auto, using(script_sizes::proofs::TokenForms::token_forms, crate::proofs::NetForms::net_forms))]
    fn net_call(&mut self, f: &Name, args: &Items<Tree>) -> Made<Net>
        requires networked { networked_at self.old (Tree.Call f.now args.now) ≡ true }
        requires few { self.old.next + tokens (Tree.Call f.now args.now) ≤ MOST_BYTES }
        ensures made { IfOk result (λ made. made ≡ net_at self.old (Tree.Call f.now args.now)) }
        ensures walk { OnOk result (self.new ≡ past self.old (tokens (Tree.Call f.now args.now))) }
    {
        let def = self.definition(f);
        self.expressions(args.as_slice())
            .map(|args| Net::Call(def, args))
    }

    // One of two networks.
    #[tactic(auto, using(script_sizes::proofs::TokenForms::token_forms, crate::proofs::NetForms::net_forms))]
    #[cycle(typed_net)]
    fn net_choice(&mut self, c: &Boxed<Tree>, p: &Boxed<Tree>, q: &Boxed<Tree>) -> Made<Net>
        requires networked { networked_at self.old (Tree.If c.now p.now q.now) ≡ true }
        requires few { self.old.next + tokens (Tree.If c.now p.now q.now) ≤ MOST_BYTES }
        ensures made { IfOk result (λ made. made ≡ net_at self.old (Tree.If c.now p.now q.now)) }
        ensures walk { OnOk result (self.new ≡ past self.old (tokens (Tree.If c.now p.now q.now))) }
    {
        let c = self.box_expr(c.get())?;
        let p = self.box_net(p)?;
        self.box_net(q).map(|q| Net::If(c.into_inner(), p, q))
    }

    // Two networks in parallel.
    #[tactic(auto, using(script_sizes::proofs::TokenForms::token_forms, crate::proofs::NetForms::net_forms))]
    #[cycle(typed_net)]
    fn net_pair(
        &mut self,
        p: &Boxed<Tree>,
        a: &Boxed<Tree>,
        b: &Boxed<Tree>,
        q: &Boxed<Tree>,
    ) -> Made<Net>
        requires networked { networked_at self.old (Tree.Parallel p.now a.now b.now q.now) ≡ true }
        requires few { self.old.next + tokens (Tree.Parallel p.now a.now b.now q.now) ≤ MOST_BYTES }
        ensures made { IfOk result (λ made. made ≡ net_at self.old (Tree.Parallel p.now a.now b.now q.now)) }
        ensures walk { OnOk result (self.new ≡ past self.old (tokens (Tree.Parallel p.now a.now b.now q.now))) }
    {
        let p = self.box_net(p)?;
        let (a, b) = self.two_exprs(a, b)?;
        self.box_net(q)
            .map(|q| Net::Pair(p, a.into_inner(), b.into_inner(), q))
    }

    // Networks in parallel over the values of a set.
    #[tactic(auto, using(script_sizes::proofs::TokenForms::token_forms, crate::proofs::NetForms::net_forms, crate::proofs::Scopes::scope_laws))]
    #[cycle(typed_net)]
    fn each(&mut self, x: &Name, set: &Boxed<Tree>, a: &Boxed<Tree>, p: &Boxed<Tree>) -> Made<Net>
        requires networked { networked_at self.old (Tree.EachParallel x.now set.now a.now p.now) ≡ true }
        requires few { self.old.next + tokens (Tree.EachParallel x.now set.now a.now p.now) ≤ MOST_BYTES }
        ensures made { IfOk result (λ made. made ≡ net_at self.old (Tree.EachParallel x.now set.now a.now p.now)) }
        ensures walk { OnOk result (self.new ≡ past self.old (tokens (Tree.EachParallel x.now set.now a.now p.now))) }
    {
        let mark = self.mark();
        let (number, set) = self.bind_over(x, set.get())?;
        let a = self.box_expr(a.get())?;
        let p = self.box_net(p)?;
        self.leave(mark);
        Ok(Net::Each(number, set.into_inner(), a.into_inner(), p))
    }

    // A tree as a component.
    fn leaf(&mut self, tree: &Tree) -> Made<Net>
        requires { self.old.next + tokens tree.now ≤ MOST_BYTES }
        ensures made { IfOk result (λ made. made ≡ Net.Leaf (proc_at self.old tree.now)) }
        ensures walk { OnOk result (self.new ≡ past self.old (tokens tree.now)) }
    {
        self.process(tree).map(Net::Leaf)
    }

    // A tree as a network on the heap.
    #[cycle(typed_net)]
    fn box_net(&mut self, tree: &Boxed<Tree>) -> Made<Boxed<Net>>
        requires { self.old.next + tokens tree.now ≤ MOST_BYTES }
        ensures made { IfOk result (λ made. made ≡ net_at self.old tree.now) }
        ensures walk { OnOk result (self.new ≡ past self.old (tokens tree.now)) }
    {
        let alloc = self.alloc();
        self.network(tree.get())
            .and_then(|made| Boxed::new(alloc, made))
    }
}
