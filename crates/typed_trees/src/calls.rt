//! Trees as what they stand for, once each of their names has its meaning.

ghost use Rattle.std.specs.Prelude.{◌≡◌, ◌+◌, ◌≤◌};
ghost use Rattle.typed_trees.specs.Prelude.{map, IfOk, OnOk, MOST_BYTES, all_tokens, tokens, past, read_at};
ghost use Rattle.script_names.specs.Typed.{all_bind, exprs};

use crate::walk::Walk;
use containers::Items;
use csp_base::Made;
use csp_program::{Expr, Net, Proc};
use csp_text::Tree;

impl<'a> Walk<'a> {
    /// A tree as an expression. Its binding tokens have the numbers from the next one on.
    #[tactic(auto, unfolding(crate::specs::Words::expr_at))]
    pub fn typed_expr(&mut self, tree: &Tree) -> Made<Expr>
        requires { self.old.next + tokens tree.now ≤ MOST_BYTES }
        ensures made { IfOk result (λ made. made ≡ (read_at self.old tree.now).expr self.old.scope self.old.next) }
        ensures walk { OnOk result (self.new ≡ past self.old (read_at self.old tree.now).binds) }
    {
        self.expression(tree)
    }

    /// Trees as expressions, numbered one after another.
    #[tactic(auto, using(crate::proofs::ExprForms::expr_lists))]
    pub fn typed_exprs(&mut self, trees: &[Tree]) -> Made<Items<Expr>>
        requires { self.old.next + all_tokens trees.now ≤ MOST_BYTES }
        ensures made { IfOk result (λ xs. xs ≡ exprs (map (read_at self.old) trees.now) self.old.scope self.old.next) }
        ensures walk { OnOk result (self.new ≡ past self.old (all_bind (map (read_at self.old) trees.now))) }
    {
        self.expressions(trees)
    }

    /// A tree as a process. Its binding tokens have the numbers from the next one on.
    #[tactic(auto, unfolding(crate::specs::Words::proc_at))]
    pub fn typed_proc(&mut self, tree: &Tree) -> Made<Proc>
        requires { self.old.next + tokens tree.now ≤ MOST_BYTES }
        ensures made { IfOk result (λ made. made ≡ (read_at self.old tree.now).proc self.old.scope self.old.next) }
        ensures walk { OnOk result (self.new ≡ past self.old (read_at self.old tree.now).binds) }
    {
        self.process(tree)
    }

    /// A tree as a network. Its binding tokens have the numbers from the next one on. One that holds no parallel and no
    /// use of a network definition is a component.
    #[tactic(auto, unfolding(crate::specs::Words::net_at))]
    pub fn typed_net(&mut self, tree: &Tree) -> Made<Net>
        requires { self.old.next + tokens tree.now ≤ MOST_BYTES }
        ensures made { IfOk result (λ made. made ≡ (read_at self.old tree.now).net self.old.scope self.old.next) }
        ensures walk { OnOk result (self.new ≡ past self.old (read_at self.old tree.now).binds) }
    {
        self.network(tree)
    }
}
