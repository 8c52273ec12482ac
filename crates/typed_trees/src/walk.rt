//! Where a walk over trees stands.

ghost use Rattle.std.specs.Prelude.{◌≡◌, ◌+◌, ◌<◌, ◌≤◌, ◌++◌, ◌∷◌};
ghost use Rattle.typed_trees.specs.Prelude.{[], length, take, OnOk, MOST_BYTES, first_of, number_of, tokens, past, standing};
ghost use Rattle.script_names.specs.Typed as typed;
ghost use Rattle.typed_trees.specs.Words as words;

use crate::counts::count_tree;
use crate::names::{channel_number, definition_number, head_of, is_network, name_alone};
use csp_base::{Made, Name};
use csp_program::{Expr, Head};
use csp_text::Tree;
use name_tables::{Dictionary, Meanings, Scope};
use script_names::Kind;
use std::alloc::Global;
use std::marker::Model;

/// Where a walk over trees stands: what names mean, which are bound there, and the number of the next binding token.
pub struct Walk<'a> {
    alloc: Global,
    names: &'a Dictionary,
    kinds: &'a [Kind],
    scope: Scope,
    next: u32,
}

impl<'a> Drop for Walk<'a> {
    fn drop(self) {
        let Walk {
            alloc,
            names,
            kinds,
            scope,
            next,
        } = self;
    }
}

impl<'a> Model for Walk<'a> {
    ghost use Rattle.typed_trees.specs.Walked.{Walked};

    ghost Value = { Walked };

    ghost view = { λ w. record { names = w.names.now; kinds = w.kinds.now; scope = w.scope; next = w.next } };
}

impl<'a> Walk<'a> {
    /// Under these bound names, before the binding token of this number.
    pub fn new(meanings: &Meanings<'a>, scope: Scope, next: u32) -> Walk<'a>
        ensures { result ≡ standing meanings.now.names.now meanings.now.kinds.now scope next }
    {
        Walk {
            alloc: meanings.alloc,
            names: meanings.names,
            kinds: meanings.kinds,
            scope,
            next,
        }
    }

    /// Where memory comes from.
    pub(crate) fn alloc(&self) -> Global {
        self.alloc
    }

    /// The number of a channel, 0 for anything else.
    pub(crate) fn channel(&self, x: &Name) -> u32
        ensures { result ≡ typed.channel_number (first_of self.now.names x.now) }
    {
        channel_number(self.names.find(x))
    }

    /// The number of a definition, 0 for anything else.
    pub(crate) fn definition(&self, x: &Name) -> u32
        ensures { result ≡ typed.definition_number (first_of self.now.names x.now) }
    {
        definition_number(self.names.find(x))
    }

    /// A name by itself.
    pub(crate) fn name(&self, x: &Name) -> Expr
        ensures { result ≡ typed.named (number_of self.now.scope x.now) (first_of self.now.names x.now) }
    {
        name_alone(self.alloc, self.scope.find(x), self.names.find(x))
    }

    /// What the event of a prefix begins with.
    pub(crate) fn head(&self, x: &Name) -> Head
        ensures { result ≡ typed.head_of (number_of self.now.scope x.now) (first_of self.now.names x.now) }
    {
        head_of(self.scope.find(x), self.names.find(x))
    }

    /// Whether a name stands for a network definition.
    pub(crate) fn names_network(&self, x: &Name) -> bool
        ensures { result ≡ words.names_network self.now x.now }
    {
        is_network(
            self.kinds,
            name_tables::ends::sense_in(self.names, &self.scope, x),
        )
    }

    /// How many names are bound.
    pub(crate) fn mark(&self) -> usize
        ensures { result ≡ length self.now.scope }
    {
        self.scope.len()
    }

    /// Gives out the number of the next binding token.
    pub(crate) fn take_number(&mut self) -> u32
        requires { self.old.next < MOST_BYTES }
        ensures number { result ≡ self.old.next }
        ensures walk { self.new ≡ past self.old 1 }
    {
        let number = self.next;
        self.next += 1;
        number
    }

    /// Passes so many binding tokens, and gives the number of the first of them.
    pub(crate) fn pass(&mut self, count: u32) -> u32
        requires { self.old.next + count ≤ MOST_BYTES }
        ensures number { result ≡ self.old.next }
        ensures walk { self.new ≡ past self.old count }
    {
        let number = self.next;
        self.next += count;
        number
    }

    /// Passes the binding tokens of a tree.
    pub(crate) fn skip(&mut self, tree: &Tree)
        requires { self.old.next + tokens tree.now ≤ MOST_BYTES }
        ensures { self.new ≡ past self.old (tokens tree.now) }
    {
        self.next += count_tree(tree);
    }

    /// Goes to the binding token of a number, and gives the number of the one before which it stood.
    pub(crate) fn go_to(&mut self, next: u32) -> u32
        ensures number { result ≡ self.old.next }
        ensures walk { self.new ≡ record self.old { next = next } }
    {
        let number = self.next;
        self.next = next;
        number
    }

    /// Binds one more name.
    pub(crate) fn bind(&mut self, x: &Name, number: u32) -> Made<()>
        ensures { OnOk result (self.new ≡ record self.old { scope = self.old.scope ++ (x.now, number) ∷ [] }) }
    {
        self.scope.bind(x, number)
    }

    /// Takes out the names that were bound after the first `mark`.
    pub(crate) fn leave(&mut self, mark: usize)
        ensures { self.new ≡ record self.old { scope = take mark self.old.scope } }
    {
        leave_in(&mut self.scope, mark);
    }
}

// Takes out the names that were bound after the first `mark`, if there are any.
#[tactic(auto, using(crate::proofs::Takes::take_laws))]
fn leave_in(scope: &mut Scope, mark: usize)
    ensures { scope.new ≡ take mark scope.old }
{
    if mark < scope.len() {
        scope.leave(mark);
    }
}
