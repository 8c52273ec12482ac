//! What was read, with its depth.

ghost use Rattle.std.specs.Prelude.{◌≡◌, ℕ, ◌+◌, [], ◌∷◌, ◌++◌, max, map, OnErr, OnOk};
ghost use Rattle.csp_base.specs.Lists.{greatest};
ghost use Rattle.csp_text.specs.Depth.{capped, field_depth, gen_depth, part_depth, tree_depth};

use containers::{Boxed, Items};
use csp_text::{FieldTree, GenTree, PartTree, Tree};
use std::alloc::{AllocError, Global};
use std::marker::Model;

/// What trees stand in: its depth is that of the deepest of them.
pub trait Nested {
    ghost depth: { Self → ℕ };
}

impl Nested for Tree {
    ghost depth = { tree_depth };
}

impl Nested for FieldTree {
    ghost depth = { field_depth };
}

impl Nested for GenTree {
    ghost depth = { gen_depth };
}

impl Nested for PartTree {
    ghost depth = { part_depth };
}

impl<A: Nested, B: Nested> Nested for (A, B) {
    ghost depth = { λ pair. max (A.depth pair.0) (B.depth pair.1) };
}

impl<T: Nested> Nested for Boxed<T> {
    ghost depth = { T.depth };
}

impl<T: Nested> Nested for Items<T> {
    ghost depth = { λ items. greatest (map T.depth items) };
}

/// The greater of two depths.
pub fn greater(a: u32, b: u32) -> u32
    ensures { result ≡ max a b }
{
    if a < b { b } else { a }
}

/// What trees stand in, with its depth as far as 32 bits count. Contracts see it without the depth.
#[derive(Drop)]
pub struct Deep<T: Nested> {
    part: T,
    depth: u32,
}

impl<T: Nested> Model for Deep<T> {
    ghost Value = { T };

    ghost coded = { T.code };

    ghost view = { λ deep. deep.part };

    ghost invariant = { λ deep. deep.depth ≡ capped (T.depth deep.part) };
}

impl<T: Nested> Deep<T> {
    /// What has this depth.
    pub fn new(part: T, depth: u32) -> Deep<T>
        requires { depth ≡ capped (T.depth part) }
        ensures { result ≡ part }
    {
        Deep { part, depth }
    }

    /// The depth.
    pub fn depth(&self) -> u32
        ensures { result ≡ capped (T.depth self.now) }
    {
        self.depth
    }

    /// What has the depth.
    pub fn get(&self) -> &T
        ensures { result.now ≡ self.now }
    {
        &self.part
    }

    /// Moves out what has the depth.
    pub fn into_inner(self) -> T
        ensures { result ≡ self }
    {
        let Deep { part, depth: _ } = self;
        part
    }
}

impl Deep<Tree> {
    /// A tree that has no parts.
    pub fn leaf(tree: Tree) -> Deep<Tree>
        requires { tree_depth tree ≡ 1 }
        ensures { result ≡ tree }
    {
        Deep::new(tree, 1)
    }
}

/// A tree with its depth.
pub type DeepTree = Deep<Boxed<Tree>>;

impl Deep<Boxed<Tree>> {
    /// A node over parts of which the deepest has this depth.
    pub fn node(tree: Boxed<Tree>, below: u32) -> Deep<Boxed<Tree>>
        requires { capped (below + 1) ≡ capped (tree_depth tree) }
        ensures { result ≡ tree }
    {
        Deep::new(tree, below.saturating_add(1))
    }
}

impl<T: Nested> Deep<Boxed<T>> {
    /// The same, taken from the heap.
    pub fn unbox(self) -> Deep<T>
        ensures { result ≡ self }
    {
        let depth = self.depth();
        Deep::new(self.into_inner().into_inner(), depth)
    }
}

impl<T: Nested + Drop> Deep<Items<T>> {
    /// No items.
    pub fn none(alloc: Global) -> Deep<Items<T>>
        ensures { result ≡ [] }
    {
        Deep::new(Items::new(alloc), 0)
    }

    /// Puts an item at the end. Where there is no memory for it, it is dropped.
    pub fn push(&mut self, item: Deep<T>) -> Result<(), AllocError>
        ensures ok { OnOk result (self.new ≡ self.old ++ item ∷ []) }
        ensures err { OnErr result (self.new ≡ self.old) }
    {
        let depth = greater(self.depth, item.depth());
        self.part.push(item.into_inner())?;
        self.depth = depth;
        Ok(())
    }
}
