//! Digraphs as rows of the targets of arcs.

ghost use Rattle.std.specs.Prelude.{◌≡◌, ℕ, ◌+◌, ◌<◌, ◌^◌, ◌==◌, ◌&&◌, ◌||◌, List, [], ◌∷◌, ◌++◌, length, replicate, slice_set, All, IfOk, OnOk, OnErr};
ghost use Rattle.digraph.specs.Digraph.{targets_of, has_arc, InRange};

use containers::{Items, empty_rows};
use std::alloc::{AllocError, Global};
use std::marker::Model;

/// A digraph: for each vertex the row of the targets of its arcs.
///
/// The vertices are the numbers below `len`, and each target is one of them.
pub struct Rows {
    rows: Vec<Items<u32>>,
}

impl Drop for Rows {
    fn drop(self) {
        let Rows { rows } = self;
    }
}

impl Model for Rows {
    ghost use Rattle.std.specs.Prelude.{ℕ, ◌<◌, ◌^◌, List, length};
    ghost use Rattle.digraph.specs.Digraph.{InRange};

    ghost Value = { List (List ℕ) };

    ghost view = { λ r. r.rows.items };

    ghost invariant = { λ r. (length r.rows.items < 2 ^ 32) × InRange r.rows.items };
}

impl Rows {
    /// `count` vertices and no arc.
    pub fn new(alloc: Global, count: u32) -> Result<Rows, AllocError>
        ensures { IfOk result (λ g. g ≡ replicate count []) }
    {
        let rows = empty_rows(alloc, count as usize)?;
        Ok(Rows { rows })
    }

    /// The number of vertices.
    pub fn len(&self) -> usize
        ensures value { result ≡ length self.now }
        ensures below { result < 2 ^ 32 }
        ensures in_range { InRange self.now }
    {
        self.rows.len()
    }

    /// The targets of the arcs that leave `v`, in the order in which the arcs were added.
    pub fn targets(&self, v: u32) -> &[u32]
        requires { v < length self.now }
        ensures value { result.now ≡ targets_of self.now v }
        ensures in_range { All (λ w. w < length self.now) result.now }
    {
        self.rows[v as usize].as_slice()
    }

    /// Adds an arc, at the end of the row of `from`.
    pub fn add_arc(&mut self, from: u32, to: u32) -> Result<(), AllocError>
        requires from { from < length self.old }
        requires to { to < length self.old }
        ensures row { OnOk result (self.new ≡ slice_set self.old from (targets_of self.old from ++ to ∷ [])) }
        ensures arcs { OnOk result ((v w : ℕ) → has_arc self.new v w
            ≡ (has_arc self.old v w || (v == from && w == to))) }
        ensures err { OnErr result (self.new ≡ self.old) }
        ensures len { length self.new ≡ length self.old }
    {
        push_target(&mut self.rows, from as usize, to)
    }
}

// Adds a target at the end of a row.
fn push_target(rows: &mut Vec<Items<u32>>, from: usize, to: u32) -> Result<(), AllocError>
    requires { from < length rows.old.items }
    ensures ok { OnOk result (rows.new.items ≡ slice_set rows.old.items from (targets_of rows.old.items from
        ++ to ∷ [])) }
    ensures err { OnErr result (rows.new.items ≡ rows.old.items) }
    ensures len { length rows.new.items ≡ length rows.old.items }
{
    rows[from].push(to)?;
    Ok(())
}
