//! A pool of processes: each stands in it once, and its sub-processes stand at smaller places.

ghost use Rattle.std.specs.Prelude.{◌≡◌, ◌<◌, [], true, length, slice_get, IfOk, OnErr, Some};
ghost use Rattle.csp_program.specs.Prelude.{proc_depth, proc_size, given_by, proc_with, proc_free};
ghost use Rattle.pool_parts.specs.Prelude.{capped, IsLow};
ghost use Rattle.term_pool.specs.Prelude.{with_first, parts, AreDifferent, Has, IsFront, PartsStandBelow, StandAt, Puts, places_below, tree_at, tree_of, AddsOne, AddsParts};

use crate::kept::{Nodes, entry_at, measure_at, put_first_in, put_in, put_made_in};
use crate::node::Node;
use crate::own_parts::{no_parts, node_at};
use crate::put::put_tree;
use crate::substitute::substitute_at;
use containers::{Items, Key, Numbering};
use csp_base::Made;
use csp_program::Proc;
use pool_parts::{Measure, ProcId};
use std::alloc::Global;
use std::collections::HashMap;
use std::marker::Model;
use substitution::Values;

/// A list of processes, all different. It keeps the allocator.
///
/// Contracts see the processes, and not the nodes by which they are kept.
pub struct Pool {
    alloc: Global,
    nodes: Nodes,
}

impl Drop for Pool {
    fn drop(self) {
        let Pool { alloc, nodes } = self;
    }
}

impl Model for Pool {
    ghost use Rattle.std.specs.Prelude.{List};
    ghost use Rattle.std.specs.Coded.{codes};
    ghost use Rattle.csp_program.specs.contracts.processes.Proc as process;
    ghost use Rattle.csp_program.specs.declared.processes.Proc.{Proc};
    ghost use Rattle.term_pool.specs.Held.{trees_in, AreKept};

    ghost Value = { List Proc };

    ghost coded = { Prim.hlevel (codes, process.the_row.coded) };

    ghost view = { λ p. trees_in p.nodes };

    ghost invariant = { λ p. AreKept p.nodes };
}

impl Pool {
    /// No processes. Nodes and their parts are found by their hashes under this key. It takes no memory yet.
    pub fn new(alloc: Global, key: Key) -> Pool
        ensures { result ≡ [] }
    {
        let key = key.quick();
        Pool {
            alloc,
            nodes: Nodes {
                parts: no_parts(alloc, key),
                entries: Numbering::under(alloc, key),
                measures: Items::new(alloc),
            },
        }
    }

    /// How many processes there are. Its contract says how they stand in the pool.
    pub fn len(&self) -> usize
        ensures value { result ≡ length self.now }
        ensures different { AreDifferent self.now }
        ensures parts { PartsStandBelow self.now }
    {
        self.nodes.entries.len()
    }

    /// The node at a place: with the processes at its places, which are smaller, it is the process there.
    pub fn node(&self, id: ProcId) -> Node<'_>
        requires { id.0 < length self.now }
        ensures process { tree_of self.now result ≡ tree_at self.now id }
        ensures places { places_below id.0 result ≡ true }
    {
        let entry = entry_at(&self.nodes, id);
        node_at(&self.nodes.parts, entry)
    }

    /// The depth of the process at a place: 1 without parts, else one more than the greatest depth among its processes and expressions, those in
    /// fields, pairs and generators included. Counting stops at 4,294,967,295.
    pub fn depth(&self, id: ProcId) -> u32
        requires { id.0 < length self.now }
        ensures { result ≡ capped (proc_depth (tree_at self.now id)) }
    {
        self.measure(id).depth
    }

    /// The size of the process at a place: 1 for each process, expression, field, pair and generator in it, and 1 more for each element of a set that
    /// was put in. Counting stops at 4,294,967,295.
    pub fn size(&self, id: ProcId) -> u32
        requires { id.0 < length self.now }
        ensures { result ≡ capped (proc_size (tree_at self.now id)) }
    {
        self.measure(id).size
    }

    /// What the process at a place measures.
    pub(crate) fn measure(&self, id: ProcId) -> Measure
        requires { id.0 < length self.now }
        ensures depth { result.depth ≡ capped (proc_depth (tree_at self.now id)) }
        ensures size { result.size ≡ capped (proc_size (tree_at self.now id)) }
        ensures low { IsLow result.least (proc_free (tree_at self.now id)) }
    {
        measure_at(&self.nodes, id)
    }

    /// The place of the process that the node is with the processes at its places. A new one goes to the end; for one that is known no memory is needed.
    pub fn put_node(&mut self, node: Node<'_>) -> Made<ProcId>
        requires { places_below (length self.old) node ≡ true }
        ensures process { IfOk result (λ id. slice_get self.new id.0 ≡ Some (tree_of self.old node.entry)) }
        ensures front { IsFront self.old self.new }
        ensures known { Has self.old (tree_of self.old node.entry) → self.new ≡ self.old }
        ensures only { AddsOne self.old self.new (tree_of self.old node.entry) }
        ensures err { OnErr result (self.new ≡ self.old) }
        ensures err_only_new { OnErr result (Has self.old (tree_of self.old node.entry) → ⊥) }
    {
        put_in(&mut self.nodes, node)
    }

    /// The place of the process at `id` with the process at `below` in place of its first sub-process; where it has none, of the process itself.
    /// A new one goes to the end. Its own parts are shared.
    pub fn put_with_first(&mut self, id: ProcId, below: ProcId) -> Made<ProcId>
        requires id { id.0 < length self.old }
        requires below { below.0 < length self.old }
        ensures { Puts self.old self.new result (with_first (tree_at self.old id) (tree_at self.old below)) }
    {
        put_first_in(&mut self.nodes, id, below)
    }

    /// The place of what the process at `id` becomes with the values in place of the names, where `ids` are the places of what its sub-processes become.
    pub(crate) fn put_made(
        &mut self,
        id: ProcId,
        ids: &Items<ProcId>,
        values: &Values<'_>,
    ) -> Made<ProcId>
        requires within { id.0 < length self.old }
        requires made { StandAt self.old ids.now (parts (proc_with (given_by values.now) (tree_at self.old id))) }
        ensures { Puts self.old self.new result (proc_with (given_by values.now) (tree_at self.old id)) }
    {
        put_made_in(&mut self.nodes, id, ids, values)
    }

    /// The place of the process, which is put into the pool with its sub-processes, each of them once. Where memory fails some of them are put.
    pub fn put(&mut self, proc: &Proc) -> Made<ProcId>
        ensures process { IfOk result (λ id. slice_get self.new id.0 ≡ Some proc.now) }
        ensures front { IsFront self.old self.new }
        ensures known { Has self.old proc.now → self.new ≡ self.old }
        ensures only { AddsParts self.old self.new proc.now }
    {
        let _ = self.len();
        put_tree(self, proc)
    }

    /// The place of what the process at `id` is with the values in place of its free names. What isn't in the pool is put into it, with its
    /// sub-processes, each of them once. Where memory fails some of them are put.
    pub fn put_all_in(&mut self, id: ProcId, values: &Values<'_>) -> Made<ProcId>
        requires { id.0 < length self.old }
        ensures process { IfOk result (λ made. slice_get self.new made.0
            ≡ Some (proc_with (given_by values.now) (tree_at self.old id))) }
        ensures front { IsFront self.old self.new }
        ensures known { Has self.old (proc_with (given_by values.now) (tree_at self.old id)) → self.new ≡ self.old }
        ensures only { AddsParts self.old self.new (proc_with (given_by values.now) (tree_at self.old id)) }
    {
        let _ = self.len();
        let mut visited = HashMap::new(self.alloc());
        substitute_at(self, &mut visited, &id, values)
    }

    /// Where memory comes from.
    pub fn alloc(&self) -> Global {
        self.alloc
    }
}
