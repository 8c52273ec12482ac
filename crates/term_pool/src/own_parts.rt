//! The own parts of the nodes of a pool.

ghost use Rattle.std.specs.Prelude.{◌≡◌, [], slice_get, IfOk, OnErr, Some};
ghost use Rattle.term_pool.specs.Prelude.{entry_layer, ArePartsOnce, Fits, HasParts, PartsStart, shown};
ghost use Rattle.csp_base.specs.Lists.{StandsIn};

use crate::entry::Entry;
use crate::node::Node;
use containers::{Items, QuickKey};
use csp_base::Made;
use csp_program::{EventPart, Expr, Field, Gen, Head};
use pool_parts::{ProcId, Store};
use std::alloc::Global;

/// The own parts of nodes, each kind in a store of its own, and the lists of places of choices.
#[derive(Drop)]
pub(crate) struct OwnParts {
    /// What prefixes begin with.
    pub heads: Store<Head>,
    /// The fields of prefixes.
    pub fields: Store<Items<Field>>,
    /// Conditions and sets.
    pub exprs: Store<Expr>,
    /// The arguments of calls.
    pub arguments: Store<Items<Expr>>,
    /// The pairs of renamings.
    pub pairs: Store<Items<(EventPart, EventPart)>>,
    /// The generators of renamings.
    pub gens: Store<Items<Gen>>,
    /// The places of the processes of choices.
    pub choices: Store<Items<ProcId>>,
}

/// No parts. They are found by their hashes under this key, and take no memory yet.
pub(crate) fn no_parts(alloc: Global, key: QuickKey) -> OwnParts
    ensures { result
        ≡ record { heads = []; fields = []; exprs = []; arguments = []; pairs = []; gens = []; choices = [] } }
{
    OwnParts {
        heads: Store::new(alloc, key),
        fields: Store::new(alloc, key),
        exprs: Store::new(alloc, key),
        arguments: Store::new(alloc, key),
        pairs: Store::new(alloc, key),
        gens: Store::new(alloc, key),
        choices: Store::new(alloc, key),
    }
}

/// Reads the parts of each kind: the contract of a store says that no part stands twice in it.
pub(crate) fn parts_once(parts: &OwnParts)
    ensures { ArePartsOnce parts.now }
{
    let _ = parts.heads.as_slice();
    let _ = parts.fields.as_slice();
    let _ = parts.exprs.as_slice();
    let _ = parts.arguments.as_slice();
    let _ = parts.pairs.as_slice();
    let _ = parts.gens.as_slice();
    let _ = parts.choices.as_slice();
}

// The number of an expression.
fn keep_expr(parts: &mut OwnParts, part: &Expr) -> Made<usize>
    ensures start { PartsStart parts.old parts.new }
    ensures place { IfOk result (λ place. slice_get parts.new.exprs place ≡ Some part.now) }
    ensures err_only_new { OnErr result (StandsIn parts.old.exprs part.now → ⊥) }
{
    parts.exprs.keep(part)
}

// The number of arguments.
fn keep_arguments(parts: &mut OwnParts, part: &Items<Expr>) -> Made<usize>
    ensures start { PartsStart parts.old parts.new }
    ensures place { IfOk result (λ place. slice_get parts.new.arguments place ≡ Some part.now) }
    ensures err_only_new { OnErr result (StandsIn parts.old.arguments part.now → ⊥) }
{
    parts.arguments.keep(part)
}

/// The number of the places of a choice.
pub(crate) fn keep_choice(parts: &mut OwnParts, part: &Items<ProcId>) -> Made<usize>
    ensures start { PartsStart parts.old parts.new }
    ensures place { IfOk result (λ place. slice_get parts.new.choices place ≡ Some part.now) }
    ensures err_only_new { OnErr result (StandsIn parts.old.choices part.now → ⊥) }
{
    parts.choices.keep(part)
}

// The numbers of a head and of fields.
fn keep_prefix(parts: &mut OwnParts, head: &Head, fields: &Items<Field>) -> Made<(usize, usize)>
    ensures start { PartsStart parts.old parts.new }
    ensures heads { IfOk result (λ own. slice_get parts.new.heads own.0 ≡ Some head.now) }
    ensures fields { IfOk result (λ own. slice_get parts.new.fields own.1 ≡ Some fields.now) }
    ensures err_only_new { OnErr result (StandsIn parts.old.heads head.now × StandsIn parts.old.fields fields.now → ⊥) }
{
    let head = parts.heads.keep(head)?;
    let fields = parts.fields.keep(fields)?;
    Ok((head, fields))
}

// The numbers of pairs and of generators.
fn keep_renaming(
    parts: &mut OwnParts,
    pairs: &Items<(EventPart, EventPart)>,
    gens: &Items<Gen>,
) -> Made<(usize, usize)>
    ensures start { PartsStart parts.old parts.new }
    ensures pairs { IfOk result (λ own. slice_get parts.new.pairs own.0 ≡ Some pairs.now) }
    ensures gens { IfOk result (λ own. slice_get parts.new.gens own.1 ≡ Some gens.now) }
    ensures err_only_new { OnErr result (StandsIn parts.old.pairs pairs.now × StandsIn parts.old.gens gens.now → ⊥) }
{
    let pairs = parts.pairs.keep(pairs)?;
    let gens = parts.gens.keep(gens)?;
    Ok((pairs, gens))
}

/// The entry of a node, whose own parts are kept.
#[tactic(auto, using(crate::proofs::EntryLemmas::starts_same))]
pub(crate) fn keep_node(parts: &mut OwnParts, node: Node<'_>) -> Made<Entry>
    ensures start { PartsStart parts.old parts.new }
    ensures fits { IfOk result (Fits parts.new) }
    ensures layer { IfOk result (λ entry. entry_layer parts.new entry ≡ shown node.entry) }
    ensures err_only_new { OnErr result (HasParts parts.old (shown node.entry) → ⊥) }
{
    match node {
        Node::Stop => Ok(Entry::Stop),
        Node::Prefix(head, fields, p) => {
            let own = keep_prefix(parts, head, fields);
            own.map(|(head, fields)| Entry::Prefix(head, fields, p))
        }
        Node::Guard(c, p) => keep_expr(parts, c).map(|c| Entry::Guard(c, p)),
        Node::If(c, p, q) => keep_expr(parts, c).map(|c| Entry::If(c, p, q)),
        Node::External(ids) => keep_choice(parts, ids).map(Entry::External),
        Node::Internal(ids) => keep_choice(parts, ids).map(Entry::Internal),
        Node::EachExternal(slot, set, p) => {
            keep_expr(parts, set).map(|set| Entry::EachExternal(slot, set, p))
        }
        Node::EachInternal(slot, set, p) => {
            keep_expr(parts, set).map(|set| Entry::EachInternal(slot, set, p))
        }
        Node::Hide(p, set) => keep_expr(parts, set).map(|set| Entry::Hide(p, set)),
        Node::Rename(p, pairs, gens) => {
            let own = keep_renaming(parts, pairs, gens);
            own.map(|(pairs, gens)| Entry::Rename(p, pairs, gens))
        }
        Node::Call(definition, args) => {
            keep_arguments(parts, args).map(|args| Entry::Call(definition, args))
        }
        Node::Skip => Ok(Entry::Skip),
        Node::Seq(p, q) => Ok(Entry::Seq(p, q)),
        Node::Ended => Ok(Entry::Ended),
    }
}

/// The node that an entry stands for.
pub(crate) fn node_at(parts: &OwnParts, entry: Entry) -> Node<'_>
    requires fits { Fits parts.now entry }
    ensures { shown result ≡ entry_layer parts.now entry }
{
    match entry {
        Entry::Stop => Node::Stop,
        Entry::Prefix(head, fields, p) => Node::Prefix(
            parts.heads.get(head),
            parts.fields.get(fields),
            p,
        ),
        Entry::Guard(c, p) => Node::Guard(parts.exprs.get(c), p),
        Entry::If(c, p, q) => Node::If(parts.exprs.get(c), p, q),
        Entry::External(ids) => Node::External(parts.choices.get(ids)),
        Entry::Internal(ids) => Node::Internal(parts.choices.get(ids)),
        Entry::EachExternal(slot, set, p) => Node::EachExternal(slot, parts.exprs.get(set), p),
        Entry::EachInternal(slot, set, p) => Node::EachInternal(slot, parts.exprs.get(set), p),
        Entry::Hide(p, set) => Node::Hide(p, parts.exprs.get(set)),
        Entry::Rename(p, pairs, gens) => Node::Rename(
            p,
            parts.pairs.get(pairs),
            parts.gens.get(gens),
        ),
        Entry::Call(definition, args) => Node::Call(definition, parts.arguments.get(args)),
        Entry::Skip => Node::Skip,
        Entry::Seq(p, q) => Node::Seq(p, q),
        Entry::Ended => Node::Ended,
    }
}
