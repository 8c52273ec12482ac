//! What stands below a node of a pool, and which of the values are left there.

ghost use Rattle.std.specs.Prelude.{◌≡◌, [], ◌∷◌, false, IfOk, OnOk};
ghost use Rattle.csp_program.specs.Substitution.{given_by};
ghost use Rattle.term_pool.specs.Prelude.{shown, left_below, IsLeft, places};

use crate::node::Node;
use containers::Items;
use csp_base::Made;
use pool_parts::ProcId;
use std::alloc::Global;
use substitution::{Values, any_field_binds, pass_fields};

/// One place, as a list.
pub(crate) fn one(alloc: Global, p: ProcId) -> Made<Items<ProcId>>
    ensures { IfOk result (λ ids. ids ≡ p ∷ []) }
{
    let mut ids = Items::new(alloc);
    ids.push(p)?;
    Ok(ids)
}

/// Two places, as a list.
pub(crate) fn two(alloc: Global, p: ProcId, q: ProcId) -> Made<Items<ProcId>>
    ensures { IfOk result (λ ids. ids ≡ p ∷ q ∷ []) }
{
    let mut ids = Items::new(alloc);
    ids.push(p)?;
    ids.push(q)?;
    Ok(ids)
}

fn copy_places(alloc: Global, ids: &Items<ProcId>) -> Made<Items<ProcId>>
    ensures { IfOk result (λ copy. copy ≡ ids.now) }
{
    Ok(Items::from_slice(alloc, ids.as_slice())?)
}

/// The places of the node's sub-processes.
pub(crate) fn places_of(alloc: Global, node: Node<'_>) -> Made<Items<ProcId>>
    ensures { IfOk result (λ ids. ids ≡ places node.entry) }
{
    match node {
        Node::Stop => Ok(Items::new(alloc)),
        Node::Prefix(_, _, p) => one(alloc, p),
        Node::Guard(_, p) => one(alloc, p),
        Node::If(_, p, q) => two(alloc, p, q),
        Node::External(ids) => copy_places(alloc, ids),
        Node::Internal(ids) => copy_places(alloc, ids),
        Node::EachExternal(_, _, p) => one(alloc, p),
        Node::EachInternal(_, _, p) => one(alloc, p),
        Node::Hide(p, _) => one(alloc, p),
        Node::Rename(p, _, _) => one(alloc, p),
        Node::Call(_, _) => Ok(Items::new(alloc)),
        Node::Skip => Ok(Items::new(alloc)),
        Node::Seq(p, q) => two(alloc, p, q),
        Node::Ended => Ok(Items::new(alloc)),
    }
}

// Whether the node binds one of the names in its sub-processes.
fn binds_one(node: Node<'_>, values: &Values<'_>) -> bool
    ensures { result ≡ false → left_below (shown node.entry) (given_by values.now) ≡ given_by values.now }
{
    match node {
        Node::Prefix(_, fields, _) => any_field_binds(fields.as_slice(), values),
        Node::EachExternal(name, _, _) => values.has(name),
        Node::EachInternal(name, _, _) => values.has(name),
        Node::Stop => false,
        Node::Guard(_, _) => false,
        Node::If(_, _, _) => false,
        Node::External(_) => false,
        Node::Internal(_) => false,
        Node::Hide(_, _) => false,
        Node::Rename(_, _, _) => false,
        Node::Call(_, _) => false,
        Node::Skip => false,
        Node::Seq(_, _) => false,
        Node::Ended => false,
    }
}

// Takes the values of the names away that the node binds in its sub-processes.
fn pass_node(node: Node<'_>, values: &mut Values<'_>) -> Made<()>
    ensures { OnOk result (given_by values.new ≡ left_below (shown node.entry) (given_by values.old)) }
{
    match node {
        Node::Prefix(_, fields, _) => pass_fields(values, fields.as_slice()),
        Node::EachExternal(name, _, _) => values.hide(name),
        Node::EachInternal(name, _, _) => values.hide(name),
        Node::Stop => Ok(()),
        Node::Guard(_, _) => Ok(()),
        Node::If(_, _, _) => Ok(()),
        Node::External(_) => Ok(()),
        Node::Internal(_) => Ok(()),
        Node::Hide(_, _) => Ok(()),
        Node::Rename(_, _, _) => Ok(()),
        Node::Call(_, _) => Ok(()),
        Node::Skip => Ok(()),
        Node::Seq(_, _) => Ok(()),
        Node::Ended => Ok(()),
    }
}

/// The values that are left below the node; `None` where it binds none of the names.
pub(crate) fn left_at<'a>(node: Node<'_>, values: &Values<'a>) -> Made<Option<Values<'a>>>
    ensures { IfOk result (IsLeft (shown node.entry) (given_by values.now)) }
{
    if !binds_one(node, values) {
        return Ok(None);
    }
    let mut left = values.copy()?;
    pass_node(node, &mut left)?;
    Ok(Some(left))
}
