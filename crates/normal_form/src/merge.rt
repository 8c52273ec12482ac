//! Merging of nodes by classes.

ghost use Rattle.std.specs.Prelude.{◌≡◌, ◌<◌, ◌++◌, [], ◌∷◌, IfOk, OnOk, length, map, slice_index, nat_eq, if◌then◌else◌};
ghost use Rattle.equal_futures.specs.Future.{NodesRise, SeenInOrder, StepsRise};
ghost use Rattle.normal_form.specs.Merged.{AreMerged, renamed};

use csp_base::{Event, EventSet, Made};
use csp_tables::NormNode;
use equal_futures::Classes;
use std::alloc::Global;

// One node for each class: the first node that has the class, with classes in place of nodes.
pub(crate) fn merge(alloc: Global, nodes: &[NormNode], classes: &Classes) -> Made<Vec<NormNode>>
    requires rising { NodesRise nodes.now }
    requires one_each { length classes.now.numbers.items ≡ length nodes.now }
    requires order { SeenInOrder 0 classes.now.numbers.items classes.now.count }
    ensures { IfOk result (λ merged. AreMerged nodes.now classes.now.numbers.items classes.now.count merged.items) }
{
    let numbers = classes.numbers.as_slice();
    let mut merged = Vec::new(alloc);
    for (place, node) in nodes.iter().enumerate() {
        add_first(alloc, &mut merged, node, numbers[place], numbers)?;
    }
    Ok(merged)
}

// Adds the node of a class, unless the class has one.
fn add_first(
    alloc: Global,
    merged: &mut Vec<NormNode>,
    node: &NormNode,
    class: u32,
    classes: &[u32],
) -> Made<()>
    requires { StepsRise (length classes.now) node.now.next }
    ensures { OnOk result (merged.new.items ≡ (if nat_eq class (length merged.old.items) then merged.old.items
        ++ renamed classes.now node.now ∷ [] else merged.old.items)) }
{
    if class as usize != merged.len() {
        return Ok(());
    }
    let first = rename(alloc, node, classes)?;
    push(merged, first)?;
    Ok(())
}

// Adds a node at the end.
fn push(merged: &mut Vec<NormNode>, node: NormNode) -> Made<()>
    ensures { OnOk result (merged.new.items ≡ merged.old.items ++ node ∷ []) }
{
    merged.push(node)?;
    Ok(())
}

// The node with classes in place of nodes.
fn rename(alloc: Global, node: &NormNode, classes: &[u32]) -> Made<NormNode>
    requires { StepsRise (length classes.now) node.now.next }
    ensures { IfOk result (λ made. made ≡ renamed classes.now node.now) }
{
    let next = steps_to_classes(alloc, node.next(), classes)?;
    let accept = copies(alloc, node.accept())?;
    Ok(NormNode::new(next, accept))
}

// The steps with classes in place of the nodes to which they lead.
fn steps_to_classes(
    alloc: Global,
    steps: &[(Event, u32)],
    classes: &[u32],
) -> Made<Vec<(Event, u32)>>
    requires { StepsRise (length classes.now) steps.now }
    ensures { IfOk result (λ made. made.items ≡ map (λ step. (step.0, slice_index classes.now step.1)) steps.now) }
{
    let mut made = Vec::new(alloc);
    for (event, to) in steps {
        made.push((*event, classes[*to as usize]))?;
    }
    Ok(made)
}

// Copies of the sets, in the same order.
fn copies(alloc: Global, sets: &[EventSet]) -> Made<Vec<EventSet>>
    ensures { IfOk result (λ made. made.items ≡ sets.now) }
{
    let mut made = Vec::new(alloc);
    for set in sets {
        let copy = set.try_clone(alloc)?;
        made.push(copy)?;
    }
    Ok(made)
}
