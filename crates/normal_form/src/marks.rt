//! Marks that tell nodes with different acceptances apart.

ghost use Rattle.std.specs.Prelude.{◌≡◌, IfOk, ◌<◌, ◌^◌, length};
ghost use Rattle.normal_form.specs.Marks.{AreMarksOf};

use containers::{Items, Numbering};
use csp_base::{EventSet, Made};
use csp_tables::NormNode;
use std::alloc::Global;

// A number for each node. Two nodes have one number exactly where they have the same acceptances.
pub(crate) fn accept_marks(alloc: Global, nodes: &[NormNode]) -> Made<Vec<u32>>
    requires { length nodes.now < 2 ^ 32 }
    ensures { IfOk result (λ marks. AreMarksOf nodes.now marks.items) }
{
    let mut numbering = Numbering::new(alloc);
    let mut marks = Vec::new(alloc);
    for node in nodes {
        let key = accept_key(alloc, node.accept())?;
        let mark = numbering.number(key)?;
        marks.push(mark as u32)?;
    }
    Ok(marks)
}

// The sets as lists of numbers, which can be numbered.
fn accept_key(alloc: Global, sets: &[EventSet]) -> Made<Items<Items<u32>>>
    ensures { IfOk result (λ key. key ≡ sets.now) }
{
    let mut key = Items::new(alloc);
    for set in sets {
        key.push_made(event_numbers(alloc, set))?;
    }
    Ok(key)
}

// The numbers of the events of a set.
fn event_numbers(alloc: Global, set: &EventSet) -> Made<Items<u32>>
    ensures { IfOk result (λ numbers. numbers ≡ set.now) }
{
    let mut numbers = Items::new(alloc);
    for event in set.iter() {
        numbers.push(event.0)?;
    }
    Ok(numbers)
}
