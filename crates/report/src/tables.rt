//! The printed table of a component.

ghost use Rattle.std.specs.Prelude.{◌≡◌, ◌++◌, IfOk, OnOk, codes};
ghost use Rattle.csp_base.specs.Standard.{flat_map, decimal};
ghost use Rattle.csp_base.specs.Texts.{line};
ghost use Rattle.report.specs.Report.{accept_text, next_text, node_text, nodes_text, table_text};

use crate::lines::Part::{Count, Number, Set};
use crate::lines::{Part, Printed, Written, push_count, push_line, written_line};
use csp_base::{Bytes, Event, EventSet};
use csp_program::Content;
use csp_tables::NormNode;
use std::alloc::Global;

// Adds the line of an event of a node.
fn push_step(report: &mut Bytes, content: &Content, node: u64, step: &(Event, u32)) -> Written
    ensures { OnOk result (report.new ≡ report.old ++ next_text content.now node step.now) }
{
    push_line(
        report,
        &[
            Count(b"", node),
            Part::Event(b" ", content, step.0),
            Number(b" -> ", step.1),
        ],
    )
}

// Adds the line of an acceptance of a node.
fn push_offer<'a>(report: &mut Bytes, content: &'a Content, node: u64, set: &'a EventSet) -> Written
    ensures { OnOk result (report.new ≡ report.old ++ accept_text content.now node set.now) }
{
    push_line(report, &[Count(b"", node), Set(b" accepts ", content, set)])
}

// Adds a line for each event of a node.
fn push_next(report: &mut Bytes, content: &Content, node: u64, steps: &[(Event, u32)]) -> Written
    ensures { OnOk result (report.new ≡ report.old ++ flat_map (next_text content.now node) steps.now) }
{
    for step in steps {
        push_step(report, content, node, step)?;
    }
    Ok(())
}

// Adds a line for each acceptance of a node.
fn push_accept(report: &mut Bytes, content: &Content, node: u64, sets: &[EventSet]) -> Written
    ensures { OnOk result (report.new ≡ report.old ++ flat_map (accept_text content.now node) sets.now) }
{
    for set in sets {
        push_offer(report, content, node, set)?;
    }
    Ok(())
}

// Adds the lines of a node.
fn push_node(report: &mut Bytes, content: &Content, number: u64, node: &NormNode) -> Written
    ensures { OnOk result (report.new ≡ report.old ++ node_text content.now number node.now) }
{
    push_next(report, content, number, node.next())?;
    push_accept(report, content, number, node.accept())
}

// Adds the lines of nodes.
fn push_nodes(report: &mut Bytes, content: &Content, nodes: &[NormNode]) -> Written
    ensures { OnOk result (report.new ≡ report.old ++ nodes_text content.now 0 nodes.now) }
{
    for (number, node) in nodes.iter().enumerate() {
        push_node(report, content, number as u64, node)?;
    }
    Ok(())
}

// The first two lines of the report of a table, of a component with its number and of so many.
fn head(alloc: Global, component: (u32, u32), nodes: usize) -> Printed
    ensures { IfOk result (λ made. made
        ≡ line (codes "component " ++ decimal component.0 ++ codes " of " ++ decimal component.1)
        ++ line (codes "nodes " ++ decimal nodes)) }
{
    let mut made = written_line(
        alloc,
        &[
            Number(b"component ", component.0),
            Number(b" of ", component.1),
        ],
    )?;
    push_count(&mut made, b"nodes ", nodes as u64)?;
    Ok(made)
}

// The report of a table, of a component with its number and of so many.
pub(crate) fn table(
    alloc: Global,
    content: &Content,
    component: (u32, u32),
    nodes: &[NormNode],
) -> Printed
    ensures { IfOk result (λ made. made ≡ table_text content.now component.0 component.1 nodes.now) }
{
    let mut made = head(alloc, component, nodes.len())?;
    push_nodes(&mut made, content, nodes)?;
    Ok(made)
}
