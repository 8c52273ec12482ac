//! The printed report of a run.

ghost use Rattle.std.specs.Prelude.{◌≡◌, ◌++◌, IfOk, OnOk, codes};
ghost use Rattle.csp_base.specs.Standard.{flat_map, decimal};
ghost use Rattle.csp_base.specs.Texts.{line};
ghost use Rattle.report.specs.Report.{move_text, run_text};

use crate::lines::Part::{Count, Number, Text};
use crate::lines::{Part, Printed, Written, push_line, written_line};
use csp_base::Bytes;
use csp_program::Content;
use numbered_walks::Move;
use std::alloc::Global;

// Adds the line of a step.
fn push_move(report: &mut Bytes, content: &Content, step: &Move) -> Written
    ensures { OnOk result (report.new ≡ report.old ++ move_text content.now step.now) }
{
    match step {
        Move::Silent(component) => push_line(
            report,
            &[Number(b"component ", *component), Text(b" silent")],
        ),
        Move::Event(event) => push_line(report, &[Part::Event(b"", content, *event)]),
    }
}

// Adds a line for each step.
fn push_moves(report: &mut Bytes, content: &Content, moves: &[Move]) -> Written
    ensures { OnOk result (report.new ≡ report.old ++ flat_map (move_text content.now) moves.now) }
{
    for step in moves {
        push_move(report, content, step)?;
    }
    Ok(())
}

// The first line.
fn head(alloc: Global, count: usize) -> Printed
    ensures { IfOk result (λ made. made ≡ line (codes "run of " ++ decimal count ++ codes " steps")) }
{
    let made = written_line(alloc, &[Count(b"run of ", count as u64), Text(b" steps")])?;
    Ok(made)
}

// The report of a run, with its last line.
pub(crate) fn run(alloc: Global, content: &Content, moves: &[Move], last: &[u8]) -> Printed
    ensures { IfOk result (λ made. made ≡ run_text content.now moves.now last.now) }
{
    let mut made = head(alloc, moves.len())?;
    push_moves(&mut made, content, moves)?;
    push_line(&mut made, &[Text(last)])?;
    Ok(made)
}
