//! The report of what is decided of a network.

ghost use Rattle.std.specs.Prelude.{◌≡◌, ◌++◌, IfOk, codes};
ghost use Rattle.csp_base.specs.Texts.{line};
ghost use Rattle.report.specs.Prelude.{shortfall_text, conforms_text, deadlock_free_text, done_text, livelock_free_text, verdict_text};

use crate::answer::{Done, Shortfall, Verdict};
use crate::lines::Part::{Signed, Text};
use crate::lines::{Printed, one_line, push_count, push_line};
use crate::printed::rule_name;
use crate::refusals::refusal_report;
use crate::runs::run;
use crate::shortfalls::push_shortfall;
use crate::tables::table;
use csp_program::Content;
use csp_tables::Rule;
use std::alloc::Global;

// The report of a network that is free of deadlock.
fn deadlock_free(
    alloc: Global,
    rule: Rule,
    components: u32,
    nodes: u32,
    bound: u32,
    greatest_rank: i64,
) -> Printed
    ensures { IfOk result (λ made. made ≡ deadlock_free_text rule components nodes bound greatest_rank) }
{
    let mut made = one_line(alloc, b"deadlock-free")?;
    push_line(&mut made, &[Text(b"rule "), Text(rule_name(rule))])?;
    push_count(&mut made, b"components ", u64::from(components))?;
    push_count(&mut made, b"nodes ", u64::from(nodes))?;
    push_count(&mut made, b"silent bound ", u64::from(bound))?;
    push_line(&mut made, &[Signed(b"greatest rank ", greatest_rank)])?;
    Ok(made)
}

// The report of a network whose components conform to its specification.
fn conforms(alloc: Global, components: u32, bound: u32) -> Printed
    ensures { IfOk result (λ made. made ≡ conforms_text components bound) }
{
    let mut made = one_line(alloc, b"conforms")?;
    push_count(&mut made, b"components ", u64::from(components))?;
    push_count(&mut made, b"silent bound ", u64::from(bound))?;
    Ok(made)
}

// The report of a network whose hidden events are bounded.
fn livelock_free(alloc: Global, components: u32, bound: u64) -> Printed
    ensures { IfOk result (λ made. made ≡ livelock_free_text components bound) }
{
    let mut made = one_line(alloc, b"livelock-free")?;
    push_count(&mut made, b"components ", u64::from(components))?;
    push_count(&mut made, b"hidden bound ", bound)?;
    Ok(made)
}

// The report of a network that is not proved.
fn not_proved(alloc: Global, content: &Content, shortfall: &Shortfall) -> Printed
    ensures { IfOk result (λ made. made ≡ line (codes "not proved") ++ shortfall_text content.now shortfall.now) }
{
    let mut made = one_line(alloc, b"not proved")?;
    push_shortfall(&mut made, content, shortfall)?;
    Ok(made)
}

// The report of what was done.
fn done(alloc: Global, content: &Content, done: &Done) -> Printed
    ensures { IfOk result (λ report. report ≡ done_text content.now done.now) }
{
    match done {
        Done::Table {
            component,
            count,
            part,
        } => table(alloc, content, (*component, *count), part.table().nodes()),
        Done::DeadlockFree {
            rule,
            components,
            nodes,
            bound,
            greatest_rank,
        } => deadlock_free(alloc, *rule, *components, *nodes, *bound, *greatest_rank),
        Done::Conforms { components, bound } => conforms(alloc, *components, *bound),
        Done::Walked { moves } => run(alloc, content, moves.as_slice(), b"goes on"),
        Done::LivelockFree { components, bound } => livelock_free(alloc, *components, *bound),
    }
}

// The report of a verdict on a network of this program.
pub(crate) fn verdict_report(alloc: Global, content: &Content, verdict: &Verdict) -> Printed
    ensures { IfOk result (λ report. report ≡ verdict_text content.now verdict.now) }
{
    match verdict {
        Verdict::Refused(side, refusal) => refusal_report(alloc, content, *side, refusal),
        Verdict::NotProved(shortfall) => not_proved(alloc, content, shortfall),
        Verdict::Stuck(moves) => run(alloc, content, moves.as_slice(), b"stuck"),
        Verdict::Done(what) => done(alloc, content, what),
    }
}
