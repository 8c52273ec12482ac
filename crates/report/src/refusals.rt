//! The lines that tell why a text has no program, or why a program is refused.

ghost use Rattle.std.specs.Prelude.{◌≡◌, ◌+◌, ◌++◌, IfOk, OnOk, codes};
ghost use Rattle.std.specs.Fmt.{decimal};
ghost use Rattle.csp_base.specs.Texts.{line};
ghost use Rattle.report.specs.Prelude.{component_text, nesting_text, network_text, program_text, refusal_text, text_fault_text, value_text, side_line, refused_text};

use crate::answer::{Refusal, Side, Site, TextFault};
use crate::lines::Part::{Count, Number, Text, Trace};
use crate::lines::{Part, Printed, Written, one_line, push_text};
use crate::printed::{kind_name, push_site, side_line, side_name};
use csp_base::{Bytes, Event};
use csp_program::{Content, ValueKind};
use dl_limits::{MOST_COMPONENTS, MOST_NETWORK_DEPTH, MOST_SETS, MOST_TERM_DEPTH, MOST_TERMS};
use network_trees::LayoutFault;
use process_steps::ComponentFault;
use script_names::ResolveFault;
use std::alloc::Global;

// Adds that there is no value.
fn push_value(report: &mut Bytes, kind: ValueKind, at: Site) -> Written
    ensures { OnOk result (report.new ≡ report.old ++ value_text kind at) }
{
    let kind = kind_name(kind);
    push_text(report, &[Text(b"2 value fault "), Text(kind)])?;
    push_site(report, at)
}

// Adds that the operand of a component and so many more differs from its alphabet.
fn push_differing(
    report: &mut Bytes,
    content: &Content,
    components: (u32, u32),
    event: Event,
) -> Written
    ensures { OnOk result (report.new ≡ report.old
        ++ nesting_text content.now components.0 (1 + components.1) event) }
{
    let last = u64::from(components.0) + u64::from(components.1);
    push_text(
        report,
        &[
            Number(b"14 components ", components.0),
            Count(b" to ", last),
            Part::Event(b" differ from their alphabet at ", content, event),
        ],
    )
}

// Adds that the operand of the first of so many components differs from its alphabet.
fn push_nesting(
    report: &mut Bytes,
    content: &Content,
    components: (u32, u32),
    event: Event,
) -> Written
    ensures { OnOk result (report.new ≡ report.old
        ++ nesting_text content.now components.0 components.1 event) }
{
    if components.1 == 0 {
        return push_text(
            report,
            &[
                Part::Event(b"14 an empty operand has ", content, event),
                Text(b" in its alphabet"),
            ],
        );
    }
    push_differing(report, content, (components.0, components.1 - 1), event)
}

// Adds why a script has no program.
fn push_program_fault(report: &mut Bytes, fault: &ResolveFault) -> Written
    ensures { OnOk result (report.new ≡ report.old ++ program_text fault.now) }
{
    match fault {
        ResolveFault::NoAssert => report.extend_from_slice(b"3 no deadlock assertion"),
        ResolveFault::Unknown { inside, name } => push_text(
            report,
            &[
                Text(b"4 unknown name "),
                Text(name.as_slice()),
                Number(b" in declaration ", *inside),
            ],
        ),
        ResolveFault::Twice { inside, name } => push_text(
            report,
            &[
                Text(b"5 name "),
                Text(name.as_slice()),
                Number(b" is declared twice in declaration ", *inside),
            ],
        ),
        ResolveFault::WrongKind { inside } => {
            push_text(report, &[Number(b"6 wrong kind in declaration ", *inside)])
        }
        ResolveFault::WrongCount { inside, name } => push_text(
            report,
            &[
                Text(b"7 wrong count for "),
                Text(name.as_slice()),
                Number(b" in declaration ", *inside),
            ],
        ),
        ResolveFault::ParallelInside { inside } => push_text(
            report,
            &[Number(b"8 parallel inside a component in declaration ", *inside)],
        ),
        ResolveFault::EventLimit { count } => push_text(
            report,
            &[Count(b"9 there are ", *count), Text(b" events")],
        ),
        ResolveFault::DataDepth { inside } => {
            push_text(
                report,
                &[Number(b"33 data too deep in declaration ", *inside)],
            )
        }
        ResolveFault::Value { inside, kind } => push_text(
            report,
            &[
                Text(b"2 value fault "),
                Text(kind_name(*kind)),
                Number(b" in declaration ", *inside),
            ],
        ),
    }
}

// Adds why a component has no normal table.
fn push_component_fault<'a>(
    report: &mut Bytes,
    content: &'a Content,
    i: u32,
    fault: &'a ComponentFault,
) -> Written
    ensures { OnOk result (report.new ≡ report.old ++ component_text content.now i fault.now) }
{
    match fault {
        ComponentFault::Value { kind } => push_value(report, *kind, Site::Component(i)),
        ComponentFault::TermCount => push_text(
            report,
            &[
                Number(b"10 component ", i),
                Count(b" has more than ", MOST_TERMS as u64),
                Text(b" terms"),
            ],
        ),
        ComponentFault::TermDepth => push_text(
            report,
            &[
                Number(b"10 component ", i),
                Number(b" has a term of depth over ", MOST_TERM_DEPTH),
            ],
        ),
        ComponentFault::TermTotal => {
            push_text(
                report,
                &[
                    Number(b"10 component ", i),
                    Text(b" has terms that are too large"),
                ],
            )
        }
        ComponentFault::StepCount => {
            push_text(
                report,
                &[Number(b"11 component ", i), Text(b" has too many steps")],
            )
        }
        ComponentFault::Diverges => push_text(
            report,
            &[Number(b"12 component ", i), Text(b" diverges")],
        ),
        ComponentFault::SubsetLimit => {
            push_text(
                report,
                &[
                    Number(b"13 component ", i),
                    Count(b" has more than ", MOST_SETS as u64),
                    Text(b" sets of terms"),
                ],
            )
        }
        ComponentFault::Terminates { trace } => push_text(
            report,
            &[
                Number(b"19 component ", i),
                Trace(b" can terminate after ", content, trace.as_slice()),
            ],
        ),
    }
}

// Adds why a program spells no network.
fn push_network_fault(report: &mut Bytes, content: &Content, fault: &LayoutFault) -> Written
    ensures { OnOk result (report.new ≡ report.old ++ network_text content.now fault.now) }
{
    match fault {
        LayoutFault::Value { kind } => push_value(report, *kind, Site::Network),
        LayoutFault::BadNesting {
            first,
            count,
            event,
        } => push_nesting(report, content, (*first, *count), *event),
        LayoutFault::EmptyNetwork => report.extend_from_slice(b"15 the network has no components"),
        LayoutFault::ComponentLimit => push_text(
            report,
            &[
                Count(b"16 more than ", MOST_COMPONENTS as u64),
                Text(b" components"),
            ],
        ),
        LayoutFault::NetworkDepth => {
            push_text(
                report,
                &[Number(b"34 the network is nested deeper than ", MOST_NETWORK_DEPTH)],
            )
        }
    }
}

// Adds why the text of this side has no program.
fn push_text_fault(report: &mut Bytes, side: Side, fault: &TextFault) -> Written
    ensures { OnOk result (report.new ≡ report.old ++ text_fault_text side fault.now) }
{
    match fault {
        TextFault::TooLong => push_text(
            report,
            &[Text(b"36 "), Text(side_name(side)), Text(b" is too long")],
        ),
        TextFault::NoScript { at } => push_text(
            report,
            &[
                Number(b"1 no script near line ", at.line),
                Number(b" column ", at.column),
            ],
        ),
        TextFault::Unresolved(fault) => push_program_fault(report, fault),
    }
}

// Adds why a program is refused.
fn push_refusal(report: &mut Bytes, content: &Content, refusal: &Refusal) -> Written
    ensures { OnOk result (report.new ≡ report.old ++ refusal_text content.now refusal.now) }
{
    match refusal {
        Refusal::Value { kind, site } => push_value(report, *kind, *site),
        Refusal::Network(fault) => push_network_fault(report, content, fault),
        Refusal::Component { component, fault } => {
            push_component_fault(report, content, *component, fault)
        }
        Refusal::NoComponent { count } => {
            push_text(
                report,
                &[Number(b"35 there are ", *count), Text(b" components")],
            )
        }
        Refusal::DifferentEvents { number } => {
            push_text(
                report,
                &[Number(b"41 the events differ at number ", *number)],
            )
        }
        Refusal::DifferentComponents { component } => {
            push_text(report, &[Number(b"42 components differ at ", *component)])
        }
        Refusal::NoSet => report.extend_from_slice(b"37 no such set"),
        Refusal::BoundLimit { component } => push_text(
            report,
            &[Number(b"38 hidden bound passes 64 bits at component ", *component)],
        ),
    }
}

// What stands before the reason for which the text of this side is refused.
fn refusal_head(alloc: Global, side: Side) -> Printed
    ensures { IfOk result (λ made. made ≡ line (codes "refused") ++ side_line side) }
{
    let mut made = one_line(alloc, b"refused")?;
    made.extend_from_slice(side_line(side))?;
    Ok(made)
}

// The report where the text of this side has no program.
pub(crate) fn text_fault_report(alloc: Global, side: Side, fault: &TextFault) -> Printed
    ensures { IfOk result (λ made. made ≡ refused_text side (text_fault_text side fault.now)) }
{
    let mut made = refusal_head(alloc, side)?;
    push_text_fault(&mut made, side, fault)?;
    made.push(b'\n')?;
    Ok(made)
}

// The report where the program of this side is refused.
pub(crate) fn refusal_report(
    alloc: Global,
    content: &Content,
    side: Side,
    refusal: &Refusal,
) -> Printed
    ensures { IfOk result (λ made. made ≡ refused_text side (refusal_text content.now refusal.now)) }
{
    let mut made = refusal_head(alloc, side)?;
    push_refusal(&mut made, content, refusal)?;
    made.push(b'\n')?;
    Ok(made)
}
