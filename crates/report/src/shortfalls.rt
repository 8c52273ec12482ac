//! The lines that tell why a network is not proved.

ghost use Rattle.std.specs.Prelude.{◌≡◌, ◌++◌, OnOk, codes};
ghost use Rattle.csp_base.specs.Standard.{flat_map, decimal};
ghost use Rattle.csp_base.specs.Texts.{line};
ghost use Rattle.report.specs.Shortfalls.{after_text, broken_rule_text, condition_name, condition_number, link_text, shortfall_text};

use crate::answer::Shortfall;
use crate::lines::Part::{Number, Numbers, Text, Trace};
use crate::lines::{Part, Written, push_line};
use csp_base::{Bytes, Event};
use csp_program::Content;
use design_rules::{Condition, RuleFault};

// Adds the line of a link.
fn push_link(report: &mut Bytes, link: &(u32, u32)) -> Written
    ensures { OnOk result (report.new ≡ report.old ++ line (link_text link.now)) }
{
    push_line(report, &[Number(b"link ", link.0), Number(b" ", link.1)])
}

// Adds a line for each link.
fn push_links(report: &mut Bytes, links: &[(u32, u32)]) -> Written
    ensures { OnOk result (report.new ≡ report.old ++ flat_map (λ link. line (link_text link)) links.now) }
{
    for link in links {
        push_link(report, link)?;
    }
    Ok(())
}

// Adds the lines of links in a circle.
fn push_circle(report: &mut Bytes, links: &[(u32, u32)]) -> Written
    ensures { OnOk result (report.new ≡ report.old
        ++ (line (codes "24 links in a circle") ++ flat_map (λ link. line (link_text link)) links.now)) }
{
    push_line(report, &[Text(b"24 links in a circle")])?;
    push_links(report, links)
}

// Adds the first line of a link that no end takes whole.
fn push_open_link(report: &mut Bytes, left: u32, right: u32) -> Written
    ensures { OnOk result (report.new ≡ report.old
        ++ line (codes "25 link " ++ decimal left ++ codes " " ++ decimal right ++ codes " has no full end")) }
{
    push_line(
        report,
        &[
            Number(b"25 link ", left),
            Number(b" ", right),
            Text(b" has no full end"),
        ],
    )
}

// Adds the line of an end of such a link.
fn push_end<'a>(
    report: &mut Bytes,
    content: &'a Content,
    component: u32,
    trace: &'a [Event],
) -> Written
    ensures { OnOk result (report.new ≡ report.old ++ line (after_text content.now component trace.now)) }
{
    push_line(
        report,
        &[
            Number(b"component ", component),
            Trace(b" after ", content, trace),
        ],
    )
}

// The number under which it is told that a condition is broken.
fn condition_number(condition: Condition) -> &'static [u8]
    ensures { result.now ≡ condition_number condition }
{
    match condition {
        Condition::Roles
        | Condition::Clients
        | Condition::Turns
        | Condition::Service
        | Condition::Answers => b"26",
        Condition::Kinds | Condition::Holders | Condition::Grants | Condition::Uses => b"28",
    }
}

// The name of a condition.
fn condition_name(condition: Condition) -> &'static [u8]
    ensures { result.now ≡ condition_name condition }
{
    match condition {
        Condition::Roles => b"S1",
        Condition::Clients => b"S2",
        Condition::Turns => b"S3",
        Condition::Service => b"S4",
        Condition::Answers => b"S5",
        Condition::Kinds => b"U1",
        Condition::Holders => b"U2",
        Condition::Grants => b"U3",
        Condition::Uses => b"U4",
    }
}

// Adds the lines that tell what breaks a rule.
fn push_broken_rule<'a>(report: &mut Bytes, content: &'a Content, fault: &'a RuleFault) -> Written
    ensures { OnOk result (report.new ≡ report.old ++ broken_rule_text content.now fault.now) }
{
    match fault {
        RuleFault::NoOrder { part, trace, event } => push_line(
            report,
            &[
                Number(b"23 component ", *part),
                Trace(b" breaks C1 after ", content, trace.as_slice()),
                Part::Event(b" by ", content, *event),
            ],
        ),
        RuleFault::LinksCircle { links } => push_circle(report, links.as_slice()),
        RuleFault::NoWholeEnd {
            left,
            right,
            left_trace,
            right_trace,
        } => {
            push_open_link(report, *left, *right)?;
            push_end(report, content, *left, left_trace.as_slice())?;
            push_end(report, content, *right, right_trace.as_slice())
        }
        RuleFault::Broken {
            condition,
            part,
            trace,
        } => push_line(
            report,
            &[
                Text(condition_number(*condition)),
                Number(b" component ", *part),
                Text(b" breaks "),
                Text(condition_name(*condition)),
                Trace(b" after ", content, trace.as_slice()),
            ],
        ),
        RuleFault::ClientsCircle { clients } => push_line(
            report,
            &[Numbers(b"27 clients in a circle", clients.as_slice())],
        ),
        RuleFault::ResourcesCircle { resources } => push_line(
            report,
            &[Numbers(b"29 resources in a circle", resources.as_slice())],
        ),
    }
}

// Adds the lines of a shortfall.
pub(crate) fn push_shortfall<'a>(
    report: &mut Bytes,
    content: &'a Content,
    shortfall: &'a Shortfall,
) -> Written
    ensures { OnOk result (report.new ≡ report.old ++ shortfall_text content.now shortfall.now) }
{
    match shortfall {
        Shortfall::NotTripleDisjoint { event, components } => push_line(
            report,
            &[
                Part::Event(b"20 event ", content, *event),
                Number(b" is in alphabets ", components.0),
                Number(b" ", components.1),
                Number(b" ", components.2),
            ],
        ),
        Shortfall::Stops { component, trace } => push_line(
            report,
            &[
                Number(b"21 component ", *component),
                Trace(b" can stop after ", content, trace.as_slice()),
            ],
        ),
        Shortfall::Breaks(fault) => push_broken_rule(report, content, fault),
        Shortfall::Outside { component, trace } => push_line(
            report,
            &[
                Number(b"43 component ", *component),
                Trace(b" does ", content, trace.as_slice()),
                Text(b" outside its specification"),
            ],
        ),
        Shortfall::Refuses { component, trace } => push_line(
            report,
            &[
                Number(b"44 component ", *component),
                Trace(b" refuses too much after ", content, trace.as_slice()),
            ],
        ),
        Shortfall::NoOrder { components } => push_line(
            report,
            &[Numbers(b"39 no order for components", components.as_slice())],
        ),
    }
}
