//! What the lines of a report are made of.

ghost use Rattle.std.specs.Prelude.{◌≡◌, ◌++◌, ◌+◌, ◌<◌, ◌∷◌, [], IfOk, OnOk, codes};
ghost use Rattle.csp_base.specs.Standard.{flat_map, decimal, signed_decimal};
ghost use Rattle.report.specs.Prelude.{events_text, more_events_text, numbers_text, set_text, trace_text, part_text, parts_text, words_text, event_text};
ghost use Rattle.report.specs.Parts.{value_text};
ghost use Rattle.csp_base.specs.Texts.{line};

use crate::events::push_event;
use csp_base::{Bytes, Event, EventSet, Made, Members};
use csp_program::Content;
use std::alloc::Global;

// What is written into a report, unless memory runs out.
pub(crate) type Written = Made<()>;

// A report, unless memory runs out.
pub(crate) type Printed = Made<Bytes>;

// A part of a line: words, and what stands after them.
#[derive(Clone, Copy)]
pub(crate) enum Part<'a> {
    // Nothing.
    Text(&'a [u8]),
    // A number.
    Number(&'a [u8], u32),
    // A number that may be larger.
    Count(&'a [u8], u64),
    // A number, with its sign where it is below 0.
    Signed(&'a [u8], i64),
    // Numbers, with a blank before each.
    Numbers(&'a [u8], &'a [u32]),
    // An event of a program.
    Event(&'a [u8], &'a Content, Event),
    // Events of a program in their order.
    Trace(&'a [u8], &'a Content, &'a [Event]),
    // A set of events of a program.
    Set(&'a [u8], &'a Content, &'a EventSet),
}

// Adds a digit.
fn push_digit(report: &mut Bytes, digit: u8) -> Written
    requires { digit < 10 }
    ensures { OnOk result (report.new ≡ report.old ++ (48 + digit) ∷ []) }
{
    report.push(b'0' + digit)
}

// Adds a number, digit after digit.
#[tactic(auto, using(std::proofs::lemmas::Fmt::decimal_digit, std::proofs::lemmas::Fmt::decimal_step))]
fn push_number(report: &mut Bytes, number: u64) -> Written
    ensures { OnOk result (report.new ≡ report.old ++ decimal number) }
{
    if number < 10 {
        return push_digit(report, number as u8);
    }
    push_number(report, number / 10)?;
    push_digit(report, (number % 10) as u8)
}

// Adds a number, with its sign where it is below 0.
pub(crate) fn push_signed(report: &mut Bytes, number: i64) -> Written
    ensures { OnOk result (report.new ≡ report.old ++ signed_decimal number) }
{
    if number < 0 {
        report.push(b'-')?;
        return push_number(report, number.unsigned_abs());
    }
    push_number(report, number as u64)
}

// Adds a number, with a blank before it.
fn push_apart(report: &mut Bytes, number: &u32) -> Written
    ensures { OnOk result (report.new ≡ report.old ++ (codes " " ++ decimal number.now)) }
{
    report.push(b' ')?;
    push_number(report, u64::from(*number))
}

// Adds numbers, with a blank before each.
fn push_numbers(report: &mut Bytes, numbers: &[u32]) -> Written
    ensures { OnOk result (report.new ≡ report.old ++ numbers_text numbers.now) }
{
    for number in numbers {
        push_apart(report, number)?;
    }
    Ok(())
}

// Adds an event, with a comma and a blank before it.
fn push_next(report: &mut Bytes, content: &Content, event: Event) -> Written
    ensures { OnOk result (report.new ≡ report.old ++ (codes ", " ++ event_text content.now event)) }
{
    report.extend_from_slice(b", ")?;
    push_event(report, content, event)
}

// Adds events, with a comma and a blank before each.
fn push_more(report: &mut Bytes, content: &Content, events: &[Event]) -> Written
    ensures { OnOk result (report.new ≡ report.old ++ more_events_text content.now events.now) }
{
    for event in events {
        push_next(report, content, *event)?;
    }
    Ok(())
}

// Adds events, with a comma and a blank between them.
fn push_events(report: &mut Bytes, content: &Content, events: &[Event]) -> Written
    ensures { OnOk result (report.new ≡ report.old ++ events_text content.now events.now) }
{
    let Some((first, more)) = events.split_first() else {
        return Ok(());
    };
    push_event(report, content, *first)?;
    push_more(report, content, more)
}

// Adds the members that are left, with a comma and a blank before each.
fn push_rest(report: &mut Bytes, content: &Content, members: Members<'_>) -> Written
    ensures { OnOk result (report.new ≡ report.old ++ more_events_text content.now members.entry) }
{
    for event in members {
        push_next(report, content, event)?;
    }
    Ok(())
}

// Adds the members of a set, with a comma and a blank between them.
fn push_members(report: &mut Bytes, content: &Content, set: &EventSet) -> Written
    ensures { OnOk result (report.new ≡ report.old ++ events_text content.now set.now) }
{
    let mut members = set.iter();
    let Some(first) = members.next() else {
        return Ok(());
    };
    push_event(report, content, first)?;
    push_rest(report, content, members)
}

// Adds a trace.
fn push_trace(report: &mut Bytes, content: &Content, events: &[Event]) -> Written
    ensures { OnOk result (report.new ≡ report.old ++ trace_text content.now events.now) }
{
    report.push(b'<')?;
    push_events(report, content, events)?;
    report.push(b'>')
}

// Adds a set.
fn push_set(report: &mut Bytes, content: &Content, set: &EventSet) -> Written
    ensures { OnOk result (report.new ≡ report.old ++ set_text content.now set.now) }
{
    report.push(b'{')?;
    push_members(report, content, set)?;
    report.push(b'}')
}

// Adds what stands after the words of a part.
fn push_value(report: &mut Bytes, part: &Part<'_>) -> Written
    ensures { OnOk result (report.new ≡ report.old ++ value_text part.now) }
{
    match part {
        Part::Text(_) => Ok(()),
        Part::Number(_, number) => push_number(report, u64::from(*number)),
        Part::Count(_, count) => push_number(report, *count),
        Part::Signed(_, number) => push_signed(report, *number),
        Part::Numbers(_, numbers) => push_numbers(report, numbers),
        Part::Event(_, content, event) => push_event(report, content, *event),
        Part::Trace(_, content, events) => push_trace(report, content, events),
        Part::Set(_, content, set) => push_set(report, content, set),
    }
}

// The words of a part.
fn words<'a>(part: &Part<'a>) -> &'a [u8]
    ensures { result.now ≡ words_text part.now }
{
    match part {
        Part::Text(words)
        | Part::Number(words, _)
        | Part::Count(words, _)
        | Part::Signed(words, _)
        | Part::Numbers(words, _)
        | Part::Event(words, _, _)
        | Part::Trace(words, _, _)
        | Part::Set(words, _, _) => words,
    }
}

// Adds a part.
fn push_part(report: &mut Bytes, part: &Part<'_>) -> Written
    ensures { OnOk result (report.new ≡ report.old ++ part_text part.now) }
{
    report.extend_from_slice(words(part))?;
    push_value(report, part)
}

// Adds parts, one after another.
fn push_parts(report: &mut Bytes, parts: &[Part<'_>]) -> Written
    ensures { OnOk result (report.new ≡ report.old ++ flat_map part_text parts.now) }
{
    for part in parts {
        push_part(report, part)?;
    }
    Ok(())
}

// Adds the text of these parts.
#[tactic(auto, using(crate::proofs::PartsText::parts_all))]
pub(crate) fn push_text(report: &mut Bytes, parts: &[Part<'_>]) -> Written
    ensures { OnOk result (report.new ≡ report.old ++ parts_text parts.now) }
{
    push_parts(report, parts)
}

// Adds a line of these parts.
pub(crate) fn push_line(report: &mut Bytes, parts: &[Part<'_>]) -> Written
    ensures { OnOk result (report.new ≡ report.old ++ line (parts_text parts.now)) }
{
    push_text(report, parts)?;
    report.push(b'\n')
}

// Adds the line of a text with a number after it.
pub(crate) fn push_count(report: &mut Bytes, text: &[u8], count: u64) -> Written
    ensures { OnOk result (report.new ≡ report.old ++ line (text.now ++ decimal count)) }
{
    push_line(report, &[Part::Count(text, count)])
}

// The line of these parts.
pub(crate) fn written_line(alloc: Global, parts: &[Part<'_>]) -> Printed
    ensures { IfOk result (λ made. made ≡ line (parts_text parts.now)) }
{
    let mut made = Bytes::new(alloc);
    push_line(&mut made, parts)?;
    Ok(made)
}

// A line of one text.
pub(crate) fn one_line(alloc: Global, text: &[u8]) -> Printed
    ensures { IfOk result (λ made. made ≡ line text.now) }
{
    written_line(alloc, &[Part::Text(text)])
}
