//! The printed text of an event.

ghost use Rattle.std.specs.Prelude.{◌≡◌, ◌++◌, OnOk, IfOk, Some, slice_get};
ghost use Rattle.std.specs.List.{flat_map};
ghost use Rattle.report.specs.EventText.{channel_name, event_text, field_text, info_text, text_or_none};

use crate::lines::{Written, push_signed};
use csp_atoms::Atom;
use csp_base::{Bytes, Event, Made};
use csp_program::{Content, EventInfo, Program};
use std::alloc::Global;

// Adds the name of a constant; nothing past the end.
fn push_constant(text: &mut Bytes, content: &Content, constant: u32) -> Written
    ensures { OnOk result (text.new ≡ text.old ++ text_or_none (slice_get content.now.consts constant)) }
{
    match content.consts.get(constant as usize) {
        Some(name) => text.extend_from_slice(name.as_slice()),
        None => Ok(()),
    }
}

// Adds a field.
fn push_field(text: &mut Bytes, content: &Content, field: &Atom) -> Written
    ensures { OnOk result (text.new ≡ text.old ++ field_text content.now field.now) }
{
    text.push(b'.')?;
    match field {
        Atom::Num(number) => push_signed(text, *number),
        Atom::Const(constant) => push_constant(text, content, *constant),
        Atom::Truth(_) | Atom::Event(_) => Ok(()),
    }
}

// Adds fields.
fn push_fields(text: &mut Bytes, content: &Content, fields: &[Atom]) -> Written
    ensures { OnOk result (text.new ≡ text.old ++ flat_map (field_text content.now) fields.now) }
{
    for field in fields {
        push_field(text, content, field)?;
    }
    Ok(())
}

// Adds the name of a channel; nothing past the end.
fn push_channel(text: &mut Bytes, content: &Content, channel: u32) -> Written
    ensures { OnOk result (text.new ≡ text.old ++ channel_name (slice_get content.now.channels channel)) }
{
    match content.channels.get(channel as usize) {
        Some(channel) => text.extend_from_slice(channel.name.as_slice()),
        None => Ok(()),
    }
}

// Adds an event of the table.
fn push_info(text: &mut Bytes, content: &Content, info: &EventInfo) -> Written
    ensures { OnOk result (text.new ≡ text.old ++ info_text content.now (Some info.now)) }
{
    push_channel(text, content, info.channel)?;
    push_fields(text, content, info.fields.as_slice())
}

// Adds the event with this number.
pub(crate) fn push_event(text: &mut Bytes, content: &Content, event: Event) -> Written
    ensures { OnOk result (text.new ≡ text.old ++ event_text content.now event) }
{
    match content.events.get(event.0 as usize) {
        Some(info) => push_info(text, content, info),
        None => Ok(()),
    }
}

/// The event as reports print it: the name of its channel, and each field after a dot.
pub fn event_text(alloc: Global, program: &Program, event: Event) -> Made<Bytes>
    ensures { IfOk result (λ text. text ≡ event_text program.now event) }
{
    let mut text = Bytes::new(alloc);
    push_event(&mut text, program.content(), event)?;
    Ok(text)
}
