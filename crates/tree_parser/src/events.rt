//! Prefixes, with the events that they begin with.

ghost use Rattle.std.specs.Prelude.{◌≤◌, ◌<◌, ◌+◌, ◌*◌, length, IfOk, IfSome};
ghost use Rattle.tree_reading.specs.Limited.{read_event, read_field, read_input, read_prefixed};
ghost use Rattle.tree_parser.specs.Reads.{Reads, bound_read, field_read, next_field, part_read};

use crate::atoms::atom;
use crate::expected::expect_dotted;
use crate::expressions::expression;
use crate::nodes::{self, BoundTree, Event, Fields};
use crate::processes::prefix;
use csp_text::{FieldTree, Symbol, Token};
use std::alloc::Global;
use tree_reading::deep::Deep;
use tree_reading::fault::{OrNoText, expect_true};
use tree_reading::limits::Limits;
use tree_reading::look::{expect_name, skip};
use tree_reading::read::{Binding, Read, Reading};

// An input behind `?`.
#[cycle(reading)]
fn input(alloc: Global, limits: Limits, tokens: &[Token]) -> Reading<'_, (Deep<FieldTree>, bool)>
    ensures reads { Reads result field_read (8 * length tokens.now) (λ L. read_input L limits tokens.now) }
    ensures shorter { IfOk result (λ r. length r.rest.now < length tokens.now) }
{
    let (name, colon) = expect_name(alloc, tokens)?;
    match skip(colon, Symbol::Colon) {
        Some(behind) => {
            let set = atom(alloc, limits, behind)?;
            Ok(Read {
                part: (nodes::input_within(name, set.part), false),
                rest: set.rest,
            })
        }
        None => Ok(Read {
            part: (nodes::input(name), false),
            rest: colon,
        }),
    }
}

// The next field, if there is one, and whether one with a dot may follow it.
#[cycle(reading)]
fn field(
    alloc: Global,
    limits: Limits,
    dot: bool,
    tokens: &[Token],
) -> OrNoText<Option<Read<'_, (Deep<FieldTree>, bool)>>>
    ensures reads { Reads result next_field (8 * length tokens.now) (λ L. read_field L limits dot tokens.now) }
    ensures shorter { IfOk result (λ o. IfSome o (λ r. length r.rest.now < length tokens.now)) }
{
    if let Some(behind) = skip(tokens, Symbol::Dot) {
        expect_true(dot, behind)?;
        let value = expression(alloc, limits, Binding::Sum, behind)?;
        return Ok(Some(Read {
            part: (nodes::dot(value.part), true),
            rest: value.rest,
        }));
    }
    if let Some(behind) = skip(tokens, Symbol::Bang) {
        let value = expression(alloc, limits, Binding::Sum, behind)?;
        return Ok(Some(Read {
            part: (nodes::output(value.part), true),
            rest: value.rest,
        }));
    }
    match skip(tokens, Symbol::Question) {
        Some(behind) => {
            let found = input(alloc, limits, behind)?;
            Ok(Some(found))
        }
        None => Ok(None),
    }
}

// The fields of an event.
#[cycle(reading)]
fn fields(alloc: Global, limits: Limits, dot: bool, tokens: &[Token]) -> Reading<'_, Fields>
    ensures reads { Reads result part_read (8 * length tokens.now + 1) (λ L. L.fields limits dot tokens.now) }
    ensures shorter { IfOk result (λ r. length r.rest.now ≤ length tokens.now) }
{
    let mut all = Deep::none(alloc);
    let mut may_dot = dot;
    let mut rest = tokens;
    loop {
        let next = match field(alloc, limits, may_dot, rest) {
            Ok(next) => next,
            Err(fault) => return Err(fault),
        };
        match next {
            Some(found) => {
                let (field, dot_behind) = found.part;
                all.push(field)?;
                may_dot = dot_behind;
                rest = found.rest;
            }
            None => return Ok(Read { part: all, rest }),
        }
    }
}

// An event with what stands behind its arrow.
#[cycle(reading)]
fn event_rest(alloc: Global, limits: Limits, event: Event, tokens: &[Token]) -> BoundTree<'_>
    ensures reads { Reads result bound_read (8 * length tokens.now + 3)
        (λ L. read_prefixed L limits event.name event.fields tokens.now) }
    ensures shorter { IfOk result (λ r. length r.rest.now < length tokens.now) }
{
    let process = prefix(alloc, limits, tokens)?;
    process.binding.expect(Binding::Open, process.rest)?;
    let part = nodes::prefix(alloc, event, process.part)?;
    let rest = process.rest;
    Ok(Read { part, rest }.bind(process.binding.of_process()))
}

// An event of a prefix, or a dotted event.
#[cycle(reading)]
pub(crate) fn event(alloc: Global, limits: Limits, tokens: &[Token]) -> BoundTree<'_>
    ensures reads { Reads result bound_read (8 * length tokens.now) (λ L. read_event L limits tokens.now) }
    ensures shorter { IfOk result (λ r. length r.rest.now < length tokens.now) }
{
    let inner = limits.inside(tokens)?;
    let (name, rest) = expect_name(alloc, tokens)?;
    let found = fields(alloc, inner, true, rest)?;
    let rest = found.rest;
    let fields = found.part;
    if let Some(behind) = skip(rest, Symbol::Arrow) {
        return event_rest(alloc, inner, Event { name, fields }, behind);
    }
    let part = expect_dotted(alloc, name, fields, rest)?;
    Ok(Read { part, rest }.bind(Binding::Dotted))
}
