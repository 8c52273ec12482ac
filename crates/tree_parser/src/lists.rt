//! Items, events, parts, pairs and generators, with the lists of them.

ghost use Rattle.std.specs.Prelude.{◌≤◌, ◌<◌, ◌+◌, ◌*◌, length, IfOk};
ghost use Rattle.tree_reading.specs.Limited.{read_condition, read_conditions, read_dotted, read_gen, read_item, read_pair, read_part, read_source};
ghost use Rattle.tree_parser.specs.Reads.{Reads, bound_read, part_read};

use crate::atoms::atom;
use crate::expected::expect_fields;
use crate::expressions::expression;
use crate::nodes::{self, BoundTree, Generators, Pairs, Parts, Trees};
use csp_base::Name;
use csp_text::{GenTree, PartTree, Symbol, Token};
use std::alloc::Global;
use tree_reading::deep::Deep;
use tree_reading::limits::Limits;
use tree_reading::look::{begins_event, expect, expect_name, first_name, skip};
use tree_reading::read::{Binding, BoundRead, BoundReading, Read, Reading, last_item};

// A dotted event.
#[cycle(reading)]
fn dotted_event(alloc: Global, limits: Limits, tokens: &[Token]) -> BoundTree<'_>
    ensures reads { Reads result bound_read (8 * length tokens.now) (λ L. read_dotted L limits tokens.now) }
    ensures shorter { IfOk result (λ r. length r.rest.now < length tokens.now) }
{
    let inner = limits.inside(tokens)?;
    let (name, rest) = expect_name(alloc, tokens)?;
    let fields = dots(alloc, inner, rest)?;
    let rest = fields.rest;
    let part = expect_fields(alloc, name, fields.part, rest)?;
    Ok(Read { part, rest }.bind(Binding::Dotted))
}

// An expression or a dotted event.
#[cycle(reading)]
pub(crate) fn item(alloc: Global, limits: Limits, tokens: &[Token]) -> BoundTree<'_>
    ensures reads { Reads result bound_read (8 * length tokens.now + 2) (λ L. read_item L limits tokens.now) }
    ensures shorter { IfOk result (λ r. length r.rest.now < length tokens.now) }
{
    if begins_event(tokens) {
        return dotted_event(alloc, limits, tokens);
    }
    expression(alloc, limits, Binding::Disjunction, tokens)
}

// Items with commas between them.
#[cycle(reading)]
pub(crate) fn items(alloc: Global, limits: Limits, tokens: &[Token]) -> BoundReading<'_, Trees>
    ensures reads { Reads result bound_read (8 * length tokens.now + 3) (λ L. L.items limits tokens.now) }
    ensures shorter { IfOk result (λ r. length r.rest.now < length tokens.now) }
{
    let mut items = Deep::none(alloc);
    let mut rest = tokens;
    loop {
        let found = match item(alloc, limits, rest) {
            Ok(found) => found,
            Err(fault) => return Err(fault),
        };
        let binding = last_item(&items, found.binding);
        items.push(found.part.unbox())?;
        match skip(found.rest, Symbol::Comma) {
            Some(behind) => rest = behind,
            None => {
                return Ok(BoundRead {
                    binding,
                    part: items,
                    rest: found.rest,
                });
            }
        }
    }
}

// Fields with a dot before each.
#[cycle(reading)]
fn dots(alloc: Global, limits: Limits, tokens: &[Token]) -> Reading<'_, Trees>
    ensures reads { Reads result part_read (8 * length tokens.now + 1) (λ L. L.dots limits tokens.now) }
    ensures shorter { IfOk result (λ r. length r.rest.now ≤ length tokens.now) }
{
    let mut fields = Deep::none(alloc);
    let mut rest = tokens;
    while let Some(behind) = skip(rest, Symbol::Dot) {
        let field = match expression(alloc, limits, Binding::Sum, behind) {
            Ok(field) => field,
            Err(fault) => return Err(fault),
        };
        fields.push(field.part.unbox())?;
        rest = field.rest;
    }
    Ok(Read { part: fields, rest })
}

// A name with fields that have a dot.
#[cycle(reading)]
fn part(alloc: Global, limits: Limits, tokens: &[Token]) -> Reading<'_, Deep<PartTree>>
    ensures reads { Reads result part_read (8 * length tokens.now) (λ L. read_part L limits tokens.now) }
    ensures shorter { IfOk result (λ r. length r.rest.now < length tokens.now) }
{
    let (name, rest) = expect_name(alloc, tokens)?;
    let fields = dots(alloc, limits, rest)?;
    Ok(Read {
        part: nodes::part(name, fields.part),
        rest: fields.rest,
    })
}

// Parts with commas between them.
#[cycle(reading)]
pub(crate) fn parts(alloc: Global, limits: Limits, tokens: &[Token]) -> Reading<'_, Parts>
    ensures reads { Reads result part_read (8 * length tokens.now + 1) (λ L. L.parts limits tokens.now) }
    ensures shorter { IfOk result (λ r. length r.rest.now < length tokens.now) }
{
    let mut all = Deep::none(alloc);
    let mut rest = tokens;
    loop {
        let found = match part(alloc, limits, rest) {
            Ok(found) => found,
            Err(fault) => return Err(fault),
        };
        all.push(found.part)?;
        match skip(found.rest, Symbol::Comma) {
            Some(behind) => rest = behind,
            None => {
                return Ok(Read {
                    part: all,
                    rest: found.rest,
                });
            }
        }
    }
}

// Two parts with an arrow between them.
#[cycle(reading)]
fn pair(alloc: Global, limits: Limits, tokens: &[Token]) -> Reading<'_, Deep<(PartTree, PartTree)>>
    ensures reads { Reads result part_read (8 * length tokens.now) (λ L. read_pair L limits tokens.now) }
    ensures shorter { IfOk result (λ r. length r.rest.now < length tokens.now) }
{
    let old = part(alloc, limits, tokens)?;
    let behind = expect(old.rest, Symbol::LeftArrow)?;
    let new = part(alloc, limits, behind)?;
    Ok(Read {
        part: nodes::pair(old.part, new.part),
        rest: new.rest,
    })
}

// Pairs with commas between them.
#[cycle(reading)]
pub(crate) fn pairs(alloc: Global, limits: Limits, tokens: &[Token]) -> Reading<'_, Pairs>
    ensures reads { Reads result part_read (8 * length tokens.now + 1) (λ L. L.pairs limits tokens.now) }
    ensures shorter { IfOk result (λ r. length r.rest.now < length tokens.now) }
{
    let mut all = Deep::none(alloc);
    let mut rest = tokens;
    loop {
        let found = match pair(alloc, limits, rest) {
            Ok(found) => found,
            Err(fault) => return Err(fault),
        };
        all.push(found.part)?;
        match skip(found.rest, Symbol::Comma) {
            Some(behind) => rest = behind,
            None => {
                return Ok(Read {
                    part: all,
                    rest: found.rest,
                });
            }
        }
    }
}

// What the name ranges over, behind its arrow.
#[cycle(reading)]
fn source<'t>(
    alloc: Global,
    limits: Limits,
    name: &Name,
    tokens: &'t [Token],
) -> Reading<'t, Deep<GenTree>>
    ensures reads { Reads result part_read (8 * length tokens.now + 1) (λ L. read_source L limits name.now tokens.now) }
    ensures shorter { IfOk result (λ r. length r.rest.now < length tokens.now) }
{
    let name = name.try_clone(alloc)?;
    let set = atom(alloc, limits, tokens)?;
    Ok(Read {
        part: nodes::source(name, set.part),
        rest: set.rest,
    })
}

// A condition among generators.
#[cycle(reading)]
fn condition(alloc: Global, limits: Limits, tokens: &[Token]) -> Reading<'_, Deep<GenTree>>
    ensures reads { Reads result part_read (8 * length tokens.now + 2) (λ L. read_condition L limits tokens.now) }
    ensures shorter { IfOk result (λ r. length r.rest.now < length tokens.now) }
{
    let test = expression(alloc, limits, Binding::Disjunction, tokens)?;
    Ok(Read {
        part: nodes::condition(test.part),
        rest: test.rest,
    })
}

// A generator or a condition.
#[cycle(reading)]
fn generator(alloc: Global, limits: Limits, tokens: &[Token]) -> Reading<'_, Deep<GenTree>>
    ensures reads { Reads result part_read (8 * length tokens.now + 2) (λ L. read_gen L limits tokens.now) }
    ensures shorter { IfOk result (λ r. length r.rest.now < length tokens.now) }
{
    let Some((name, arrow)) = first_name(tokens) else {
        return condition(alloc, limits, tokens);
    };
    match skip(arrow, Symbol::LeftArrow) {
        Some(behind) => source(alloc, limits, name, behind),
        None => condition(alloc, limits, tokens),
    }
}

// Generators with commas between them.
#[cycle(reading)]
pub(crate) fn gens(alloc: Global, limits: Limits, tokens: &[Token]) -> Reading<'_, Generators>
    ensures reads { Reads result part_read (8 * length tokens.now + 3) (λ L. L.gens limits tokens.now) }
    ensures shorter { IfOk result (λ r. length r.rest.now < length tokens.now) }
{
    let mut all = Deep::none(alloc);
    let mut rest = tokens;
    loop {
        let found = match generator(alloc, limits, rest) {
            Ok(found) => found,
            Err(fault) => return Err(fault),
        };
        all.push(found.part)?;
        match skip(found.rest, Symbol::Comma) {
            Some(behind) => rest = behind,
            None => {
                return Ok(Read {
                    part: all,
                    rest: found.rest,
                });
            }
        }
    }
}

// Generators behind a bar, or none.
#[cycle(reading)]
pub(crate) fn conditions(alloc: Global, limits: Limits, tokens: &[Token]) -> Reading<'_, Generators>
    ensures reads { Reads result part_read (8 * length tokens.now) (λ L. read_conditions L limits tokens.now) }
    ensures shorter { IfOk result (λ r. length r.rest.now ≤ length tokens.now) }
{
    match skip(tokens, Symbol::Bar) {
        Some(behind) => gens(alloc, limits, behind),
        None => Ok(Read {
            part: Deep::none(alloc),
            rest: tokens,
        }),
    }
}
