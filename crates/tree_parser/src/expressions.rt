//! Expressions, with the renamings behind operands.

ghost use Rattle.std.specs.Prelude.{◌≤◌, ◌<◌, ◌+◌, ◌*◌, length, IfOk};
ghost use Rattle.tree_reading.specs.Limited.{read_complement, read_negative, read_renaming, read_with};
ghost use Rattle.tree_parser.specs.Reads.{Reads, bound_read, part_read};

use crate::atoms::atom;
use crate::lists::{conditions, pairs};
use crate::nodes::{self, BoundTree, TreeReading};
use csp_text::{Symbol, Token, Word};
use std::alloc::Global;
use tree_reading::deep::DeepTree;
use tree_reading::limits::Limits;
use tree_reading::look::{Sign, expect, sign_behind, skip, skip_word};
use tree_reading::read::{Binding, BoundRead, Read};

// What stands behind `not`.
#[cycle(reading)]
fn complement(alloc: Global, limits: Limits, level: Binding, tokens: &[Token]) -> BoundTree<'_>
    ensures reads { Reads result bound_read (8 * length tokens.now + 2)
        (λ L. read_complement L limits level tokens.now) }
    ensures shorter { IfOk result (λ r. length r.rest.now < length tokens.now) }
{
    Binding::Complement.expect(level, tokens)?;
    let inner = limits.inside(tokens)?;
    let operand = expression(alloc, inner, Binding::Complement, tokens)?;
    let part = nodes::complement(alloc, operand.part)?;
    let rest = operand.rest;
    operators(
        alloc,
        limits,
        level,
        Read { part, rest }.bind(Binding::Complement),
    )
}

// What stands behind a minus.
#[cycle(reading)]
fn negative(alloc: Global, limits: Limits, level: Binding, tokens: &[Token]) -> BoundTree<'_>
    ensures reads { Reads result bound_read (8 * length tokens.now + 2) (λ L. read_negative L limits level tokens.now) }
    ensures shorter { IfOk result (λ r. length r.rest.now < length tokens.now) }
{
    Binding::Negative.expect(level, tokens)?;
    let inner = limits.inside(tokens)?;
    let operand = expression(alloc, inner, Binding::Negative, tokens)?;
    let part = nodes::negative(alloc, operand.part)?;
    let rest = operand.rest;
    operators(
        alloc,
        limits,
        level,
        Read { part, rest }.bind(Binding::Negative),
    )
}

// An expression whose operators outside brackets bind as tightly as the level, or tighter.
#[cycle(reading)]
#[tactic(auto, using(crate::proofs::Counted::expression_counted))]
pub(crate) fn expression(
    alloc: Global,
    limits: Limits,
    level: Binding,
    tokens: &[Token],
) -> BoundTree<'_>
    ensures reads { Reads result bound_read (8 * length tokens.now + 2) (λ L. L.expression limits level tokens.now) }
    ensures shorter { IfOk result (λ r. length r.rest.now < length tokens.now) }
{
    if let Some(rest) = skip_word(tokens, Word::Not) {
        return complement(alloc, limits, level, rest);
    }
    if let Some(rest) = skip(tokens, Symbol::Minus) {
        return negative(alloc, limits, level, rest);
    }
    let first = atom(alloc, limits, tokens)?;
    operators(alloc, limits, level, first.bind(Binding::Atom))
}

// The pairs of a renaming of this tree.
#[cycle(reading)]
fn renaming(alloc: Global, limits: Limits, left: DeepTree, tokens: &[Token]) -> TreeReading<'_>
    ensures reads { Reads result part_read (8 * length tokens.now + 1) (λ L. read_renaming L limits left tokens.now) }
    ensures shorter { IfOk result (λ r. length r.rest.now < length tokens.now) }
{
    let inner = limits.open_bracket(tokens)?;
    let found = pairs(alloc, inner, tokens)?;
    let generators = conditions(alloc, inner, found.rest)?;
    let rest = expect(generators.rest, Symbol::CloseRename)?;
    let part = nodes::renaming(alloc, left, found.part, generators.part)?;
    Ok(Read { part, rest })
}

// A tree with the sign behind it and what that takes to its right.
#[cycle(reading)]
fn with<'t>(alloc: Global, limits: Limits, left: DeepTree, sign: Read<'t, Sign>) -> BoundTree<'t>
    ensures reads { Reads result bound_read (8 * length sign.entry.rest.now + 2)
        (λ L. read_with L limits left sign.entry.part sign.entry.rest.now) }
    ensures shorter { IfOk result (λ r. length r.rest.now < length sign.entry.rest.now) }
{
    let tokens = sign.rest;
    let inner = limits.inside_with(&left, tokens)?;
    match sign.part {
        Sign::Operator(op, binding) => {
            let right = expression(alloc, inner, binding.tighter(), tokens)?;
            let part = nodes::binary(alloc, op, left, right.part)?;
            let rest = right.rest;
            Ok(Read { part, rest }.bind(binding))
        }
        Sign::Renaming => {
            let read = renaming(alloc, inner, left, tokens)?;
            Ok(read.bind(Binding::Renaming))
        }
    }
}

// The operators behind an operand.
#[cycle(reading)]
#[tactic(auto, using(crate::proofs::Counted::operators_counted))]
fn operators<'t>(
    alloc: Global,
    limits: Limits,
    level: Binding,
    left: BoundRead<'t, DeepTree>,
) -> BoundTree<'t>
    ensures reads { Reads result bound_read (8 * length left.entry.rest.now + 1)
        (λ L. L.operators limits level left.entry.binding left.entry.part left.entry.rest.now) }
    ensures shorter { IfOk result (λ r. length r.rest.now ≤ length left.entry.rest.now) }
{
    let Some(sign) = sign_behind(level, left.binding, left.rest) else {
        return Ok(left);
    };
    let longer = with(alloc, limits, left.part, sign)?;
    operators(alloc, limits, level, longer)
}
