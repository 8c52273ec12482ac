//! Atoms.

ghost use Rattle.std.specs.Prelude.{◌≤◌, ◌<◌, ◌+◌, ◌*◌, length, IfOk};
ghost use Rattle.tree_reading.specs.Limited.{read_atom_rest, read_call, read_comprehension, read_filled, read_parentheses, read_product, read_range, read_set, read_set_operator};
ghost use Rattle.tree_parser.specs.Reads.{Reads, part_read};

use crate::expected::expect_only;
use crate::expressions::expression;
use crate::lists::{conditions, gens, item, items, parts};
use crate::nodes::{self, TreeReading, Trees};
use crate::processes::tree;
use csp_base::{Name, SetOp};
use csp_text::{Symbol, Token, Tree};
use std::alloc::Global;
use tree_reading::deep::Deep;
use tree_reading::limits::Limits;
use tree_reading::look::{AtomStart, atom_start, expect, skip};
use tree_reading::read::{Binding, BoundRead, Read};

// A leaf, which is read.
fn leaf(alloc: Global, limits: Limits, tree: Deep<Tree>, tokens: &[Token]) -> TreeReading<'_>
    ensures reads { Reads result part_read 0 (λ L. read_atom_rest L limits (AtomStart.Leaf tree) tokens.now) }
    ensures shorter { IfOk result (λ r. length r.rest.now ≤ length tokens.now) }
{
    let part = nodes::leaf(alloc, tree)?;
    let _inner = limits.inside(tokens)?;
    Ok(Read { part, rest: tokens })
}

// What stands behind the parenthesis of a call.
#[cycle(reading)]
fn call(alloc: Global, limits: Limits, name: Name, tokens: &[Token]) -> TreeReading<'_>
    ensures reads { Reads result part_read (8 * length tokens.now + 3) (λ L. read_call L limits name tokens.now) }
    ensures shorter { IfOk result (λ r. length r.rest.now < length tokens.now) }
{
    let found = items(alloc, limits, tokens)?;
    let rest = expect(found.rest, Symbol::CloseParen)?;
    let part = nodes::call(alloc, name, found.part)?;
    Ok(Read { part, rest })
}

// What stands behind the word of an operator on sets.
#[cycle(reading)]
fn set_operator(alloc: Global, limits: Limits, op: SetOp, tokens: &[Token]) -> TreeReading<'_>
    ensures reads { Reads result part_read (8 * length tokens.now) (λ L. read_set_operator L limits op tokens.now) }
    ensures shorter { IfOk result (λ r. length r.rest.now < length tokens.now) }
{
    let opened = expect(tokens, Symbol::OpenParen)?;
    let first = item(alloc, limits, opened)?;
    let behind = expect(first.rest, Symbol::Comma)?;
    let second = item(alloc, limits, behind)?;
    let rest = expect(second.rest, Symbol::CloseParen)?;
    let part = nodes::set_operation(alloc, op, first.part, second.part)?;
    Ok(Read { part, rest })
}

// The upper bound of a range, behind the lower one.
#[cycle(reading)]
fn range<'t>(
    alloc: Global,
    limits: Limits,
    lower: BoundRead<'t, Trees>,
    tokens: &'t [Token],
) -> TreeReading<'t>
    ensures reads { Reads result part_read (8 * length tokens.now + 2)
        (λ L. read_range L limits lower.entry.binding lower.entry.part tokens.now) }
    ensures shorter { IfOk result (λ r. length r.rest.now < length tokens.now) }
{
    lower.binding.expect(Binding::Sum, tokens)?;
    let lower = expect_only(alloc, lower.part, tokens)?;
    let upper = expression(alloc, limits, Binding::Sum, tokens)?;
    let rest = expect(upper.rest, Symbol::CloseBrace)?;
    let part = nodes::range(alloc, lower, upper.part)?;
    Ok(Read { part, rest })
}

// The generators of a comprehension of these items.
#[cycle(reading)]
fn comprehension(alloc: Global, limits: Limits, items: Trees, tokens: &[Token]) -> TreeReading<'_>
    ensures reads { Reads result part_read (8 * length tokens.now + 3)
        (λ L. read_comprehension L limits items tokens.now) }
    ensures shorter { IfOk result (λ r. length r.rest.now < length tokens.now) }
{
    let found = gens(alloc, limits, tokens)?;
    let rest = expect(found.rest, Symbol::CloseBrace)?;
    let part = nodes::comprehension(alloc, items, found.part)?;
    Ok(Read { part, rest })
}

// What stands behind the brace of a set with items.
#[cycle(reading)]
fn set_rest(alloc: Global, limits: Limits, tokens: &[Token]) -> TreeReading<'_>
    ensures reads { Reads result part_read (8 * length tokens.now + 3) (λ L. read_filled L limits tokens.now) }
    ensures shorter { IfOk result (λ r. length r.rest.now < length tokens.now) }
{
    let found = items(alloc, limits, tokens)?;
    if let Some(behind) = skip(found.rest, Symbol::DotDot) {
        return range(alloc, limits, found, behind);
    }
    if let Some(behind) = skip(found.rest, Symbol::Bar) {
        return comprehension(alloc, limits, found.part, behind);
    }
    let rest = expect(found.rest, Symbol::CloseBrace)?;
    let part = nodes::display(alloc, found.part)?;
    Ok(Read { part, rest })
}

// What stands behind the brace of a set.
#[cycle(reading)]
fn set(alloc: Global, limits: Limits, tokens: &[Token]) -> TreeReading<'_>
    ensures reads { Reads result part_read (8 * length tokens.now + 3) (λ L. read_set L limits tokens.now) }
    ensures shorter { IfOk result (λ r. length r.rest.now < length tokens.now) }
{
    match skip(tokens, Symbol::CloseBrace) {
        Some(rest) => {
            let part = nodes::display(alloc, Deep::none(alloc))?;
            Ok(Read { part, rest })
        }
        None => set_rest(alloc, limits, tokens),
    }
}

// What stands behind the bracket of a production.
#[cycle(reading)]
fn product(alloc: Global, limits: Limits, tokens: &[Token]) -> TreeReading<'_>
    ensures reads { Reads result part_read (8 * length tokens.now + 1) (λ L. read_product L limits tokens.now) }
    ensures shorter { IfOk result (λ r. length r.rest.now < length tokens.now) }
{
    let found = parts(alloc, limits, tokens)?;
    let generators = conditions(alloc, limits, found.rest)?;
    let rest = expect(generators.rest, Symbol::CloseProduct)?;
    let part = nodes::product(alloc, found.part, generators.part)?;
    Ok(Read { part, rest })
}

// The tree in parentheses, behind the first of them.
#[cycle(reading)]
fn parentheses(alloc: Global, limits: Limits, tokens: &[Token]) -> TreeReading<'_>
    ensures reads { Reads result part_read (8 * length tokens.now + 5) (λ L. read_parentheses L limits tokens.now) }
    ensures shorter { IfOk result (λ r. length r.rest.now < length tokens.now) }
{
    let inner = tree(alloc, limits, tokens)?;
    let rest = expect(inner.rest, Symbol::CloseParen)?;
    let part = inner.part;
    Ok(Read { part, rest })
}

// The rest of an atom.
#[cycle(reading)]
fn atom_rest(alloc: Global, limits: Limits, start: AtomStart, tokens: &[Token]) -> TreeReading<'_>
    ensures reads { Reads result part_read (8 * length tokens.now + 5) (λ L. read_atom_rest L limits start tokens.now) }
    ensures shorter { IfOk result (λ r. length r.rest.now ≤ length tokens.now) }
{
    match start {
        AtomStart::Leaf(tree) => leaf(alloc, limits, tree, tokens),
        AtomStart::Call(name) => {
            let inner = limits.inside_bracket(tokens)?;
            call(alloc, inner, name, tokens)
        }
        AtomStart::SetOperator(op) => {
            let inner = limits.inside_bracket(tokens)?;
            set_operator(alloc, inner, op, tokens)
        }
        AtomStart::Parentheses => {
            let inner = limits.open_bracket(tokens)?;
            parentheses(alloc, inner, tokens)
        }
        AtomStart::Set => {
            let inner = limits.inside_bracket(tokens)?;
            set(alloc, inner, tokens)
        }
        AtomStart::Product => {
            let inner = limits.inside_bracket(tokens)?;
            product(alloc, inner, tokens)
        }
    }
}

/// The atom at the front of the tokens, within the limits.
#[cycle(reading)]
#[tactic(auto, using(crate::proofs::Counted::atom_counted))]
pub fn atom(alloc: Global, limits: Limits, tokens: &[Token]) -> TreeReading<'_>
    ensures reads { Reads result part_read (8 * length tokens.now + 1) (λ L. L.atom limits tokens.now) }
    ensures shorter { IfOk result (λ r. length r.rest.now < length tokens.now) }
{
    let (start, rest) = atom_start(alloc, tokens)?;
    atom_rest(alloc, limits, start, rest)
}
