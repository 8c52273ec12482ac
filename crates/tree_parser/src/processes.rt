//! Processes, and trees.

ghost use Rattle.std.specs.Prelude.{◌≤◌, ◌<◌, ◌+◌, ◌*◌, length, IfOk};
ghost use Rattle.tree_reading.specs.Limited.{read_binder, read_branches, read_chain, read_each, read_each_parallel, read_followed, read_guard, read_guarded, read_hiding, read_if, read_opened, read_parallel, read_side};
ghost use Rattle.tree_parser.specs.Reads.{Reads, bound_read, operand_read, part_read, read_operand, read_operands};

use crate::atoms::atom;
use crate::events::event;
use crate::expressions::expression;
use crate::nodes::{self, Binder, BoundTree, Side, TreeReading, Trees};
use csp_text::{Symbol, Token, Word};
use std::alloc::Global;
use tree_reading::deep::{Deep, DeepTree};
use tree_reading::fault::OrNoText;
use tree_reading::limits::Limits;
use tree_reading::look::{
    Chain, PrefixStart, expect, expect_name, expect_word, first_chain, prefix_start, skip,
};
use tree_reading::read::{Binding, BoundRead, BoundReading, Read, Reading};

// The two parts of an `if`, behind `then`.
#[cycle(reading)]
fn branches(alloc: Global, limits: Limits, condition: DeepTree, tokens: &[Token]) -> BoundTree<'_>
    ensures reads { Reads result bound_read (8 * length tokens.now + 5)
        (λ L. read_branches L limits condition tokens.now) }
    ensures shorter { IfOk result (λ r. length r.rest.now < length tokens.now) }
{
    let first = tree(alloc, limits, tokens)?;
    let behind = expect_word(first.rest, Word::Else)?;
    let second = tree(alloc, limits, behind)?;
    let part = nodes::conditional(alloc, condition, first.part, second.part)?;
    let rest = second.rest;
    Ok(Read { part, rest }.bind(Binding::Open))
}

// What stands behind `if`.
#[cycle(reading)]
fn conditional(alloc: Global, limits: Limits, tokens: &[Token]) -> BoundTree<'_>
    ensures reads { Reads result bound_read (8 * length tokens.now + 2) (λ L. read_if L limits tokens.now) }
    ensures shorter { IfOk result (λ r. length r.rest.now < length tokens.now) }
{
    let inner = limits.inside(tokens)?;
    let condition = expression(alloc, inner, Binding::Disjunction, tokens)?;
    let behind = expect_word(condition.rest, Word::Then)?;
    branches(alloc, inner, condition.part, behind)
}

// The name, the set and `@` of a replicated form.
#[cycle(reading)]
fn binder(alloc: Global, limits: Limits, tokens: &[Token]) -> Reading<'_, Binder>
    ensures reads { Reads result (λ r. (r.part.name, r.part.set, r.rest.now)) (8 * length tokens.now)
        (λ L. read_binder L limits tokens.now) }
    ensures shorter { IfOk result (λ r. length r.rest.now < length tokens.now) }
{
    let (name, colon) = expect_name(alloc, tokens)?;
    let behind = expect(colon, Symbol::Colon)?;
    let set = atom(alloc, limits, behind)?;
    let rest = expect(set.rest, Symbol::At)?;
    let set = set.part;
    let part = Binder { name, set };
    Ok(Read { part, rest })
}

// What stands behind the sign of a replicated choice.
#[cycle(reading)]
fn each(alloc: Global, limits: Limits, chain: Chain, tokens: &[Token]) -> BoundTree<'_>
    ensures reads { Reads result bound_read (8 * length tokens.now) (λ L. read_each L limits chain tokens.now) }
    ensures shorter { IfOk result (λ r. length r.rest.now < length tokens.now) }
{
    let inner = limits.inside(tokens)?;
    let bound = binder(alloc, inner, tokens)?;
    let process = tree(alloc, inner, bound.rest)?;
    let part = nodes::each(alloc, chain, bound.part, process.part)?;
    let rest = process.rest;
    Ok(Read { part, rest }.bind(Binding::Open))
}

// What stands behind the sign of a replicated parallel.
#[cycle(reading)]
fn each_parallel(alloc: Global, limits: Limits, tokens: &[Token]) -> BoundTree<'_>
    ensures reads { Reads result bound_read (8 * length tokens.now) (λ L. read_each_parallel L limits tokens.now) }
    ensures shorter { IfOk result (λ r. length r.rest.now < length tokens.now) }
{
    let inner = limits.inside(tokens)?;
    let bound = binder(alloc, inner, tokens)?;
    let opened = expect(bound.rest, Symbol::OpenBracket)?;
    let below = inner.open_bracket(opened)?;
    let alphabet = atom(alloc, below, opened)?;
    let behind = expect(alphabet.rest, Symbol::CloseBracket)?;
    let process = tree(alloc, inner, behind)?;
    let rest = process.rest;
    let (process, alphabet) = (process.part, alphabet.part);
    let part = nodes::each_parallel(alloc, bound.part, Side { process, alphabet })?;
    Ok(Read { part, rest }.bind(Binding::Open))
}

// What stands behind the `&` of a guard.
#[cycle(reading)]
fn guard_rest(alloc: Global, limits: Limits, condition: DeepTree, tokens: &[Token]) -> BoundTree<'_>
    ensures reads { Reads result bound_read (8 * length tokens.now + 3)
        (λ L. read_guarded L limits condition tokens.now) }
    ensures shorter { IfOk result (λ r. length r.rest.now < length tokens.now) }
{
    let process = prefix(alloc, limits, tokens)?;
    process.binding.expect(Binding::Open, process.rest)?;
    let part = nodes::guard(alloc, condition, process.part)?;
    let rest = process.rest;
    Ok(Read { part, rest }.bind(process.binding.of_process()))
}

// A guard, or an expression.
#[cycle(reading)]
fn guard(alloc: Global, limits: Limits, tokens: &[Token]) -> BoundTree<'_>
    ensures reads { Reads result bound_read (8 * length tokens.now + 2) (λ L. read_guard L limits tokens.now) }
    ensures shorter { IfOk result (λ r. length r.rest.now < length tokens.now) }
{
    let condition = expression(alloc, limits, Binding::Disjunction, tokens)?;
    match skip(condition.rest, Symbol::Ampersand) {
        Some(behind) => {
            let inner = limits.inside_with(&condition.part, behind)?;
            guard_rest(alloc, inner, condition.part, behind)
        }
        None => Ok(condition),
    }
}

// The rest of a prefix.
#[cycle(reading)]
fn prefix_rest(alloc: Global, limits: Limits, start: PrefixStart, tokens: &[Token]) -> BoundTree<'_>
    ensures reads { Reads result bound_read (8 * length tokens.now + 2) (λ L. read_opened L limits start tokens.now) }
    ensures shorter { IfOk result (λ r. length r.rest.now < length tokens.now) }
{
    match start {
        PrefixStart::Event => event(alloc, limits, tokens),
        PrefixStart::If => conditional(alloc, limits, tokens),
        PrefixStart::Each(chain) => each(alloc, limits, chain, tokens),
        PrefixStart::EachParallel => each_parallel(alloc, limits, tokens),
        PrefixStart::Expression => guard(alloc, limits, tokens),
    }
}

// A prefix or what is bound tighter.
#[cycle(reading)]
#[tactic(auto, using(crate::proofs::Counted::prefix_counted))]
pub(crate) fn prefix(alloc: Global, limits: Limits, tokens: &[Token]) -> BoundTree<'_>
    ensures reads { Reads result bound_read (8 * length tokens.now + 3) (λ L. L.prefix limits tokens.now) }
    ensures shorter { IfOk result (λ r. length r.rest.now < length tokens.now) }
{
    let (start, rest) = prefix_start(tokens);
    prefix_rest(alloc, limits, start, rest)
}

// A process with what stands behind its `;`.
#[cycle(reading)]
fn sequence_rest(alloc: Global, limits: Limits, left: DeepTree, tokens: &[Token]) -> BoundTree<'_>
    ensures reads { Reads result bound_read (8 * length tokens.now + 4) (λ L. read_followed L limits left tokens.now) }
    ensures shorter { IfOk result (λ r. length r.rest.now < length tokens.now) }
{
    let process = sequence(alloc, limits, tokens)?;
    process.binding.expect(Binding::Open, process.rest)?;
    let part = nodes::seq(alloc, left, process.part)?;
    let rest = process.rest;
    Ok(Read { part, rest }.bind(process.binding.of_process()))
}

// Processes one after another.
#[cycle(reading)]
#[tactic(auto, using(crate::proofs::Counted::sequence_counted))]
fn sequence(alloc: Global, limits: Limits, tokens: &[Token]) -> BoundTree<'_>
    ensures reads { Reads result bound_read (8 * length tokens.now + 4) (λ L. L.sequence limits tokens.now) }
    ensures shorter { IfOk result (λ r. length r.rest.now < length tokens.now) }
{
    let first = prefix(alloc, limits, tokens)?;
    match skip(first.rest, Symbol::Semicolon) {
        Some(behind) => {
            first.binding.expect(Binding::Closed, behind)?;
            let inner = limits.inside_with(&first.part, behind)?;
            sequence_rest(alloc, inner, first.part, behind)
        }
        None => Ok(first),
    }
}

// The set that is hidden.
#[cycle(reading)]
fn hiding(alloc: Global, limits: Limits, left: DeepTree, tokens: &[Token]) -> TreeReading<'_>
    ensures reads { Reads result part_read (8 * length tokens.now + 1) (λ L. read_hiding L limits left tokens.now) }
    ensures shorter { IfOk result (λ r. length r.rest.now < length tokens.now) }
{
    let inner = limits.inside_with(&left, tokens)?;
    let set = atom(alloc, inner, tokens)?;
    let part = nodes::hide(alloc, left, set.part)?;
    let rest = set.rest;
    Ok(Read { part, rest })
}

// The sets that are hidden in a process.
#[cycle(reading)]
#[tactic(auto, using(crate::proofs::Counted::hidings_counted))]
fn hidings(alloc: Global, limits: Limits, left: DeepTree, tokens: &[Token]) -> BoundTree<'_>
    ensures reads { Reads result bound_read (8 * length tokens.now + 1) (λ L. L.hidings limits left tokens.now) }
    ensures shorter { IfOk result (λ r. length r.rest.now ≤ length tokens.now) }
{
    match skip(tokens, Symbol::Backslash) {
        Some(behind) => {
            let hidden = hiding(alloc, limits, left, behind)?;
            hidings(alloc, limits, hidden.part, hidden.rest)
        }
        None => {
            let (part, rest) = (left, tokens);
            Ok(Read { part, rest }.bind(Binding::Closed))
        }
    }
}

// An operand of a choice, and whether another follows behind the sign, which is passed then.
#[cycle(reading)]
fn operand(
    alloc: Global,
    limits: Limits,
    chain: Chain,
    tokens: &[Token],
) -> OrNoText<(BoundRead<'_, DeepTree>, bool)>
    ensures reads { Reads result operand_read (8 * length tokens.now + 4)
        (λ L. read_operand L limits chain tokens.now) }
    ensures shorter { IfOk result (λ r. length r.0.rest.now < length tokens.now) }
{
    let operand = sequence(alloc, limits, tokens)?;
    operand.binding.expect(Binding::Open, operand.rest)?;
    let (binding, part) = (operand.binding, operand.part);
    match skip(operand.rest, chain.symbol()) {
        Some(rest) => {
            binding.expect(Binding::Closed, rest)?;
            Ok((Read { part, rest }.bind(binding), true))
        }
        None => {
            let rest = operand.rest;
            Ok((Read { part, rest }.bind(binding.of_process()), false))
        }
    }
}

// This operand of a choice and those behind it.
#[cycle(reading)]
fn choices<'t>(
    alloc: Global,
    limits: Limits,
    left: DeepTree,
    sign: Read<'t, Chain>,
) -> BoundReading<'t, Trees>
    ensures reads { Reads result bound_read (8 * length sign.entry.rest.now + 5)
        (λ L. read_operands L limits sign.entry.part left sign.entry.rest.now) }
    ensures shorter { IfOk result (λ r. length r.rest.now < length sign.entry.rest.now) }
{
    let mut operands = Deep::none(alloc);
    operands.push(left.unbox())?;
    let chain = sign.part;
    let mut rest = sign.rest;
    loop {
        let read = match operand(alloc, limits, chain, rest) {
            Ok(read) => read,
            Err(fault) => return Err(fault),
        };
        let (found, has_more) = read;
        operands.push(found.part.unbox())?;
        if !has_more {
            return Ok(BoundRead {
                binding: found.binding,
                part: operands,
                rest: found.rest,
            });
        }
        rest = found.rest;
    }
}

// A process and the choices behind it.
#[cycle(reading)]
fn chain<'t>(
    alloc: Global,
    limits: Limits,
    left: BoundRead<'t, DeepTree>,
    sign: Read<'t, Chain>,
) -> BoundTree<'t>
    ensures reads { Reads result bound_read (8 * length sign.entry.rest.now + 5)
        (λ L. read_chain L limits left.entry.binding left.entry.part sign.entry.part sign.entry.rest.now) }
    ensures shorter { IfOk result (λ r. length r.rest.now < length sign.entry.rest.now) }
{
    left.binding.expect(Binding::Closed, sign.rest)?;
    let inner = limits.inside_with(&left.part, sign.rest)?;
    let chain = sign.part;
    let found = choices(alloc, inner, left.part, sign)?;
    let (binding, rest) = (found.binding, found.rest);
    let part = nodes::choice(alloc, chain, found.part)?;
    Ok(Read { part, rest }.bind(binding))
}

// A side of a parallel, or a tree without one.
#[cycle(reading)]
fn side(alloc: Global, limits: Limits, tokens: &[Token]) -> BoundTree<'_>
    ensures reads { Reads result bound_read (8 * length tokens.now + 4) (λ L. read_side L limits tokens.now) }
    ensures shorter { IfOk result (λ r. length r.rest.now < length tokens.now) }
{
    let first = sequence(alloc, limits, tokens)?;
    if let Some(sign) = first_chain(first.rest) {
        return chain(alloc, limits, first, sign);
    }
    match skip(first.rest, Symbol::Backslash) {
        Some(_) => {
            first.binding.expect(Binding::Renaming, first.rest)?;
            hidings(alloc, limits, first.part, first.rest)
        }
        None => Ok(first),
    }
}

// The alphabets and the right side of a parallel.
#[cycle(reading)]
fn parallel(alloc: Global, limits: Limits, left: DeepTree, tokens: &[Token]) -> TreeReading<'_>
    ensures reads { Reads result part_read (8 * length tokens.now + 1) (λ L. read_parallel L limits left tokens.now) }
    ensures shorter { IfOk result (λ r. length r.rest.now < length tokens.now) }
{
    let below = limits.open_bracket(tokens)?;
    let first = atom(alloc, below, tokens)?;
    let bar = expect(first.rest, Symbol::Parallel)?;
    let second = atom(alloc, below, bar)?;
    let behind = expect(second.rest, Symbol::CloseBracket)?;
    let right = side(alloc, limits, behind)?;
    right.binding.expect(Binding::Open, right.rest)?;
    let rest = right.rest;
    let left = Side {
        process: left,
        alphabet: first.part,
    };
    let right = Side {
        process: right.part,
        alphabet: second.part,
    };
    let part = nodes::parallel(alloc, left, right)?;
    Ok(Read { part, rest })
}

/// The tree at the front of the tokens, within the limits.
#[cycle(reading)]
#[tactic(auto, using(crate::proofs::Counted::tree_counted))]
pub fn tree(alloc: Global, limits: Limits, tokens: &[Token]) -> TreeReading<'_>
    ensures reads { Reads result part_read (8 * length tokens.now + 5) (λ L. L.tree limits tokens.now) }
    ensures shorter { IfOk result (λ r. length r.rest.now < length tokens.now) }
{
    let left = side(alloc, limits, tokens)?;
    match skip(left.rest, Symbol::OpenBracket) {
        Some(behind) => {
            left.binding.expect(Binding::Closed, behind)?;
            let inner = limits.inside_with(&left.part, behind)?;
            parallel(alloc, inner, left.part, behind)
        }
        None => Ok(Read {
            part: left.part,
            rest: left.rest,
        }),
    }
}
