//! Assertions of deadlock freedom.

ghost use Rattle.std.specs.Prelude.{◌≡◌, ◌<◌, ◌≤◌, ◌+◌, ◌*◌, length, IfOk};
ghost use Rattle.std.specs.Str.{bytes_eq};
ghost use Rattle.tree_parser.specs.Reads.{Reads, part_read};
ghost use Rattle.tree_reading.specs.Prelude.{deadlock_free, ending, is_model, model, name_that, Gives, read_asserted, read_assertion};

use crate::types::WHOLE;
use csp_base::Name;
use csp_text::{Decl, Symbol, Token};
use std::alloc::Global;
use tree_parser::atom;
use tree_reading::deep::DeepTree;
use tree_reading::fault::{OrNoText, no_text};
use tree_reading::look::{expect, first_name, skip};
use tree_reading::read::{Read, Reading};

// The name or the call that is asserted: an atom that begins with a name.
fn process_name(alloc: Global, tokens: &[Token]) -> Reading<'_, DeepTree>
    ensures reads { Reads result part_read (8 * length tokens.now + 1) (λ L. read_asserted L tokens.now) }
    ensures shorter { IfOk result (λ r. length r.rest.now < length tokens.now) }
{
    match first_name(tokens) {
        Some(_) => atom(alloc, WHOLE, tokens),
        None => Err(no_text(tokens)),
    }
}

// Whether the name is written with these bytes.
fn is_written(name: &Name, bytes: &[u8]) -> bool
    ensures { result ≡ bytes_eq name.now bytes.now }
{
    name.as_slice() == bytes
}

// Whether this is the name of a model: failures, or failures and divergences.
fn is_model(name: &Name) -> bool
    ensures { result ≡ is_model name.now }
{
    is_written(name, b"F") || is_written(name, b"FD")
}

// What follows the name of a model, which has to stand at the front.
#[tactic(auto, using(crate::proofs::Assertions::passing, crate::proofs::Assertions::unnamed, crate::proofs::Assertions::not_passing))]
fn expect_model(tokens: &[Token]) -> OrNoText<&[Token]>
    ensures same { Gives result (λ rest. rest.now) (name_that is_model tokens.now) }
    ensures shorter { IfOk result (λ rest. length rest.now < length tokens.now) }
{
    match first_name(tokens) {
        Some((found, rest)) => {
            if is_model(found) {
                Ok(rest)
            } else {
                Err(no_text(tokens))
            }
        }
        None => Err(no_text(tokens)),
    }
}

// What follows the model of an assertion, or follows nothing where no model is given.
fn model(tokens: &[Token]) -> OrNoText<&[Token]>
    ensures same { Gives result (λ rest. rest.now) (model tokens.now) }
    ensures shorter { IfOk result (λ rest. length rest.now ≤ length tokens.now) }
{
    match skip(tokens, Symbol::OpenBracket) {
        Some(inside) => {
            let behind = expect_model(inside)?;
            let rest = expect(behind, Symbol::CloseBracket)?;
            Ok(rest)
        }
        None => Ok(tokens),
    }
}

// What follows these bytes, which have to stand at the front as a name.
#[tactic(auto, using(crate::proofs::Assertions::passing, crate::proofs::Assertions::unnamed, crate::proofs::Assertions::not_passing))]
fn expect_written<'t>(tokens: &'t [Token], bytes: &[u8]) -> OrNoText<&'t [Token]>
    ensures same { Gives result (λ rest. rest.now) (name_that (λ x. bytes_eq x bytes.now) tokens.now) }
    ensures shorter { IfOk result (λ rest. length rest.now < length tokens.now) }
{
    match first_name(tokens) {
        Some((found, rest)) => {
            if is_written(found, bytes) {
                Ok(rest)
            } else {
                Err(no_text(tokens))
            }
        }
        None => Err(no_text(tokens)),
    }
}

// What follows `deadlock free`, with what stands before it in an assertion.
fn deadlock_free(tokens: &[Token]) -> OrNoText<&[Token]>
    ensures same { Gives result (λ rest. rest.now) (deadlock_free tokens.now) }
    ensures shorter { IfOk result (λ rest. length rest.now < length tokens.now) }
{
    let behind = expect(tokens, Symbol::Colon)?;
    let opened = expect(behind, Symbol::OpenBracket)?;
    let deadlock = expect_written(opened, b"deadlock")?;
    let free = expect_written(deadlock, b"free")?;
    Ok(free)
}

// What follows the rest of an assertion, behind its process.
#[tactic(auto, unfolding(tree_reading::specs::Asserted::ending))]
fn expect_end(tokens: &[Token]) -> OrNoText<&[Token]>
    ensures same { Gives result (λ rest. rest.now) (ending tokens.now) }
    ensures shorter { IfOk result (λ rest. length rest.now < length tokens.now) }
{
    let behind = deadlock_free(tokens)?;
    let closed = model(behind)?;
    let rest = expect(closed, Symbol::CloseBracket)?;
    Ok(rest)
}

// The assertion behind `assert`.
pub(crate) fn assertion(alloc: Global, tokens: &[Token]) -> Reading<'_, Decl>
    ensures reads { Reads result part_read (8 * length tokens.now + 1) (λ L. read_assertion L tokens.now) }
    ensures shorter { IfOk result (λ r. length r.rest.now < length tokens.now) }
{
    let process = process_name(alloc, tokens)?;
    let rest = expect_end(process.rest)?;
    Ok(Read {
        part: Decl::Assert(process.part.unbox().into_inner()),
        rest,
    })
}
