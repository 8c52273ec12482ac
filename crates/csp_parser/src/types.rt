//! The types of a channel's fields.

ghost use Rattle.std.specs.Prelude.{◌<◌, ◌+◌, ◌*◌, length, IfOk};
ghost use Rattle.tree_parser.specs.Reads.{Reads, part_read};

use containers::Items;
use csp_text::{Symbol, Token, Tree};
use dl_limits::{MOST_BRACKETS, MOST_TREE_DEPTH};
use std::alloc::Global;
use tree_parser::{Limits, atom};
use tree_reading::look::skip;
use tree_reading::read::{Read, Reading};

/// The limits of a tree that stands in no other.
pub(crate) const WHOLE: Limits = Limits {
    brackets: MOST_BRACKETS,
    depth: MOST_TREE_DEPTH,
};

// One type or more, with dots between them.
pub(crate) fn types(alloc: Global, tokens: &[Token]) -> Reading<'_, Items<Tree>>
    ensures reads { Reads result part_read (8 * length tokens.now + 2) (λ L. L.types tokens.now) }
    ensures shorter { IfOk result (λ r. length r.rest.now < length tokens.now) }
{
    let mut all = Items::new(alloc);
    let mut rest = tokens;
    loop {
        let found = match atom(alloc, WHOLE, rest) {
            Ok(found) => found,
            Err(fault) => return Err(fault),
        };
        all.push(found.part.unbox().into_inner())?;
        match skip(found.rest, Symbol::Dot) {
            Some(next) => rest = next,
            None => {
                return Ok(Read {
                    part: all,
                    rest: found.rest,
                });
            }
        }
    }
}
