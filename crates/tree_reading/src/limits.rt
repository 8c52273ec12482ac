//! The limits of what is nested.

ghost use Rattle.std.specs.Prelude.{nat_le, ◌≡◌};
ghost use Rattle.csp_text.specs.Depth.{tree_depth};
ghost use Rattle.tree_reading.specs.Prelude.{Gives, around, bracketed, inside, opened};

use crate::deep::DeepTree;
use crate::fault::{OrNoText, no_text};
use csp_text::Token;

/// How much may still be nested.
#[derive(Clone, Copy)]
pub struct Limits {
    /// How many brackets may still be opened.
    pub brackets: u16,
    /// How deep a tree may be.
    pub depth: u16,
}

impl Limits {
    /// The limits below one more bracket, where one stands in front of the tokens.
    pub fn open_bracket(self, tokens: &[Token]) -> OrNoText<Limits>
        ensures { Gives result (λ inner. inner) (bracketed self) }
    {
        match self.brackets.checked_sub(1) {
            Some(brackets) => Ok(Limits {
                brackets,
                depth: self.depth,
            }),
            None => Err(no_text(tokens)),
        }
    }

    /// The limits of the parts of a node, in front of the tokens.
    pub fn inside(self, tokens: &[Token]) -> OrNoText<Limits>
        ensures { Gives result (λ inner. inner) (inside self) }
    {
        match self.depth.checked_sub(1) {
            Some(depth) => Ok(Limits {
                brackets: self.brackets,
                depth,
            }),
            None => Err(no_text(tokens)),
        }
    }

    /// The limits of the parts of a node that opens a bracket, in front of the tokens.
    pub fn inside_bracket(self, tokens: &[Token]) -> OrNoText<Limits>
        ensures { Gives result (λ inner. inner) (opened self) }
    {
        let below = self.open_bracket(tokens)?;
        below.inside(tokens)
    }

    // Whether the tree is no deeper than it may be.
    fn has_room(self, tree: &DeepTree) -> bool
        ensures { result ≡ nat_le (tree_depth tree.now) self.depth }
    {
        tree.depth() <= u32::from(self.depth)
    }

    /// The limits of the parts of a node with this tree as its first part, in front of the tokens.
    pub fn inside_with(self, tree: &DeepTree, tokens: &[Token]) -> OrNoText<Limits>
        ensures { Gives result (λ inner. inner) (around self tree.now) }
    {
        let inner = self.inside(tokens)?;
        if inner.has_room(tree) {
            Ok(inner)
        } else {
            Err(no_text(tokens))
        }
    }
}
