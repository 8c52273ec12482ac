//! The shapes of printed trees.
#![tactic(auto, using(crate::proofs::PrintedEquations::printed_out, csp_text::specs::declared::tree::Tree::the_lemmas), unfolding(crate::specs::PrintedTree::shape_of))]

ghost use Rattle.std.specs.Prelude.{◌≡◌};
ghost use Rattle.script_printer.specs.PrintedTree.{shape_of};

use crate::shape::Shape;
use csp_text::Tree;

/// The shape of the tree when it is printed: which parentheses it needs.
pub fn shape_of(tree: &Tree) -> Shape
    ensures { result ≡ shape_of tree.now }
{
    match tree {
        Tree::Stop
        | Tree::Skip
        | Tree::Num(_)
        | Tree::True
        | Tree::False
        | Tree::Name(_)
        | Tree::Call(..)
        | Tree::Display(_)
        | Tree::Range(..)
        | Tree::Comp(..)
        | Tree::Product(..)
        | Tree::SetOp(..) => Shape::Atom,
        Tree::Dot(..) => Shape::Dotted,
        Tree::Neg(_)
        | Tree::Not(_)
        | Tree::Binary(..)
        | Tree::If(..)
        | Tree::Prefix(..)
        | Tree::Guard(..)
        | Tree::External(_)
        | Tree::Internal(_)
        | Tree::EachExternal(..)
        | Tree::EachInternal(..)
        | Tree::Parallel(..)
        | Tree::EachParallel(..)
        | Tree::Seq(..)
        | Tree::Hide(..)
        | Tree::Rename(..) => Shape::Compound,
    }
}
