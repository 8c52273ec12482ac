//! Nodes of which something is expected that their parts may lack.

ghost use Rattle.std.specs.Prelude.{◌≡◌, [], ◌∷◌, ◌++◌, Some};
ghost use Rattle.csp_text.specs.Depth.{capped, tree_depth};
ghost use Rattle.csp_grammar.specs.Reader.{and_then, dotted_tree, only};
ghost use Rattle.tree_reading.specs.Prelude.{Gives, dot_field, dot_fields, dotted_fields};

use crate::nodes::{self, Fields, Trees};
use containers::{Boxed, Items};
use csp_base::Name;
use csp_text::{FieldTree, Token, Tree};
use std::alloc::Global;
use tree_reading::deep::{Deep, DeepTree};
use tree_reading::fault::{OrNoText, no_text};

// A tree of which something is expected.
type Expected = OrNoText<DeepTree>;

// The dotted event of a name and its fields, of which there has to be one.
pub(crate) fn expect_fields(alloc: Global, name: Name, fields: Trees, tokens: &[Token]) -> Expected
    ensures { Gives result (λ t. t) (dotted_tree name fields) }
{
    if fields.get().is_empty() {
        return Err(no_text(tokens));
    }
    let event = nodes::dotted_event(alloc, name, fields)?;
    Ok(event)
}

// The one item that there is.
fn alone(alloc: Global, item: Tree, depth: u32) -> Expected
    requires { depth ≡ capped (tree_depth item) }
    ensures { Gives result (λ t. t) (Some item) }
{
    let item = Boxed::new(alloc, item)?;
    Ok(Deep::new(item, depth))
}

// The one item of a list, which has to have no other.
pub(crate) fn expect_only(alloc: Global, items: Trees, tokens: &[Token]) -> Expected
    ensures { Gives result (λ t. t) (only items) }
{
    let depth = items.depth();
    let mut items = items.into_inner();
    match items.pop() {
        Some(last) if items.is_empty() => alone(alloc, last, depth),
        Some(last) => {
            drop(last);
            Err(no_text(tokens))
        }
        None => Err(no_text(tokens)),
    }
}

// The tree of a field that has a dot.
fn to_dot(field: FieldTree) -> Option<Tree>
    ensures { result ≡ dot_field field }
{
    match field {
        FieldTree::Dot(tree) => Some(tree),
        FieldTree::Output(tree) => {
            drop(tree);
            None
        }
        FieldTree::Input(_, set) => {
            drop(set);
            None
        }
    }
}

// Adds the tree of a field, which has to have a dot.
fn push_dot(trees: &mut Items<Tree>, field: FieldTree, tokens: &[Token]) -> OrNoText<()>
    ensures { Gives result (λ _. trees.new) (and_then (dot_field field) λ a. Some (trees.old ++ a ∷ [])) }
{
    match to_dot(field) {
        Some(tree) => {
            trees.push(tree)?;
            Ok(())
        }
        None => Err(no_text(tokens)),
    }
}

// The trees of fields that all have a dot.
fn expect_dots(alloc: Global, fields: Items<FieldTree>, tokens: &[Token]) -> OrNoText<Items<Tree>>
    ensures { Gives result (λ trees. trees) (dot_fields fields) }
{
    let mut trees = Items::new(alloc);
    for field in fields.into_vec() {
        push_dot(&mut trees, field, tokens)?;
    }
    Ok(trees)
}

// The dotted event of a name and the fields of a prefix, which all have to have a dot.
pub(crate) fn expect_dotted(alloc: Global, name: Name, fields: Fields, tokens: &[Token]) -> Expected
    ensures { Gives result (λ t. t) (dotted_fields name fields) }
{
    let depth = fields.depth();
    let trees = expect_dots(alloc, fields.into_inner(), tokens)?;
    expect_fields(alloc, name, Deep::new(trees, depth), tokens)
}
