//! How many binding tokens trees have.

ghost use Rattle.std.specs.Prelude.{◌≡◌, ◌+◌, ◌≤◌};
ghost use Rattle.typed_trees.specs.Prelude.{MOST_BYTES, all_tokens, field_tokens, fields_tokens, gen_tokens, gens_tokens, part_tokens, parts_tokens, pairs_tokens, tokens};

use containers::Boxed;
use csp_text::{FieldTree, GenTree, PartTree, Tree};

/// The number of a tree's binding tokens.
#[tactic(auto, using(csp_text::specs::declared::tree::Tree::the_lemmas, script_sizes::proofs::TokenForms::token_forms))]
#[cycle(count)]
pub(crate) fn count_tree(tree: &Tree) -> u32
    requires { tokens tree.now ≤ MOST_BYTES }
    ensures { result ≡ tokens tree.now }
{
    match tree {
        Tree::Stop | Tree::Skip | Tree::Num(_) | Tree::True | Tree::False | Tree::Name(_) => 0,
        Tree::Call(_, items)
        | Tree::Dot(_, items)
        | Tree::Display(items)
        | Tree::External(items)
        | Tree::Internal(items) => count_trees(items.as_slice()),
        Tree::Neg(a) | Tree::Not(a) => count_tree(a.get()),
        Tree::Binary(_, a, b)
        | Tree::Range(a, b)
        | Tree::SetOp(_, a, b)
        | Tree::Guard(a, b)
        | Tree::Seq(a, b)
        | Tree::Hide(a, b) => count_two(a, b),
        Tree::EachExternal(_, a, b) | Tree::EachInternal(_, a, b) => 1 + count_two(a, b),
        Tree::If(a, b, c) => count_two(a, b) + count_tree(c.get()),
        Tree::EachParallel(_, a, b, c) => 1 + count_two(a, b) + count_tree(c.get()),
        Tree::Comp(items, gens) => count_trees(items.as_slice()) + count_gens(gens.as_slice()),
        Tree::Product(parts, gens) => {
            count_parts(parts.as_slice()) + count_gens(gens.as_slice())
        }
        Tree::Prefix(event, p) => count_fields(event.fields.as_slice()) + count_tree(p.get()),
        Tree::Parallel(p, a, b, q) => count_two(p, a) + count_two(b, q),
        Tree::Rename(p, pairs, gens) => count_tree(p.get())
            + count_pairs(pairs.as_slice())
            + count_gens(gens.as_slice()),
    }
}

// The same of two trees.
#[cycle(count)]
fn count_two(a: &Boxed<Tree>, b: &Boxed<Tree>) -> u32
    requires { tokens a.now + tokens b.now ≤ MOST_BYTES }
    ensures { result ≡ tokens a.now + tokens b.now }
{
    count_tree(a.get()) + count_tree(b.get())
}

/// The number of some trees' binding tokens.
#[cycle(count)]
pub(crate) fn count_trees(trees: &[Tree]) -> u32
    requires { all_tokens trees.now ≤ MOST_BYTES }
    ensures { result ≡ all_tokens trees.now }
{
    let mut count = 0;
    for tree in trees {
        count += count_tree(tree);
    }
    count
}

#[cycle(count)]
fn count_fields(fields: &[FieldTree]) -> u32
    requires { fields_tokens fields.now ≤ MOST_BYTES }
    ensures { result ≡ fields_tokens fields.now }
{
    let mut count = 0;
    for field in fields {
        count += count_field(field);
    }
    count
}

#[tactic(auto, using(csp_text::specs::declared::tree::Tree::the_lemmas, script_sizes::proofs::TokenForms::field_tokens_forms))]
#[cycle(count)]
fn count_field(field: &FieldTree) -> u32
    requires { field_tokens field.now ≤ MOST_BYTES }
    ensures { result ≡ field_tokens field.now }
{
    match field {
        FieldTree::Dot(a) => count_tree(a),
        FieldTree::Output(a) => count_tree(a),
        FieldTree::Input(_, set) => match set {
            Some(set) => 1 + count_tree(set),
            None => 1,
        },
    }
}

#[cycle(count)]
fn count_gens(gens: &[GenTree]) -> u32
    requires { gens_tokens gens.now ≤ MOST_BYTES }
    ensures { result ≡ gens_tokens gens.now }
{
    let mut count = 0;
    for generator in gens {
        count += count_gen(generator);
    }
    count
}

#[tactic(auto, using(csp_text::specs::declared::tree::Tree::the_lemmas, script_sizes::proofs::TokenForms::gen_tokens_forms))]
#[cycle(count)]
fn count_gen(generator: &GenTree) -> u32
    requires { gen_tokens generator.now ≤ MOST_BYTES }
    ensures { result ≡ gen_tokens generator.now }
{
    match generator {
        GenTree::From(_, set) => 1 + count_tree(set),
        GenTree::Cond(condition) => count_tree(condition),
    }
}

#[tactic(auto, using(csp_text::specs::declared::tree::Tree::the_lemmas, script_sizes::proofs::TokenForms::part_tokens_forms))]
#[cycle(count)]
fn count_front(part: &PartTree) -> u32
    requires { part_tokens part.now ≤ MOST_BYTES }
    ensures { result ≡ part_tokens part.now }
{
    count_trees(part.fields.as_slice())
}

/// The number of the binding tokens of events' fronts.
#[cycle(count)]
pub(crate) fn count_parts(parts: &[PartTree]) -> u32
    requires { parts_tokens parts.now ≤ MOST_BYTES }
    ensures { result ≡ parts_tokens parts.now }
{
    let mut count = 0;
    for part in parts {
        count += count_front(part);
    }
    count
}

/// The number of the binding tokens of a renaming's pairs.
#[cycle(count)]
pub(crate) fn count_pairs(pairs: &[(PartTree, PartTree)]) -> u32
    requires { pairs_tokens pairs.now ≤ MOST_BYTES }
    ensures { result ≡ pairs_tokens pairs.now }
{
    let mut count = 0;
    for pair in pairs {
        count += count_front(&pair.0) + count_front(&pair.1);
    }
    count
}
