//! Nodes of trees, from their parts.

ghost use Rattle.std.specs.Prelude.{◌≡◌, ◌+◌, IfOk, None, Some};
ghost use Rattle.csp_text.specs.Depth.{capped, tree_depth};
ghost use Rattle.csp_grammar.specs.Grammar.{choice_of, event_tree, part_tree};
ghost use Rattle.tree_reading.specs.Starts.{choice, each_tree};

use containers::{Boxed, Items};
use csp_base::{BinOp, Made, Name, SetOp};
use csp_text::{EventTree, FieldTree, GenTree, PartTree, Tree};
use std::alloc::Global;
use tree_reading::deep::{Deep, DeepTree, greater};
use tree_reading::look::Chain;
use tree_reading::read::{BoundReading, Reading};

/// A node that is made.
pub(crate) type Node = Made<DeepTree>;

/// Trees in a list.
pub(crate) type Trees = Deep<Items<Tree>>;

/// Fields of a prefix.
pub(crate) type Fields = Deep<Items<FieldTree>>;

/// Fronts of events.
pub(crate) type Parts = Deep<Items<PartTree>>;

/// Pairs of a renaming.
pub(crate) type Pairs = Deep<Items<(PartTree, PartTree)>>;

/// Generators, with conditions among them.
pub(crate) type Generators = Deep<Items<GenTree>>;

/// What the reading of a tree answers.
pub(crate) type TreeReading<'t> = Reading<'t, DeepTree>;

/// The same with how tightly the tree is bound.
pub(crate) type BoundTree<'t> = BoundReading<'t, DeepTree>;

/// An event of a prefix.
#[derive(Drop)]
pub(crate) struct Event {
    pub name: Name,
    pub fields: Fields,
}

/// What a replicated form begins with: a name, and the set of its values.
#[derive(Drop)]
pub(crate) struct Binder {
    pub name: Name,
    pub set: DeepTree,
}

/// A side of a parallel, with its alphabet.
#[derive(Drop)]
pub(crate) struct Side {
    pub process: DeepTree,
    pub alphabet: DeepTree,
}

// A node over parts of which the deepest has this depth.
fn node(alloc: Global, tree: Tree, below: u32) -> Node
    requires { capped (below + 1) ≡ capped (tree_depth tree) }
    ensures { IfOk result (λ t. t ≡ tree) }
{
    let tree = Boxed::new(alloc, tree)?;
    Ok(Deep::node(tree, below))
}

pub(crate) fn leaf(alloc: Global, tree: Deep<Tree>) -> Node
    ensures { IfOk result (λ t. t ≡ tree) }
{
    let depth = tree.depth();
    let boxed = Boxed::new(alloc, tree.into_inner())?;
    Ok(Deep::new(boxed, depth))
}

pub(crate) fn negative(alloc: Global, a: DeepTree) -> Node
    ensures { IfOk result (λ t. t ≡ Tree.Neg a) }
{
    let below = a.depth();
    node(alloc, Tree::Neg(a.into_inner()), below)
}

pub(crate) fn complement(alloc: Global, a: DeepTree) -> Node
    ensures { IfOk result (λ t. t ≡ Tree.Not a) }
{
    let below = a.depth();
    node(alloc, Tree::Not(a.into_inner()), below)
}

pub(crate) fn binary(alloc: Global, op: BinOp, a: DeepTree, b: DeepTree) -> Node
    ensures { IfOk result (λ t. t ≡ Tree.Binary op a b) }
{
    let below = greater(a.depth(), b.depth());
    let tree = Tree::Binary(op, a.into_inner(), b.into_inner());
    node(alloc, tree, below)
}

pub(crate) fn set_operation(alloc: Global, op: SetOp, a: DeepTree, b: DeepTree) -> Node
    ensures { IfOk result (λ t. t ≡ Tree.SetOp op a b) }
{
    let below = greater(a.depth(), b.depth());
    let tree = Tree::SetOp(op, a.into_inner(), b.into_inner());
    node(alloc, tree, below)
}

pub(crate) fn call(alloc: Global, name: Name, items: Trees) -> Node
    ensures { IfOk result (λ t. t ≡ Tree.Call name items) }
{
    let below = items.depth();
    node(alloc, Tree::Call(name, items.into_inner()), below)
}

pub(crate) fn dotted_event(alloc: Global, name: Name, fields: Trees) -> Node
    ensures { IfOk result (λ t. t ≡ Tree.Dot name fields) }
{
    let below = fields.depth();
    node(alloc, Tree::Dot(name, fields.into_inner()), below)
}

pub(crate) fn range(alloc: Global, a: DeepTree, b: DeepTree) -> Node
    ensures { IfOk result (λ t. t ≡ Tree.Range a b) }
{
    let below = greater(a.depth(), b.depth());
    node(alloc, Tree::Range(a.into_inner(), b.into_inner()), below)
}

pub(crate) fn display(alloc: Global, items: Trees) -> Node
    ensures { IfOk result (λ t. t ≡ Tree.Display items) }
{
    let below = items.depth();
    node(alloc, Tree::Display(items.into_inner()), below)
}

pub(crate) fn comprehension(alloc: Global, items: Trees, generators: Generators) -> Node
    ensures { IfOk result (λ t. t ≡ Tree.Comp items generators) }
{
    let below = greater(items.depth(), generators.depth());
    let tree = Tree::Comp(items.into_inner(), generators.into_inner());
    node(alloc, tree, below)
}

pub(crate) fn product(alloc: Global, parts: Parts, generators: Generators) -> Node
    ensures { IfOk result (λ t. t ≡ Tree.Product parts generators) }
{
    let below = greater(parts.depth(), generators.depth());
    let tree = Tree::Product(parts.into_inner(), generators.into_inner());
    node(alloc, tree, below)
}

pub(crate) fn renaming(alloc: Global, p: DeepTree, pairs: Pairs, generators: Generators) -> Node
    ensures { IfOk result (λ t. t ≡ Tree.Rename p pairs generators) }
{
    let below = greater(p.depth(), greater(pairs.depth(), generators.depth()));
    let tree = Tree::Rename(p.into_inner(), pairs.into_inner(), generators.into_inner());
    node(alloc, tree, below)
}

#[tactic(auto, using(crate::proofs::Depths::of_prefix))]
pub(crate) fn prefix(alloc: Global, event: Event, process: DeepTree) -> Node
    ensures { IfOk result (λ t. t ≡ Tree.Prefix (event_tree event.name event.fields) process) }
{
    let Event { name, fields } = event;
    let below = greater(fields.depth(), process.depth());
    let fields = fields.into_inner();
    let event = EventTree { name, fields };
    node(alloc, Tree::Prefix(event, process.into_inner()), below)
}

pub(crate) fn conditional(alloc: Global, condition: DeepTree, a: DeepTree, b: DeepTree) -> Node
    ensures { IfOk result (λ t. t ≡ Tree.If condition a b) }
{
    let below = greater(condition.depth(), greater(a.depth(), b.depth()));
    let tree = Tree::If(condition.into_inner(), a.into_inner(), b.into_inner());
    node(alloc, tree, below)
}

pub(crate) fn guard(alloc: Global, a: DeepTree, p: DeepTree) -> Node
    ensures { IfOk result (λ t. t ≡ Tree.Guard a p) }
{
    let below = greater(a.depth(), p.depth());
    node(alloc, Tree::Guard(a.into_inner(), p.into_inner()), below)
}

pub(crate) fn seq(alloc: Global, p: DeepTree, q: DeepTree) -> Node
    ensures { IfOk result (λ t. t ≡ Tree.Seq p q) }
{
    let below = greater(p.depth(), q.depth());
    node(alloc, Tree::Seq(p.into_inner(), q.into_inner()), below)
}

pub(crate) fn hide(alloc: Global, p: DeepTree, a: DeepTree) -> Node
    ensures { IfOk result (λ t. t ≡ Tree.Hide p a) }
{
    let below = greater(p.depth(), a.depth());
    node(alloc, Tree::Hide(p.into_inner(), a.into_inner()), below)
}

// A chain of processes with the sign of a choice between them.
pub(crate) fn choice(alloc: Global, chain: Chain, operands: Trees) -> Node
    ensures { IfOk result (λ t. t ≡ choice_of (choice chain) operands) }
{
    let below = operands.depth();
    let operands = operands.into_inner();
    match chain {
        Chain::External => node(alloc, Tree::External(operands), below),
        Chain::Internal => node(alloc, Tree::Internal(operands), below),
    }
}

pub(crate) fn each(alloc: Global, chain: Chain, binder: Binder, p: DeepTree) -> Node
    ensures { IfOk result (λ t. t ≡ each_tree chain binder.name binder.set p) }
{
    let Binder { name, set } = binder;
    let below = greater(set.depth(), p.depth());
    let set = set.into_inner();
    let p = p.into_inner();
    match chain {
        Chain::External => node(alloc, Tree::EachExternal(name, set, p), below),
        Chain::Internal => node(alloc, Tree::EachInternal(name, set, p), below),
    }
}

pub(crate) fn each_parallel(alloc: Global, binder: Binder, side: Side) -> Node
    ensures { IfOk result (λ t. t ≡ Tree.EachParallel binder.name binder.set side.alphabet side.process) }
{
    let Binder { name, set } = binder;
    let Side { process, alphabet } = side;
    let below = greater(set.depth(), greater(alphabet.depth(), process.depth()));
    let (set, alphabet) = (set.into_inner(), alphabet.into_inner());
    let tree = Tree::EachParallel(name, set, alphabet, process.into_inner());
    node(alloc, tree, below)
}

pub(crate) fn parallel(alloc: Global, left: Side, right: Side) -> Node
    ensures { IfOk result (λ t. t ≡ Tree.Parallel left.process left.alphabet right.alphabet right.process) }
{
    let (p, a) = (left.process, left.alphabet);
    let (b, q) = (right.alphabet, right.process);
    let below = greater(greater(p.depth(), a.depth()), greater(b.depth(), q.depth()));
    let (p, a) = (p.into_inner(), a.into_inner());
    let (b, q) = (b.into_inner(), q.into_inner());
    node(alloc, Tree::Parallel(p, a, b, q), below)
}

pub(crate) fn part(name: Name, fields: Trees) -> Deep<PartTree>
    ensures { result ≡ part_tree name fields }
{
    let depth = fields.depth();
    let fields = fields.into_inner();
    Deep::new(PartTree { name, fields }, depth)
}

pub(crate) fn pair(old: Deep<PartTree>, new: Deep<PartTree>) -> Deep<(PartTree, PartTree)>
    ensures { result ≡ (old, new) }
{
    let depth = greater(old.depth(), new.depth());
    Deep::new((old.into_inner(), new.into_inner()), depth)
}

pub(crate) fn source(name: Name, set: DeepTree) -> Deep<GenTree>
    ensures { result ≡ GenTree.From name set }
{
    let depth = set.depth();
    Deep::new(GenTree::From(name, set.into_inner().into_inner()), depth)
}

pub(crate) fn condition(test: DeepTree) -> Deep<GenTree>
    ensures { result ≡ GenTree.Cond test }
{
    let depth = test.depth();
    Deep::new(GenTree::Cond(test.into_inner().into_inner()), depth)
}

pub(crate) fn dot(value: DeepTree) -> Deep<FieldTree>
    ensures { result ≡ FieldTree.Dot value }
{
    let depth = value.depth();
    Deep::new(FieldTree::Dot(value.into_inner().into_inner()), depth)
}

pub(crate) fn output(value: DeepTree) -> Deep<FieldTree>
    ensures { result ≡ FieldTree.Output value }
{
    let depth = value.depth();
    Deep::new(FieldTree::Output(value.into_inner().into_inner()), depth)
}

pub(crate) fn input(name: Name) -> Deep<FieldTree>
    ensures { result ≡ FieldTree.Input name None }
{
    Deep::new(FieldTree::Input(name, None), 0)
}

#[tactic(auto, using(crate::proofs::Depths::of_input))]
pub(crate) fn input_within(name: Name, set: DeepTree) -> Deep<FieldTree>
    ensures { result ≡ FieldTree.Input name (Some set) }
{
    let depth = set.depth();
    let field = FieldTree::Input(name, Some(set.into_inner().into_inner()));
    Deep::new(field, depth)
}
