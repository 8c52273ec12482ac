//! Trees: each form written token by token, straight into the text.
#![tactic(auto, using(crate::proofs::Written::written_laws), unfolding(crate::specs::TokenText::spaced))]

ghost use Rattle.std.specs.Prelude.{◌≡◌, ◌++◌, [], ◌∷◌, OnOk, flat_map};
ghost use Rattle.csp_text.specs.declared.token.Token.TheVariants as token;
ghost use Rattle.csp_text.specs.declared.token.Symbol.TheVariants.{At, Bar, Comma};
ghost use Rattle.csp_text.specs.declared.tree.FieldTree.TheOpen.{Tree-F};
ghost use Rattle.csp_text.specs.declared.tree.FieldTree.TheVariants as field;
ghost use Rattle.script_printer.specs.TokenText.{spaced};
ghost use Rattle.script_printer.specs.PrintedTree.{bound_in, conditions, dotted, event_tokens, field_tokens, form_tokens, gen_tokens, in_parentheses, item_tokens, operand_tokens, part_tokens, printed_tokens, renamed_tokens, separated};

use crate::shape::Shape;
use crate::shapes::shape_of;
use crate::tokens::{
    Written, put_between, put_name, put_number, put_operator, put_set_op, put_symbol, put_word,
};
use containers::{Boxed, Items};
use csp_base::{BinOp, Bytes, Name, SetOp};
use csp_text::{EventTree, FieldTree, GenTree, PartTree, Symbol, Tree, Word};

// A tree that is a part of another.
type Child = Boxed<Tree>;

// Adds a tree without parentheses.
#[cycle(trees)]
#[tactic(auto, using(crate::proofs::PrintedEquations::printed_out, csp_text::specs::declared::tree::Tree::the_lemmas), unfolding(crate::specs::TokenText::spaced, crate::specs::PrintedTree::printed_tokens))]
pub(crate) fn put_tree(text: &mut Bytes, tree: &Tree) -> Written
    ensures { OnOk result (text.new ≡ text.old ++ spaced (printed_tokens tree.now)) }
{
    match tree {
        Tree::Stop => put_word(text, Word::Stop),
        Tree::Skip => put_word(text, Word::Skip),
        Tree::Num(number) => put_number(text, *number),
        Tree::True => put_word(text, Word::True),
        Tree::False => put_word(text, Word::False),
        Tree::Name(name) => put_name(text, name),
        Tree::Call(name, items) => put_call(text, name, items),
        Tree::Dot(name, fields) => put_front(text, name, fields),
        Tree::Neg(a) => put_after(text, Symbol::Minus, a.get()),
        Tree::Not(a) => put_after_word(text, Word::Not, a.get()),
        Tree::Binary(op, a, b) => put_binary(text, a, *op, b),
        Tree::If(condition, a, b) => put_conditional(text, condition, a, b),
        Tree::Display(items) => put_enclosed(text, Symbol::OpenBrace, items, Symbol::CloseBrace),
        Tree::Range(a, b) => put_range(text, a, b),
        Tree::Comp(items, gens) => put_comprehension(text, items, gens),
        Tree::Product(parts, gens) => put_production(text, parts, gens),
        Tree::SetOp(op, a, b) => put_set_operation(text, *op, a, b),
        Tree::Prefix(event, p) => put_prefix(text, event, p),
        Tree::Guard(condition, p) => put_infix(text, condition, Symbol::Ampersand, p),
        Tree::External(ps) => put_operands(text, ps.as_slice(), Symbol::ExternalChoice),
        Tree::Internal(ps) => put_operands(text, ps.as_slice(), Symbol::InternalChoice),
        Tree::EachExternal(name, s, p) => put_each(text, Symbol::ExternalChoice, name, s, p),
        Tree::EachInternal(name, s, p) => put_each(text, Symbol::InternalChoice, name, s, p),
        Tree::Parallel(p, a, b, q) => put_parallel(text, p, a, b, q),
        Tree::EachParallel(name, s, a, p) => put_each_parallel(text, name, s, a, p),
        Tree::Seq(p, q) => put_infix(text, p, Symbol::Semicolon, q),
        Tree::Hide(p, s) => put_infix(text, p, Symbol::Backslash, s),
        Tree::Rename(p, pairs, gens) => put_renaming(text, pairs, gens, p),
    }
}

// Adds a call.
#[cycle(trees)]
fn put_call(text: &mut Bytes, name: &Name, items: &Items<Tree>) -> Written
    ensures { OnOk result (text.new ≡ text.old ++ spaced (form_tokens (Tree-F.Call name.now items.now))) }
{
    put_name(text, name)?;
    put_enclosed(text, Symbol::OpenParen, items, Symbol::CloseParen)
}

// Adds items with commas between them, in brackets.
#[cycle(trees)]
fn put_enclosed(text: &mut Bytes, opening: Symbol, items: &Items<Tree>, closing: Symbol) -> Written
    ensures { OnOk result (text.new ≡ text.old
        ++ spaced (token.Symbol opening ∷ separated item_tokens (token.Symbol Comma) items.now ++ token.Symbol closing ∷ [])) }
{
    put_symbol(text, opening)?;
    put_items(text, items.as_slice())?;
    put_symbol(text, closing)
}

// Adds a name and fields with a dot before each.
#[cycle(trees)]
fn put_front(text: &mut Bytes, name: &Name, fields: &Items<Tree>) -> Written
    ensures { OnOk result (text.new ≡ text.old ++ spaced (token.Name name.now ∷ dotted operand_tokens fields.now)) }
{
    put_name(text, name)?;
    put_dotted(text, fields.as_slice())
}

// Adds an operator between its operands.
#[cycle(trees)]
fn put_binary(text: &mut Bytes, a: &Child, op: BinOp, b: &Child) -> Written
    ensures { OnOk result (text.new ≡ text.old ++ spaced (form_tokens (Tree-F.Binary op a.now b.now))) }
{
    put_operand(text, a.get())?;
    put_operator(text, op)?;
    put_operand(text, b.get())
}

// Adds a sign between two operands.
#[cycle(trees)]
fn put_infix(text: &mut Bytes, a: &Child, sign: Symbol, b: &Child) -> Written
    ensures { OnOk result (text.new ≡ text.old
        ++ spaced (operand_tokens a.now ++ token.Symbol sign ∷ operand_tokens b.now)) }
{
    put_operand(text, a.get())?;
    put_after(text, sign, b.get())
}

// Adds an `if` with its condition and its parts.
#[cycle(trees)]
fn put_conditional(text: &mut Bytes, condition: &Child, a: &Child, b: &Child) -> Written
    ensures { OnOk result (text.new ≡ text.old ++ spaced (form_tokens (Tree-F.If condition.now a.now b.now))) }
{
    put_after_word(text, Word::If, condition.get())?;
    put_branch(text, Word::Then, a.get())?;
    put_branch(text, Word::Else, b.get())
}

// Adds a range.
#[cycle(trees)]
fn put_range(text: &mut Bytes, a: &Child, b: &Child) -> Written
    ensures { OnOk result (text.new ≡ text.old ++ spaced (form_tokens (Tree-F.Range a.now b.now))) }
{
    put_after(text, Symbol::OpenBrace, a.get())?;
    put_after(text, Symbol::DotDot, b.get())?;
    put_symbol(text, Symbol::CloseBrace)
}

// Adds a comprehension.
#[cycle(trees)]
fn put_comprehension(text: &mut Bytes, items: &Items<Tree>, gens: &Items<GenTree>) -> Written
    ensures { OnOk result (text.new ≡ text.old ++ spaced (form_tokens (Tree-F.Comp items.now gens.now))) }
{
    put_symbol(text, Symbol::OpenBrace)?;
    put_items(text, items.as_slice())?;
    put_generators(text, gens.as_slice(), Symbol::CloseBrace)
}

// Adds a production.
#[cycle(trees)]
fn put_production(text: &mut Bytes, parts: &Items<PartTree>, gens: &Items<GenTree>) -> Written
    ensures { OnOk result (text.new ≡ text.old ++ spaced (form_tokens (Tree-F.Product parts.now gens.now))) }
{
    put_symbol(text, Symbol::OpenProduct)?;
    put_parts(text, parts.as_slice())?;
    put_conditions(text, gens, Symbol::CloseProduct)
}

// Adds an operator on sets with its operands.
#[cycle(trees)]
fn put_set_operation(text: &mut Bytes, op: SetOp, a: &Child, b: &Child) -> Written
    ensures { OnOk result (text.new ≡ text.old ++ spaced (form_tokens (Tree-F.SetOp op a.now b.now))) }
{
    put_set_op(text, op)?;
    put_item_after(text, Symbol::OpenParen, a)?;
    put_item_after(text, Symbol::Comma, b)?;
    put_symbol(text, Symbol::CloseParen)
}

// Adds a prefix.
#[cycle(trees)]
fn put_prefix(text: &mut Bytes, event: &EventTree, p: &Child) -> Written
    ensures { OnOk result (text.new ≡ text.old ++ spaced (form_tokens (Tree-F.Prefix event.now p.now))) }
{
    put_event(text, event)?;
    put_after(text, Symbol::Arrow, p.get())
}

// Adds a replicated choice.
#[cycle(trees)]
fn put_each(text: &mut Bytes, sign: Symbol, name: &Name, s: &Child, p: &Child) -> Written
    ensures { OnOk result (text.new ≡ text.old
        ++ spaced (token.Symbol sign ∷ bound_in name.now (operand_tokens s.now) ++ token.Symbol At ∷ printed_tokens p.now)) }
{
    put_replicated(text, sign, name, s.get())?;
    put_tree(text, p.get())
}

// Adds a parallel.
#[cycle(trees)]
fn put_parallel(text: &mut Bytes, p: &Child, a: &Child, b: &Child, q: &Child) -> Written
    ensures { OnOk result (text.new ≡ text.old ++ spaced (form_tokens (Tree-F.Parallel p.now a.now b.now q.now))) }
{
    put_infix(text, p, Symbol::OpenBracket, a)?;
    put_symbol(text, Symbol::Parallel)?;
    put_infix(text, b, Symbol::CloseBracket, q)
}

// Adds a replicated parallel.
#[cycle(trees)]
fn put_each_parallel(text: &mut Bytes, name: &Name, s: &Child, a: &Child, p: &Child) -> Written
    ensures { OnOk result (text.new ≡ text.old
        ++ spaced (form_tokens (Tree-F.EachParallel name.now s.now a.now p.now))) }
{
    put_replicated(text, Symbol::Parallel, name, s.get())?;
    put_after(text, Symbol::OpenBracket, a.get())?;
    put_tree_after(text, Symbol::CloseBracket, p.get())
}

// Adds a renaming.
#[cycle(trees)]
fn put_renaming(
    text: &mut Bytes,
    pairs: &Items<(PartTree, PartTree)>,
    gens: &Items<GenTree>,
    p: &Child,
) -> Written
    ensures { OnOk result (text.new ≡ text.old ++ spaced (form_tokens (Tree-F.Rename p.now pairs.now gens.now))) }
{
    put_operand(text, p.get())?;
    put_symbol(text, Symbol::OpenRename)?;
    put_pairs(text, pairs.as_slice())?;
    put_conditions(text, gens, Symbol::CloseRename)
}

// Adds a tree in parentheses.
#[cycle(trees)]
fn put_in_parentheses(text: &mut Bytes, tree: &Tree) -> Written
    ensures { OnOk result (text.new ≡ text.old ++ spaced (in_parentheses (printed_tokens tree.now))) }
{
    put_symbol(text, Symbol::OpenParen)?;
    put_tree(text, tree)?;
    put_symbol(text, Symbol::CloseParen)
}

// Adds an operand: what is no atom has parentheses.
#[cycle(trees)]
#[tactic(auto, unfolding(crate::specs::PrintedTree::operand_tokens))]
pub(crate) fn put_operand(text: &mut Bytes, tree: &Tree) -> Written
    ensures { OnOk result (text.new ≡ text.old ++ spaced (operand_tokens tree.now)) }
{
    match shape_of(tree) {
        Shape::Atom => put_tree(text, tree),
        Shape::Dotted => put_in_parentheses(text, tree),
        Shape::Compound => put_in_parentheses(text, tree),
    }
}

// Adds an item: what is neither an atom nor a dotted event has parentheses.
#[cycle(trees)]
#[tactic(auto, unfolding(crate::specs::PrintedTree::item_tokens))]
fn put_item(text: &mut Bytes, tree: &Tree) -> Written
    ensures { OnOk result (text.new ≡ text.old ++ spaced (item_tokens tree.now)) }
{
    match shape_of(tree) {
        Shape::Atom => put_tree(text, tree),
        Shape::Dotted => put_tree(text, tree),
        Shape::Compound => put_in_parentheses(text, tree),
    }
}

// Adds a sign and an operand behind it.
#[cycle(trees)]
fn put_after(text: &mut Bytes, sign: Symbol, tree: &Tree) -> Written
    ensures { OnOk result (text.new ≡ text.old ++ spaced (token.Symbol sign ∷ operand_tokens tree.now)) }
{
    put_symbol(text, sign)?;
    put_operand(text, tree)
}

// Adds a sign and an item behind it.
#[cycle(trees)]
fn put_item_after(text: &mut Bytes, sign: Symbol, tree: &Child) -> Written
    ensures { OnOk result (text.new ≡ text.old ++ spaced (token.Symbol sign ∷ item_tokens tree.now)) }
{
    put_symbol(text, sign)?;
    put_item(text, tree.get())
}

// Adds a sign and a tree without parentheses behind it.
#[cycle(trees)]
fn put_tree_after(text: &mut Bytes, sign: Symbol, tree: &Tree) -> Written
    ensures { OnOk result (text.new ≡ text.old ++ spaced (token.Symbol sign ∷ printed_tokens tree.now)) }
{
    put_symbol(text, sign)?;
    put_tree(text, tree)
}

// Adds a word and an operand behind it.
#[cycle(trees)]
fn put_after_word(text: &mut Bytes, word: Word, tree: &Tree) -> Written
    ensures { OnOk result (text.new ≡ text.old ++ spaced (token.Word word ∷ operand_tokens tree.now)) }
{
    put_word(text, word)?;
    put_operand(text, tree)
}

// Adds the word before a part of an `if`, and the part.
#[cycle(trees)]
fn put_branch(text: &mut Bytes, word: Word, part: &Tree) -> Written
    ensures { OnOk result (text.new ≡ text.old ++ spaced (token.Word word ∷ printed_tokens part.now)) }
{
    put_word(text, word)?;
    put_tree(text, part)
}

// Adds the front of a replicated form: its sign, its name, and the set that the name is bound in.
#[cycle(trees)]
fn put_replicated(text: &mut Bytes, sign: Symbol, name: &Name, set: &Tree) -> Written
    ensures { OnOk result (text.new ≡ text.old
        ++ spaced (token.Symbol sign ∷ bound_in name.now (operand_tokens set.now) ++ token.Symbol At ∷ [])) }
{
    put_symbol(text, sign)?;
    put_name(text, name)?;
    put_after(text, Symbol::Colon, set)?;
    put_symbol(text, Symbol::At)
}

// Adds the event of a prefix.
#[cycle(trees)]
#[tactic(auto, using(crate::proofs::PrintedEquations::other_forms, crate::proofs::Written::written_laws), unfolding(crate::specs::TokenText::spaced))]
fn put_event(text: &mut Bytes, event: &EventTree) -> Written
    ensures { OnOk result (text.new ≡ text.old ++ spaced (event_tokens event.now)) }
{
    put_name(text, &event.name)?;
    put_fields(text, event.fields.as_slice())
}

// Adds a field of a prefix.
#[cycle(trees)]
#[tactic(auto, using(crate::proofs::PrintedEquations::other_forms), unfolding(crate::specs::TokenText::spaced))]
fn put_field(text: &mut Bytes, field: &FieldTree) -> Written
    ensures { OnOk result (text.new ≡ text.old ++ spaced (field_tokens field.now)) }
{
    match field {
        FieldTree::Dot(tree) => put_after(text, Symbol::Dot, tree),
        FieldTree::Output(tree) => put_after(text, Symbol::Bang, tree),
        FieldTree::Input(name, set) => put_input(text, name, set),
    }
}

// Adds an input, with its set where it has one.
#[cycle(trees)]
#[tactic(auto, using(crate::proofs::PrintedEquations::other_forms, crate::proofs::Written::written_laws), unfolding(crate::specs::TokenText::spaced))]
fn put_input(text: &mut Bytes, name: &Name, set: &Option<Tree>) -> Written
    ensures { OnOk result (text.new ≡ text.old ++ spaced (field_tokens (field.Input name.now set.now))) }
{
    put_symbol(text, Symbol::Question)?;
    put_name(text, name)?;
    match set {
        Some(set) => put_after(text, Symbol::Colon, set),
        None => Ok(()),
    }
}

// Adds a generator: a name and its set, or a condition.
#[cycle(trees)]
#[tactic(auto, using(crate::proofs::PrintedEquations::other_forms, crate::proofs::Written::written_laws), unfolding(crate::specs::TokenText::spaced))]
fn put_gen(text: &mut Bytes, generator: &GenTree) -> Written
    ensures { OnOk result (text.new ≡ text.old ++ spaced (gen_tokens generator.now)) }
{
    match generator {
        GenTree::From(name, set) => {
            put_name(text, name)?;
            put_after(text, Symbol::LeftArrow, set)
        }
        GenTree::Cond(condition) => put_operand(text, condition),
    }
}

// Adds the front of an event.
#[cycle(trees)]
#[tactic(auto, using(crate::proofs::PrintedEquations::other_forms), unfolding(crate::specs::TokenText::spaced))]
fn put_part(text: &mut Bytes, part: &PartTree) -> Written
    ensures { OnOk result (text.new ≡ text.old ++ spaced (part_tokens part.now)) }
{
    put_front(text, &part.name, &part.fields)
}

// Adds a pair of a renaming.
#[cycle(trees)]
#[tactic(auto, using(crate::proofs::Written::written_laws), unfolding(crate::specs::TokenText::spaced, crate::specs::PrintedTree::renamed_tokens))]
fn put_pair(text: &mut Bytes, pair: &(PartTree, PartTree)) -> Written
    ensures { OnOk result (text.new ≡ text.old ++ spaced (renamed_tokens pair.now)) }
{
    put_part(text, &pair.0)?;
    put_symbol(text, Symbol::LeftArrow)?;
    put_part(text, &pair.1)
}

// Adds generators behind a bar, and the bracket behind them.
#[cycle(trees)]
fn put_generators(text: &mut Bytes, gens: &[GenTree], closing: Symbol) -> Written
    ensures { OnOk result (text.new ≡ text.old
        ++ spaced (token.Symbol Bar ∷ separated gen_tokens (token.Symbol Comma) gens.now ++ token.Symbol closing ∷ [])) }
{
    put_symbol(text, Symbol::Bar)?;
    put_gens(text, gens)?;
    put_symbol(text, closing)
}

// The same, with no bar where there are no generators.
#[cycle(trees)]
#[tactic(auto, using(crate::proofs::Written::none_shown, crate::proofs::Written::some_shown), unfolding(crate::specs::TokenText::spaced))]
fn put_conditions(text: &mut Bytes, gens: &Items<GenTree>, closing: Symbol) -> Written
    ensures { OnOk result (text.new ≡ text.old
        ++ spaced (conditions gen_tokens gens.now ++ token.Symbol closing ∷ [])) }
{
    let gens = gens.as_slice();
    if gens.is_empty() {
        return put_symbol(text, closing);
    }
    put_generators(text, gens, closing)
}

// Adds items with commas between them.
#[cycle(trees)]
fn put_items(text: &mut Bytes, items: &[Tree]) -> Written
    ensures { OnOk result (text.new ≡ text.old ++ spaced (separated item_tokens (token.Symbol Comma) items.now)) }
{
    for (place, item) in items.iter().enumerate() {
        put_between(text, place, Symbol::Comma)?;
        put_item(text, item)?;
    }
    Ok(())
}

// Adds operands with a sign between them.
#[cycle(trees)]
pub(crate) fn put_operands(text: &mut Bytes, operands: &[Tree], sign: Symbol) -> Written
    ensures { OnOk result (text.new ≡ text.old ++ spaced (separated operand_tokens (token.Symbol sign) operands.now)) }
{
    for (place, operand) in operands.iter().enumerate() {
        put_between(text, place, sign)?;
        put_operand(text, operand)?;
    }
    Ok(())
}

// Adds generators with commas between them.
#[cycle(trees)]
fn put_gens(text: &mut Bytes, gens: &[GenTree]) -> Written
    ensures { OnOk result (text.new ≡ text.old ++ spaced (separated gen_tokens (token.Symbol Comma) gens.now)) }
{
    for (place, generator) in gens.iter().enumerate() {
        put_between(text, place, Symbol::Comma)?;
        put_gen(text, generator)?;
    }
    Ok(())
}

// Adds fronts of events with commas between them.
#[cycle(trees)]
fn put_parts(text: &mut Bytes, parts: &[PartTree]) -> Written
    ensures { OnOk result (text.new ≡ text.old ++ spaced (separated part_tokens (token.Symbol Comma) parts.now)) }
{
    for (place, part) in parts.iter().enumerate() {
        put_between(text, place, Symbol::Comma)?;
        put_part(text, part)?;
    }
    Ok(())
}

// Adds pairs of a renaming with commas between them.
#[cycle(trees)]
fn put_pairs(text: &mut Bytes, pairs: &[(PartTree, PartTree)]) -> Written
    ensures { OnOk result (text.new ≡ text.old ++ spaced (separated renamed_tokens (token.Symbol Comma) pairs.now)) }
{
    for (place, pair) in pairs.iter().enumerate() {
        put_between(text, place, Symbol::Comma)?;
        put_pair(text, pair)?;
    }
    Ok(())
}

// Adds fields with a dot before each.
#[cycle(trees)]
fn put_dotted(text: &mut Bytes, fields: &[Tree]) -> Written
    ensures { OnOk result (text.new ≡ text.old ++ spaced (dotted operand_tokens fields.now)) }
{
    for field in fields {
        put_after(text, Symbol::Dot, field)?;
    }
    Ok(())
}

// Adds the fields of a prefix.
#[cycle(trees)]
fn put_fields(text: &mut Bytes, fields: &[FieldTree]) -> Written
    ensures { OnOk result (text.new ≡ text.old ++ spaced (flat_map field_tokens fields.now)) }
{
    for field in fields {
        put_field(text, field)?;
    }
    Ok(())
}
