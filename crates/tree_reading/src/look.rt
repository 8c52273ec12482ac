//! Looks at the front of tokens.

ghost use Rattle.std.specs.Prelude.{◌≡◌, ◌≤◌, ◌<◌, length, nat_eq, IfOk, IfSome, MatchOption, Some, None};
ghost use Rattle.std.specs.Option.{option_copied};
ghost use Rattle.csp_grammar.specs.Prelude.{begins_event, begins, binding, skip, skip_word};
ghost use Rattle.tree_reading.specs.Prelude.{left_operand, Gives, atom_start, chain_symbol, first_chain, form_start, is_symbol_token, is_word_token, may_follow, named, other_start, prefix_start, sign_behind, sign_binding, symbol_sign, token_sign, token_start, symbol_start, word_sign, word_start};

use crate::deep::Deep;
use crate::fault::{OrNoText, no_text};
use crate::read::{Binding, Read};
use csp_base::{BinOp, Name, SetOp};
use csp_text::{Symbol, Token, Tree, Word};
use std::alloc::Global;

/// The two choices.
#[derive(Clone, Copy)]
pub enum Chain {
    /// `[]`
    External,
    /// `|~|`
    Internal,
}

/// What goes on with an operand.
#[derive(Clone, Copy)]
pub enum Sign {
    /// An operator between two operands, and how tightly it binds.
    Operator(BinOp, Binding),
    /// The pairs of a renaming.
    Renaming,
}

/// What an atom begins with.
#[derive(Drop)]
pub enum AtomStart {
    /// The whole of it.
    Leaf(Deep<Tree>),
    /// `f(`
    Call(Name),
    /// The word of an operator on sets.
    SetOperator(SetOp),
    /// `(`
    Parentheses,
    /// `{`
    Set,
    /// `{|`
    Product,
}

/// What a process or an expression begins with.
#[derive(Clone, Copy)]
pub enum PrefixStart {
    /// The name of an event, which is not passed yet.
    Event,
    /// `if`
    If,
    /// The sign of a replicated choice.
    Each(Chain),
    /// `||`
    EachParallel,
    /// An expression, of which nothing is passed yet.
    Expression,
}

// Whether the token is this symbol.
fn is_symbol(token: &Token, symbol: Symbol) -> bool
    ensures { result ≡ is_symbol_token symbol token.now }
{
    match token {
        Token::Symbol(other) => *other == symbol,
        _ => false,
    }
}

/// What follows the symbol, where the tokens begin with it.
pub fn skip(tokens: &[Token], symbol: Symbol) -> Option<&[Token]>
    ensures same { option_copied result ≡ skip symbol tokens.now }
    ensures shorter { IfSome result (λ rest. length rest.now < length tokens.now) }
{
    match tokens.split_first() {
        Some((first, rest)) if is_symbol(first, symbol) => Some(rest),
        _ => None,
    }
}

// Whether the token is this word.
fn is_word(token: &Token, word: Word) -> bool
    ensures { result ≡ is_word_token word token.now }
{
    match token {
        Token::Word(other) => *other == word,
        _ => false,
    }
}

/// What follows the word, where the tokens begin with it.
pub fn skip_word(tokens: &[Token], word: Word) -> Option<&[Token]>
    ensures same { option_copied result ≡ skip_word word tokens.now }
    ensures shorter { IfSome result (λ rest. length rest.now < length tokens.now) }
{
    match tokens.split_first() {
        Some((first, rest)) if is_word(first, word) => Some(rest),
        _ => None,
    }
}

/// What follows the symbol at the front, which has to stand there.
pub fn expect(tokens: &[Token], symbol: Symbol) -> OrNoText<&[Token]>
    ensures same { Gives result (λ rest. rest.now) (skip symbol tokens.now) }
    ensures shorter { IfOk result (λ rest. length rest.now < length tokens.now) }
{
    match skip(tokens, symbol) {
        Some(rest) => Ok(rest),
        None => Err(no_text(tokens)),
    }
}

/// What follows the word at the front, which has to stand there.
pub fn expect_word(tokens: &[Token], word: Word) -> OrNoText<&[Token]>
    ensures same { Gives result (λ rest. rest.now) (skip_word word tokens.now) }
    ensures shorter { IfOk result (λ rest. length rest.now < length tokens.now) }
{
    match skip_word(tokens, word) {
        Some(rest) => Ok(rest),
        None => Err(no_text(tokens)),
    }
}

/// The name at the front, and what follows it.
pub fn first_name(tokens: &[Token]) -> Option<(&Name, &[Token])>
    ensures same { MatchOption result (named tokens.now ≡ None) (λ found. named tokens.now
        ≡ Some (found.0.now, found.1.now)) }
    ensures shorter { IfSome result (λ found. length found.1.now < length tokens.now) }
{
    match tokens.split_first() {
        Some((Token::Name(name), rest)) => Some((name, rest)),
        _ => None,
    }
}

/// A copy of the name at the front, which has to stand there, and what follows it.
pub fn expect_name(alloc: Global, tokens: &[Token]) -> OrNoText<(Name, &[Token])>
    ensures same { Gives result (λ found. (found.0, found.1.now)) (named tokens.now) }
    ensures shorter { IfOk result (λ found. length found.1.now < length tokens.now) }
{
    match first_name(tokens) {
        Some((name, rest)) => {
            let name = name.try_clone(alloc)?;
            Ok((name, rest))
        }
        None => Err(no_text(tokens)),
    }
}

// Whether the token goes on with the name of an event.
fn is_event_sign(token: &Token) -> bool
    ensures { result ≡ nat_eq (binding token.now) 10 }
{
    match token {
        Token::Symbol(
            Symbol::Arrow | Symbol::Dot | Symbol::Bang | Symbol::Question | Symbol::Colon,
        ) => true,
        _ => false,
    }
}

// Whether the first token goes on with the name of an event.
fn goes_on_with_event(tokens: &[Token]) -> bool
    ensures { result ≡ nat_eq (begins tokens.now) 10 }
{
    match tokens.split_first() {
        Some((first, _)) => is_event_sign(first),
        None => false,
    }
}

/// Whether a name stands in front of what goes on with the name of an event.
pub fn begins_event(tokens: &[Token]) -> bool
    ensures { result ≡ begins_event tokens.now }
{
    match tokens.split_first() {
        Some((Token::Name(_), rest)) => goes_on_with_event(rest),
        _ => false,
    }
}

impl Chain {
    /// The sign of the choice.
    pub fn symbol(self) -> Symbol
        ensures { result ≡ chain_symbol self }
    {
        match self {
            Chain::External => Symbol::ExternalChoice,
            Chain::Internal => Symbol::InternalChoice,
        }
    }
}

/// The choice whose sign is at the front, and what follows it.
pub fn first_chain(tokens: &[Token]) -> Option<Read<'_, Chain>>
    ensures same { MatchOption result (first_chain tokens.now ≡ None) (λ found. first_chain tokens.now
        ≡ Some (found.part, found.rest.now)) }
    ensures shorter { IfSome result (λ found. length found.rest.now < length tokens.now) }
{
    if let Some(rest) = skip(tokens, Symbol::ExternalChoice) {
        let part = Chain::External;
        return Some(Read { part, rest });
    }
    let part = Chain::Internal;
    match skip(tokens, Symbol::InternalChoice) {
        Some(rest) => Some(Read { part, rest }),
        None => None,
    }
}

// The sign that the symbol is.
fn symbol_sign(symbol: Symbol) -> Option<Sign>
    ensures { result ≡ symbol_sign symbol }
{
    match symbol {
        Symbol::Equal => Some(Sign::Operator(BinOp::Eq, Binding::Comparison)),
        Symbol::NotEqual => Some(Sign::Operator(BinOp::Ne, Binding::Comparison)),
        Symbol::Less => Some(Sign::Operator(BinOp::Lt, Binding::Comparison)),
        Symbol::LessEqual => Some(Sign::Operator(BinOp::Le, Binding::Comparison)),
        Symbol::Greater => Some(Sign::Operator(BinOp::Gt, Binding::Comparison)),
        Symbol::GreaterEqual => Some(Sign::Operator(BinOp::Ge, Binding::Comparison)),
        Symbol::Plus => Some(Sign::Operator(BinOp::Add, Binding::Sum)),
        Symbol::Minus => Some(Sign::Operator(BinOp::Sub, Binding::Sum)),
        Symbol::Star => Some(Sign::Operator(BinOp::Mul, Binding::Product)),
        Symbol::Slash => Some(Sign::Operator(BinOp::Div, Binding::Product)),
        Symbol::Percent => Some(Sign::Operator(BinOp::Rem, Binding::Product)),
        Symbol::OpenRename => Some(Sign::Renaming),
        _ => None,
    }
}

// The sign that the word is.
fn word_sign(word: Word) -> Option<Sign>
    ensures { result ≡ word_sign word }
{
    match word {
        Word::Or => Some(Sign::Operator(BinOp::Or, Binding::Disjunction)),
        Word::And => Some(Sign::Operator(BinOp::And, Binding::Conjunction)),
        _ => None,
    }
}

// The sign that the token is.
fn token_sign(token: &Token) -> Option<Sign>
    ensures { result ≡ token_sign token.now }
{
    match token {
        Token::Symbol(symbol) => symbol_sign(*symbol),
        Token::Word(word) => word_sign(*word),
        _ => None,
    }
}

impl Sign {
    // How tightly it binds the operand before it.
    fn binding(self) -> Binding
        ensures { result ≡ sign_binding self }
    {
        match self {
            Sign::Operator(_, binding) => binding,
            Sign::Renaming => Binding::Renaming,
        }
    }

    // Whether it may follow an operand that is bound like this, where signs of the level and tighter ones may.
    fn may_follow(self, level: Binding, bound: Binding) -> bool
        ensures { result ≡ may_follow level bound self }
    {
        self.binding().is_at_least(level) && bound.is_at_least(self.binding().left_operand())
    }
}

/// The sign that goes on with an operand, which is bound like this, and what follows the sign.
pub fn sign_behind(level: Binding, bound: Binding, tokens: &[Token]) -> Option<Read<'_, Sign>>
    ensures same { MatchOption result (sign_behind level bound tokens.now ≡ None) (λ found.
        sign_behind level bound tokens.now ≡ Some (found.part, found.rest.now)) }
    ensures shorter { IfSome result (λ found. length found.rest.now < length tokens.now) }
{
    let Some((first, rest)) = tokens.split_first() else {
        return None;
    };
    match token_sign(first) {
        Some(part) if part.may_follow(level, bound) => Some(Read { part, rest }),
        _ => None,
    }
}

// What the word begins as an atom.
fn word_start(word: Word) -> Option<AtomStart>
    ensures { result ≡ word_start word }
{
    match word {
        Word::Stop => Some(AtomStart::Leaf(Deep::leaf(Tree::Stop))),
        Word::Skip => Some(AtomStart::Leaf(Deep::leaf(Tree::Skip))),
        Word::True => Some(AtomStart::Leaf(Deep::leaf(Tree::True))),
        Word::False => Some(AtomStart::Leaf(Deep::leaf(Tree::False))),
        Word::Union => Some(AtomStart::SetOperator(SetOp::Union)),
        Word::Inter => Some(AtomStart::SetOperator(SetOp::Inter)),
        Word::Diff => Some(AtomStart::SetOperator(SetOp::Diff)),
        _ => None,
    }
}

// What the symbol begins as an atom.
fn symbol_start(symbol: Symbol) -> Option<AtomStart>
    ensures { result ≡ symbol_start symbol }
{
    match symbol {
        Symbol::OpenParen => Some(AtomStart::Parentheses),
        Symbol::OpenBrace => Some(AtomStart::Set),
        Symbol::OpenProduct => Some(AtomStart::Product),
        _ => None,
    }
}

// What a token that is no name begins as an atom.
fn token_start(token: &Token) -> Option<AtomStart>
    ensures { result ≡ token_start token.now }
{
    match token {
        Token::Num(number) => Some(AtomStart::Leaf(Deep::leaf(Tree::Num(*number)))),
        Token::Word(word) => word_start(*word),
        Token::Symbol(symbol) => symbol_start(*symbol),
        _ => None,
    }
}

// What an atom that begins with no name begins with, and what follows that.
fn other_start(tokens: &[Token]) -> OrNoText<(AtomStart, &[Token])>
    ensures same { Gives result (λ found. (found.0, found.1.now)) (other_start tokens.now) }
    ensures shorter { IfOk result (λ found. length found.1.now < length tokens.now) }
{
    let Some((first, rest)) = tokens.split_first() else {
        return Err(no_text(tokens));
    };
    match token_start(first) {
        Some(start) => Ok((start, rest)),
        None => Err(no_text(tokens)),
    }
}

/// What an atom begins with, and what follows that.
pub fn atom_start(alloc: Global, tokens: &[Token]) -> OrNoText<(AtomStart, &[Token])>
    ensures same { Gives result (λ found. (found.0, found.1.now)) (atom_start tokens.now) }
    ensures shorter { IfOk result (λ found. length found.1.now < length tokens.now) }
{
    let Some((name, rest)) = first_name(tokens) else {
        return other_start(tokens);
    };
    let name = name.try_clone(alloc)?;
    match skip(rest, Symbol::OpenParen) {
        Some(behind) => Ok((AtomStart::Call(name), behind)),
        None => Ok((AtomStart::Leaf(Deep::leaf(Tree::Name(name))), rest)),
    }
}

// What a process or an expression that is no event begins with, and what is to be read then.
fn form_start(tokens: &[Token]) -> (PrefixStart, &[Token])
    ensures same { form_start tokens.now ≡ Some (result.0, result.1.now) }
    ensures no_longer { length result.1.now ≤ length tokens.now }
{
    if let Some(rest) = skip_word(tokens, Word::If) {
        return (PrefixStart::If, rest);
    }
    if let Some(sign) = first_chain(tokens) {
        return (PrefixStart::Each(sign.part), sign.rest);
    }
    match skip(tokens, Symbol::Parallel) {
        Some(rest) => (PrefixStart::EachParallel, rest),
        None => (PrefixStart::Expression, tokens),
    }
}

/// What a process or an expression begins with, and what is to be read then.
pub fn prefix_start(tokens: &[Token]) -> (PrefixStart, &[Token])
    ensures same { prefix_start tokens.now ≡ Some (result.0, result.1.now) }
    ensures no_longer { length result.1.now ≤ length tokens.now }
{
    if begins_event(tokens) {
        return (PrefixStart::Event, tokens);
    }
    form_start(tokens)
}
