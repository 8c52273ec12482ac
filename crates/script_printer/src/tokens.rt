//! Tokens, each written behind a space.

ghost use Rattle.std.specs.Prelude.{◌≡◌, ◌++◌, [], ◌∷◌, OnOk};
ghost use Rattle.csp_text.specs.declared.token.Token.TheVariants as token;
ghost use Rattle.script_printer.specs.TokenText.{before_place, spaced, token_text};
ghost use Rattle.script_printer.specs.PrintedTree.{operator_token};
ghost use Rattle.csp_text.specs.Written.{set_op_word};

use crate::numbers::put_decimal;
use csp_base::{BinOp, Bytes, Made, Name, SetOp};
use csp_text::{Symbol, Word, symbol_text, word_text};

// What is written, unless memory runs out.
pub(crate) type Written = Made<()>;

// What stands between two tokens.
const SPACE: u8 = b' ';

// Adds some bytes, of which there is mostly one.
fn put_bytes(text: &mut Bytes, bytes: &[u8]) -> Written
    ensures { OnOk result (text.new ≡ text.old ++ bytes.now) }
{
    match bytes {
        [byte] => text.push(*byte),
        _ => text.extend_from_slice(bytes),
    }
}

// Adds a space and some bytes.
fn put(text: &mut Bytes, bytes: &[u8]) -> Written
    ensures { OnOk result (text.new ≡ text.old ++ 32 ∷ bytes.now) }
{
    text.push(SPACE)?;
    put_bytes(text, bytes)
}

// Adds a symbol.
#[tactic(auto, unfolding(crate::specs::TokenText::spaced))]
pub(crate) fn put_symbol(text: &mut Bytes, symbol: Symbol) -> Written
    ensures { OnOk result (text.new ≡ text.old ++ spaced (token.Symbol symbol ∷ [])) }
{
    put(text, symbol_text(symbol))
}

// Adds a reserved word.
#[tactic(auto, unfolding(crate::specs::TokenText::spaced))]
pub(crate) fn put_word(text: &mut Bytes, word: Word) -> Written
    ensures { OnOk result (text.new ≡ text.old ++ spaced (token.Word word ∷ [])) }
{
    put(text, word_text(word))
}

// Adds a name.
#[tactic(auto, unfolding(crate::specs::TokenText::spaced))]
pub(crate) fn put_name(text: &mut Bytes, name: &Name) -> Written
    ensures { OnOk result (text.new ≡ text.old ++ spaced (token.Name name.now ∷ [])) }
{
    put(text, name.as_slice())
}

// Adds a number.
#[tactic(auto, unfolding(crate::specs::TokenText::spaced))]
pub(crate) fn put_number(text: &mut Bytes, number: u32) -> Written
    ensures { OnOk result (text.new ≡ text.old ++ spaced (token.Num number ∷ [])) }
{
    text.push(SPACE)?;
    put_decimal(text, number)
}

// Adds the sign that stands before one of several, from the second one on.
pub(crate) fn put_between(text: &mut Bytes, place: usize, sign: Symbol) -> Written
    ensures { OnOk result (text.new ≡ text.old ++ spaced (before_place place (token.Symbol sign))) }
{
    if place == 0 {
        return Ok(());
    }
    put_symbol(text, sign)
}

// The bytes of an operator that stands between two operands.
fn operator_text(op: BinOp) -> &'static [u8]
    ensures { result.now ≡ token_text (operator_token op) }
{
    match op {
        BinOp::Or => word_text(Word::Or),
        BinOp::And => word_text(Word::And),
        BinOp::Eq => symbol_text(Symbol::Equal),
        BinOp::Ne => symbol_text(Symbol::NotEqual),
        BinOp::Lt => symbol_text(Symbol::Less),
        BinOp::Le => symbol_text(Symbol::LessEqual),
        BinOp::Gt => symbol_text(Symbol::Greater),
        BinOp::Ge => symbol_text(Symbol::GreaterEqual),
        BinOp::Add => symbol_text(Symbol::Plus),
        BinOp::Sub => symbol_text(Symbol::Minus),
        BinOp::Mul => symbol_text(Symbol::Star),
        BinOp::Div => symbol_text(Symbol::Slash),
        BinOp::Rem => symbol_text(Symbol::Percent),
    }
}

// Adds an operator that stands between two operands.
#[tactic(auto, unfolding(crate::specs::TokenText::spaced))]
pub(crate) fn put_operator(text: &mut Bytes, op: BinOp) -> Written
    ensures { OnOk result (text.new ≡ text.old ++ spaced (operator_token op ∷ [])) }
{
    put(text, operator_text(op))
}

// Adds the name of an operator on sets.
pub(crate) fn put_set_op(text: &mut Bytes, op: SetOp) -> Written
    ensures { OnOk result (text.new ≡ text.old ++ spaced (set_op_word op ∷ [])) }
{
    match op {
        SetOp::Union => put_word(text, Word::Union),
        SetOp::Inter => put_word(text, Word::Inter),
        SetOp::Diff => put_word(text, Word::Diff),
    }
}
