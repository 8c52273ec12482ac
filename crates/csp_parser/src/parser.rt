//! Scripts, of tokens and of texts.

ghost use Rattle.std.specs.Prelude.{◌≡◌, ◌≤◌, IfOk, IfErr, length};
ghost use Rattle.csp_base.specs.Stops.{Tells};
ghost use Rattle.csp_grammar.specs.Declarations.{ScriptText};
ghost use Rattle.csp_lexer.specs.Placed.{tokens_of};
ghost use Rattle.csp_parser.specs.Places.{IsPlaceIn, IsPlaceOf, place_before};
ghost use Rattle.csp_parser.specs.Sizes.{SpelledScriptsAreSmall};
ghost use Rattle.csp_parser.specs.Spells.{EachTextSpellsOneScript, Spells};
ghost use Rattle.csp_text.specs.declared.script.Script.{Script};
ghost use Rattle.dl_limits.specs.declared.TheConstants.{MOST_BYTES};
ghost use Rattle.script_sizes.specs.Size.{AreSmall};

use crate::declarations::declarations;
use csp_base::{Place, Stop};
use csp_lexer::{Tokens, lex};
use csp_text::{NoScript, Script};
use std::alloc::Global;

// The place of the token from which on so many tokens are left, or that of the text's end.
fn place_before(tokens: &Tokens, left: usize) -> Place
    ensures { result ≡ place_before tokens.now left }
{
    let first = tokens.as_slice().len().saturating_sub(left);
    tokens.place(first)
}

/// The script that the tokens are.
///
/// The fault, but for want of memory, is that they are none within the limits of nesting: `MOST_BRACKETS` open
/// brackets, and the depth `MOST_TREE_DEPTH`. It tells the place of the token at which reading stopped, or of the end.
pub fn parse(alloc: Global, tokens: &Tokens) -> Result<Script, Stop<NoScript>>
    // What is found is spelled, and nothing else is.
    ensures found { IfOk result (λ script. ScriptText (tokens_of tokens.now.placed) script) }
    ensures only { IfOk result
        (λ script. (other : Script) → ScriptText (tokens_of tokens.now.placed) other → script ≡ other) }

    // The fault is that no script is spelled.
    ensures none { IfErr result
        (Tells (λ _. (script : Script) → ScriptText (tokens_of tokens.now.placed) script → ⊥)) }
    ensures place { IfErr result (Tells (λ fault. IsPlaceIn tokens.now fault.at)) }
{
    match declarations(alloc, tokens.as_slice()) {
        Ok(decls) => Ok(Script { decls }),
        Err(Stop::NoMemory) => Err(Stop::NoMemory),
        Err(Stop::Told(fault)) => Err(Stop::Told(NoScript {
            at: place_before(tokens, fault.left),
        })),
    }
}

/// The script that the text spells.
///
/// The fault, but for want of memory, is that it spells none within the limits of nesting. It tells a place: where the
/// first piece begins that is no token, or else that of the token at which reading stopped, or of the text's end.
///
/// What a text of at most `MOST_BYTES` spells is small: 32 bits number all that it declares.
pub fn read(alloc: Global, text: &[u8]) -> Result<Script, Stop<NoScript>>
    ensures found { IfOk result (λ script. Spells text.now script) }

    // A text within the limit spells no more names, parameters, types and binding tokens than it has bytes, and no deep
    // tree: callers number them.
    ensures small { IfOk result (λ script. length text.now ≤ MOST_BYTES → AreSmall script.decls) }

    // The fault, but for want of memory, is that the text spells no script. Its place is the one where the first piece
    // begins that is no token; where there is none, the place of a token or of the text's end.
    ensures none { IfErr result (Tells (λ _. (script : Script) → Spells text.now script → ⊥)) }
    ensures place { IfErr result (Tells (λ fault. IsPlaceOf text.now fault.at)) }
{
    match lex(alloc, text) {
        Ok(tokens) => parse(alloc, &tokens),
        Err(fault) => Err(fault),
    }
}

/// No text spells two scripts.
pub fn each_text_spells_one_script()
    ensures { EachTextSpellsOneScript }
{}

/// The scripts that texts of at most `MOST_BYTES` spell are small.
pub fn spelled_scripts_are_small()
    ensures { SpelledScriptsAreSmall }
{}
