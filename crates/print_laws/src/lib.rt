//! The law that the printed text of a script spells the same script.
//!
//! A function of this crate has an empty body: its contract is a law of the printed text.
#![tactic(auto)]

ghost use Rattle.print_laws.specs.Laws.{FoundTokensAreWellFormed, PrintedTextSpellsNoOther, PrintedTextSpellsTheScript, PrintedTokensAreAText};

/// The printed tokens of a script that some tokens spell are a text of it.
pub fn printed_tokens_are_a_text()
    ensures scripts { PrintedTokensAreAText }
{}

/// The tokens that the lexer finds are well formed.
pub fn found_tokens_are_well_formed()
    ensures tokens { FoundTokensAreWellFormed }
{}

/// Where a text spells a script, the printed text of the script spells it too, and no other.
pub fn printed_text_spells_the_script()
    ensures same { PrintedTextSpellsTheScript }
    ensures only { PrintedTextSpellsNoOther }
{}
