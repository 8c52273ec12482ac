//! The grammar of scripts: a relation between lists of tokens and trees, `specs/Grammar` for trees and `specs/Declarations` for scripts.
//!
//! The function of this crate has an empty body: its contract is a law of the grammar.
//!
//! A family says that a list of tokens is a text of a tree and then a rest, so that no list is ever joined. Its first index is the number of
//! brackets that may still be opened; the levels of operators are one family with the level as an index.
#![tactic(auto)]

ghost use Rattle.csp_grammar.specs.Examples.{PrefixBindsTighterThanChoice, PrefixBindsTighterThanSequence, SetOfOneNegativeNumber, SequencesNestFromTheRight, HidingsNestFromTheLeft, DifferencesNestFromTheLeft, FieldsAreArithmetic, OpenFormsReachToTheRight, ParenthesesLeaveNoTrace};

/// Texts with the trees that they spell.
pub fn worked_texts()
    ensures choice { PrefixBindsTighterThanChoice }
    ensures sequence { PrefixBindsTighterThanSequence }
    ensures negative { SetOfOneNegativeNumber }
    ensures sequences { SequencesNestFromTheRight }
    ensures hidings { HidingsNestFromTheLeft }
    ensures differences { DifferencesNestFromTheLeft }
    ensures fields { FieldsAreArithmetic }
    ensures open_forms { OpenFormsReachToTheRight }
    ensures parentheses { ParenthesesLeaveNoTrace }
{}
