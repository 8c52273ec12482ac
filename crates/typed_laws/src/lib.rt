//! The laws of typing: a tree that passes is what the rules give, and a faultless script has its program by the rules.
//!
//! A function of this crate has an empty body: its contract is a law.
#![tactic(auto)]

ghost use Rattle.typed_laws.specs.Laws.{ProgramIsResolved, ResolvedIsProgram};

/// The rules of typing give a script a program exactly where the functions do that tell its faults in order.
pub fn programs_are_typed()
    ensures given { ResolvedIsProgram }
    ensures resolved { ProgramIsResolved }
{}
