//! The law that the program of a faultless script is in order.
//!
//! A function of this crate has an empty body: its contract is a law.
#![tactic(auto)]

ghost use Rattle.resolved_laws.specs.Laws.{PlainIsInOrder, ResolvedIsInOrder};

/// Where no declaration has a name fault, what the declarations put into the program is in order, before and after the channels have their field sets.
pub fn programs_are_in_order()
    ensures plain { PlainIsInOrder }
    ensures resolved { ResolvedIsInOrder }
{}
