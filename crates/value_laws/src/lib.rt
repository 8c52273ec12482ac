//! Laws about the value of an expression.
#![tactic(auto)]

ghost use Rattle.value_laws.specs.Prelude.{ComprehensionsHoldTheirItems, ProductionsHoldWhatBegins, DefinitionsAreEnough, MoreUsesChangeNothing, UnboundedIsWorth, UsesNestWithinDefinitions, WorthIsUnbounded, BeginnersStandTogether, NumbersArePlaces, PlacesAreNumbers, EventsAreFound, PlacesAreValues, ValuesArePlaces, ValuesAreInOrder};

/// The number that is computed for an event is its place in the event table, and the events that begin with given values stand together there.
pub fn event_numbers_are_places()
    ensures found { EventsAreFound }
    ensures numbers { NumbersArePlaces }
    ensures places { PlacesAreNumbers }
    ensures beginners { BeginnersStandTogether }
{}

/// In a program in order the expression of an event is worth the place of the event in the program's event table, and each event has such an
/// expression.
pub fn events_are_their_places()
    ensures values { ValuesArePlaces }
    ensures places { PlacesAreValues }
{}

/// A comprehension holds the values of its items under all bindings, and a production the events that begin with one of its parts.
pub fn comprehensions_hold_their_items()
    ensures items { ComprehensionsHoldTheirItems }
    ensures events { ProductionsHoldWhatBegins }
{}

/// From the nesting of uses on, how many may be entered doesn't matter. In a program in order the number of definitions is
/// enough, and gives the one evaluation without a bound.
pub fn more_uses_change_nothing()
    ensures nesting { MoreUsesChangeNothing }
    ensures nest { UsesNestWithinDefinitions }
    ensures enough { DefinitionsAreEnough }
    ensures unbounded { WorthIsUnbounded }
    ensures unique { UnboundedIsWorth }
{}

/// The value of an expression in order, in a program in order, is in order.
pub fn values_are_in_order()
    ensures { ValuesAreInOrder }
{}
