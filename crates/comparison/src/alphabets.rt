//! Whether the components of two networks have the same alphabets.

ghost use Rattle.std.specs.Prelude.{◌≡◌, ◌≤◌, ◌<◌, IfErr, IfNone, IfSome, MatchBool, OnOk, Some, length, slice_get};
ghost use Rattle.dl_limits.specs.declared.TheConstants.{MOST_COMPONENTS};
ghost use Rattle.network_layout.specs.Triple.{alphabets};
ghost use Rattle.csp_base.specs.Stops.{Tells};
ghost use Rattle.comparison.specs.Agreement.{DifferFirstAt, HaveOtherAlphabets};

use csp_base::Stop;
use network_layout::{Layout, Seat};
use report::Refusal;

// That both networks have as many components, with the same alphabets; else the least component is told that is in one network only or whose alphabets
// differ (42).
pub(crate) fn check_alphabets(layout: &Layout, other: &Layout) -> Result<(), Stop<Refusal>>
    ensures same { OnOk result (alphabets layout.now ≡ alphabets other.now) }
    ensures told { IfErr result (Tells (HaveOtherAlphabets layout.now other.now)) }
{
    match first_other(layout.seats(), other.seats()) {
        Some(component) => Err(Stop::Told(Refusal::DifferentComponents { component })),
        None => Ok(()),
    }
}

// The least component that is in one network only or whose alphabets differ, if there is one.
fn first_other(seats: &[Seat], others: &[Seat]) -> Option<u32>
    requires few { length seats.now ≤ MOST_COMPONENTS }
    requires few_others { length others.now ≤ MOST_COMPONENTS }
    ensures differ { IfSome result (DifferFirstAt (alphabets seats.now) (alphabets others.now)) }
    ensures same { IfNone result (alphabets seats.now ≡ alphabets others.now) }
{
    for component in 0..most_seats(seats, others) {
        if !same_alphabet(seats, others, component) {
            return Some(component);
        }
    }
    None
}

// How many components the network has that has more.
fn most_seats(seats: &[Seat], others: &[Seat]) -> u32
    requires few { length seats.now ≤ MOST_COMPONENTS }
    requires few_others { length others.now ≤ MOST_COMPONENTS }
    ensures first { length seats.now ≤ result }
    ensures second { length others.now ≤ result }
{
    let count = seats.len() as u32;
    let others = others.len() as u32;
    if count < others { others } else { count }
}

// Whether both networks have this component with the same alphabet, or neither has it.
fn same_alphabet(seats: &[Seat], others: &[Seat], component: u32) -> bool
    ensures { MatchBool result (slice_get (alphabets seats.now) component ≡ slice_get (alphabets others.now) component)
        (slice_get (alphabets seats.now) component ≡ slice_get (alphabets others.now) component → ⊥) }
{
    let Some(seat) = seat_at(seats, component) else {
        return others.get(component as usize).is_none();
    };
    let Some(other) = seat_at(others, component) else {
        return false;
    };
    seat.alphabet() == other.alphabet()
}

// The component with this number, if there is one.
fn seat_at(seats: &[Seat], component: u32) -> Option<&Seat>
    ensures there { IfSome result (λ seat. slice_get seats.now component ≡ Some seat.now) }
    ensures past { IfNone result (length seats.now ≤ component) }
{
    match seats.get(component as usize) {
        Some(seat) => Some(seat),
        None => None,
    }
}
