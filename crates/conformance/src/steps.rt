//! Steps and acceptances of one node against those of another.

ghost use Rattle.std.specs.Prelude.{◌≡◌, ℕ, List, None, Some, IsTrue, MatchBool, if◌then◌else◌};
ghost use Rattle.csp_tables.specs.Prelude.{StepsHaveForm, is_possible, target};
ghost use Rattle.conformance.specs.Conforming.{HasWithin};
ghost use Rattle.conformance.specs.Finding.{AllContain, Refuses};

use csp_base::{Event, EventSet};

// The node to which the event leads, if it is possible by the steps, whose events rise.
pub(crate) fn target_of(steps: &[(Event, u32)], event: Event) -> Option<u32>
    requires { (alphabet : List ℕ) × (nodes : ℕ) × StepsHaveForm alphabet nodes steps.now }
    ensures { result ≡ (if is_possible steps.now event then Some (target steps.now event) else None) }
{
    match steps.binary_search_by_key(&event.0, |step| step.0.0) {
        Ok(place) => Some(steps[place].1),
        Err(_) => None,
    }
}

// How many sets are looked through one by one before it is worth while to look for an equal one first.
const FEW: usize = 8;

// Whether the set is found among the others, if these are many. They mostly rise.
fn is_found(set: &EventSet, others: &[EventSet]) -> bool
    ensures { IsTrue result → HasWithin others.now set.now }
{
    if others.len() <= FEW {
        return false;
    }
    match others.binary_search(set) {
        Ok(_) => true,
        Err(_) => false,
    }
}

// Whether the set contains one of the others. Where these are many, an equal one is looked for first.
#[tactic(auto, using(crate::proofs::Searching::one_more_not, crate::proofs::Searching::read_within))]
fn contains_one(set: &EventSet, others: &[EventSet]) -> bool
    ensures { MatchBool result (HasWithin others.now set.now) (HasWithin others.now set.now → ⊥) }
{
    if is_found(set, others) {
        return true;
    }
    for other in others {
        if other.is_subset(set) {
            return true;
        }
    }
    false
}

// Whether one of the sets contains none of the others.
pub(crate) fn refuses(sets: &[EventSet], others: &[EventSet]) -> bool
    ensures { MatchBool result (Refuses sets.now others.now) (AllContain sets.now others.now) }
{
    for set in sets {
        if !contains_one(set, others) {
            return true;
        }
    }
    false
}
