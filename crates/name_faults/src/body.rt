//! How deep a body reaches.

ghost use Rattle.std.specs.Prelude.{◌≡◌, ◌∷◌};
ghost use Rattle.name_faults.specs.Prelude.{[], max, map, IfOk, MatchOption, flat_map, seen};
ghost use Rattle.name_faults.specs.Bodies as meant;

use containers::Items;
use csp_base::{Made, Name};
use script_names::{Entity, Occurrence, Sense, Use};
use std::alloc::Global;

/// How deep a body reaches.
#[derive(Drop)]
pub(crate) struct Body {
    /// The greatest level of its forms and uses.
    pub(crate) level: u32,
    /// The definitions that it uses, each with the level of the use.
    pub(crate) uses: Items<(u32, u32)>,
}

/// How deep a body reaches that says this.
pub(crate) fn body_of(alloc: Global, list: &[Occurrence<&Name>]) -> Made<Body>
    ensures { IfOk result (λ body. body ≡ meant.body_of (map seen list.now)) }
{
    let uses = uses_of(alloc, list)?;
    Ok(Body {
        level: greatest_level(list),
        uses,
    })
}

// The greatest level.
#[tactic(auto, using(crate::proofs::BodyLemmas::level_later))]
fn greatest_level(list: &[Occurrence<&Name>]) -> u32
    ensures { result ≡ meant.greatest_level (map seen list.now) }
{
    let mut level = 0;
    for said in list {
        level = greater(level, level_of(said));
    }
    level
}

/// The greater of two levels.
pub(crate) fn greater(a: u32, b: u32) -> u32
    ensures { result ≡ max a b }
{
    if a < b { b } else { a }
}

// The level of a form or a use.
fn level_of(said: &Occurrence<&Name>) -> u32
    ensures { result ≡ meant.level_of (seen said.now) }
{
    match *said {
        Occurrence::Form(_, place)
        | Occurrence::Parallel(place)
        | Occurrence::Uses(_, _, Use::Alone(place) | Use::Called(_, place)) => place.level,
        Occurrence::Uses(_, _, _)
        | Occurrence::Declares(_, _)
        | Occurrence::Binds(_, _)
        | Occurrence::Notes(_, _) => 0,
    }
}

// The definitions that are used.
#[tactic(auto, using(crate::proofs::BodyLemmas::uses_later))]
fn uses_of(alloc: Global, list: &[Occurrence<&Name>]) -> Made<Items<(u32, u32)>>
    ensures { IfOk result (λ uses. uses ≡ flat_map meant.use_of (map seen list.now)) }
{
    let mut uses = Items::new(alloc);
    for said in list {
        if let Some(used) = use_in(said) {
            uses.push(used)?;
        }
    }
    Ok(uses)
}

// The definition that is used, with the level of the use.
fn use_in(said: &Occurrence<&Name>) -> Option<(u32, u32)>
    ensures { MatchOption result (meant.use_of (seen said.now) ≡ [])
        (λ used. meant.use_of (seen said.now) ≡ used ∷ []) }
{
    match *said {
        Occurrence::Uses(_, sense, Use::Alone(place) | Use::Called(_, place)) => {
            use_at(sense, place.level)
        }
        Occurrence::Uses(_, _, _)
        | Occurrence::Declares(_, _)
        | Occurrence::Binds(_, _)
        | Occurrence::Notes(_, _)
        | Occurrence::Form(_, _)
        | Occurrence::Parallel(_) => None,
    }
}

// The definition that is used at this level.
fn use_at(sense: Sense, level: u32) -> Option<(u32, u32)>
    ensures { MatchOption result (meant.used sense level ≡ []) (λ used. meant.used sense level ≡ used ∷ []) }
{
    match sense {
        Sense::Declared(Entity::Definition(d, _) | Entity::Set(d)) => Some((d, level)),
        Sense::Bound | Sense::Declared(_) | Sense::Unknown => None,
    }
}
