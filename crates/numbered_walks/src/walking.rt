//! One walk.

ghost use Rattle.std.specs.Prelude.{◌≡◌, ◌⊎◌, ◌≤◌, ◌<◌, IfOk, MatchOption, OnOk, length};
ghost use Rattle.dl_limits.specs.declared.TheConstants.{MOST_COMPONENTS};
ghost use Rattle.numbered_walks.specs.Prelude.{AreOwnerRows, IsStanding, Goes, Has, first_terms, IsAtEnd, IsStep, WalksOn, HasNone, IsWalkOf};

use crate::mover::Mover;
use crate::moves::{Move, Walk};
use crate::numbers::{first_draw, next_number};
use crate::owners::owner_rows;
use crate::standing::{Standing, choose, first_standing, is_stuck, take};
use containers::Items;
use csp_base::Made;
use std::alloc::Global;

// Takes the option that a number chooses, if there is one.
fn step(
    alloc: Global,
    movers: &[Mover<'_>],
    owners: &[Items<u32>],
    standing: &mut Standing,
    number: u32,
) -> Made<Option<Move>>
    requires form { IsStanding movers.now standing.old }
    requires few { length movers.now ≤ MOST_COMPONENTS }
    requires owners { AreOwnerRows movers.now owners.now }
    ensures form { OnOk result (IsStanding movers.now standing.new) }
    ensures steps { IfOk result (λ option. MatchOption option (IsAtEnd movers.now standing.old standing.new)
        (IsStep movers.now number standing.old standing.new)) }
{
    match choose(movers, standing, number) {
        None => Ok(None),
        Some(option) => {
            take(alloc, movers, owners, standing, &option)?;
            Ok(Some(option))
        }
    }
}

// Takes so many steps, fewer where there is none left, and answers the moves.
fn go(
    alloc: Global,
    movers: &[Mover<'_>],
    owners: &[Items<u32>],
    standing: &mut Standing,
    seed: u32,
    steps: u32,
) -> Made<Vec<Move>>
    requires form { IsStanding movers.now standing.old }
    requires few { length movers.now ≤ MOST_COMPONENTS }
    requires owners { AreOwnerRows movers.now owners.now }
    ensures form { OnOk result (IsStanding movers.now standing.new) }
    ensures walk { IfOk result (λ moves. WalksOn movers.now seed moves.items standing.old standing.new) }
    ensures count { IfOk result (λ moves. (length moves.items ≡ steps) ⊎
        ((length moves.items < steps) × HasNone (Has movers.now standing.new.terms.items))) }
{
    let mut moves = Vec::new(alloc);
    let mut number = seed;
    for _ in 0..steps {
        number = next_number(number);
        let Some(option) = step(alloc, movers, owners, standing, number)? else {
            return Ok(moves);
        };
        moves.push(option)?;
    }
    Ok(moves)
}

/// One walk of the components, which begin at the first terms of their tables: as many steps as are asked for, fewer where none is left. The numbers
/// after the seed choose each step, and a second sequence of numbers the targets among which it leaves a choice.
pub fn walk(alloc: Global, movers: &[Mover<'_>], seed: u32, steps: u32) -> Made<Walk>
    requires { length movers.now ≤ MOST_COMPONENTS }
    ensures { IfOk result (λ made. IsWalkOf (Has movers.now) (Goes movers.now) seed steps
        (first_terms movers.now) made.moves.items made.is_stuck) }
{
    let owners = owner_rows(alloc, movers)?;
    let mut standing = first_standing(alloc, movers, &owners, first_draw(seed))?;
    let moves = go(alloc, movers, &owners, &mut standing, seed, steps)?;
    let is_stuck = is_stuck(movers, &standing);
    Ok(Walk { moves, is_stuck })
}
