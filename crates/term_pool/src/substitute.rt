//! Putting values for names into a process of a pool.

ghost use Rattle.std.specs.Prelude.{◌≡◌, ◌<◌, [], ◌∷◌, true, length, map, nat_eq, slice_get, IfOk, OnOk, OnErr, Some};
ghost use Rattle.std.specs.HashMap.{get, IsUnchanged, Updates};
ghost use Rattle.csp_program.specs.Substitution.{given_by, proc_with};
ghost use Rattle.term_pool.specs.Prelude.{parts, Grows, StandAt, all_with, AreMade, all_below, tree_at};

use crate::pool::Pool;
use crate::under::{left_at, places_of};
use containers::Items;
use csp_base::{Made, NoMemory};
use pool_parts::ProcId;
use std::collections::HashMap;
use substitution::Values;

// What a place became, if it has been visited.
fn find_visited(visited: &HashMap<usize, ProcId>, id: &ProcId) -> Option<ProcId>
    ensures { result ≡ get nat_eq visited.now id.now.0 }
{
    visited.get(&id.0).copied()
}

// Keeps what a place became.
fn remember(visited: &mut HashMap<usize, ProcId>, id: ProcId, made: ProcId) -> Made<()>
    ensures ok { OnOk result (Updates nat_eq visited.old visited.new id.0 (Some made)) }
    ensures err { OnErr result (IsUnchanged visited.old visited.new) }
{
    match visited.insert(id.0, made) {
        Ok(_) => Ok(()),
        Err(_) => Err(NoMemory),
    }
}

// Whether the process at the place stays as it is, because it reads no name so low.
fn stays(pool: &Pool, id: ProcId, values: &Values<'_>) -> bool
    requires { id.0 < length pool.now }
    ensures { result ≡ true → proc_with (given_by values.now) (tree_at pool.now id) ≡ tree_at pool.now id }
{
    values.are_below(pool.measure(id).least)
}

/// The place of what the process at `id` is with the values in place of the names. `visited` says what became of the places seen so far.
#[cycle(substitute_at)]
pub(crate) fn substitute_at(
    pool: &mut Pool,
    visited: &mut HashMap<usize, ProcId>,
    id: &ProcId,
    values: &Values<'_>,
) -> Made<ProcId>
    requires within { id.now.0 < length pool.old }
    requires visited { AreMade (given_by values.now) pool.old visited.old }
    ensures process { IfOk result (λ made. slice_get pool.new made.0
        ≡ Some (proc_with (given_by values.now) (tree_at pool.old id.now))) }
    ensures grows { Grows pool.old pool.new (proc_with (given_by values.now) (tree_at pool.old id.now) ∷ []) }
    ensures visited { AreMade (given_by values.now) pool.new visited.new }
{
    if stays(pool, *id, values) {
        return Ok(*id);
    }
    if let Some(made) = find_visited(visited, id) {
        return Ok(made);
    }
    let made = put_layer(pool, visited, *id, values)?;
    remember(visited, *id, made)?;
    Ok(made)
}

// The same of a place that has not been visited.
#[cycle(substitute_at)]
fn put_layer(
    pool: &mut Pool,
    visited: &mut HashMap<usize, ProcId>,
    id: ProcId,
    values: &Values<'_>,
) -> Made<ProcId>
    requires within { id.0 < length pool.old }
    requires visited { AreMade (given_by values.now) pool.old visited.old }
    ensures process { IfOk result (λ made. slice_get pool.new made.0
        ≡ Some (proc_with (given_by values.now) (tree_at pool.old id))) }
    ensures grows { Grows pool.old pool.new (proc_with (given_by values.now) (tree_at pool.old id) ∷ []) }
    ensures visited { AreMade (given_by values.now) pool.new visited.new }
{
    let ids = put_below(pool, visited, id, values)?;
    pool.put_made(id, &ids, values)
}

// The places of what the sub-processes of the process at `id` become. Where it binds some of the names, the values of the others alone are left there.
#[cycle(substitute_at)]
fn put_below(
    pool: &mut Pool,
    visited: &mut HashMap<usize, ProcId>,
    id: ProcId,
    values: &Values<'_>,
) -> Made<Items<ProcId>>
    requires within { id.0 < length pool.old }
    requires visited { AreMade (given_by values.now) pool.old visited.old }
    ensures places { IfOk result (λ made. StandAt pool.new made
        (parts (proc_with (given_by values.now) (tree_at pool.old id)))) }
    ensures grows { Grows pool.old pool.new (parts (proc_with (given_by values.now) (tree_at pool.old id))) }
    ensures visited { AreMade (given_by values.now) pool.new visited.new }
{
    let node = pool.node(id);
    let ids = places_of(values.alloc(), node)?;
    match left_at(node, values)? {
        None => put_all(pool, visited, id, ids.as_slice(), values),
        Some(left) => put_anew(pool, id, ids.as_slice(), &left),
    }
}

// What becomes of the places, which are smaller than `id`, where none has been visited.
#[cycle(substitute_at)]
fn put_anew(pool: &mut Pool, id: ProcId, ids: &[ProcId], values: &Values<'_>) -> Made<Items<ProcId>>
    requires within { id.0 < length pool.old }
    requires places { all_below id.0 ids.now ≡ true }
    ensures places { IfOk result (λ made. StandAt pool.new made (all_with (given_by values.now) pool.old ids.now)) }
    ensures grows { Grows pool.old pool.new (all_with (given_by values.now) pool.old ids.now) }
{
    let mut visited = HashMap::new(values.alloc());
    put_all(pool, &mut visited, id, ids, values)
}

// What becomes of the places, which are smaller than `id`.
#[cycle(substitute_at)]
fn put_all(
    pool: &mut Pool,
    visited: &mut HashMap<usize, ProcId>,
    id: ProcId,
    ids: &[ProcId],
    values: &Values<'_>,
) -> Made<Items<ProcId>>
    requires within { id.0 < length pool.old }
    requires places { all_below id.0 ids.now ≡ true }
    requires visited { AreMade (given_by values.now) pool.old visited.old }
    ensures places { IfOk result (λ made. StandAt pool.new made (all_with (given_by values.now) pool.old ids.now)) }
    ensures grows { Grows pool.old pool.new (all_with (given_by values.now) pool.old ids.now) }
    ensures visited { AreMade (given_by values.now) pool.new visited.new }
{
    let mut made = Items::new(values.alloc());
    for p in ids {
        made.push_made(substitute_at(pool, visited, p, values))?;
    }
    Ok(made)
}
