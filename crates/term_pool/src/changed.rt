//! Entries with other places, or with values in their own parts.

ghost use Rattle.std.specs.Prelude.{◌≡◌, ◌<◌, length, map, slice_get, IfOk, Some};
ghost use Rattle.csp_program.specs.Substitution.{expr_with, fields_with, gens_with, given_by, head_with, pair_with, past};
ghost use Rattle.term_pool.specs.Prelude.{arguments_at, choice_at, entry_layer, expr_at, fields_at, gens_at, head_at, pairs_at, Fits, PartsStart, node_with_first, other_first, id_or, moved, own_with};

use crate::entry::Entry;
use crate::own_parts::{OwnParts, keep_choice};
use containers::Items;
use csp_base::Made;
use pool_parts::{ProcId, put_values};
use std::alloc::Global;
use substitution::{Values, put_pairs};

// The places with another first one.
fn with_other_first(alloc: Global, ids: &[ProcId], below: ProcId) -> Made<Items<ProcId>>
    ensures { IfOk result (λ made. made ≡ other_first ids.now below) }
{
    let Some((_, others)) = ids.split_first() else {
        return Ok(Items::new(alloc));
    };
    let mut made = Items::from_slice(alloc, others)?;
    made.insert(0, below)?;
    Ok(made)
}

// The number of a choice with another first place.
fn choice_with_first(parts: &mut OwnParts, place: usize, below: ProcId) -> Made<usize>
    requires within { place < length parts.old.choices }
    ensures start { PartsStart parts.old parts.new }
    ensures made { IfOk result (λ made. slice_get parts.new.choices made
        ≡ Some (other_first (choice_at parts.old place) below)) }
{
    let made = with_other_first(
        parts.choices.alloc(),
        parts.choices.get(place).as_slice(),
        below,
    );
    parts.choices.keep_made(made)
}

/// The entry with `below` in place of its first place, if it has any.
#[tactic(auto, using(crate::proofs::EntryLemmas::starts_same))]
pub(crate) fn entry_with_first(parts: &mut OwnParts, entry: Entry, below: ProcId) -> Made<Entry>
    requires fits { Fits parts.old entry }
    ensures start { PartsStart parts.old parts.new }
    ensures fits { IfOk result (Fits parts.new) }
    ensures layer { IfOk result (λ made. entry_layer parts.new made
        ≡ node_with_first (entry_layer parts.old entry) below) }
{
    match entry {
        Entry::Stop => Ok(Entry::Stop),
        Entry::Prefix(head, fields, _) => Ok(Entry::Prefix(head, fields, below)),
        Entry::Guard(c, _) => Ok(Entry::Guard(c, below)),
        Entry::If(c, _, q) => Ok(Entry::If(c, below, q)),
        Entry::External(ids) => { choice_with_first(parts, ids, below).map(Entry::External) }
        Entry::Internal(ids) => { choice_with_first(parts, ids, below).map(Entry::Internal) }
        Entry::EachExternal(slot, set, _) => Ok(Entry::EachExternal(slot, set, below)),
        Entry::EachInternal(slot, set, _) => Ok(Entry::EachInternal(slot, set, below)),
        Entry::Hide(_, set) => Ok(Entry::Hide(below, set)),
        Entry::Rename(_, pairs, gens) => Ok(Entry::Rename(below, pairs, gens)),
        Entry::Call(definition, args) => Ok(Entry::Call(definition, args)),
        Entry::Skip => Ok(Entry::Skip),
        Entry::Seq(_, q) => Ok(Entry::Seq(below, q)),
        Entry::Ended => Ok(Entry::Ended),
    }
}

/// The place in the list, 0 where it is too short.
pub(crate) fn at(ids: &Items<ProcId>, index: usize) -> ProcId
    ensures { result ≡ id_or ids.now index }
{
    match ids.get(index) {
        Some(id) => *id,
        None => ProcId(0),
    }
}

// The entry with these places in place of its own, as many.
#[tactic(auto, using(crate::proofs::EntryLemmas::starts_same))]
fn with_places(parts: &mut OwnParts, entry: Entry, ids: &Items<ProcId>) -> Made<Entry>
    requires fits { Fits parts.old entry }
    ensures start { PartsStart parts.old parts.new }
    ensures fits { IfOk result (Fits parts.new) }
    ensures layer { IfOk result (λ made. entry_layer parts.new made ≡ moved (entry_layer parts.old entry) ids.now) }
{
    match entry {
        Entry::Stop => Ok(Entry::Stop),
        Entry::Prefix(head, fields, _) => Ok(Entry::Prefix(head, fields, at(ids, 0))),
        Entry::Guard(c, _) => Ok(Entry::Guard(c, at(ids, 0))),
        Entry::If(c, _, _) => Ok(Entry::If(c, at(ids, 0), at(ids, 1))),
        Entry::External(_) => keep_choice(parts, ids).map(Entry::External),
        Entry::Internal(_) => keep_choice(parts, ids).map(Entry::Internal),
        Entry::EachExternal(slot, set, _) => Ok(Entry::EachExternal(slot, set, at(ids, 0))),
        Entry::EachInternal(slot, set, _) => Ok(Entry::EachInternal(slot, set, at(ids, 0))),
        Entry::Hide(_, set) => Ok(Entry::Hide(at(ids, 0), set)),
        Entry::Rename(_, pairs, gens) => Ok(Entry::Rename(at(ids, 0), pairs, gens)),
        Entry::Call(definition, args) => Ok(Entry::Call(definition, args)),
        Entry::Skip => Ok(Entry::Skip),
        Entry::Seq(_, _) => Ok(Entry::Seq(at(ids, 0), at(ids, 1))),
        Entry::Ended => Ok(Entry::Ended),
    }
}

// The number of an expression with the values put in.
fn put_expr(parts: &mut OwnParts, place: usize, values: &Values<'_>) -> Made<usize>
    requires { place < length parts.old.exprs }
    ensures start { PartsStart parts.old parts.new }
    ensures made { IfOk result (λ made. slice_get parts.new.exprs made
        ≡ Some (expr_with (given_by values.now) (expr_at parts.old place))) }
{
    put_values(&mut parts.exprs, place, values)
}

// The number of arguments with the values put in.
fn put_arguments(parts: &mut OwnParts, place: usize, values: &Values<'_>) -> Made<usize>
    requires { place < length parts.old.arguments }
    ensures start { PartsStart parts.old parts.new }
    ensures made { IfOk result (λ made. slice_get parts.new.arguments made
        ≡ Some (map (expr_with (given_by values.now)) (arguments_at parts.old place))) }
{
    put_values(&mut parts.arguments, place, values)
}

/// The entry with the values in its own parts, and with these places in place of its own, as many.
pub(crate) fn made_entry(
    parts: &mut OwnParts,
    entry: Entry,
    ids: &Items<ProcId>,
    values: &Values<'_>,
) -> Made<Entry>
    requires fits { Fits parts.old entry }
    ensures start { PartsStart parts.old parts.new }
    ensures fits { IfOk result (Fits parts.new) }
    ensures layer { IfOk result (λ made. entry_layer parts.new made
        ≡ moved (own_with (given_by values.now) (entry_layer parts.old entry)) ids.now) }
{
    let entry = put_own(parts, entry, values)?;
    with_places(parts, entry, ids)
}

// The entry with the values in its own parts, each of which is kept.
#[tactic(auto, using(crate::proofs::EntryLemmas::starts_same))]
fn put_own(parts: &mut OwnParts, entry: Entry, values: &Values<'_>) -> Made<Entry>
    requires fits { Fits parts.old entry }
    ensures start { PartsStart parts.old parts.new }
    ensures fits { IfOk result (Fits parts.new) }
    ensures layer { IfOk result (λ made. entry_layer parts.new made
        ≡ own_with (given_by values.now) (entry_layer parts.old entry)) }
{
    match entry {
        Entry::Prefix(head, fields, p) => {
            let (head, fields) = put_prefix(parts, head, fields, values)?;
            Ok(Entry::Prefix(head, fields, p))
        }
        Entry::Guard(c, p) => Ok(Entry::Guard(put_expr(parts, c, values)?, p)),
        Entry::If(c, p, q) => Ok(Entry::If(put_expr(parts, c, values)?, p, q)),
        Entry::EachExternal(slot, set, p) => {
            let set = put_expr(parts, set, values)?;
            Ok(Entry::EachExternal(slot, set, p))
        }
        Entry::EachInternal(slot, set, p) => {
            let set = put_expr(parts, set, values)?;
            Ok(Entry::EachInternal(slot, set, p))
        }
        Entry::Hide(p, set) => Ok(Entry::Hide(p, put_expr(parts, set, values)?)),
        Entry::Rename(p, pairs, gens) => {
            let (pairs, gens) = put_renaming(parts, pairs, gens, values)?;
            Ok(Entry::Rename(p, pairs, gens))
        }
        Entry::Call(definition, args) => {
            let args = put_arguments(parts, args, values)?;
            Ok(Entry::Call(definition, args))
        }
        Entry::Stop => Ok(entry),
        Entry::External(_) => Ok(entry),
        Entry::Internal(_) => Ok(entry),
        Entry::Skip => Ok(entry),
        Entry::Seq(_, _) => Ok(entry),
        Entry::Ended => Ok(entry),
    }
}

// The numbers of a head and of fields with the values put in.
fn put_prefix(
    parts: &mut OwnParts,
    head: usize,
    fields: usize,
    values: &Values<'_>,
) -> Made<(usize, usize)>
    requires head { head < length parts.old.heads }
    requires fields { fields < length parts.old.fields }
    ensures start { PartsStart parts.old parts.new }
    ensures heads { IfOk result (λ own. slice_get parts.new.heads own.0
        ≡ Some (head_with (given_by values.now) (head_at parts.old head))) }
    ensures fields { IfOk result (λ own. slice_get parts.new.fields own.1
        ≡ Some (fields_with (given_by values.now) (fields_at parts.old fields))) }
{
    let head = put_values(&mut parts.heads, head, values)?;
    let fields = put_values(&mut parts.fields, fields, values)?;
    Ok((head, fields))
}

// The numbers of pairs and of generators with the values put in.
fn put_renaming(
    parts: &mut OwnParts,
    pairs: usize,
    gens: usize,
    values: &Values<'_>,
) -> Made<(usize, usize)>
    requires pairs { pairs < length parts.old.pairs }
    requires gens { gens < length parts.old.gens }
    ensures start { PartsStart parts.old parts.new }
    ensures pairs { IfOk result (λ own. slice_get parts.new.pairs own.0
        ≡ Some (map (pair_with (past (gens_at parts.old gens) (given_by values.now))) (pairs_at parts.old pairs))) }
    ensures gens { IfOk result (λ own. slice_get parts.new.gens own.1
        ≡ Some (gens_with (given_by values.now) (gens_at parts.old gens))) }
{
    let old_pairs = parts.pairs.get(pairs).as_slice();
    let old_gens = parts.gens.get(gens).as_slice();
    let made = put_pairs(old_pairs, old_gens, values);
    let pairs = parts.pairs.keep_made(made)?;
    let gens = put_values(&mut parts.gens, gens, values)?;
    Ok((pairs, gens))
}
