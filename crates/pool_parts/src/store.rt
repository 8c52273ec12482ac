//! Values that a pool keeps once each, with what each measures.

ghost use Rattle.std.specs.Prelude.{◌≡◌, ℕ, ◌<◌, [], length, slice_get, slice_index_or, IfOk, IsTrue, List, MatchOption, OnErr, Some};
ghost use Rattle.pool_parts.specs.Prelude.{capped, IsLow, AreNoted, IsAbsent, IsMeasure, IsStart, Measure};
ghost use Rattle.csp_base.specs.Lists.{EachOnce};
ghost use Rattle.csp_program.specs.Free.{Names};

use crate::measure::Measure;
use containers::{Exact, Items, Numbering, QuickKey};
use csp_base::Made;
use std::alloc::Global;
use std::hash::Hash;
use std::marker::Model;

/// What a node keeps beside the places of its sub-processes: expressions, fields, pairs and the like.
pub trait Part: Exact + Hash + Drop {
    ghost depth: { Self → ℕ };

    ghost size: { Self → ℕ };

    ghost free: { Self → Names };

    /// The same part, in memory of its own.
    fn copy(&self, alloc: Global) -> Made<Self>
        ensures { IfOk result (λ copy. copy ≡ self.now) };

    /// What it measures.
    fn measure(&self) -> Measure
        ensures depth { result.depth ≡ capped (depth self.now) }
        ensures size { result.size ≡ capped (size self.now) }
        ensures low { IsLow result.least (free self.now) };
}

/// Parts that stand once each, numbered from 0 on, and what each measures.
///
/// Contracts see the list of the parts.
pub struct Store<T: Part> {
    alloc: Global,
    parts: Numbering<T, QuickKey>,
    notes: Items<Measure>,
    // the number that was told last: the same part is often asked for again
    latest: usize,
}

impl<T: Part + Drop> Drop for Store<T> {
    fn drop(self) {
        let Store {
            alloc,
            parts,
            notes,
            latest,
        } = self;
    }
}

impl<T: Part> Model for Store<T> {
    ghost use Rattle.std.specs.Prelude.{List};
    ghost use Rattle.std.specs.Coded.{coded_list};
    ghost use Rattle.pool_parts.specs.Stored.{AreNoted};

    ghost Value = { List T };

    ghost coded = { coded_list T.code };

    ghost view = { λ s. s.parts };

    ghost invariant = { λ s. AreNoted T.depth T.size T.free s.notes s.parts };
}

impl<T: Part> Store<T> {
    /// No parts. They are found by their hashes under this key. It takes no memory yet.
    pub fn new(alloc: Global, key: QuickKey) -> Store<T>
        ensures { result ≡ [] }
    {
        Store {
            alloc,
            parts: Numbering::under(alloc, key),
            notes: Items::new(alloc),
            latest: 0,
        }
    }

    /// Where memory comes from.
    pub fn alloc(&self) -> Global {
        self.alloc
    }

    /// The parts in the order of their numbers.
    pub fn as_slice(&self) -> &[T]
        ensures value { result.now ≡ self.now }
        ensures once { EachOnce self.now }
    {
        slice_of(&self.parts)
    }

    /// The part with the number `place`.
    pub fn get(&self, place: usize) -> &T
        requires { place < length self.now }
        ensures { (other : T) → slice_index_or self.now place other ≡ result.now }
    {
        &self.as_slice()[place]
    }

    /// What the part with the number `place` measures.
    pub fn measure(&self, place: usize) -> Measure
        requires { place < length self.now }
        ensures depth { (other : T) → capped (T.depth (slice_index_or self.now place other)) ≡ result.depth }
        ensures size { (other : T) → capped (T.size (slice_index_or self.now place other)) ≡ result.size }
        ensures low { (other : T) → IsLow result.least (T.free (slice_index_or self.now place other)) }
    {
        note_at(&self.parts, &self.notes, place)
    }

    /// The number of the part, of which a copy is kept where it is new.
    pub fn keep(&mut self, part: &T) -> Made<usize>
        ensures place { IfOk result (λ place. slice_get self.new place ≡ Some part.now) }
        ensures start { IsStart self.old self.new }
        ensures once { EachOnce self.new }
        ensures err_only_new { OnErr result (IsAbsent self.old part.now) }
    {
        if let Some(place) = find_in(&self.parts, self.latest, part) {
            self.latest = place;
            return Ok(place);
        }
        let place = keep_made_in(&mut self.parts, &mut self.notes, part.copy(self.alloc))?;
        self.latest = place;
        Ok(place)
    }

    /// The number of a part that was made, which is kept itself where it is new; none where it was not made.
    pub fn keep_made(&mut self, made: Made<T>) -> Made<usize>
        ensures place { (part : T) → IfOk made (λ it. it ≡ part)
            → IfOk result (λ place. slice_get self.new place ≡ Some part) }
        ensures start { IsStart self.old self.new }
        ensures once { EachOnce self.new }
        ensures err_only_new { OnErr result (IfOk made (λ part. IsAbsent self.old part)) }
    {
        keep_made_in(&mut self.parts, &mut self.notes, made)
    }
}

// The parts in the order of their numbers. Its contract says that none stands twice.
fn slice_of<T: Part>(parts: &Numbering<T, QuickKey>) -> &[T]
    ensures value { result.now ≡ parts.now }
    ensures once { EachOnce parts.now }
{
    parts.as_slice()
}

// What the part with the number `place` measures, which is noted of the first ones alone.
fn note_at<T: Part>(parts: &Numbering<T, QuickKey>, notes: &Items<Measure>, place: usize) -> Measure
    requires noted { AreNoted T.depth T.size T.free notes.now parts.now }
    requires within { place < length parts.now }
    ensures { (other : T) → IsMeasure T.depth T.size T.free (slice_index_or parts.now place other) result }
{
    match notes.get(place) {
        Some(note) => *note,
        None => parts.as_slice()[place].measure(),
    }
}

// Notes what the first part measures of which nothing is noted. Where memory fails it notes nothing.
fn note_next<T: Part>(parts: &Numbering<T, QuickKey>, notes: &mut Items<Measure>)
    requires noted { AreNoted T.depth T.size T.free notes.old parts.now }
    ensures noted { AreNoted T.depth T.size T.free notes.new parts.now }
{
    let place = notes.len();
    if place < parts.len() {
        let note = parts.as_slice()[place].measure();
        let _ = notes.push(note);
    }
}

// Whether the part stands at a place.
fn is_at<T: Part>(parts: &Numbering<T, QuickKey>, place: usize, part: &T) -> bool
    ensures { IsTrue result → slice_get parts.now place ≡ Some part.now }
{
    match parts.get(place) {
        Some(other) => *other == *part,
        None => false,
    }
}

// The number of the part, if it has one: `latest` is looked at first.
fn find_in<T: Part>(parts: &Numbering<T, QuickKey>, latest: usize, part: &T) -> Option<usize>
    ensures found { MatchOption result (IsAbsent parts.now part.now)
        (λ place. slice_get parts.now place ≡ Some part.now) }
    ensures once { EachOnce parts.now }
{
    let _ = slice_of(parts);
    if is_at(parts, latest, part) {
        return Some(latest);
    }
    parts.find(part)
}

// The number of a part that was made, which is kept itself where it is new.
fn keep_made_in<T: Part>(
    parts: &mut Numbering<T, QuickKey>,
    notes: &mut Items<Measure>,
    made: Made<T>,
) -> Made<usize>
    requires noted { AreNoted T.depth T.size T.free notes.old parts.old }
    ensures noted { AreNoted T.depth T.size T.free notes.new parts.new }
    ensures place { (part : T) → IfOk made (λ it. it ≡ part)
        → IfOk result (λ place. slice_get parts.new place ≡ Some part) }
    ensures start { IsStart parts.old parts.new }
    ensures once { EachOnce parts.new }
    ensures err_only_new { OnErr result (IfOk made (λ part. IsAbsent parts.old part)) }
{
    let _ = slice_of(parts);
    let part = made?;
    keep_own_in(parts, notes, part)
}

// The number of the part, which is kept itself where it is new.
fn keep_own_in<T: Part>(
    parts: &mut Numbering<T, QuickKey>,
    notes: &mut Items<Measure>,
    part: T,
) -> Made<usize>
    requires noted { AreNoted T.depth T.size T.free notes.old parts.old }
    ensures noted { AreNoted T.depth T.size T.free notes.new parts.new }
    ensures place { IfOk result (λ place. slice_get parts.new place ≡ Some part) }
    ensures start { IsStart parts.old parts.new }
    ensures once { EachOnce parts.new }
    ensures err_only_new { OnErr result (IsAbsent parts.old part) }
{
    let place = number(parts, part)?;
    note_next(parts, notes);
    Ok(place)
}

// The number of the part, which is the next one where it is new.
fn number<T: Part>(parts: &mut Numbering<T, QuickKey>, part: T) -> Made<usize>
    ensures place { IfOk result (λ place. slice_get parts.new place ≡ Some part) }
    ensures start { IsStart parts.old parts.new }
    ensures once { EachOnce parts.new }
    ensures noted { (notes : List Measure) → AreNoted T.depth T.size T.free notes parts.old
        → AreNoted T.depth T.size T.free notes parts.new }
    ensures err_only_new { OnErr result (IsAbsent parts.old part) }
{
    let number = parts.number(part);
    let _ = slice_of(parts);
    Ok(number?)
}
