//! Values numbered as first seen.

ghost use Rattle.std.specs.Prelude.{◌≡◌, false, [], ◌∷◌, ◌++◌, length, not, position, slice_get, IfOk, IfSome, MatchOption, is_some, OnOk, OnErr};
ghost use Rattle.std.specs.List.{IsDistinct, position_or_len};
ghost use Rattle.std.specs.Option.{option_copied};
ghost use Rattle.std.specs.Set.{is_member};
ghost use Rattle.containers.specs.Members.{with_new};

use crate::Exact;
use indexmap::IndexSet;
use std::alloc::{AllocError, Global};
use std::hash::{BuildHasher, BuildHasherDefault, FoldHasher, Hash};
use std::marker::Model;

/// Values numbered from 0 on in the order in which they are first seen.
///
/// Contracts see it as the list of its values, in which no value stands twice. A value is found by its hash: under a key where a script chooses the
/// values, else under a seed that is fixed.
pub struct Numbering<T: Eq + Hash, S: BuildHasher = BuildHasherDefault<FoldHasher>> {
    values: IndexSet<T, S>,
}

impl<T: Eq + Hash + Drop, S: BuildHasher + Drop> Drop for Numbering<T, S> {
    fn drop(self) {
        let Numbering { values } = self;
    }
}

impl<T: Eq + Hash, S: BuildHasher> Model for Numbering<T, S> {
    ghost use Rattle.std.specs.Prelude.{List};
    ghost use Rattle.std.specs.Coded.{coded_list};

    ghost Value = { List T };

    ghost coded = { coded_list T.code };

    ghost view = { λ n. n.values.keys };
}

impl<T: Eq + Hash> Numbering<T> {
    /// No value has a number.
    pub fn new(alloc: Global) -> Numbering<T>
        ensures { result ≡ [] }
    {
        Numbering {
            values: IndexSet::new(alloc),
        }
    }
}

impl<T: Eq + Hash, S: BuildHasher> Numbering<T, S> {
    /// No value has a number. Values are found by their hashes under this key.
    pub fn under(alloc: Global, key: S) -> Numbering<T, S>
        ensures { result ≡ [] }
    {
        Numbering {
            values: IndexSet::with_hasher(alloc, key),
        }
    }

    /// How many values have a number.
    pub fn len(&self) -> usize
        ensures { result ≡ length self.now }
    {
        self.values.len()
    }

    /// The value with the number `place`.
    pub fn get(&self, place: usize) -> Option<&T>
        ensures { option_copied result ≡ slice_get self.now place }
    {
        self.values.get_index(place)
    }

    /// The values in the order of their numbers.
    pub fn as_slice(&self) -> &[T]
        ensures value { result.now ≡ self.now }
        ensures distinct { IsDistinct T.eq self.now }
    {
        self.values.as_slice()
    }
}

impl<T: Exact + Hash + Drop, S: BuildHasher> Numbering<T, S> {
    /// The number of `x`, if it has one.
    pub fn find(&self, x: &T) -> Option<usize>
        ensures first { result ≡ position (T.eq x.now) self.now }
        ensures found { IfSome result (λ place. slice_get self.now place ≡ Some x.now) }
        ensures known { is_some result ≡ is_member T.eq self.now x.now }
    {
        find_in(&self.values, x)
    }

    /// The number of `x`, which is the next one where `x` has none yet.
    pub fn number(&mut self, x: T) -> Result<usize, AllocError>
        ensures list { OnOk result (self.new ≡ with_new T.eq self.old x) }
        ensures first { IfOk result (λ place. place ≡ position_or_len (T.eq x) self.old) }
        ensures place { IfOk result (λ place. slice_get self.new place ≡ Some x) }

        // Only want of memory, and a known value needs none.
        ensures err { OnErr result (self.new ≡ self.old) }
        ensures err_only_new { OnErr result (is_member T.eq self.old x ≡ false) }
    {
        let (place, _) = number_in(&mut self.values, x)?;
        Ok(place)
    }

    /// The number of `x`, and whether it is new.
    pub fn insert_full(&mut self, x: T) -> Result<(usize, bool), AllocError>
        ensures list { OnOk result (self.new ≡ with_new T.eq self.old x) }
        ensures place { IfOk result (λ made. slice_get self.new made.0 ≡ Some x) }
        ensures new { IfOk result (λ made. made.1 ≡ not (is_member T.eq self.old x)) }

        // Only want of memory, and a known value needs none.
        ensures err { OnErr result (self.new ≡ self.old) }
        ensures err_only_new { OnErr result (is_member T.eq self.old x ≡ false) }
    {
        number_in(&mut self.values, x)
    }

    /// Takes the last value out. Its number goes to the next value that is new.
    pub fn pop(&mut self) -> Option<T>
        ensures { MatchOption result ((self.old ≡ []) × (self.new ≡ [])) (λ last. self.old ≡ self.new ++ last ∷ []) }
    {
        self.values.pop()
    }
}

// The place of x among the values.
fn find_in<T: Exact + Hash, S: BuildHasher>(values: &IndexSet<T, S>, x: &T) -> Option<usize>
    ensures first { result ≡ position (T.eq x.now) values.now.keys }
    ensures found { IfSome result (λ place. slice_get values.now.keys place ≡ Some x.now) }
    ensures known { is_some result ≡ is_member T.eq values.now.keys x.now }
{
    match values.get_full(x) {
        Some((place, _)) => Some(place),
        None => None,
    }
}

// The place of x among the values, at whose end it goes where it is new, and whether it is.
fn number_in<T: Exact + Hash + Drop, S: BuildHasher>(
    values: &mut IndexSet<T, S>,
    x: T,
) -> Result<(usize, bool), AllocError>
    ensures list { OnOk result (values.new.keys ≡ with_new T.eq values.old.keys x) }
    ensures first { IfOk result (λ made. made.0 ≡ position_or_len (T.eq x) values.old.keys) }
    ensures place { IfOk result (λ made. slice_get values.new.keys made.0 ≡ Some x) }
    ensures new { IfOk result (λ made. made.1 ≡ not (is_member T.eq values.old.keys x)) }
    ensures err { OnErr result (values.new.keys ≡ values.old.keys) }
    ensures err_only_new { OnErr result (is_member T.eq values.old.keys x ≡ false) }
{
    let full = values.insert_full(x)?;
    Ok(full)
}
