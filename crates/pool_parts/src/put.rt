//! Parts with values in place of their free names.

ghost use Rattle.std.specs.Prelude.{◌≡◌, ◌<◌, length, slice_get, slice_index_or, IfOk, Some};
ghost use Rattle.csp_base.specs.Lists.{EachOnce};
ghost use Rattle.csp_program.specs.Substitution.{given_by, Given};
ghost use Rattle.pool_parts.specs.Stored.{IsStart};
ghost use Rattle.substitution.specs.Laws.{GetNone};

use crate::store::{Part, Store};
use csp_base::Made;
use substitution::Values;

/// A part that values are put into.
pub trait Put: Part {
    ghost with: { Given → Self → Self };

    /// The part with the values in place of its free names.
    fn put(&self, values: &Values<'_>) -> Made<Self>
        ensures { IfOk result (λ made. made ≡ with (given_by values.now) self.now) };

    ghost stays: { (given : Given) (part : Self) → GetNone given (Self.Part.free part) → with given part ≡ part };
}

/// The number of what the part with the number `place` is with the values in place of its free names. One that reads no name so low stays as it is.
pub fn put_values<T: Put>(store: &mut Store<T>, place: usize, values: &Values<'_>) -> Made<usize>
    requires { place < length store.old }
    ensures made { (other : T) → IfOk result (λ made. slice_get store.new made
        ≡ Some (T.with (given_by values.now) (slice_index_or store.old place other))) }
    ensures start { IsStart store.old store.new }
{
    if values.are_below(store.measure(place).least) {
        return Ok(place);
    }
    let made = store.get(place).put(values);
    store.keep_made(made)
}
