//! Names looked up by their numbers: by their places where they count up, else one by one.

ghost use Rattle.std.specs.Prelude.{◌≡◌, ◌+◌, ◌≤◌, map, nat_eq, slice_get, true, IsTrue};
ghost use Rattle.std.specs.Option.{option_copied};
ghost use Rattle.csp_program.specs.Prelude.{with_bound, given_by, Env, bound_to};
ghost use Rattle.substitution.specs.Named.{atom_or, counts_up, CountUp, EndBy};

use csp_atoms::Atom;
use csp_program::Value;

// Whether the name is so many above `first`.
fn stands_at(name: u32, first: u32, place: usize) -> bool
    ensures { result ≡ nat_eq name (first + place) }
{
    name >= first && (name - first) as usize == place
}

// Whether the names count up from `first` on.
fn count_up(names: &[u32], first: u32) -> bool
    ensures { result ≡ counts_up first names.now }
{
    for (place, name) in names.iter().enumerate() {
        if !stands_at(*name, first, place) {
            return false;
        }
    }
    true
}

/// The first of the names, if they count up from it.
pub(crate) fn first_of(names: &[u32]) -> Option<u32>
    ensures { CountUp result names.now }
{
    let first = match names.first() {
        Some(first) => *first,
        None => 0,
    };
    if count_up(names, first) {
        Some(first)
    } else {
        None
    }
}

// Whether the names that are bound count up from `first` on.
fn bound_count_up(bound: &[(u32, Atom)], first: u32) -> bool
    ensures { result ≡ counts_up first (map (λ b. b.0) bound.now) }
{
    for (place, pair) in bound.iter().enumerate() {
        if !stands_at(pair.0, first, place) {
            return false;
        }
    }
    true
}

/// The first of the names that are bound, if they count up from it.
pub(crate) fn first_of_bound(bound: &[(u32, Atom)]) -> Option<u32>
    ensures { CountUp result (map (λ b. b.0) bound.now) }
{
    let first = match bound.first() {
        Some(pair) => pair.0,
        None => 0,
    };
    if bound_count_up(bound, first) {
        Some(first)
    } else {
        None
    }
}

/// Whether so many names are known to be below the number, because they count up from `first` on.
pub(crate) fn end_by(first: Option<u32>, count: usize, least: u32) -> bool
    ensures { IsTrue result → EndBy first count least }
{
    match first {
        Some(first) => first <= least && count <= (least - first) as usize,
        None => false,
    }
}

// The value at a place.
fn item_at(values: &[Value], place: usize) -> Option<&Value>
    ensures { option_copied result ≡ slice_get values.now place }
{
    values.get(place)
}

// The value of a name, where the names count up from `first` on.
fn listed_at<'a>(names: &[u32], values: &'a [Value], first: u32, name: u32) -> Option<&'a Value>
    requires { counts_up first names.now ≡ true }
    ensures { option_copied result ≡ given_by (bound_to names.now values.now) name }
{
    if name < first {
        return None;
    }
    let place = (name - first) as usize;
    if place >= names.len() {
        return None;
    }
    item_at(values, place)
}

// The value of a name, looked for from the left.
fn listed_first<'a>(names: &[u32], values: &'a [Value], name: u32) -> Option<&'a Value>
    ensures { option_copied result ≡ given_by (bound_to names.now values.now) name }
{
    let mut names = names;
    let mut values = values;
    while let Some((other, other_names)) = names.split_first() {
        let (value, other_values) = values.split_first()?;
        if *other == name {
            return Some(value);
        }
        names = other_names;
        values = other_values;
    }
    None
}

/// The value of a name, if it is one of these. Of two values for one name the first one counts.
pub(crate) fn find_listed<'a>(
    names: &[u32],
    values: &'a [Value],
    first: Option<u32>,
    name: u32,
) -> Option<&'a Value>
    requires { CountUp first names.now }
    ensures { option_copied result ≡ given_by (bound_to names.now values.now) name }
{
    match first {
        Some(first) => listed_at(names, values, first, name),
        None => listed_first(names, values, name),
    }
}

// The atom of a name, where the names that are bound count up from `first` on.
fn bound_at(bound: &[(u32, Atom)], first: u32, name: u32) -> Option<Atom>
    requires { counts_up first (map (λ b. b.0) bound.now) ≡ true }
    ensures { (env : Env) → given_by (with_bound bound.now env) name ≡ atom_or result (given_by env name) }
{
    if name < first {
        return None;
    }
    let place = (name - first) as usize;
    if place >= bound.len() {
        return None;
    }
    Some(bound[place].1)
}

// The atom of a name, looked for from the end.
fn bound_last(bound: &[(u32, Atom)], name: u32) -> Option<Atom>
    ensures { (env : Env) → given_by (with_bound bound.now env) name ≡ atom_or result (given_by env name) }
{
    let mut rest = bound;
    while let Some((last, front)) = rest.split_last() {
        if last.0 == name {
            return Some(last.1);
        }
        rest = front;
    }
    None
}

/// The atom of a name, if it is one of those that are bound. Of two atoms for one name the last one counts.
pub(crate) fn find_bound(bound: &[(u32, Atom)], first: Option<u32>, name: u32) -> Option<Atom>
    requires { CountUp first (map (λ b. b.0) bound.now) }
    ensures { (env : Env) → given_by (with_bound bound.now env) name ≡ atom_or result (given_by env name) }
{
    match first {
        Some(first) => bound_at(bound, first, name),
        None => bound_last(bound, name),
    }
}
