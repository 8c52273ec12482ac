//! What tests find in what is said.

ghost use Rattle.std.specs.Prelude.{◌≡◌, ◌-◌, ◌||◌};
ghost use Rattle.name_faults.specs.Prelude.{not, map, nat_eq, nat_lt, option_copied, list_any, first_of, first_name, seen};
ghost use Rattle.script_names.specs.Faults as meant;

use csp_base::Name;
use name_tables::{Dictionary, kind_at};
use script_names::{Class, Entity, Kind, Need, Occurrence, Sense, Use};

/// The first name that is neither bound nor declared.
#[tactic(auto, using(crate::proofs::First::found))]
pub(crate) fn unknown_name<'a>(list: &[Occurrence<&'a Name>]) -> Option<&'a Name>
    ensures { option_copied result ≡ first_name meant.unknown_name (map seen list.now) }
{
    for said in list {
        if let Some(x) = unknown_in(said) {
            return Some(x);
        }
    }
    None
}

// The name, where it is neither bound nor declared.
fn unknown_in<'a>(said: &Occurrence<&'a Name>) -> Option<&'a Name>
    ensures { option_copied result ≡ meant.unknown_name (seen said.now) }
{
    match *said {
        Occurrence::Uses(x, Sense::Unknown, _) => Some(x),
        Occurrence::Uses(_, Sense::Bound | Sense::Declared(_), _)
        | Occurrence::Declares(_, _)
        | Occurrence::Binds(_, _)
        | Occurrence::Notes(_, _)
        | Occurrence::Form(_, _)
        | Occurrence::Parallel(_) => None,
    }
}

/// Whether something stands where what is needed is of another kind.
#[tactic(auto, using(crate::proofs::First::found_any))]
pub(crate) fn is_any_wrong_kind(kinds: &[Kind], list: &[Occurrence<&Name>]) -> bool
    ensures { result ≡ list_any (meant.is_wrong_kind kinds.now) (map seen list.now) }
{
    for said in list {
        if is_wrong_kind(kinds, said) {
            return true;
        }
    }
    false
}

// Whether what stands at a place is not of the kind that is needed there.
fn is_wrong_kind(kinds: &[Kind], said: &Occurrence<&Name>) -> bool
    ensures { result ≡ meant.is_wrong_kind kinds.now (seen said.now) }
{
    match *said {
        Occurrence::Form(class, place) => clashes(class, place.need),
        Occurrence::Parallel(place) => clashes(Class::Process, place.need),
        Occurrence::Uses(_, sense, Use::Alone(place)) => clashes(
            class_of(kinds, sense),
            place.need,
        ),
        Occurrence::Uses(_, sense, Use::Called(_, place)) => {
            is_other_definition(kinds, sense, place.need)
        }
        Occurrence::Uses(_, sense, Use::Heads(0)) => !is_channel(sense) && !is_bound(sense),
        Occurrence::Uses(_, sense, Use::Dotted(_) | Use::Heads(_) | Use::Begins(_)) => {
            !is_channel(sense)
        }
        Occurrence::Uses(_, sense, Use::Annotated) => {
            is_other_definition(kinds, sense, Need::Process)
        }
        Occurrence::Uses(_, sense, Use::Annotates(_)) => {
            is_other_definition(kinds, sense, Need::Data)
        }
        Occurrence::Uses(_, _, Use::Renamed(_, _, _))
        | Occurrence::Declares(_, _)
        | Occurrence::Binds(_, _)
        | Occurrence::Notes(_, _) => false,
    }
}

fn is_bound(sense: Sense) -> bool
    ensures { result ≡ meant.is_bound sense }
{
    matches!(sense, Sense::Bound)
}

fn is_channel(sense: Sense) -> bool
    ensures { result ≡ meant.is_channel sense }
{
    matches!(sense, Sense::Declared(Entity::Channel(_, _)))
}

// Whether it is a definition, other than a nametype or a datatype.
fn is_definition(sense: Sense) -> bool
    ensures { result ≡ meant.is_definition sense }
{
    matches!(sense, Sense::Declared(Entity::Definition(_, _)))
}

// The class of what a name stands for.
fn class_of(kinds: &[Kind], sense: Sense) -> Class
    ensures { result ≡ meant.class_of kinds.now sense }
{
    match sense {
        Sense::Declared(Entity::Definition(d, _)) => kind_at(kinds, d as usize).class,
        Sense::Bound | Sense::Declared(_) => Class::Data,
        Sense::Unknown => Class::Unknown,
    }
}

// Whether a process stands where data is needed, or the reverse.
fn clashes(class: Class, need: Need) -> bool
    ensures { result ≡ meant.clashes class need }
{
    matches!(
        (class, need),
        (Class::Process, Need::Data) | (Class::Data, Need::Process)
    )
}

// Whether a name is no definition of the class that is needed.
fn is_other_definition(kinds: &[Kind], sense: Sense, need: Need) -> bool
    ensures { result ≡ (not (meant.is_definition sense) || meant.clashes (meant.class_of kinds.now sense) need) }
{
    !is_definition(sense) || clashes(class_of(kinds, sense), need)
}

/// The first name that is declared, bound or annotated and may not be again.
#[tactic(auto, using(crate::proofs::First::found))]
pub(crate) fn repeated_name<'a>(
    names: &Dictionary,
    list: &[Occurrence<&'a Name>],
) -> Option<&'a Name>
    ensures { option_copied result ≡ first_name (meant.repeated_name (first_of names.now)) (map seen list.now) }
{
    for said in list {
        if let Some(x) = repeated_in(names, said) {
            return Some(x);
        }
    }
    None
}

// The name, where it may not be again.
fn repeated_in<'a>(names: &Dictionary, said: &Occurrence<&'a Name>) -> Option<&'a Name>
    ensures { option_copied result ≡ meant.repeated_name (first_of names.now) (seen said.now) }
{
    match *said {
        Occurrence::Declares(x, before) | Occurrence::Notes(x, before) => faulty_name(before, x),
        Occurrence::Binds(x, repeats) => faulty_name(repeats || is_constant(names, x), x),
        Occurrence::Uses(_, _, _) | Occurrence::Form(_, _) | Occurrence::Parallel(_) => None,
    }
}

// The name, where it is at fault.
fn faulty_name(holds: bool, x: &Name) -> Option<&Name>
    ensures { option_copied result ≡ meant.when holds x.now }
{
    if holds { Some(x) } else { None }
}

fn is_constant(names: &Dictionary, x: &Name) -> bool
    ensures { result ≡ meant.is_constant (first_of names.now x.now) }
{
    matches!(names.find(x), Some(Entity::Constant(_)))
}

/// The first name with a wrong number of arguments, fields or parameters.
#[tactic(auto, using(crate::proofs::First::found))]
pub(crate) fn wrong_count<'a>(list: &[Occurrence<&'a Name>]) -> Option<&'a Name>
    ensures { option_copied result ≡ first_name meant.wrong_count (map seen list.now) }
{
    for said in list {
        if let Some(x) = wrong_count_in(said) {
            return Some(x);
        }
    }
    None
}

// The name, where it has a wrong number of arguments, fields or parameters.
fn wrong_count_in<'a>(said: &Occurrence<&'a Name>) -> Option<&'a Name>
    ensures { option_copied result ≡ meant.wrong_count (seen said.now) }
{
    match *said {
        Occurrence::Uses(x, sense, how) => faulty_name(is_wrong_count(sense, how), x),
        Occurrence::Declares(_, _)
        | Occurrence::Binds(_, _)
        | Occurrence::Notes(_, _)
        | Occurrence::Form(_, _)
        | Occurrence::Parallel(_) => None,
    }
}

// Whether a use has the wrong number of arguments, fields or parameters.
fn is_wrong_count(sense: Sense, how: Use) -> bool
    ensures { result ≡ meant.is_wrong_count sense how }
{
    match how {
        Use::Alone(_) => takes_other(sense, 0) || has_other(sense, 0),
        Use::Called(n, _) => takes_other(sense, n),
        Use::Dotted(n) | Use::Heads(n) => has_other(sense, n),
        Use::Begins(n) => has_fewer(sense, n),
        Use::Renamed(n, new, m) => leave_other(sense, n, new, m),
        Use::Annotated => false,
        Use::Annotates(process) => take_other(process, sense),
    }
}

// Whether a definition has another number of parameters.
fn takes_other(sense: Sense, count: usize) -> bool
    ensures { result ≡ meant.takes_other sense count }
{
    match sense {
        Sense::Declared(Entity::Definition(_, n)) => n as usize != count,
        Sense::Bound | Sense::Declared(_) | Sense::Unknown => false,
    }
}

// Whether a channel has another number of fields.
fn has_other(sense: Sense, count: usize) -> bool
    ensures { result ≡ meant.has_other sense count }
{
    match sense {
        Sense::Declared(Entity::Channel(_, n)) => n as usize != count,
        Sense::Bound | Sense::Declared(_) | Sense::Unknown => false,
    }
}

// Whether a channel has fewer fields.
fn has_fewer(sense: Sense, count: usize) -> bool
    ensures { result ≡ meant.has_fewer sense count }
{
    match sense {
        Sense::Declared(Entity::Channel(_, n)) => (n as usize) < count,
        Sense::Bound | Sense::Declared(_) | Sense::Unknown => false,
    }
}

// Whether the two sides of a renaming don't leave the same number of fields.
fn leave_other(sense: Sense, given: usize, new: Sense, other: usize) -> bool
    ensures { result ≡ meant.leave_other sense given new other }
{
    match (sense, new) {
        (Sense::Declared(Entity::Channel(_, n)), Sense::Declared(Entity::Channel(_, m))) => {
            leaves_other(n as usize, given, m as usize, other)
        }
        (Sense::Bound | Sense::Declared(_) | Sense::Unknown, _) => false,
    }
}

// Whether channels with n and m fields of which so many are given don't leave the same number.
fn leaves_other(n: usize, given: usize, m: usize, other: usize) -> bool
    ensures { result ≡ (nat_lt n given || (nat_lt m other || not (nat_eq (n - given) (m - other)))) }
{
    n < given || m < other || n - given != m - other
}

// Whether two definitions differ in their number of parameters.
fn take_other(process: Sense, set: Sense) -> bool
    ensures { result ≡ meant.take_other process set }
{
    match process {
        Sense::Declared(Entity::Definition(_, n)) => takes_other(set, n as usize),
        Sense::Bound | Sense::Declared(_) | Sense::Unknown => false,
    }
}

/// Whether a parallel or the use of a network definition stands inside a component.
#[tactic(auto, using(crate::proofs::First::found_any))]
pub(crate) fn is_any_inside(kinds: &[Kind], list: &[Occurrence<&Name>]) -> bool
    ensures { result ≡ list_any (meant.is_inside kinds.now) (map seen list.now) }
{
    for said in list {
        if is_inside(kinds, said) {
            return true;
        }
    }
    false
}

// Whether a parallel or the use of a network definition stands outside the network positions.
fn is_inside(kinds: &[Kind], said: &Occurrence<&Name>) -> bool
    ensures { result ≡ meant.is_inside kinds.now (seen said.now) }
{
    match *said {
        Occurrence::Parallel(place) => !place.network,
        Occurrence::Uses(_, sense, Use::Alone(place) | Use::Called(_, place)) => {
            is_network(kinds, sense) && !place.network
        }
        Occurrence::Uses(_, _, _)
        | Occurrence::Declares(_, _)
        | Occurrence::Binds(_, _)
        | Occurrence::Notes(_, _)
        | Occurrence::Form(_, _) => false,
    }
}

// Whether a name stands for a network definition.
fn is_network(kinds: &[Kind], sense: Sense) -> bool
    ensures { result ≡ meant.is_network kinds.now sense }
{
    match sense {
        Sense::Declared(Entity::Definition(d, _)) => kind_at(kinds, d as usize).network,
        Sense::Bound | Sense::Declared(_) | Sense::Unknown => false,
    }
}
