//! What a name alone stands for.

ghost use Rattle.std.specs.Prelude.{◌≡◌, None};
ghost use Rattle.script_names.specs.Faults as faults;
ghost use Rattle.script_names.specs.Typed as typed;

use containers::Items;
use csp_program::{Expr, Head};
use script_names::{Entity, Kind, Sense};
use std::alloc::Global;

/// The number of a channel, 0 for anything else.
pub(crate) fn channel_number(entity: Option<Entity>) -> u32
    ensures { result ≡ typed.channel_number entity }
{
    match entity {
        Some(Entity::Channel(channel, _)) => channel,
        Some(Entity::Constant(_)) | Some(Entity::Definition(_, _)) | Some(Entity::Set(_)) | None =>
            0,
    }
}

/// The number of a definition, 0 for anything else.
pub(crate) fn definition_number(entity: Option<Entity>) -> u32
    ensures { result ≡ typed.definition_number entity }
{
    match entity {
        Some(Entity::Definition(def, _)) => def,
        Some(Entity::Channel(_, _)) | Some(Entity::Constant(_)) | Some(Entity::Set(_)) | None => 0,
    }
}

// A name by itself that is not bound.
fn named_entity(alloc: Global, entity: Option<Entity>) -> Expr
    ensures { result ≡ typed.named None entity }
{
    match entity {
        Some(Entity::Channel(channel, _)) => Expr::Event(channel, Items::new(alloc)),
        Some(Entity::Constant(constant)) => Expr::Const(constant),
        Some(Entity::Definition(def, _)) => Expr::Call(def, Items::new(alloc)),
        Some(Entity::Set(def)) => Expr::SetName(def),
        None => Expr::Num(0),
    }
}

/// A name by itself, with its number where it is bound and what it is declared as.
pub(crate) fn name_alone(alloc: Global, number: Option<u32>, entity: Option<Entity>) -> Expr
    ensures { result ≡ typed.named number entity }
{
    match number {
        Some(number) => Expr::Bound(number),
        None => named_entity(alloc, entity),
    }
}

/// What the event of a prefix begins with, by the number of its name where it is bound and what it is declared as.
pub(crate) fn head_of(number: Option<u32>, entity: Option<Entity>) -> Head
    ensures { result ≡ typed.head_of number entity }
{
    match number {
        Some(number) => Head::Bound(number),
        None => Head::Channel(channel_number(entity)),
    }
}

/// Whether what a name stands for is a network definition.
pub(crate) fn is_network(kinds: &[Kind], sense: Sense) -> bool
    ensures { result ≡ faults.is_network kinds.now sense }
{
    match sense {
        Sense::Declared(Entity::Definition(def, _)) => match kinds.get(def as usize) {
            Some(kind) => kind.network,
            None => false,
        },
        Sense::Declared(Entity::Channel(_, _))
        | Sense::Declared(Entity::Constant(_))
        | Sense::Declared(Entity::Set(_))
        | Sense::Bound
        | Sense::Unknown => false,
    }
}
