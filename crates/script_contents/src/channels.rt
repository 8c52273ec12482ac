//! The channels and the constants of a script.

ghost use Rattle.std.specs.Prelude.{◌≡◌, ◌≤◌, [], None, ◌++◌, map, IfOk, OnOk};
ghost use Rattle.std.specs.List.{flat_map};
ghost use Rattle.dl_limits.specs.declared.TheConstants.{MOST_BYTES};
ghost use Rattle.script_names.specs.Prelude.{Name, first_of, exprs, reading};
ghost use Rattle.script_contents.specs.Plain.{channels_by, constants_in, plain_channel};
ghost use Rattle.script_sizes.specs.BindingTokens.{all_tokens};
ghost use Rattle.script_sizes.specs.Size.{declaration_size, size};

use containers::Items;
use csp_base::{Made, Name};
use csp_program::copies::copy_exprs;
use csp_program::{Channel, Expr};
use csp_text::{Decl, Tree};
use name_tables::{Meanings, Scope};
use std::alloc::Global;
use typed_trees::Walk;

/// The types of a channel's fields.
pub fn types_of(meanings: &Meanings<'_>, types: &[Tree]) -> Made<Items<Expr>>
    requires { all_tokens types.now ≤ MOST_BYTES }
    ensures { IfOk result (λ typed.
        typed ≡ exprs (map (reading (first_of meanings.now.names.now) meanings.now.kinds.now) types.now) [] 0) }
{
    let mut walk = Walk::new(meanings, Scope::new(meanings.alloc), 0);
    let typed = walk.typed_exprs(types)?;
    Ok(typed)
}

/// The channels and the names of the constants of a script.
pub fn channels_and_constants(
    meanings: &Meanings<'_>,
    decls: &[Decl],
) -> Made<(Items<Channel>, Items<Name>)>
    requires { size decls.now ≤ MOST_BYTES }
    ensures channels { IfOk result (λ made. made.0 ≡ flat_map (channels_by meanings.now) decls.now) }
    ensures constants { IfOk result (λ made. made.1 ≡ flat_map constants_in decls.now) }
{
    let channels = channels(meanings, decls)?;
    let constants = constants(meanings.alloc, decls)?;
    Ok((channels, constants))
}

// The channels of a script.
fn channels(meanings: &Meanings<'_>, decls: &[Decl]) -> Made<Items<Channel>>
    requires { size decls.now ≤ MOST_BYTES }
    ensures { IfOk result (λ made. made ≡ flat_map (channels_by meanings.now) decls.now) }
{
    let mut made = Items::new(meanings.alloc);
    for decl in decls {
        add_channels(meanings, &mut made, decl)?;
    }
    Ok(made)
}

// Adds the channels that a declaration declares.
fn add_channels(meanings: &Meanings<'_>, made: &mut Items<Channel>, decl: &Decl) -> Made<()>
    requires { declaration_size decl.now ≤ MOST_BYTES }
    ensures { OnOk result (made.new ≡ made.old ++ channels_by meanings.now decl.now) }
{
    match decl {
        Decl::Channel(xs, types) => {
            let types = types_of(meanings, types.as_slice())?;
            add_named(meanings.alloc, made, xs.as_slice(), types.as_slice())
        }
        Decl::Datatype(_, _)
        | Decl::Nametype(_, _)
        | Decl::Define(_, _, _)
        | Decl::Assert(_)
        | Decl::Roles(_)
        | Decl::Resource(_) => Ok(()),
    }
}

// Adds channels of these names and types.
fn add_named(alloc: Global, made: &mut Items<Channel>, xs: &[Name], types: &[Expr]) -> Made<()>
    ensures { OnOk result (made.new ≡ made.old ++ map (λ (x : Name). plain_channel x types.now) xs.now) }
{
    for x in xs {
        made.push_made(channel(alloc, x, types))?;
    }
    Ok(())
}

// A channel that has no field sets yet.
fn channel(alloc: Global, x: &Name, types: &[Expr]) -> Made<Channel>
    ensures { IfOk result (λ made. made ≡ plain_channel x.now types.now) }
{
    let name = x.try_clone(alloc)?;
    copy_exprs(alloc, types).map(|types| Channel {
        name,
        types,
        fields: None,
        first: 0,
    })
}

// The names of the constants of a script.
fn constants(alloc: Global, decls: &[Decl]) -> Made<Items<Name>>
    ensures { IfOk result (λ made. made ≡ flat_map constants_in decls.now) }
{
    let mut made = Items::new(alloc);
    for decl in decls {
        add_constants(alloc, &mut made, decl)?;
    }
    Ok(made)
}

// Adds the constants that a declaration declares.
fn add_constants(alloc: Global, made: &mut Items<Name>, decl: &Decl) -> Made<()>
    ensures { OnOk result (made.new ≡ made.old ++ constants_in decl.now) }
{
    match decl {
        Decl::Datatype(_, ks) => add_names(alloc, made, ks.as_slice()),
        Decl::Channel(_, _)
        | Decl::Nametype(_, _)
        | Decl::Define(_, _, _)
        | Decl::Assert(_)
        | Decl::Roles(_)
        | Decl::Resource(_) => Ok(()),
    }
}

// Adds copies of names.
fn add_names(alloc: Global, made: &mut Items<Name>, xs: &[Name]) -> Made<()>
    ensures { OnOk result (made.new ≡ made.old ++ xs.now) }
{
    for x in xs {
        made.push_made(x.try_clone(alloc))?;
    }
    Ok(())
}
