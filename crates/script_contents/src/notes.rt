//! The annotations of a script.

ghost use Rattle.std.specs.Prelude.{◌≡◌, ◌++◌, IfOk, OnOk};
ghost use Rattle.std.specs.List.{flat_map};
ghost use Rattle.script_names.specs.Prelude.{first_of, definition_number};
ghost use Rattle.script_contents.specs.Plain.{resources_in, roles_in};

use containers::Items;
use csp_base::{Made, Name};
use csp_program::{ResourceNote, RolesNote};
use csp_text::Decl;
use name_tables::Dictionary;
use script_names::Entity;
use std::alloc::Global;

// The number of the definition of this name.
fn defined_by(names: &Dictionary, x: &Name) -> u32
    ensures { result ≡ definition_number (first_of names.now x.now) }
{
    match names.find(x) {
        Some(Entity::Definition(d, _)) => d,
        Some(Entity::Channel(_, _)) | Some(Entity::Constant(_)) | Some(Entity::Set(_)) | None => 0,
    }
}

/// The annotations of roles and of resources.
pub fn annotations(
    alloc: Global,
    names: &Dictionary,
    decls: &[Decl],
) -> Made<(Items<RolesNote>, Items<ResourceNote>)>
    ensures roles { IfOk result (λ made. made.0 ≡ flat_map (roles_in (first_of names.now)) decls.now) }
    ensures resources { IfOk result (λ made. made.1 ≡ flat_map (resources_in (first_of names.now)) decls.now) }
{
    let roles = roles(alloc, names, decls)?;
    let resources = resources(alloc, names, decls)?;
    Ok((roles, resources))
}

// The annotations of roles.
fn roles(alloc: Global, names: &Dictionary, decls: &[Decl]) -> Made<Items<RolesNote>>
    ensures { IfOk result (λ made. made ≡ flat_map (roles_in (first_of names.now)) decls.now) }
{
    let mut made = Items::new(alloc);
    for decl in decls {
        add_roles(names, &mut made, decl)?;
    }
    Ok(made)
}

// Adds the roles that a declaration gives.
fn add_roles(names: &Dictionary, made: &mut Items<RolesNote>, decl: &Decl) -> Made<()>
    ensures { OnOk result (made.new ≡ made.old ++ roles_in (first_of names.now) decl.now) }
{
    match decl {
        Decl::Roles(roles) => {
            made.push(RolesNote {
                process: defined_by(names, &roles.process),
                creq: defined_by(names, &roles.creq),
                cack: defined_by(names, &roles.cack),
                sreq: defined_by(names, &roles.sreq),
                sack: defined_by(names, &roles.sack),
            })?;
            Ok(())
        }
        Decl::Channel(_, _)
        | Decl::Datatype(_, _)
        | Decl::Nametype(_, _)
        | Decl::Define(_, _, _)
        | Decl::Assert(_)
        | Decl::Resource(_) => Ok(()),
    }
}

// The annotations of resources.
fn resources(alloc: Global, names: &Dictionary, decls: &[Decl]) -> Made<Items<ResourceNote>>
    ensures { IfOk result (λ made. made ≡ flat_map (resources_in (first_of names.now)) decls.now) }
{
    let mut made = Items::new(alloc);
    for decl in decls {
        add_resources(names, &mut made, decl)?;
    }
    Ok(made)
}

// Adds the resource that a declaration names.
fn add_resources(names: &Dictionary, made: &mut Items<ResourceNote>, decl: &Decl) -> Made<()>
    ensures { OnOk result (made.new ≡ made.old ++ resources_in (first_of names.now) decl.now) }
{
    match decl {
        Decl::Resource(resource) => {
            made.push(ResourceNote {
                process: defined_by(names, &resource.process),
                acquire: defined_by(names, &resource.acquire),
                release: defined_by(names, &resource.release),
            })?;
            Ok(())
        }
        Decl::Channel(_, _)
        | Decl::Datatype(_, _)
        | Decl::Nametype(_, _)
        | Decl::Define(_, _, _)
        | Decl::Assert(_)
        | Decl::Roles(_) => Ok(()),
    }
}
