//! The dictionary of a script.

ghost use Rattle.std.specs.Prelude.{◌≡◌, ◌+◌, ◌<◌, ◌≤◌, [], ◌∷◌, ◌++◌, length, IfOk, OnOk};
ghost use Rattle.dl_limits.specs.declared.TheConstants.{MOST_BYTES};
ghost use Rattle.script_names.specs.Names.{channels_from, constants_from, counted, declared, declares};
ghost use Rattle.script_sizes.specs.Size.{declaration_size, size};
ghost use Rattle.name_tables.specs.Prelude.{SameFirsts, counts, total};

use crate::dictionary::Dictionary;
use containers::Key;
use csp_base::{Made, Name};
use csp_text::Decl;
use script_names::Entity;
use std::alloc::Global;

/// How many channels, constants and definitions were declared.
#[derive(Clone, Copy)]
pub struct Numbers {
    /// Channels.
    pub channels: u32,
    /// Constants.
    pub constants: u32,
    /// Definitions, nametypes and datatypes.
    pub definitions: u32,
}

/// The declared names of declarations with what their first declarations make them. Names are found under this key.
pub fn dictionary_of(alloc: Global, key: Key, decls: &[Decl]) -> Made<Dictionary>
    requires { size decls.now ≤ MOST_BYTES }
    ensures { IfOk result (λ names. SameFirsts names (declared decls.now)) }
{
    let mut names = Dictionary::new(alloc, key);
    declare_all(&mut names, decls)?;
    Ok(names)
}

// Declares what declarations declare, the first numbers being 0.
fn declare_all(names: &mut Dictionary, decls: &[Decl]) -> Made<()>
    requires { size decls.now ≤ MOST_BYTES }
    ensures { OnOk result (SameFirsts names.new (names.old ++ declared decls.now)) }
{
    let mut numbers = Numbers {
        channels: 0,
        constants: 0,
        definitions: 0,
    };
    for decl in decls {
        declare(names, &mut numbers, decl)?;
    }
    Ok(())
}

// Declares what a declaration declares.
fn declare(names: &mut Dictionary, numbers: &mut Numbers, decl: &Decl) -> Made<()>
    requires { total (counts numbers.old) + declaration_size decl.now ≤ MOST_BYTES }
    ensures names { OnOk result (SameFirsts names.new (names.old ++ declares (counts numbers.old) decl.now)) }
    ensures numbers { OnOk result (counts numbers.new ≡ counted (counts numbers.old) decl.now) }
{
    match decl {
        Decl::Channel(xs, types) => {
            let fields = types.len() as u32;
            declare_channels(names, numbers, xs.as_slice(), fields)
        }
        Decl::Datatype(x, ks) => declare_datatype(names, numbers, x, ks.as_slice()),
        Decl::Nametype(x, _) => declare_set(names, numbers, x),
        Decl::Define(x, params, _) => declare_definition(names, numbers, x, params.len()),
        Decl::Assert(_) | Decl::Roles(_) | Decl::Resource(_) => Ok(()),
    }
}

// The number of one more definition, which is counted.
fn take_definition(numbers: &mut Numbers) -> u32
    requires { numbers.old.definitions < MOST_BYTES }
    ensures number { result ≡ numbers.old.definitions }
    ensures numbers { numbers.new ≡ record numbers.old { definitions = numbers.old.definitions + 1 } }
{
    let d = numbers.definitions;
    numbers.definitions = d + 1;
    d
}

// Declares a set by its name.
fn declare_set(names: &mut Dictionary, numbers: &mut Numbers, x: &Name) -> Made<()>
    requires { numbers.old.definitions < MOST_BYTES }
    ensures names { OnOk result (SameFirsts names.new (names.old ++ (x.now, Entity.Set numbers.old.definitions) ∷ [])) }
    ensures numbers { OnOk result (numbers.new ≡ record numbers.old { definitions = numbers.old.definitions + 1 }) }
{
    let d = take_definition(numbers);
    names.declare(x, Entity::Set(d))
}

// Declares a definition with so many parameters.
fn declare_definition(
    names: &mut Dictionary,
    numbers: &mut Numbers,
    x: &Name,
    params: usize,
) -> Made<()>
    requires definitions { numbers.old.definitions < MOST_BYTES }
    requires params { params ≤ MOST_BYTES }
    ensures names { OnOk result (SameFirsts names.new
        (names.old ++ (x.now, Entity.Definition numbers.old.definitions params) ∷ [])) }
    ensures numbers { OnOk result (numbers.new ≡ record numbers.old { definitions = numbers.old.definitions + 1 }) }
{
    let d = take_definition(numbers);
    names.declare(x, Entity::Definition(d, params as u32))
}

// Declares a datatype and its constants.
fn declare_datatype(
    names: &mut Dictionary,
    numbers: &mut Numbers,
    x: &Name,
    ks: &[Name],
) -> Made<()>
    requires definitions { numbers.old.definitions < MOST_BYTES }
    requires constants { numbers.old.constants + length ks.now ≤ MOST_BYTES }
    ensures names { OnOk result (SameFirsts names.new
        (names.old ++ (x.now, Entity.Set numbers.old.definitions) ∷ constants_from numbers.old.constants ks.now)) }
    ensures numbers { OnOk result (numbers.new ≡ record numbers.old {
      definitions = numbers.old.definitions + 1;
      constants = numbers.old.constants + length ks.now;
    }) }
{
    declare_set(names, numbers, x)?;
    declare_constants(names, numbers, ks)?;
    Ok(())
}

// Declares channels of so many fields.
fn declare_channels(
    names: &mut Dictionary,
    numbers: &mut Numbers,
    xs: &[Name],
    fields: u32,
) -> Made<()>
    requires { numbers.old.channels + length xs.now ≤ MOST_BYTES }
    ensures names { OnOk result (SameFirsts names.new (names.old ++ channels_from numbers.old.channels fields xs.now)) }
    ensures numbers { OnOk result (numbers.new
        ≡ record numbers.old { channels = numbers.old.channels + length xs.now }) }
{
    for x in xs {
        names.declare(x, Entity::Channel(numbers.channels, fields))?;
        numbers.channels += 1;
    }
    Ok(())
}

// Declares constants.
fn declare_constants(names: &mut Dictionary, numbers: &mut Numbers, xs: &[Name]) -> Made<()>
    requires { numbers.old.constants + length xs.now ≤ MOST_BYTES }
    ensures names { OnOk result (SameFirsts names.new (names.old ++ constants_from numbers.old.constants xs.now)) }
    ensures numbers { OnOk result (numbers.new
        ≡ record numbers.old { constants = numbers.old.constants + length xs.now }) }
{
    for x in xs {
        names.declare(x, Entity::Constant(numbers.constants))?;
        numbers.constants += 1;
    }
    Ok(())
}
