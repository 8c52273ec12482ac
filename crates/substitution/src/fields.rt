//! Values in place of names in what a prefix and a renaming hold.

ghost use Rattle.std.specs.Prelude.{◌≡◌, false, map, IfOk, OnOk};
ghost use Rattle.csp_program.specs.Substitution.{after, after_all, field_with, fields_with, gens_with, given_by, head_named, head_with, pair_with, past};

use crate::expressions::{pass, put_expr, replace_gens, replace_part};
use crate::values::Values;
use containers::Items;
use csp_base::Made;
use csp_program::copies::copy_value;
use csp_program::{EventPart, Expr, Field, Gen, Head};

// The head that is a bound name.
fn replace_head_name(name: u32, values: &Values<'_>) -> Made<Head>
    ensures { IfOk result (λ made. made ≡ head_named name (given_by values.now name)) }
{
    match values.find(name)? {
        Some(value) => Ok(Head::Put(value)),
        None => Ok(Head::Bound(name)),
    }
}

/// The head with the value of the bound name in its place, if it is one that gets a value.
pub fn put_head(head: &Head, values: &Values<'_>) -> Made<Head>
    ensures { IfOk result (λ made. made ≡ head_with (given_by values.now) head.now) }
{
    match head {
        Head::Channel(channel) => Ok(Head::Channel(*channel)),
        Head::Bound(name) => replace_head_name(*name, values),
        Head::Put(kept) => copy_value(values.alloc(), kept).map(Head::Put),
    }
}

// Whether the field binds one of the names.
fn field_binds(field: &Field, values: &Values<'_>) -> bool
    ensures { result ≡ false → after field.now (given_by values.now) ≡ given_by values.now }
{
    match field {
        Field::Put(_) => false,
        Field::Get(name, _) => values.has(*name),
    }
}

/// Whether one of the fields binds one of the names.
pub fn any_field_binds(fields: &[Field], values: &Values<'_>) -> bool
    ensures { result ≡ false → after_all fields.now (given_by values.now) ≡ given_by values.now }
{
    for field in fields {
        if field_binds(field, values) {
            return true;
        }
    }
    false
}

// Takes the value of the name away that the field binds.
fn pass_field(values: &mut Values<'_>, field: &Field) -> Made<()>
    ensures { OnOk result (given_by values.new ≡ after field.now (given_by values.old)) }
{
    match field {
        Field::Put(_) => Ok(()),
        Field::Get(name, _) => values.hide(*name),
    }
}

/// Takes the values of the names away that the fields bind.
pub fn pass_fields(values: &mut Values<'_>, fields: &[Field]) -> Made<()>
    ensures { OnOk result (given_by values.new ≡ after_all fields.now (given_by values.old)) }
{
    for field in fields {
        pass_field(values, field)?;
    }
    Ok(())
}

// An input.
fn replace_input(name: u32, set: &Option<Expr>, values: &Values<'_>) -> Made<Field>
    ensures { IfOk result (λ made. made ≡ field_with (given_by values.now) (Field.Get name set.now)) }
{
    match set {
        Some(set) => put_expr(set, values).map(|set| Field::Get(name, Some(set))),
        None => Ok(Field::Get(name, None)),
    }
}

fn replace_field(field: &Field, values: &Values<'_>) -> Made<Field>
    ensures { IfOk result (λ made. made ≡ field_with (given_by values.now) field.now) }
{
    match field {
        Field::Put(expr) => put_expr(expr, values).map(Field::Put),
        Field::Get(name, set) => replace_input(*name, set, values),
    }
}

/// The fields of a prefix, each with the values of the names that those before it don't bind. The values that are left are those of the names that none
/// of them binds.
pub(crate) fn replace_fields(fields: &[Field], values: &mut Values<'_>) -> Made<Items<Field>>
    ensures made { IfOk result (λ made. made ≡ fields_with (given_by values.old) fields.now) }
    ensures left { OnOk result (given_by values.new ≡ after_all fields.now (given_by values.old)) }
{
    let mut made = Items::new(values.alloc());
    for field in fields {
        made.push_made(replace_field(field, values))?;
        pass_field(values, field)?;
    }
    Ok(made)
}

fn replace_pair(pair: &(EventPart, EventPart), values: &Values<'_>) -> Made<(EventPart, EventPart)>
    ensures { IfOk result (λ made. made ≡ pair_with (given_by values.now) pair.now) }
{
    let old = replace_part(&pair.0, values)?;
    let new = replace_part(&pair.1, values)?;
    Ok((old, new))
}

// The pairs of a renaming.
fn replace_pairs(
    pairs: &[(EventPart, EventPart)],
    values: &Values<'_>,
) -> Made<Items<(EventPart, EventPart)>>
    ensures { IfOk result (λ made. made ≡ map (pair_with (given_by values.now)) pairs.now) }
{
    let mut made = Items::new(values.alloc());
    for pair in pairs {
        made.push_made(replace_pair(pair, values))?;
    }
    Ok(made)
}

// Takes the values of the names away that the generators bind.
fn pass_gens(values: &mut Values<'_>, gens: &[Gen]) -> Made<()>
    ensures { OnOk result (given_by values.new ≡ past gens.now (given_by values.old)) }
{
    for generator in gens {
        pass(values, generator)?;
    }
    Ok(())
}

/// The fields of a prefix, each with the values of the names that those before it don't bind.
pub fn put_fields(fields: &[Field], values: &Values<'_>) -> Made<Items<Field>>
    ensures { IfOk result (λ made. made ≡ fields_with (given_by values.now) fields.now) }
{
    let mut left = values.copy()?;
    let made = replace_fields(fields, &mut left)?;
    Ok(made)
}

/// Generators, each with the values of the names that those before it don't bind.
pub fn put_gens(gens: &[Gen], values: &Values<'_>) -> Made<Items<Gen>>
    ensures { IfOk result (λ made. made ≡ gens_with (given_by values.now) gens.now) }
{
    let mut left = values.copy()?;
    let made = replace_gens(gens, &mut left)?;
    Ok(made)
}

/// The pairs of a renaming with these generators, with the values of the names that no generator binds.
pub fn put_pairs(
    pairs: &[(EventPart, EventPart)],
    gens: &[Gen],
    values: &Values<'_>,
) -> Made<Items<(EventPart, EventPart)>>
    ensures { IfOk result (λ made. made ≡ map (pair_with (past gens.now (given_by values.now))) pairs.now) }
{
    let mut left = values.copy()?;
    pass_gens(&mut left, gens)?;
    replace_pairs(pairs, &left)
}
