//! What expressions and processes measure.

ghost use Rattle.std.specs.Prelude.{◌≡◌, ◌+◌, [], ◌∷◌, max, map};
ghost use Rattle.csp_program.specs.Prelude.{expr_depth, gen_depth, part_depth, pair_depth, field_depth, any_of, before, either, expr_free, gen_binding, head_free, nowhere, pair_free, part_free, under, elements_of, expr_size, gen_size, part_size, pair_size, field_size};
ghost use Rattle.pool_parts.specs.Prelude.{capped, IsLow};
ghost use Rattle.csp_base.specs.Lists.{greatest, total};

use crate::measure::{Measure, elements, item, join, leaf, name, node};
use containers::{Boxed, Items};
use csp_program::{EventPart, Expr, Field, Gen, Head, Value};

// The elements of the sets of a value.
fn of_value(value: &Value) -> Measure
    ensures depth { result.depth ≡ 0 }
    ensures size { result.size ≡ capped (elements_of value.now) }
    ensures low { IsLow result.least nowhere }
{
    match value {
        Value::One(_) => leaf(),
        Value::Many(atoms) => elements(atoms.len()),
    }
}

/// What an expression measures.
#[cycle(of_expr)]
pub fn of_expr(expr: &Expr) -> Measure
    ensures depth { result.depth ≡ capped (expr_depth expr.now) }
    ensures size { result.size ≡ capped (expr_size expr.now) }
    ensures low { IsLow result.least (expr_free expr.now) }
{
    node(of_parts_of_expr(expr))
}

// What the parts of an expression measure together.
#[cycle(of_expr)]
#[tactic(auto, using(csp_program::specs::declared::expressions::Expr::the_lemmas))]
fn of_parts_of_expr(expr: &Expr) -> Measure
    ensures depth { capped (1 + result.depth) ≡ capped (expr_depth expr.now) }
    ensures size { capped (1 + result.size) ≡ capped (expr_size expr.now) }
    ensures low { IsLow result.least (expr_free expr.now) }
{
    match expr {
        Expr::Num(_) => leaf(),
        Expr::Truth(_) => leaf(),
        Expr::Const(_) => leaf(),
        Expr::Bound(number) => name(*number),
        Expr::Lit(value) => of_value(value),
        Expr::Neg(a) => of_expr(a.get()),
        Expr::Not(a) => of_expr(a.get()),
        Expr::Binary(_, a, b) => of_both(a, b),
        Expr::If(c, a, b) => join(of_expr(c.get()), of_both(a, b)),
        Expr::Call(_, args) => of_exprs(args.as_slice()),
        Expr::SetName(_) => leaf(),
        Expr::Event(_, fields) => of_exprs(fields.as_slice()),
        Expr::Display(items) => of_exprs(items.as_slice()),
        Expr::Range(a, b) => of_both(a, b),
        Expr::Comp(items, gens) => of_comprehension(items, gens),
        Expr::Product(parts, gens) => of_production(parts, gens),
        Expr::SetOp(_, a, b) => of_both(a, b),
    }
}

// What two expressions measure together.
#[cycle(of_expr)]
fn of_both(a: &Boxed<Expr>, b: &Boxed<Expr>) -> Measure
    ensures depth { result.depth ≡ capped (max (expr_depth a.now) (expr_depth b.now)) }
    ensures size { result.size ≡ capped (expr_size a.now + expr_size b.now) }
    ensures low { IsLow result.least (either (expr_free a.now) (expr_free b.now)) }
{
    join(of_expr(a.get()), of_expr(b.get()))
}

// What the parts of a comprehension measure together.
#[cycle(of_expr)]
fn of_comprehension(items: &Items<Expr>, gens: &Items<Gen>) -> Measure
    ensures depth { result.depth
        ≡ capped (max (greatest (map expr_depth items.now)) (greatest (map gen_depth gens.now))) }
    ensures size { result.size ≡ capped (total (map expr_size items.now) + total (map gen_size gens.now)) }
    ensures low { IsLow result.least (under (map gen_binding gens.now) (any_of (map expr_free items.now))) }
{
    join(of_exprs(items.as_slice()), of_gens(gens.as_slice()))
}

// What the parts of a production measure together.
#[cycle(of_expr)]
fn of_production(parts: &Items<EventPart>, gens: &Items<Gen>) -> Measure
    ensures depth { result.depth
        ≡ capped (max (greatest (map part_depth parts.now)) (greatest (map gen_depth gens.now))) }
    ensures size { result.size ≡ capped (total (map part_size parts.now) + total (map gen_size gens.now)) }
    ensures low { IsLow result.least (under (map gen_binding gens.now) (any_of (map part_free parts.now))) }
{
    join(of_parts(parts.as_slice()), of_gens(gens.as_slice()))
}

/// What expressions measure together.
#[cycle(of_expr)]
pub fn of_exprs(exprs: &[Expr]) -> Measure
    ensures depth { result.depth ≡ capped (greatest (map expr_depth exprs.now)) }
    ensures size { result.size ≡ capped (total (map expr_size exprs.now)) }
    ensures low { IsLow result.least (any_of (map expr_free exprs.now)) }
{
    let mut all = leaf();
    for expr in exprs {
        all = join(all, of_expr(expr));
    }
    all
}

#[cycle(of_expr)]
#[tactic(auto, using(csp_program::specs::declared::expressions::Gen::the_lemmas))]
fn of_gen(generator: &Gen) -> Measure
    ensures depth { result.depth ≡ capped (gen_depth generator.now) }
    ensures size { result.size ≡ capped (gen_size generator.now) }
    ensures low { IsLow result.least ((gen_binding generator.now).0) }
{
    match generator {
        Gen::From(_, set) => item(of_expr(set)),
        Gen::Cond(condition) => item(of_expr(condition)),
    }
}

/// What generators measure together.
#[cycle(of_expr)]
pub fn of_gens(gens: &[Gen]) -> Measure
    ensures depth { result.depth ≡ capped (greatest (map gen_depth gens.now)) }
    ensures size { result.size ≡ capped (total (map gen_size gens.now)) }
    ensures low { IsLow result.least (under (map gen_binding gens.now) nowhere) }
{
    let mut all = leaf();
    for generator in gens {
        all = join(all, of_gen(generator));
    }
    all
}

#[cycle(of_expr)]
#[tactic(auto, using(csp_program::specs::declared::expressions::EventPart::the_lemmas))]
fn of_part(part: &EventPart) -> Measure
    ensures depth { result.depth ≡ capped (part_depth part.now) }
    ensures size { result.size ≡ capped (part_size part.now) }
    ensures low { IsLow result.least (part_free part.now) }
{
    of_exprs(part.fields.as_slice())
}

#[cycle(of_expr)]
fn of_parts(parts: &[EventPart]) -> Measure
    ensures depth { result.depth ≡ capped (greatest (map part_depth parts.now)) }
    ensures size { result.size ≡ capped (total (map part_size parts.now)) }
    ensures low { IsLow result.least (any_of (map part_free parts.now)) }
{
    let mut all = leaf();
    for part in parts {
        all = join(all, of_part(part));
    }
    all
}

fn of_field(field: &Field) -> Measure
    ensures depth { result.depth ≡ capped (field_depth field.now) }
    ensures size { result.size ≡ capped (field_size field.now) }
    ensures low { IsLow result.least (before (field.now ∷ []) nowhere) }
{
    match field {
        Field::Put(expr) => item(of_expr(expr)),
        Field::Get(_, None) => item(leaf()),
        Field::Get(_, Some(set)) => item(of_expr(set)),
    }
}

/// What the fields of a prefix measure together.
pub fn of_fields(fields: &[Field]) -> Measure
    ensures depth { result.depth ≡ capped (greatest (map field_depth fields.now)) }
    ensures size { result.size ≡ capped (total (map field_size fields.now)) }
    ensures low { IsLow result.least (before fields.now nowhere) }
{
    let mut all = leaf();
    for field in fields {
        all = join(all, of_field(field));
    }
    all
}

fn of_pair(pair: &(EventPart, EventPart)) -> Measure
    ensures depth { result.depth ≡ capped (pair_depth pair.now) }
    ensures size { result.size ≡ capped (pair_size pair.now) }
    ensures low { IsLow result.least (pair_free pair.now) }
{
    item(join(of_part(&pair.0), of_part(&pair.1)))
}

/// What the pairs of a renaming measure together.
pub fn of_pairs(pairs: &[(EventPart, EventPart)]) -> Measure
    ensures depth { result.depth ≡ capped (greatest (map pair_depth pairs.now)) }
    ensures size { result.size ≡ capped (total (map pair_size pairs.now)) }
    ensures low { IsLow result.least (any_of (map pair_free pairs.now)) }
{
    let mut all = leaf();
    for pair in pairs {
        all = join(all, of_pair(pair));
    }
    all
}

/// What a head measures: it counts leaf.
pub fn of_head(head: &Head) -> Measure
    ensures depth { result.depth ≡ 0 }
    ensures size { result.size ≡ 0 }
    ensures low { IsLow result.least (head_free head.now) }
{
    match head {
        Head::Channel(_) => leaf(),
        Head::Bound(number) => name(*number),
        Head::Put(_) => leaf(),
    }
}
