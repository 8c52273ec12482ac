//! Copies of trees, in memory of their own.

ghost use Rattle.std.specs.Prelude.{◌≡◌, IfOk};

use crate::expressions::{EventPart, Expr, Gen};
use crate::processes::{Field, Head};
use containers::{Boxed, Items};
use csp_atoms::Value;
use csp_base::{BinOp, Made, SetOp};
use std::alloc::Global;

/// The same value.
pub fn copy_value(alloc: Global, value: &Value) -> Made<Value>
    ensures { IfOk result (λ copy. copy ≡ value.now) }
{
    value.try_clone(alloc)
}

/// The same expression.
#[cycle(copy_expr)]
pub fn copy_expr(alloc: Global, expr: &Expr) -> Made<Expr>
    ensures { IfOk result (λ copy. copy ≡ expr.now) }
{
    match expr {
        Expr::Num(number) => Ok(Expr::Num(*number)),
        Expr::Truth(truth) => Ok(Expr::Truth(*truth)),
        Expr::Const(number) => Ok(Expr::Const(*number)),
        Expr::Bound(slot) => Ok(Expr::Bound(*slot)),
        Expr::Lit(value) => copy_value(alloc, value).map(Expr::Lit),
        Expr::Neg(a) => copy_boxed_expr(alloc, a.get()).map(Expr::Neg),
        Expr::Not(a) => copy_boxed_expr(alloc, a.get()).map(Expr::Not),
        Expr::Binary(op, a, b) => binary(alloc, *op, a, b),
        Expr::If(c, a, b) => choice(alloc, c, a, b),
        Expr::Call(def, args) => {
            copy_exprs(alloc, args.as_slice()).map(|args| Expr::Call(*def, args))
        }
        Expr::SetName(def) => Ok(Expr::SetName(*def)),
        Expr::Event(channel, fields) => {
            copy_exprs(alloc, fields.as_slice()).map(|fields| Expr::Event(*channel, fields))
        }
        Expr::Display(items) => copy_exprs(alloc, items.as_slice()).map(Expr::Display),
        Expr::Range(a, b) => range(alloc, a, b),
        Expr::Comp(items, gens) => comprehension(alloc, items, gens),
        Expr::Product(parts, gens) => product(alloc, parts, gens),
        Expr::SetOp(op, a, b) => set_operation(alloc, *op, a, b),
    }
}

// An operator between two operands.
#[cycle(copy_expr)]
fn binary(alloc: Global, op: BinOp, a: &Boxed<Expr>, b: &Boxed<Expr>) -> Made<Expr>
    ensures { IfOk result (λ copy. copy ≡ Expr.Binary op a.now b.now) }
{
    let a = copy_boxed_expr(alloc, a.get())?;
    let b = copy_boxed_expr(alloc, b.get())?;
    Ok(Expr::Binary(op, a, b))
}

// One of two expressions.
#[cycle(copy_expr)]
fn choice(alloc: Global, c: &Boxed<Expr>, a: &Boxed<Expr>, b: &Boxed<Expr>) -> Made<Expr>
    ensures { IfOk result (λ copy. copy ≡ Expr.If c.now a.now b.now) }
{
    let c = copy_boxed_expr(alloc, c.get())?;
    let a = copy_boxed_expr(alloc, a.get())?;
    let b = copy_boxed_expr(alloc, b.get())?;
    Ok(Expr::If(c, a, b))
}

// The set of the numbers from `a` to `b`.
#[cycle(copy_expr)]
fn range(alloc: Global, a: &Boxed<Expr>, b: &Boxed<Expr>) -> Made<Expr>
    ensures { IfOk result (λ copy. copy ≡ Expr.Range a.now b.now) }
{
    let a = copy_boxed_expr(alloc, a.get())?;
    let b = copy_boxed_expr(alloc, b.get())?;
    Ok(Expr::Range(a, b))
}

// An operator between two sets.
#[cycle(copy_expr)]
fn set_operation(alloc: Global, op: SetOp, a: &Boxed<Expr>, b: &Boxed<Expr>) -> Made<Expr>
    ensures { IfOk result (λ copy. copy ≡ Expr.SetOp op a.now b.now) }
{
    let a = copy_boxed_expr(alloc, a.get())?;
    let b = copy_boxed_expr(alloc, b.get())?;
    Ok(Expr::SetOp(op, a, b))
}

// The set of some expressions under generators.
#[cycle(copy_expr)]
fn comprehension(alloc: Global, items: &Items<Expr>, gens: &Items<Gen>) -> Made<Expr>
    ensures { IfOk result (λ copy. copy ≡ Expr.Comp items.now gens.now) }
{
    let items = copy_exprs(alloc, items.as_slice())?;
    let gens = copy_gens(alloc, gens.as_slice())?;
    Ok(Expr::Comp(items, gens))
}

// The set of the events that begin with some fronts, under generators.
#[cycle(copy_expr)]
fn product(alloc: Global, parts: &Items<EventPart>, gens: &Items<Gen>) -> Made<Expr>
    ensures { IfOk result (λ copy. copy ≡ Expr.Product parts.now gens.now) }
{
    let parts = copy_parts(alloc, parts.as_slice())?;
    let gens = copy_gens(alloc, gens.as_slice())?;
    Ok(Expr::Product(parts, gens))
}

/// The same expression, on the heap.
#[cycle(copy_expr)]
pub fn copy_boxed_expr(alloc: Global, expr: &Expr) -> Made<Boxed<Expr>>
    ensures { IfOk result (λ copy. copy ≡ expr.now) }
{
    copy_expr(alloc, expr).and_then(|copy| Boxed::new(alloc, copy))
}

/// The same expressions.
#[cycle(copy_expr)]
pub fn copy_exprs(alloc: Global, exprs: &[Expr]) -> Made<Items<Expr>>
    ensures { IfOk result (λ copies. copies ≡ exprs.now) }
{
    let mut copies = Items::new(alloc);
    for expr in exprs {
        copies.push_made(copy_expr(alloc, expr))?;
    }
    Ok(copies)
}

/// The same generator.
#[cycle(copy_expr)]
pub fn copy_gen(alloc: Global, generator: &Gen) -> Made<Gen>
    ensures { IfOk result (λ copy. copy ≡ generator.now) }
{
    match generator {
        Gen::From(slot, set) => copy_expr(alloc, set).map(|set| Gen::From(*slot, set)),
        Gen::Cond(condition) => copy_expr(alloc, condition).map(Gen::Cond),
    }
}

/// The same generators.
#[cycle(copy_expr)]
pub fn copy_gens(alloc: Global, gens: &[Gen]) -> Made<Items<Gen>>
    ensures { IfOk result (λ copies. copies ≡ gens.now) }
{
    let mut copies = Items::new(alloc);
    for generator in gens {
        copies.push_made(copy_gen(alloc, generator))?;
    }
    Ok(copies)
}

/// The same front of an event.
#[cycle(copy_expr)]
pub fn copy_part(alloc: Global, part: &EventPart) -> Made<EventPart>
    ensures { IfOk result (λ copy. copy ≡ part.now) }
{
    copy_exprs(alloc, part.fields.as_slice()).map(|fields| EventPart {
        channel: part.channel,
        fields,
    })
}

/// The same fronts of events.
#[cycle(copy_expr)]
pub fn copy_parts(alloc: Global, parts: &[EventPart]) -> Made<Items<EventPart>>
    ensures { IfOk result (λ copies. copies ≡ parts.now) }
{
    let mut copies = Items::new(alloc);
    for part in parts {
        copies.push_made(copy_part(alloc, part))?;
    }
    Ok(copies)
}

/// The same head.
pub fn copy_head(alloc: Global, head: &Head) -> Made<Head>
    ensures { IfOk result (λ copy. copy ≡ head.now) }
{
    match head {
        Head::Channel(channel) => Ok(Head::Channel(*channel)),
        Head::Bound(slot) => Ok(Head::Bound(*slot)),
        Head::Put(value) => copy_value(alloc, value).map(Head::Put),
    }
}

/// The same field.
pub fn copy_field(alloc: Global, field: &Field) -> Made<Field>
    ensures { IfOk result (λ copy. copy ≡ field.now) }
{
    match field {
        Field::Put(expr) => copy_expr(alloc, expr).map(Field::Put),
        Field::Get(slot, None) => Ok(Field::Get(*slot, None)),
        Field::Get(slot, Some(set)) => {
            copy_expr(alloc, set).map(|set| Field::Get(*slot, Some(set)))
        }
    }
}

/// The same fields.
pub fn copy_fields(alloc: Global, fields: &[Field]) -> Made<Items<Field>>
    ensures { IfOk result (λ copies. copies ≡ fields.now) }
{
    let mut copies = Items::new(alloc);
    for field in fields {
        copies.push_made(copy_field(alloc, field))?;
    }
    Ok(copies)
}

/// The same pair of a renaming.
pub fn copy_pair(alloc: Global, pair: &(EventPart, EventPart)) -> Made<(EventPart, EventPart)>
    ensures { IfOk result (λ copy. copy ≡ pair.now) }
{
    let old = copy_part(alloc, &pair.0)?;
    let new = copy_part(alloc, &pair.1)?;
    Ok((old, new))
}

/// The same pairs of a renaming.
pub fn copy_pairs(
    alloc: Global,
    pairs: &[(EventPart, EventPart)],
) -> Made<Items<(EventPart, EventPart)>>
    ensures { IfOk result (λ copies. copies ≡ pairs.now) }
{
    let mut copies = Items::new(alloc);
    for pair in pairs {
        copies.push_made(copy_pair(alloc, pair))?;
    }
    Ok(copies)
}
