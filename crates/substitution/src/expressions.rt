//! Values in place of names in expressions.

ghost use Rattle.std.specs.Prelude.{◌≡◌, map, IfOk, OnOk};
ghost use Rattle.csp_program.specs.Substitution.{expr_with, gens_with, given_by, named, open_gen, part_with, past};

use crate::values::Values;
use containers::{Boxed, Items};
use csp_base::Made;
use csp_program::copies::copy_value;
use csp_program::{EventPart, Expr, Gen};

// The use of a bound name.
fn replace_name(name: u32, values: &Values<'_>) -> Made<Expr>
    ensures { IfOk result (λ made. made ≡ named name (given_by values.now name)) }
{
    match values.find(name)? {
        Some(value) => Ok(Expr::Lit(value)),
        None => Ok(Expr::Bound(name)),
    }
}

/// Takes the value of the name away that the generator binds.
pub(crate) fn pass(values: &mut Values<'_>, generator: &Gen) -> Made<()>
    ensures { OnOk result (given_by values.new ≡ (open_gen generator.now).1 (given_by values.old)) }
{
    match generator {
        Gen::From(name, _) => values.hide(*name),
        Gen::Cond(_) => Ok(()),
    }
}

/// The expression with the values in place of the names, wherever these are free.
#[tactic(auto, using(crate::proofs::Forms::expr_out, csp_program::specs::declared::expressions::Expr::the_lemmas))]
#[cycle(put_expr)]
pub fn put_expr(expr: &Expr, values: &Values<'_>) -> Made<Expr>
    ensures { IfOk result (λ made. made ≡ expr_with (given_by values.now) expr.now) }
{
    match expr {
        Expr::Num(number) => Ok(Expr::Num(*number)),
        Expr::Truth(truth) => Ok(Expr::Truth(*truth)),
        Expr::Const(number) => Ok(Expr::Const(*number)),
        Expr::Bound(other) => replace_name(*other, values),
        Expr::Lit(kept) => copy_value(values.alloc(), kept).map(Expr::Lit),
        Expr::Neg(a) => replace_boxed_expr(a, values).map(Expr::Neg),
        Expr::Not(a) => replace_boxed_expr(a, values).map(Expr::Not),
        Expr::Binary(op, a, b) => {
            replace_two(a, b, values).map(|(a, b)| Expr::Binary(*op, a, b))
        }
        Expr::If(c, a, b) => choice(c, a, b, values),
        Expr::Call(def, args) => {
            let args = put_exprs(args.as_slice(), values);
            args.map(|args| Expr::Call(*def, args))
        }
        Expr::SetName(def) => Ok(Expr::SetName(*def)),
        Expr::Event(channel, fields) => {
            let fields = put_exprs(fields.as_slice(), values);
            fields.map(|fields| Expr::Event(*channel, fields))
        }
        Expr::Display(items) => { put_exprs(items.as_slice(), values).map(Expr::Display) }
        Expr::Range(a, b) => replace_two(a, b, values).map(|(a, b)| Expr::Range(a, b)),
        Expr::Comp(items, gens) => comprehension(items, gens, values),
        Expr::Product(parts, gens) => product(parts, gens, values),
        Expr::SetOp(op, a, b) => { replace_two(a, b, values).map(|(a, b)| Expr::SetOp(*op, a, b)) }
    }
}

// One of two expressions.
#[cycle(put_expr)]
fn choice(c: &Boxed<Expr>, a: &Boxed<Expr>, b: &Boxed<Expr>, values: &Values<'_>) -> Made<Expr>
    ensures { IfOk result (λ made. made ≡ Expr.If (expr_with (given_by values.now) c.now)
        (expr_with (given_by values.now) a.now) (expr_with (given_by values.now) b.now)) }
{
    let c = replace_boxed_expr(c, values)?;
    let (a, b) = replace_two(a, b, values)?;
    Ok(Expr::If(c, a, b))
}

// The set of some expressions under generators.
#[cycle(put_expr)]
fn comprehension(items: &Items<Expr>, gens: &Items<Gen>, values: &Values<'_>) -> Made<Expr>
    ensures { IfOk result (λ made. made ≡ Expr.Comp (map (expr_with (past gens.now (given_by values.now))) items.now)
        (gens_with (given_by values.now) gens.now)) }
{
    let mut here = values.copy()?;
    let gens = replace_gens(gens.as_slice(), &mut here)?;
    let items = put_exprs(items.as_slice(), &here)?;
    Ok(Expr::Comp(items, gens))
}

// The set of the events that begin with some fronts, under generators.
#[cycle(put_expr)]
fn product(parts: &Items<EventPart>, gens: &Items<Gen>, values: &Values<'_>) -> Made<Expr>
    ensures { IfOk result (λ made. made ≡ Expr.Product
        (map (part_with (past gens.now (given_by values.now))) parts.now) (gens_with (given_by values.now) gens.now)) }
{
    let mut here = values.copy()?;
    let gens = replace_gens(gens.as_slice(), &mut here)?;
    let parts = replace_parts(parts.as_slice(), &here)?;
    Ok(Expr::Product(parts, gens))
}

// An expression on the heap.
#[cycle(put_expr)]
fn replace_boxed_expr(expr: &Boxed<Expr>, values: &Values<'_>) -> Made<Boxed<Expr>>
    ensures { IfOk result (λ made. made ≡ expr_with (given_by values.now) expr.now) }
{
    let alloc = values.alloc();
    put_expr(expr.get(), values).and_then(|expr| Boxed::new(alloc, expr))
}

// Two expressions on the heap.
#[cycle(put_expr)]
fn replace_two(
    a: &Boxed<Expr>,
    b: &Boxed<Expr>,
    values: &Values<'_>,
) -> Made<(Boxed<Expr>, Boxed<Expr>)>
    ensures { IfOk result (λ made. (made.0 ≡ expr_with (given_by values.now) a.now)
        × (made.1 ≡ expr_with (given_by values.now) b.now)) }
{
    let a = replace_boxed_expr(a, values)?;
    let b = replace_boxed_expr(b, values)?;
    Ok((a, b))
}

/// The expressions with the values in place of the names in each of them.
#[cycle(put_expr)]
pub fn put_exprs(exprs: &[Expr], values: &Values<'_>) -> Made<Items<Expr>>
    ensures { IfOk result (λ made. made ≡ map (expr_with (given_by values.now)) exprs.now) }
{
    let mut made = Items::new(values.alloc());
    for expr in exprs {
        made.push_made(put_expr(expr, values))?;
    }
    Ok(made)
}

#[tactic(auto, using(crate::proofs::Forms::gen_forms))]
#[cycle(put_expr)]
fn replace_gen(generator: &Gen, values: &Values<'_>) -> Made<Gen>
    ensures { IfOk result (λ made. made ≡ (open_gen generator.now).0 (given_by values.now)) }
{
    match generator {
        Gen::From(name, set) => { put_expr(set, values).map(|set| Gen::From(*name, set)) }
        Gen::Cond(condition) => put_expr(condition, values).map(Gen::Cond),
    }
}

/// Generators, each with the values of the names that those before it don't bind. The values that are left are those of the names that none of them binds.
#[cycle(put_expr)]
pub(crate) fn replace_gens(gens: &[Gen], values: &mut Values<'_>) -> Made<Items<Gen>>
    ensures made { IfOk result (λ made. made ≡ gens_with (given_by values.old) gens.now) }
    ensures left { OnOk result (given_by values.new ≡ past gens.now (given_by values.old)) }
{
    let mut made = Items::new(values.alloc());
    for generator in gens {
        made.push_made(replace_gen(generator, values))?;
        pass(values, generator)?;
    }
    Ok(made)
}

#[tactic(auto, using(crate::proofs::Forms::part_forms))]
#[cycle(put_expr)]
pub(crate) fn replace_part(part: &EventPart, values: &Values<'_>) -> Made<EventPart>
    ensures { IfOk result (λ made. made ≡ part_with (given_by values.now) part.now) }
{
    let fields = put_exprs(part.fields.as_slice(), values)?;
    Ok(EventPart {
        channel: part.channel,
        fields,
    })
}

// The fronts of events.
#[cycle(put_expr)]
fn replace_parts(parts: &[EventPart], values: &Values<'_>) -> Made<Items<EventPart>>
    ensures { IfOk result (λ made. made ≡ map (part_with (given_by values.now)) parts.now) }
{
    let mut made = Items::new(values.alloc());
    for part in parts {
        made.push_made(replace_part(part, values))?;
    }
    Ok(made)
}
