//! Whether an expression may read a name that generators bind. Where it does not, it is worth the same under each of their bindings.

ghost use Rattle.std.specs.Prelude.{◌≡◌, false};
ghost use Rattle.std.specs.List.{All};
ghost use Rattle.csp_program.specs.declared.expressions.Expr.TheViews.{out-Gen};
ghost use Rattle.csp_values.specs.Stays.{PartStays, Stays, bind, binds_of_layer};

use csp_program::{EventPart, Expr, Gen};

// So many expressions are looked at; what has more counts as reading a name.
const MOST_LOOKS: usize = 1024;

// Whether the generator binds the name.
#[tactic(auto, using(csp_program::specs::declared::expressions::Gen::the_lemmas))]
fn is_bound_by(generator: &Gen, name: u32) -> bool
    ensures { result ≡ binds_of_layer (out-Gen generator.now) name }
{
    match generator {
        Gen::From(other, _) => *other == name,
        Gen::Cond(_) => false,
    }
}

// Whether one of the generators binds the name.
fn is_bound(gens: &[Gen], name: u32) -> bool
    ensures { result ≡ bind gens.now name }
{
    for generator in gens {
        if is_bound_by(generator, name) {
            return true;
        }
    }
    false
}

// Whether a name is bound by one of the generators, where so many of them may still be looked at.
fn name_reads(name: u32, gens: &[Gen], left: &mut usize) -> bool
    ensures { result ≡ false → bind gens.now name ≡ false }
{
    if *left < gens.len() {
        return true;
    }
    *left -= gens.len();
    is_bound(gens, name)
}

// Whether an expression may read a name that one of the generators binds, where so many expressions may still be looked at. A comprehension counts
// as one that reads a name.
#[cycle(reads)]
#[tactic(auto, using(crate::proofs::Stays::forms_stay))]
fn reads(expr: &Expr, gens: &[Gen], left: &mut usize) -> bool
    ensures { result ≡ false → Stays gens.now expr.now }
{
    if *left == 0 {
        return true;
    }
    *left -= 1;
    match expr {
        Expr::Num(_) | Expr::Truth(_) | Expr::Const(_) | Expr::Lit(_) | Expr::SetName(_) => false,
        Expr::Bound(name) => name_reads(*name, gens, left),
        Expr::Neg(a) | Expr::Not(a) => reads(a.get(), gens, left),
        Expr::If(c, a, b) => {
            if reads(c.get(), gens, left) || reads(a.get(), gens, left) {
                return true;
            }
            reads(b.get(), gens, left)
        }
        Expr::Call(_, parts) | Expr::Event(_, parts) | Expr::Display(parts) => {
            any_reads(parts.as_slice(), gens, left)
        }
        Expr::Comp(_, _) | Expr::Product(_, _) => true,
        Expr::Binary(_, a, b) | Expr::Range(a, b) | Expr::SetOp(_, a, b) => {
            if reads(a.get(), gens, left) {
                return true;
            }
            reads(b.get(), gens, left)
        }
    }
}

// Whether one of some expressions may read such a name.
#[cycle(reads)]
fn any_reads(exprs: &[Expr], gens: &[Gen], left: &mut usize) -> bool
    ensures { result ≡ false → All (Stays gens.now) exprs.now }
{
    for expr in exprs {
        if reads(expr, gens, left) {
            return true;
        }
    }
    false
}

// Whether one of the fields of some events may read such a name.
fn any_part_reads(parts: &[EventPart], gens: &[Gen], left: &mut usize) -> bool
    ensures { result ≡ false → All (PartStays gens.now) parts.now }
{
    for part in parts {
        if any_reads(part.fields.as_slice(), gens, left) {
            return true;
        }
    }
    false
}

/// Whether one of some expressions, or of the fields of some events, may read a name that one of the generators binds. Without a generator, it may.
pub(crate) fn may_read(items: &[Expr], parts: &[EventPart], gens: &[Gen]) -> bool
    ensures items { result ≡ false → All (Stays gens.now) items.now }
    ensures parts { result ≡ false → All (PartStays gens.now) parts.now }
{
    let mut left = MOST_LOOKS;
    if gens.is_empty() {
        return true;
    }
    if any_reads(items, gens, &mut left) {
        return true;
    }
    any_part_reads(parts, gens, &mut left)
}
