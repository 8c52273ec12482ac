//! Values in place of names in processes.

ghost use Rattle.std.specs.Prelude.{◌≡◌, map, IfOk};
ghost use Rattle.csp_program.specs.Substitution.{after_all, expr_with, fields_with, gens_with, given_by, head_with, pair_with, past, proc_with, without};

use crate::expressions::{put_expr, put_exprs};
use crate::fields::{put_gens, put_head, put_pairs, replace_fields};
use crate::values::Values;
use containers::{Boxed, Items};
use csp_base::Made;
use csp_program::{EventPart, Expr, Field, Gen, Head, Proc};

/// The process with the values in place of the names, wherever these are free.
#[tactic(auto, using(crate::proofs::Forms::proc_out, csp_program::specs::declared::processes::Proc::the_lemmas))]
#[cycle(put_proc)]
pub fn put_proc(proc: &Proc, values: &Values<'_>) -> Made<Proc>
    ensures { IfOk result (λ made. made ≡ proc_with (given_by values.now) proc.now) }
{
    match proc {
        Proc::Stop => Ok(Proc::Stop),
        Proc::Prefix(head, fields, p) => prefix(head, fields, p, values),
        Proc::Guard(c, p) => guard(c, p, values),
        Proc::If(c, p, q) => choice(c, p, q, values),
        Proc::External(procs) => { put_procs(procs.as_slice(), values).map(Proc::External) }
        Proc::Internal(procs) => { put_procs(procs.as_slice(), values).map(Proc::Internal) }
        Proc::EachExternal(name, set, p) => {
            let parts = replication(*name, set, p, values);
            parts.map(|(set, p)| Proc::EachExternal(*name, set, p))
        }
        Proc::EachInternal(name, set, p) => {
            let parts = replication(*name, set, p, values);
            parts.map(|(set, p)| Proc::EachInternal(*name, set, p))
        }
        Proc::Hide(p, set) => hiding(p, set, values),
        Proc::Rename(p, pairs, gens) => renaming(p, pairs, gens, values),
        Proc::Call(def, args) => {
            let args = put_exprs(args.as_slice(), values);
            args.map(|args| Proc::Call(*def, args))
        }
        Proc::Skip => Ok(Proc::Skip),
        Proc::Seq(p, q) => replace_two(p, q, values).map(|(p, q)| Proc::Seq(p, q)),
        Proc::Ended => Ok(Proc::Ended),
    }
}

// A prefix.
#[cycle(put_proc)]
fn prefix(head: &Head, fields: &Items<Field>, p: &Boxed<Proc>, values: &Values<'_>) -> Made<Proc>
    ensures { IfOk result (λ made. made ≡ Proc.Prefix (head_with (given_by values.now) head.now)
        (fields_with (given_by values.now) fields.now) (proc_with (after_all fields.now (given_by values.now)) p.now)) }
{
    let (fields, p) = replace_after(fields, p, values)?;
    put_head(head, values).map(|head| Proc::Prefix(head, fields, p))
}

// The fields of a prefix, and the process after them.
#[cycle(put_proc)]
fn replace_after(
    fields: &Items<Field>,
    p: &Boxed<Proc>,
    values: &Values<'_>,
) -> Made<(Items<Field>, Boxed<Proc>)>
    ensures fields { IfOk result (λ made. made.0 ≡ fields_with (given_by values.now) fields.now) }
    ensures process { IfOk result (λ made. made.1 ≡ proc_with (after_all fields.now (given_by values.now)) p.now) }
{
    let mut here = values.copy()?;
    let fields = replace_fields(fields.as_slice(), &mut here)?;
    let p = replace_boxed_proc(p, &here)?;
    Ok((fields, p))
}

// A process under a condition.
#[cycle(put_proc)]
fn guard(c: &Expr, p: &Boxed<Proc>, values: &Values<'_>) -> Made<Proc>
    ensures { IfOk result (λ made. made ≡ Proc.Guard (expr_with (given_by values.now) c.now)
        (proc_with (given_by values.now) p.now)) }
{
    let p = replace_boxed_proc(p, values)?;
    put_expr(c, values).map(|c| Proc::Guard(c, p))
}

// One of two processes.
#[cycle(put_proc)]
fn choice(c: &Expr, p: &Boxed<Proc>, q: &Boxed<Proc>, values: &Values<'_>) -> Made<Proc>
    ensures { IfOk result (λ made. made ≡ Proc.If (expr_with (given_by values.now) c.now)
        (proc_with (given_by values.now) p.now) (proc_with (given_by values.now) q.now)) }
{
    let (p, q) = replace_two(p, q, values)?;
    put_expr(c, values).map(|c| Proc::If(c, p, q))
}

// The set and the process of a choice over the values of the set.
#[cycle(put_proc)]
fn replication(
    name: u32,
    set: &Expr,
    p: &Boxed<Proc>,
    values: &Values<'_>,
) -> Made<(Expr, Boxed<Proc>)>
    ensures set { IfOk result (λ made. made.0 ≡ expr_with (given_by values.now) set.now) }
    ensures process { IfOk result (λ made. made.1 ≡ proc_with (without name (given_by values.now)) p.now) }
{
    let here = values.without(name)?;
    let p = replace_boxed_proc(p, &here)?;
    put_expr(set, values).map(|set| (set, p))
}

// A process with a set hidden.
#[cycle(put_proc)]
fn hiding(p: &Boxed<Proc>, set: &Expr, values: &Values<'_>) -> Made<Proc>
    ensures { IfOk result (λ made. made ≡ Proc.Hide (proc_with (given_by values.now) p.now)
        (expr_with (given_by values.now) set.now)) }
{
    let p = replace_boxed_proc(p, values)?;
    put_expr(set, values).map(|set| Proc::Hide(p, set))
}

// A process renamed.
#[cycle(put_proc)]
fn renaming(
    p: &Boxed<Proc>,
    pairs: &Items<(EventPart, EventPart)>,
    gens: &Items<Gen>,
    values: &Values<'_>,
) -> Made<Proc>
    ensures { IfOk result (λ made. made ≡ Proc.Rename (proc_with (given_by values.now) p.now)
        (map (pair_with (past gens.now (given_by values.now))) pairs.now) (gens_with (given_by values.now) gens.now)) }
{
    let p = replace_boxed_proc(p, values)?;
    let pairs = put_pairs(pairs.as_slice(), gens.as_slice(), values)?;
    put_gens(gens.as_slice(), values).map(|gens| Proc::Rename(p, pairs, gens))
}

// A process on the heap.
#[cycle(put_proc)]
fn replace_boxed_proc(proc: &Boxed<Proc>, values: &Values<'_>) -> Made<Boxed<Proc>>
    ensures { IfOk result (λ made. made ≡ proc_with (given_by values.now) proc.now) }
{
    let alloc = values.alloc();
    put_proc(proc.get(), values).and_then(|proc| Boxed::new(alloc, proc))
}

// Two processes on the heap.
#[cycle(put_proc)]
fn replace_two(
    p: &Boxed<Proc>,
    q: &Boxed<Proc>,
    values: &Values<'_>,
) -> Made<(Boxed<Proc>, Boxed<Proc>)>
    ensures { IfOk result (λ made. (made.0 ≡ proc_with (given_by values.now) p.now)
        × (made.1 ≡ proc_with (given_by values.now) q.now)) }
{
    let p = replace_boxed_proc(p, values)?;
    let q = replace_boxed_proc(q, values)?;
    Ok((p, q))
}

#[cycle(put_proc)]
fn put_procs(procs: &[Proc], values: &Values<'_>) -> Made<Items<Proc>>
    ensures { IfOk result (λ made. made ≡ map (proc_with (given_by values.now)) procs.now) }
{
    let mut made = Items::new(values.alloc());
    for proc in procs {
        made.push_made(put_proc(proc, values))?;
    }
    Ok(made)
}
