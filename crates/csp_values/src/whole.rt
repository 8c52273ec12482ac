//! Expressions of a program, evaluated as a whole: no more uses of definitions are entered, one inside another, than there are definitions.

ghost use Rattle.std.specs.Prelude.{◌≡◌, [], length};
ghost use Rattle.csp_program.specs.Prelude.{and_then, as_set, value_of, value_within};
ghost use Rattle.value_laws.specs.Numbers.{ChannelsFit};
ghost use Rattle.value_operators.specs.Prelude.{env_in, parameters, Gives};
ghost use Rattle.value_operators.specs.Env.{with_bound};
ghost use Rattle.csp_values.specs.Worth.{worth, worths, front_worth};
ghost use Rattle.csp_values.specs.Course.{GivesBinding, IsUnder, course_under};

use crate::evaluation::{Scope, eval_all, eval_expr, eval_front, find_binding, names_under};
use crate::fitting::Fitting;
use crate::walk::Walk;
use containers::Items;
use csp_atoms::{Atom, AtomSet, Value};
use csp_program::{Content, Expr, Gen, Program};
use std::alloc::Global;
use value_operators::EvalResult;
use value_operators::names::Names;
use value_operators::operators::to_set;

// What evaluation of a whole expression goes by: no more uses are entered, one inside another, than there are definitions.
fn whole_scope<'a>(alloc: Global, content: &'a Fitting<'a>, names: &'a Names<'a>) -> Scope<'a>
    ensures content { result.content.now ≡ content.now }
    ensures uses { result.uses ≡ length content.now.defs }
    ensures names { result.names.now ≡ names.now }
{
    Scope {
        alloc,
        content,
        uses: content.content().defs.len(),
        names,
    }
}

/// The value of an expression of a program. A fault is told exactly where it has none: the kind of the first one from the left.
pub fn eval(alloc: Global, program: &Program, expr: &Expr) -> EvalResult<Value>
    ensures { Gives result (value_of program.now expr.now) }
{
    eval_fitting(alloc, &Fitting::of(program), expr)
}

/// The value of an expression over what a program holds, also while that is still being put together. Faults are those of `eval`.
pub fn eval_in(alloc: Global, content: &Content, expr: &Expr) -> EvalResult<Value>
    requires fit { ChannelsFit content.now.channels }
    ensures { Gives result (value_of content.now expr.now) }
{
    eval_fitting(alloc, &Fitting::new(content), expr)
}

// The value of a closed expression.
fn eval_fitting(alloc: Global, content: &Fitting<'_>, expr: &Expr) -> EvalResult<Value>
    ensures { Gives result (value_of content.now expr.now) }
{
    eval_expr(&whole_scope(alloc, content, &names_under(&[])), expr)
}

/// The set that an expression of a program is worth. Faults are those of `eval`; a value that is no set has the kind `Kind`.
pub fn eval_set(alloc: Global, program: &Program, expr: &Expr) -> EvalResult<AtomSet>
    ensures { Gives result (and_then (value_of program.now expr.now) (λ v. as_set v)) }
{
    let value = eval(alloc, program, expr)?;
    to_set(value)
}

/// The value of an expression of a program under names with their values. Faults are those of `eval`.
#[tactic(auto, unfolding(crate::specs::Worth::worth))]
pub fn eval_with(
    alloc: Global,
    program: &Program,
    names: &Names<'_>,
    expr: &Expr,
) -> EvalResult<Value>
    ensures { Gives result (value_within program.now (length program.now.defs) expr.now (env_in names.now)) }
{
    eval_expr(&whole_scope(alloc, &Fitting::of(program), names), expr)
}

/// The values of expressions of a program under names with their values, from the left. Faults are those of `eval`, of the first that has one.
pub fn eval_all_with(
    alloc: Global,
    program: &Program,
    names: &Names<'_>,
    exprs: &[Expr],
) -> EvalResult<Items<Value>>
    ensures { Gives result (worths program.now (length program.now.defs) (env_in names.now) exprs.now) }
{
    eval_all(&whole_scope(alloc, &Fitting::of(program), names), exprs)
}

/// The value of an expression of a program under names that generators bind, the last one bound at the end. Faults are those of `eval`.
#[tactic(auto, unfolding(crate::specs::Worth::worth))]
pub fn eval_under(
    alloc: Global,
    program: &Program,
    bound: &[(u32, Atom)],
    expr: &Expr,
) -> EvalResult<Value>
    ensures { Gives result (worth program.now (length program.now.defs) (with_bound bound.now []) expr.now) }
{
    eval_with(alloc, program, &names_under(bound), expr)
}

/// The values of expressions of a program under names that generators bind, from the left. Faults are those of `eval`, of the first that has one.
pub fn eval_all_under(
    alloc: Global,
    program: &Program,
    bound: &[(u32, Atom)],
    exprs: &[Expr],
) -> EvalResult<Items<Value>>
    ensures { Gives result (worths program.now (length program.now.defs) (with_bound bound.now []) exprs.now) }
{
    eval_all_with(alloc, program, &names_under(bound), exprs)
}

/// The number of the first event of a channel that begins with these fields, under names that generators bind. Faults are those of `eval`, of the
/// fields from the left; a field too many, or a value that is none of its field's, has the kind `OutsideChannel`, and a channel without field sets
/// the kind `Kind`.
pub fn front_under(
    alloc: Global,
    program: &Program,
    bound: &[(u32, Atom)],
    channel: u32,
    fields: &[Expr],
) -> EvalResult<u32>
    ensures { Gives result (front_worth program.now (length program.now.defs)
        (with_bound bound.now []) channel fields.now) }
{
    let content = Fitting::of(program);
    let names = names_under(bound);
    eval_front(&whole_scope(alloc, &content, &names), channel, fields)
}

/// Whether generators of a program have one more binding, under which the walk over them then stands. Faults are those of `eval`, of the generators from the left.
pub fn binding_under(
    alloc: Global,
    program: &Program,
    gens: &[Gen],
    walk: &mut Walk,
) -> EvalResult<bool>
    requires { IsUnder [] walk.old }
    ensures { GivesBinding result (course_under program.now gens.now walk.old)
        (course_under program.now gens.now walk.new) [] [] walk.new }
{
    let content = Fitting::of(program);
    let names = names_under(&[]);
    find_binding(&whole_scope(alloc, &content, &names), gens, walk)
}
