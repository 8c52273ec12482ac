//! Evaluation, from the left.

ghost use Rattle.std.specs.List.{All};
ghost use Rattle.std.specs.Prelude.{◌≡◌, IfOk, Ok, Some, [], length, map};
ghost use Rattle.csp_atoms.specs.declared.atom.Atom.TheVariants as atom;
ghost use Rattle.csp_atoms.specs.declared.value.Value.TheVariants as value;
ghost use Rattle.csp_program.specs.Prelude.{added, all_added, and_then, as_atom, binary, gathered};
ghost use Rattle.csp_program.specs.Value as meant;
ghost use Rattle.value_laws.specs.Prelude.{IsSetValue, field_place};
ghost use Rattle.value_operators.specs.Prelude.{env_in, parameters, Gives};
ghost use Rattle.value_operators.specs.Env.{with_bound};
ghost use Rattle.value_operators.specs.Forms as form;
ghost use Rattle.csp_values.specs.Worth.{worth, worths, number_worth, truth_worth, atoms_worth, chosen, range_of, set_of, use_worth, body_worth, with_items, event_worth, fields_worth, front_worth, with_front, with_fronts, one_more_binding, walk_worth, gathered_of, GivesTally};
ghost use Rattle.csp_values.specs.Scopes.{under, walk_under};
ghost use Rattle.csp_values.specs.Stays.{PartStays, Stays};
ghost use Rattle.csp_values.specs.Course.{GivesBinding, GivesStep, IsUnder, course};

use crate::fitting::Fitting;
use crate::reads::may_read;
use crate::tally::Tally;
use crate::walk::{Step, Walk};
use containers::Items;
use csp_atoms::{Atom, AtomSet, Value};
use csp_base::{BinOp, Event, SetOp, Stop};
use csp_program::{Body, Def, EventPart, Expr, Gen, ValueKind};
use dl_limits::MOST_BINDINGS;
use std::alloc::Global;
use value_operators::EvalResult;
use value_operators::growing::GrowingSet;
use value_operators::names::{Names, bound_value, copy_value, names_in};
use value_operators::numbers::{
    count_with, each_of, event_at, field_sets, lack_sets, place_in, with_field,
};
use value_operators::operators::{apply, decide, invert, negate, to_number, to_set, to_truth};
use value_operators::sets::{combine, constants, numbers, with_events, with_item};

/// What evaluation goes by.
#[derive(Drop)]
pub(crate) struct Scope<'a> {
    /// Where memory comes from.
    pub alloc: Global,
    /// The program.
    pub content: &'a Fitting<'a>,
    /// How many uses of definitions may still be entered, one inside another.
    pub uses: usize,
    /// The names that stand for values.
    pub names: &'a Names<'a>,
}

// What each binding of a list of generators adds to a set.
#[derive(Drop)]
struct Yield<'a> {
    /// The values of these.
    items: &'a [Expr],
    /// The events that begin with these.
    parts: &'a [EventPart],
}

/// No names but those that are bound.
pub(crate) fn names_under<'a>(bound: &'a [(u32, Atom)]) -> Names<'a>
    ensures names { env_in result ≡ with_bound bound.now [] }
    ensures parameters { parameters result ≡ [] }
    ensures bound { result.bound.now ≡ bound.now }
{
    Names {
        params: &[],
        args: &[],
        placed: &[],
        bound,
    }
}

/// The value of an expression.
#[cycle(eval)]
#[tactic(auto, using(crate::proofs::Arms::worth_forms, crate::proofs::Falls::weight_forms))]
pub(crate) fn eval_expr(scope: &Scope<'_>, expr: &Expr) -> EvalResult<Value>
    ensures { Gives result (under scope.now worth expr.now) }
{
    match expr {
        Expr::Num(number) => Ok(Value::One(Atom::Num(*number))),
        Expr::Truth(truth) => Ok(Value::One(Atom::Truth(*truth))),
        Expr::Const(number) => Ok(Value::One(Atom::Const(*number))),
        Expr::Bound(slot) => bound_value(scope.alloc, scope.names, *slot),
        Expr::Lit(value) => copy_value(scope.alloc, value),
        Expr::Neg(a) => eval_negative(scope, a.get()),
        Expr::Not(a) => eval_not(scope, a.get()),
        Expr::Binary(op, a, b) => eval_binary(scope, *op, a.get(), b.get()),
        Expr::If(c, a, b) => eval_if(scope, c.get(), a.get(), b.get()),
        Expr::Call(def, args) => eval_call(scope, *def, args.as_slice()),
        Expr::SetName(def) => eval_set_name(scope, *def),
        Expr::Event(channel, fields) => eval_event(scope, *channel, fields.as_slice()),
        Expr::Display(items) => eval_display(scope, items.as_slice()),
        Expr::Range(a, b) => eval_range(scope, a.get(), b.get()),
        Expr::Comp(items, gens) => eval_comprehension(
            scope,
            items.as_slice(),
            &[],
            gens.as_slice(),
        ),
        Expr::Product(parts, gens) => { eval_product(scope, parts.as_slice(), gens.as_slice()) }
        Expr::SetOp(op, a, b) => eval_set_op(scope, *op, a.get(), b.get()),
    }
}

// The set of the numbers from `first` to `last`, as a value.
fn range_value(alloc: Global, first: i64, last: i64) -> EvalResult<Value>
    ensures { Gives result (meant.many (meant.range first last)) }
{
    let atoms = numbers(alloc, first, last)?;
    Ok(Value::Many(atoms))
}

// The set of constants, as a value.
fn constants_value(alloc: Global, numbers: &[u32]) -> EvalResult<Value>
    ensures { Gives result (meant.many (all_added [] (map (λ k. atom.Const k) numbers.now))) }
{
    let atoms = constants(alloc, numbers)?;
    Ok(Value::Many(atoms))
}

// What an operator gives of two sets, as a value.
fn set_value(alloc: Global, op: SetOp, left: AtomSet, right: AtomSet) -> EvalResult<Value>
    ensures { Gives result (meant.many (meant.set_binary op left right)) }
{
    let atoms = combine(alloc, op, &left, &right)?;
    Ok(Value::Many(atoms))
}

// A set that has grown, as a value.
fn grown_value(alloc: Global, atoms: GrowingSet) -> EvalResult<Value>
    ensures { Gives result (Ok (value.Many atoms)) }
{
    let atoms = atoms.into_set(alloc)?;
    Ok(Value::Many(atoms))
}

// The number that an expression is worth.
#[cycle(eval)]
#[tactic(auto, unfolding(crate::specs::Worth::number_worth))]
fn eval_number(scope: &Scope<'_>, expr: &Expr) -> EvalResult<i64>
    ensures { Gives result (under scope.now number_worth expr.now) }
{
    let value = eval_expr(scope, expr)?;
    to_number(&value)
}

// The truth value that an expression is worth.
#[cycle(eval)]
#[tactic(auto, unfolding(crate::specs::Worth::truth_worth))]
fn eval_truth(scope: &Scope<'_>, expr: &Expr) -> EvalResult<bool>
    ensures { Gives result (under scope.now truth_worth expr.now) }
{
    let value = eval_expr(scope, expr)?;
    to_truth(&value)
}

// The set that an expression is worth.
#[cycle(eval)]
#[tactic(auto, unfolding(crate::specs::Worth::atoms_worth))]
fn eval_atoms(scope: &Scope<'_>, expr: &Expr) -> EvalResult<AtomSet>
    ensures { Gives result (under scope.now atoms_worth expr.now) }
{
    let value = eval_expr(scope, expr)?;
    to_set(value)
}

// The value of `-a`.
#[cycle(eval)]
fn eval_negative(scope: &Scope<'_>, a: &Expr) -> EvalResult<Value>
    ensures { Gives result (form.negative (under scope.now worth a.now)) }
{
    let value = eval_expr(scope, a)?;
    negate(&value)
}

// The value of `not a`.
#[cycle(eval)]
fn eval_not(scope: &Scope<'_>, a: &Expr) -> EvalResult<Value>
    ensures { Gives result (form.inverse (under scope.now worth a.now)) }
{
    let value = eval_expr(scope, a)?;
    invert(&value)
}

// The value of an operator between two operands.
#[cycle(eval)]
fn eval_binary(scope: &Scope<'_>, op: BinOp, a: &Expr, b: &Expr) -> EvalResult<Value>
    ensures { Gives result (form.operation op (under scope.now worth a.now)
        (under scope.now worth b.now)) }
{
    let first = eval_expr(scope, a)?;
    eval_second(scope, op, &first, b)
}

// The value of an operator between a value and the second operand, which is not evaluated where the first one decides.
#[cycle(eval)]
fn eval_second(scope: &Scope<'_>, op: BinOp, first: &Value, b: &Expr) -> EvalResult<Value>
    ensures { Gives result (binary op first.now (under scope.now worth b.now)) }
{
    if let Some(value) = decide(op, first)? {
        return Ok(value);
    }
    let second = eval_expr(scope, b)?;
    apply(op, first, &second)
}

// The value of `if c then a else b`.
#[cycle(eval)]
fn eval_if(scope: &Scope<'_>, c: &Expr, a: &Expr, b: &Expr) -> EvalResult<Value>
    ensures { Gives result (chosen (under scope.now truth_worth c.now)
        (under scope.now worth a.now)
        (under scope.now worth b.now)) }
{
    let holds = eval_truth(scope, c)?;
    if holds {
        eval_expr(scope, a)
    } else {
        eval_expr(scope, b)
    }
}

// The value of a use of the definition with the number `def`, with these arguments.
#[cycle(eval)]
fn eval_call(scope: &Scope<'_>, def: u32, args: &[Expr]) -> EvalResult<Value>
    ensures { Gives result (and_then (under scope.now worths args.now) (λ vs.
        use_worth scope.now.content.now scope.now.uses def vs)) }
{
    let args = eval_all(scope, args)?;
    eval_use(scope, def, args.as_slice())
}

// The set that the definition with the number `def` names.
#[cycle(eval)]
fn eval_set_name(scope: &Scope<'_>, def: u32) -> EvalResult<Value>
    ensures { Gives result (form.named_set (use_worth scope.now.content.now scope.now.uses def [])) }
{
    let value = eval_use(scope, def, &[])?;
    let atoms = to_set(value)?;
    Ok(Value::Many(atoms))
}

// An event.
#[cycle(eval)]
#[tactic(auto, using(crate::proofs::Arms::event_steps))]
fn eval_event(scope: &Scope<'_>, channel: u32, fields: &[Expr]) -> EvalResult<Value>
    ensures { Gives result (under scope.now event_worth channel fields.now) }
{
    let channels = scope.content.channels();
    let first = eval_front(scope, channel, fields)?;
    let count = count_with(channels, channel, fields.len());
    if count == 0 {
        return Err(Stop::Told(ValueKind::OutsideChannel));
    }
    Ok(Value::One(Atom::Event(Event(first))))
}

// The set of the values of items.
#[cycle(eval)]
fn eval_display(scope: &Scope<'_>, items: &[Expr]) -> EvalResult<Value>
    ensures { Gives result (form.a_set (under scope.now with_items items.now [])) }
{
    let atoms = add_items(scope, items, GrowingSet::new(scope.alloc))?;
    grown_value(scope.alloc, atoms)
}

// The set of the numbers from `a` to `b`.
#[cycle(eval)]
fn eval_range(scope: &Scope<'_>, a: &Expr, b: &Expr) -> EvalResult<Value>
    ensures { Gives result (range_of (under scope.now number_worth a.now)
        (under scope.now number_worth b.now)) }
{
    let first = eval_number(scope, a)?;
    let last = eval_number(scope, b)?;
    range_value(scope.alloc, first, last)
}

// The value of an operator between two sets.
#[cycle(eval)]
fn eval_set_op(scope: &Scope<'_>, op: SetOp, a: &Expr, b: &Expr) -> EvalResult<Value>
    ensures { Gives result (set_of op (under scope.now atoms_worth a.now)
        (under scope.now atoms_worth b.now)) }
{
    let left = eval_atoms(scope, a)?;
    let right = eval_atoms(scope, b)?;
    set_value(scope.alloc, op, left, right)
}

// The value of `{| parts | gens |}`. Where a channel has no field sets, no generator is walked.
#[cycle(eval)]
#[tactic(auto, using(crate::proofs::Weights::none_weigh, crate::proofs::Arms::lacking_steps))]
fn eval_product(scope: &Scope<'_>, parts: &[EventPart], gens: &[Gen]) -> EvalResult<Value>
    ensures { Gives result (form.produced (form.lack_sets scope.now.content.now.channels parts.now)
        (walk_worth scope.now.content.now scope.now.uses gens.now [] parts.now (env_in scope.now.names.now)
        form.nothing_yet)) }
{
    if lack_sets(scope.content.channels(), parts) {
        return Err(Stop::Told(ValueKind::Kind));
    }
    eval_comprehension(scope, &[], parts, gens)
}

// The set of what all bindings add.
#[cycle(eval)]
fn eval_comprehension(
    scope: &Scope<'_>,
    items: &[Expr],
    parts: &[EventPart],
    gens: &[Gen],
) -> EvalResult<Value>
    ensures { Gives result
        (form.gathered_set (walk_worth scope.now.content.now scope.now.uses gens.now items.now parts.now
        (env_in scope.now.names.now) form.nothing_yet)) }
{
    let start = Tally {
        bindings: 0,
        atoms: GrowingSet::new(scope.alloc),
    };
    let yields = Yield { items, parts };
    let Tally { bindings: _, atoms } = gather_all(scope, gens, &yields, start)?;
    grown_value(scope.alloc, atoms)
}

/// The values of expressions, from the left.
#[cycle(eval)]
#[tactic(auto, using(crate::proofs::Steps::worths_steps, crate::proofs::Weights::weight_in))]
pub(crate) fn eval_all(scope: &Scope<'_>, exprs: &[Expr]) -> EvalResult<Items<Value>>
    ensures { Gives result (under scope.now worths exprs.now) }
{
    let mut values = Items::new(scope.alloc);
    for expr in exprs {
        let value = eval_expr(scope, expr)?;
        values.push(value)?;
    }
    Ok(values)
}

// The value of a use of the definition with the number `def`.
#[cycle(eval)]
#[tactic(auto, using(crate::proofs::Equations::use_forms, crate::proofs::Falls::use_falls))]
fn eval_use(scope: &Scope<'_>, def: u32, args: &[Value]) -> EvalResult<Value>
    ensures { Gives result (use_worth scope.now.content.now scope.now.uses def args.now) }
{
    if scope.uses == 0 {
        return Err(Stop::Told(ValueKind::Kind));
    }
    let inner = Scope {
        alloc: scope.alloc,
        content: scope.content,
        uses: scope.uses - 1,
        names: scope.names,
    };
    match scope.content.content().defs.get(def as usize) {
        Some(def) => eval_body(&inner, def, args),
        None => Err(Stop::Told(ValueKind::Kind)),
    }
}

// The value of the body of a definition.
#[cycle(eval)]
#[tactic(auto, using(crate::proofs::Equations::body_forms))]
fn eval_body(scope: &Scope<'_>, def: &Def, args: &[Value]) -> EvalResult<Value>
    ensures { Gives result (body_worth scope.now.content.now scope.now.uses def.now args.now) }
{
    match &def.body {
        Body::Datum(expr) => {
            let names = names_in(def.params.as_slice(), args);
            let inner = Scope {
                alloc: scope.alloc,
                content: scope.content,
                uses: scope.uses,
                names: &names,
            };
            eval_expr(&inner, expr)
        }
        Body::Nametype(expr) => {
            let names = names_under(&[]);
            let inner = Scope {
                alloc: scope.alloc,
                content: scope.content,
                uses: scope.uses,
                names: &names,
            };
            eval_expr(&inner, expr)
        }
        Body::Datatype(numbers) => constants_value(scope.alloc, numbers.as_slice()),
        Body::Process(_) => Err(Stop::Told(ValueKind::Kind)),
        Body::Network(_) => Err(Stop::Told(ValueKind::Kind)),
    }
}

// A set with the values of items in it.
#[cycle(eval)]
#[tactic(auto, using(crate::proofs::Steps::items_steps, crate::proofs::Weights::weight_in))]
fn add_items(scope: &Scope<'_>, items: &[Expr], atoms: GrowingSet) -> EvalResult<GrowingSet>
    ensures { Gives result (under scope.now with_items items.now atoms) }
{
    let mut atoms = atoms;
    for item in items {
        atoms = add_item(scope, item, atoms)?;
    }
    Ok(atoms)
}

// A set with the value of an item in it.
#[cycle(eval)]
fn add_item(scope: &Scope<'_>, item: &Expr, atoms: GrowingSet) -> EvalResult<GrowingSet>
    ensures { Gives result (and_then (under scope.now worth item.now) (λ v.
        and_then (as_atom v) (λ a. added atoms a))) }
{
    let value = eval_expr(scope, item)?;
    with_item(scope.alloc, atoms, &value)
}

// The number of fields among all choices of values of these sets, each counted `each` times. Counting stops at the end of 64 bits.
#[cycle(eval)]
#[tactic(auto, using(crate::proofs::FieldSteps::fields_steps, crate::proofs::Weights::weight_in))]
fn eval_fields(scope: &Scope<'_>, fields: &[Expr], sets: &[AtomSet], each: u64) -> EvalResult<u64>
    ensures { Gives result (form.capped (form.scaled
        (under scope.now fields_worth fields.now sets.now 0) each)) }
{
    let mut number = 0;
    let mut rest = sets;
    for field in fields {
        let Some((set, others)) = rest.split_first() else {
            return Err(Stop::Told(ValueKind::OutsideChannel));
        };
        let place = eval_place(scope, field, set)?;
        number = with_field(number, set, place, each);
        rest = others;
    }
    Ok(number)
}

// The place of the value of an expression among the values of a field.
#[cycle(eval)]
fn eval_place(scope: &Scope<'_>, expr: &Expr, set: &AtomSet) -> EvalResult<u64>
    ensures { Gives result (and_then (under scope.now worth expr.now) (λ v.
        field_place set.now v)) }
{
    let value = eval_expr(scope, expr)?;
    place_in(set, &value)
}

// The number of fields among all choices of values of these sets, counted over the choices of those that are not given, up to the end of 64 bits.
#[cycle(eval)]
#[tactic(auto, using(crate::proofs::FieldSteps::counted_over))]
fn eval_choice(scope: &Scope<'_>, fields: &[Expr], sets: &[AtomSet]) -> EvalResult<u64>
    ensures { Gives result (form.capped (form.scaled
        (under scope.now fields_worth fields.now sets.now 0)
        (form.each_of sets.now (length fields.now)))) }
{
    let each = each_of(sets, fields.len());
    eval_fields(scope, fields, sets, each)
}

/// The number of the first event of a channel that begins with these fields.
#[cycle(eval)]
#[tactic(auto, using(crate::proofs::FieldSteps::fronts_found, crate::proofs::Arms::event_steps))]
pub(crate) fn eval_front(scope: &Scope<'_>, channel: u32, fields: &[Expr]) -> EvalResult<u32>
    ensures { Gives result (under scope.now front_worth channel fields.now) }
{
    let channels = scope.content.channels();
    match field_sets(channels, channel) {
        Some(sets) => {
            let place = eval_choice(scope, fields, sets)?;
            Ok(event_at(channels, channel, place))
        }
        None => Err(Stop::Told(ValueKind::Kind)),
    }
}

// A set with the events of fronts in it.
#[cycle(eval)]
#[tactic(auto, using(crate::proofs::Steps::fronts_steps, crate::proofs::Weights::part_weight_in))]
fn add_fronts(scope: &Scope<'_>, parts: &[EventPart], atoms: GrowingSet) -> EvalResult<GrowingSet>
    ensures { Gives result (under scope.now with_fronts parts.now atoms) }
{
    let mut atoms = atoms;
    for part in parts {
        atoms = add_front(scope, part, atoms)?;
    }
    Ok(atoms)
}

// A set with the events of a front in it.
#[cycle(eval)]
#[tactic(auto, using(crate::proofs::Arms::event_steps, crate::proofs::Falls::weight_part))]
fn add_front(scope: &Scope<'_>, part: &EventPart, atoms: GrowingSet) -> EvalResult<GrowingSet>
    ensures { Gives result (under scope.now with_front part.now atoms) }
{
    let channels = scope.content.channels();
    let first = eval_front(scope, part.channel, part.fields.as_slice())?;
    let count = count_with(channels, part.channel, part.fields.len());
    with_events(scope.alloc, atoms, first, count)
}

// One more binding, and what it adds.
#[cycle(eval)]
#[tactic(auto, using(crate::proofs::Equations::binding_forms, crate::proofs::Arms::binding_steps))]
fn gather(scope: &Scope<'_>, yields: &Yield<'_>, tally: Tally) -> EvalResult<Tally>
    ensures { GivesTally result
        (one_more_binding scope.now.content.now scope.now.uses yields.now.items.now yields.now.parts.now
        (env_in scope.now.names.now) (gathered_of tally)) }
{
    let Tally { bindings, atoms } = tally;
    if bindings >= MOST_BINDINGS {
        return Err(Stop::Told(ValueKind::SetLimit));
    }
    let atoms = add_items(scope, yields.items, atoms)?;
    let atoms = add_fronts(scope, yields.parts, atoms)?;
    Ok(Tally {
        bindings: bindings + 1,
        atoms,
    })
}

// One step of a walk over generators, under the names around them.
#[cycle(eval)]
#[tactic(auto, using(crate::proofs::Courses::advance_steps))]
fn advance(scope: &Scope<'_>, gens: &[Gen], walk: &mut Walk) -> EvalResult<Step>
    requires { IsUnder scope.now.names.now.bound.now walk.old }
    ensures { GivesStep result (course scope.now.content.now scope.now.uses gens.now scope.now.names.now walk.old)
        (course scope.now.content.now scope.now.uses gens.now scope.now.names.now walk.new)
        (parameters scope.now.names.now) scope.now.names.now.bound.now walk.new }
{
    match walk.turn {
        Some(place) => enter(scope, gens, place, walk),
        None => {
            let Some(frame) = walk.pop() else {
                return Ok(Step::End);
            };
            walk.take(frame.name.0, frame.atoms, frame.next, frame.rest)?;
            Ok(Step::On)
        }
    }
}

// The step of a walk at a generator, or past all of them.
#[cycle(eval)]
fn enter(scope: &Scope<'_>, gens: &[Gen], place: usize, walk: &mut Walk) -> EvalResult<Step>
    requires under { IsUnder scope.now.names.now.bound.now walk.old }
    requires turn { walk.old.turn ≡ Some place }
    ensures { GivesStep result (course scope.now.content.now scope.now.uses gens.now scope.now.names.now walk.old)
        (course scope.now.content.now scope.now.uses gens.now scope.now.names.now walk.new)
        (parameters scope.now.names.now) scope.now.names.now.bound.now walk.new }
{
    let names = Names {
        params: scope.names.params,
        args: scope.names.args,
        placed: scope.names.placed,
        bound: walk.bound_names(),
    };
    let inner = Scope {
        alloc: scope.alloc,
        content: scope.content,
        uses: scope.uses,
        names: &names,
    };
    match gens.get(place) {
        Some(Gen::From(slot, set)) => {
            let atoms = eval_atoms(&inner, set)?;
            walk.take(*slot, atoms, 0, place + 1)?;
            Ok(Step::On)
        }
        Some(Gen::Cond(condition)) => {
            let holds = eval_truth(&inner, condition)?;
            walk.turn = if holds { Some(place + 1) } else { None };
            Ok(Step::On)
        }
        None => {
            walk.turn = None;
            Ok(Step::Binding)
        }
    }
}

/// Whether there is one more binding, under which the walk then stands.
#[cycle(eval)]
#[tactic(auto, using(crate::proofs::Courses::step_less))]
pub(crate) fn find_binding(scope: &Scope<'_>, gens: &[Gen], walk: &mut Walk) -> EvalResult<bool>
    requires { IsUnder scope.now.names.now.bound.now walk.old }
    ensures { GivesBinding result (course scope.now.content.now scope.now.uses gens.now scope.now.names.now walk.old)
        (course scope.now.content.now scope.now.uses gens.now scope.now.names.now walk.new)
        (parameters scope.now.names.now) scope.now.names.now.bound.now walk.new }
{
    'steps: loop {
        match advance(scope, gens, walk)? {
            Step::On => {}
            Step::Binding => return Ok(true),
            Step::End => return Ok(false),
        }
    }
}

// What all bindings of generators add.
#[cycle(eval)]
fn gather_all(
    scope: &Scope<'_>,
    gens: &[Gen],
    yields: &Yield<'_>,
    tally: Tally,
) -> EvalResult<Tally>
    requires { IsSetValue tally.atoms }
    ensures { GivesTally result
        (walk_under scope.now gens.now yields.now (gathered_of tally)) }
{
    if may_read(yields.items, yields.parts, gens) {
        return gather_each(scope, gens, yields, tally);
    }
    gather_once(scope, gens, yields, tally)
}

// What all bindings of generators add, evaluated under each of them.
#[cycle(eval)]
#[tactic(auto, using(crate::proofs::Courses::gathering_steps))]
fn gather_each(
    scope: &Scope<'_>,
    gens: &[Gen],
    yields: &Yield<'_>,
    tally: Tally,
) -> EvalResult<Tally>
    ensures { GivesTally result
        (walk_under scope.now gens.now yields.now (gathered_of tally)) }
{
    let mut walk = Walk::new(scope.alloc, scope.names.bound)?;
    let mut tally = tally;
    'bindings: while find_binding(scope, gens, &mut walk)? {
        let names = Names {
            params: scope.names.params,
            args: scope.names.args,
            placed: scope.names.placed,
            bound: walk.bound_names(),
        };
        let inner = Scope {
            alloc: scope.alloc,
            content: scope.content,
            uses: scope.uses,
            names: &names,
        };
        tally = gather(&inner, yields, tally)?;
    }
    Ok(tally)
}

// One more binding, which adds nothing.
fn count_binding(tally: Tally) -> EvalResult<Tally>
    ensures tally { GivesTally result (gathered (λ _ atoms. Ok atoms) [] (gathered_of tally)) }
    ensures atoms { IfOk result (λ more. more.atoms ≡ tally.atoms) }
{
    let Tally { bindings, atoms } = tally;
    if bindings >= MOST_BINDINGS {
        return Err(Stop::Told(ValueKind::SetLimit));
    }
    Ok(Tally {
        bindings: bindings + 1,
        atoms,
    })
}

// What all bindings of generators add, where that reads none of their names: it is evaluated at the first binding alone.
#[cycle(eval)]
#[tactic(auto, using(crate::proofs::Courses::over_end, crate::proofs::Courses::binding_less))]
fn gather_once(
    scope: &Scope<'_>,
    gens: &[Gen],
    yields: &Yield<'_>,
    tally: Tally,
) -> EvalResult<Tally>
    requires set { IsSetValue tally.atoms }
    requires items { All (Stays gens.now) yields.now.items.now }
    requires parts { All (PartStays gens.now) yields.now.parts.now }
    ensures { GivesTally result
        (walk_under scope.now gens.now yields.now (gathered_of tally)) }
{
    let mut walk = Walk::new(scope.alloc, scope.names.bound)?;
    if !find_binding(scope, gens, &mut walk)? {
        return Ok(tally);
    }
    let mut tally = gather(scope, yields, tally)?;
    'bindings: while find_binding(scope, gens, &mut walk)? {
        tally = count_binding(tally)?;
    }
    Ok(tally)
}
