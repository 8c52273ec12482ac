//! Operators on values.

ghost use Rattle.std.specs.Prelude.{◌≡◌, Ok, None, not, pos, neg_ℤ, ◌+ℤ◌, ◌-ℤ◌, ◌*ℤ◌};
ghost use Rattle.csp_atoms.specs.Order.{same};
ghost use Rattle.csp_program.specs.Prelude.{and_then, as_atom, as_number, as_truth, as_set, truth, in_range, binary, divided, quotient, remainder};
ghost use Rattle.csp_program.specs.Value as meant;
ghost use Rattle.value_operators.specs.Prelude.{Gives, first_half, on_two_numbers, decided_by};

use crate::EvalResult;
use csp_atoms::{Atom, AtomSet, Value, atom};
use csp_base::{BinOp, Stop};
use csp_program::ValueKind;
use dl_limits::GREATEST_NUMBER;

// The greatest number that arithmetic may come to; the least is its negative.
const GREATEST: i64 = GREATEST_NUMBER as i64;

/// The atom that a value is. A set has the fault `Kind`.
pub fn to_atom(value: &Value) -> EvalResult<Atom>
    ensures { Gives result (as_atom value.now) }
{
    match value {
        Value::One(atom) => Ok(*atom),
        Value::Many(_) => Err(Stop::Told(ValueKind::Kind)),
    }
}

/// The number that a value is. Any other value has the fault `Kind`.
pub fn to_number(value: &Value) -> EvalResult<i64>
    ensures { Gives result (as_number value.now) }
{
    match value {
        Value::One(Atom::Num(number)) => Ok(*number),
        _ => Err(Stop::Told(ValueKind::Kind)),
    }
}

/// The truth value that a value is. Any other value has the fault `Kind`.
pub fn to_truth(value: &Value) -> EvalResult<bool>
    ensures { Gives result (as_truth value.now) }
{
    match value {
        Value::One(Atom::Truth(truth)) => Ok(*truth),
        _ => Err(Stop::Told(ValueKind::Kind)),
    }
}

/// The set that a value is. An atom has the fault `Kind`.
pub fn to_set(value: Value) -> EvalResult<AtomSet>
    ensures { Gives result (as_set value) }
{
    match value {
        Value::One(_) => Err(Stop::Told(ValueKind::Kind)),
        Value::Many(atoms) => Ok(atoms),
    }
}

// The number, unless it is out of range.
fn number_value(number: i64) -> EvalResult<Value>
    ensures { Gives result (in_range number) }
{
    if -GREATEST <= number && number <= GREATEST {
        Ok(Value::One(Atom::Num(number)))
    } else {
        Err(Stop::Told(ValueKind::Range))
    }
}

/// The negative of a number. Any other value has the fault `Kind`; a negative below -1,000,000 or above 1,000,000 has the fault `Range`.
pub fn negate(value: &Value) -> EvalResult<Value>
    ensures { Gives result (and_then (as_number value.now) (λ n. in_range (neg_ℤ n))) }
{
    let number = to_number(value)?;
    match number.checked_neg() {
        Some(negative) => number_value(negative),
        None => Err(Stop::Told(ValueKind::Range)),
    }
}

/// The other truth value. Any other value has the fault `Kind`.
pub fn invert(value: &Value) -> EvalResult<Value>
    ensures { Gives result (and_then (as_truth value.now) (λ b. Ok (truth (not b)))) }
{
    let truth = to_truth(value)?;
    Ok(Value::One(Atom::Truth(!truth)))
}

// The value of the whole, where the truth value that is its first operand decides it.
fn decide_by_truth(decides: bool, first: &Value) -> EvalResult<Option<Value>>
    ensures { Gives result (and_then (as_truth first.now) (λ b. Ok (decided_by decides b))) }
{
    let truth = to_truth(first)?;
    if truth == decides {
        return Ok(Some(Value::One(Atom::Truth(truth))));
    }
    Ok(None)
}

// A first operand that has to be an atom decides nothing.
fn undecided_atom(first: &Value) -> EvalResult<Option<Value>>
    ensures { Gives result (and_then (as_atom first.now) (λ a. Ok None)) }
{
    to_atom(first)?;
    Ok(None)
}

// A first operand that has to be a number decides nothing.
fn undecided_number(first: &Value) -> EvalResult<Option<Value>>
    ensures { Gives result (and_then (as_number first.now) (λ a. Ok None)) }
{
    to_number(first)?;
    Ok(None)
}

/// The value of the whole, where its first operand decides it.
pub fn decide(op: BinOp, first: &Value) -> EvalResult<Option<Value>>
    ensures { Gives result (first_half op first.now) }
{
    match op {
        BinOp::Or => decide_by_truth(true, first),
        BinOp::And => decide_by_truth(false, first),
        BinOp::Eq | BinOp::Ne => undecided_atom(first),
        BinOp::Lt | BinOp::Le | BinOp::Gt | BinOp::Ge => undecided_number(first),
        BinOp::Add | BinOp::Sub | BinOp::Mul | BinOp::Div | BinOp::Rem => undecided_number(first),
    }
}

// The sum, unless it is out of range.
fn sum(left: i64, right: i64) -> EvalResult<Value>
    ensures { Gives result (in_range (left +ℤ right)) }
{
    match left.checked_add(right) {
        Some(number) => number_value(number),
        None => Err(Stop::Told(ValueKind::Range)),
    }
}

// The difference, unless it is out of range.
fn difference(left: i64, right: i64) -> EvalResult<Value>
    ensures { Gives result (in_range (left -ℤ right)) }
{
    match left.checked_sub(right) {
        Some(number) => number_value(number),
        None => Err(Stop::Told(ValueKind::Range)),
    }
}

// The product, unless it is out of range.
fn product(left: i64, right: i64) -> EvalResult<Value>
    ensures { Gives result (in_range (left *ℤ right)) }
{
    match left.checked_mul(right) {
        Some(number) => number_value(number),
        None => Err(Stop::Told(ValueKind::Range)),
    }
}

// The quotient rounded towards the lower number, for a divisor of at least 1.
fn quotient_of(left: i64, right: i64) -> EvalResult<Value>
    ensures { Gives result (divided quotient left right) }
{
    if right < 1 {
        return Err(Stop::Told(ValueKind::Division));
    }
    Ok(Value::One(Atom::Num(left.div_euclid(right))))
}

// The remainder, from 0 on, for a divisor of at least 1.
fn remainder_of(left: i64, right: i64) -> EvalResult<Value>
    ensures { Gives result (divided remainder left right) }
{
    if right < 1 {
        return Err(Stop::Told(ValueKind::Division));
    }
    Ok(Value::One(Atom::Num(left.rem_euclid(right))))
}

// A truth value.
fn truth_value(truth: bool) -> EvalResult<Value>
    ensures { Gives result (Ok (meant.truth truth)) }
{
    Ok(Value::One(Atom::Truth(truth)))
}

// What an operator on two numbers gives.
fn on_numbers(op: BinOp, left: i64, right: i64) -> EvalResult<Value>
    ensures { Gives result (on_two_numbers op left right) }
{
    match op {
        BinOp::Or | BinOp::And | BinOp::Eq | BinOp::Ne => Err(Stop::Told(ValueKind::Kind)),
        BinOp::Lt => truth_value(left < right),
        BinOp::Le => truth_value(left <= right),
        BinOp::Gt => truth_value(left > right),
        BinOp::Ge => truth_value(left >= right),
        BinOp::Add => sum(left, right),
        BinOp::Sub => difference(left, right),
        BinOp::Mul => product(left, right),
        BinOp::Div => quotient_of(left, right),
        BinOp::Rem => remainder_of(left, right),
    }
}

// What an operator on two numbers gives of two values.
fn apply_to_numbers(op: BinOp, first: &Value, second: &Value) -> EvalResult<Value>
    ensures { Gives result (meant.on_numbers (on_two_numbers op) first.now (Ok second.now)) }
{
    let left = to_number(first)?;
    let right = to_number(second)?;
    on_numbers(op, left, right)
}

// Whether both are one atom.
#[tactic(auto, unfolding(csp_atoms::specs::Order::same))]
fn is_one_atom(left: &Atom, right: &Atom) -> bool
    ensures { result ≡ same left.now right.now }
{
    atom::order(left, right).is_eq()
}

// What `==` gives of two values.
fn equal(first: &Value, second: &Value) -> EvalResult<Value>
    ensures { Gives result (meant.on_atoms same first.now (Ok second.now)) }
{
    let left = to_atom(first)?;
    let right = to_atom(second)?;
    if !left.is_of_kind(&right) {
        return Err(Stop::Told(ValueKind::Kind));
    }
    truth_value(is_one_atom(&left, &right))
}

// What `!=` gives of two values.
fn unequal(first: &Value, second: &Value) -> EvalResult<Value>
    ensures { Gives result (meant.on_atoms (λ a b. not (same a b)) first.now (Ok second.now)) }
{
    let left = to_atom(first)?;
    let right = to_atom(second)?;
    if !left.is_of_kind(&right) {
        return Err(Stop::Told(ValueKind::Kind));
    }
    truth_value(!is_one_atom(&left, &right))
}

// What `or`, for true, and `and`, for false, give of two values.
fn join_truths(decides: bool, first: &Value, second: &Value) -> EvalResult<Value>
    ensures { Gives result (meant.on_truths decides first.now (Ok second.now)) }
{
    let left = to_truth(first)?;
    if left == decides {
        return truth_value(left);
    }
    let right = to_truth(second)?;
    truth_value(right)
}

/// What an operator gives of two values. An operand of a kind that the operator doesn't take has the fault `Kind`, a result below -1,000,000 or above
/// 1,000,000 the fault `Range`, and a divisor below 1 the fault `Division`; where the first operand decides, the second may be anything.
pub fn apply(op: BinOp, first: &Value, second: &Value) -> EvalResult<Value>
    ensures { Gives result (binary op first.now (Ok second.now)) }
{
    match op {
        BinOp::Or => join_truths(true, first, second),
        BinOp::And => join_truths(false, first, second),
        BinOp::Eq => equal(first, second),
        BinOp::Ne => unequal(first, second),
        BinOp::Lt | BinOp::Le | BinOp::Gt | BinOp::Ge => apply_to_numbers(op, first, second),
        BinOp::Add | BinOp::Sub | BinOp::Mul | BinOp::Div | BinOp::Rem => {
            apply_to_numbers(op, first, second)
        }
    }
}
