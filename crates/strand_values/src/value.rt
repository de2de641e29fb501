// The value of an expression. Each kind of node has a function of its own; where only the number is needed, no `Value`
// is made.

ghost use Rattle.std.specs.Prelude.{◌≡◌, [], map, true, IsTrue};
ghost use Rattle.serial_meaning.specs.Values.{Env, value_of, values_of, sums, products, sum_part, product_part};
ghost use Rattle.serial_meaning.specs.declared.value.Value.TheVariants.{Int};
ghost use Rattle.script_check.specs.Slots.{all_true, every_in_factor, every_in_summand, has_slot};
ghost use Rattle.strand_values.specs.Environments.{FindsExpression, FindsArguments, FindsName};
ghost use Rattle.strand_values.specs.Gives.{Calculates, integer_result, integral};
ghost use Rattle.strand_values.specs.Nodes as node;

use crate::arithmetic::{compare, product, sum};
use crate::environment::Environment;
use crate::evaluation_error::EvaluationError;
use crate::plain::plain;
use crate::scalar::{is_older, is_same, truth};
use contract_views::Items;
use script_grammar::{Comparison, Expr, Name, ProductPart, SumPart};
use serial_meaning::{FaultKind, Value};
use std::alloc::Global;

// The same as `value`, with a fast path for numbers and calculations of plain operands.
pub(crate) fn evaluate(env: &Environment, slots: &[u16], e: &Expr) -> Result<Value, EvaluationError>
    requires { FindsExpression slots.now env.now e.now }
    ensures { Calculates result (value_of e.now env.now.variables) }
{
    match plain(env, slots, e) {
        Some(number) => Ok(Value::Int(number)),
        None => value(env, slots, e),
    }
}

#[cycle(value)]
pub(crate) fn value(env: &Environment, slots: &[u16], e: &Expr) -> Result<Value, EvaluationError>
    requires found { FindsExpression slots.now env.now e.now }
    ensures { Calculates result (value_of e.now env.now.variables) }
{
    match e {
        Expr::Var(name) => env.scalar(slots, name),
        // Without a further operand this is the first one's value, which may be an id.
        Expr::Sum(first, rest) => {
            if rest.as_slice().is_empty() {
                value(env, slots, first.get())
            } else {
                integral(integer(env, slots, e))
            }
        }
        Expr::Product(first, rest) => {
            if rest.as_slice().is_empty() {
                value(env, slots, first.get())
            } else {
                integral(integer(env, slots, e))
            }
        }
        Expr::Number(_) => integral(integer(env, slots, e)),
        Expr::Item(_, _) => integral(integer(env, slots, e)),
        Expr::Neg(_, _) => integral(integer(env, slots, e)),
        Expr::Same(_, _, _) => integral(integer(env, slots, e)),
        Expr::Older(_, _, _) => integral(integer(env, slots, e)),
        Expr::Compare(_, _, _) => integral(integer(env, slots, e)),
    }
}

// Whether the value is an integer, whatever the variables hold. Only a variable, or a sum or product of just one, may
// be an id.
pub(crate) fn is_integer(e: &Expr) -> bool
    ensures { (env : Env) → IsTrue result → value_of e.now env ≡ integral (integer_result (value_of e.now env)) }
{
    match e {
        Expr::Var(_) => false,
        Expr::Sum(_, rest) => !rest.as_slice().is_empty(),
        Expr::Product(_, rest) => !rest.as_slice().is_empty(),
        Expr::Number(_) => true,
        Expr::Item(_, _) => true,
        Expr::Neg(_, _) => true,
        Expr::Same(_, _, _) => true,
        Expr::Older(_, _, _) => true,
        Expr::Compare(_, _, _) => true,
    }
}

// The value as a number.
#[cycle(value)]
pub(crate) fn integer(env: &Environment, slots: &[u16], e: &Expr) -> Result<i64, EvaluationError>
    requires found { FindsExpression slots.now env.now e.now }
    ensures { Calculates result (integer_result (value_of e.now env.now.variables)) }
{
    match e {
        Expr::Number(number) => Ok(number.value),
        Expr::Var(name) => Ok(env.integer_or_zero(slots, name)),
        Expr::Item(name, index) => item_at(env, slots, name, index.get()),
        Expr::Neg(_, operand) => negated(env, slots, operand.get()),
        Expr::Same(_, left, right) => match value(env, slots, left.get()) {
            Ok(left) => same(env, slots, left, right.get()),
            Err(error) => Err(error),
        },
        Expr::Older(_, left, right) => match value(env, slots, left.get()) {
            Ok(left) => older(env, slots, left, right.get()),
            Err(error) => Err(error),
        },
        Expr::Compare(left, how, right) => match operand(env, slots, left.get()) {
            Ok(left) => comparison(env, slots, left, *how, right.get()),
            Err(error) => Err(error),
        },
        Expr::Sum(first, rest) => match operand(env, slots, first.get()) {
            Ok(first) => add(env, slots, first, rest.as_slice()),
            Err(error) => Err(error),
        },
        Expr::Product(first, rest) => match operand(env, slots, first.get()) {
            Ok(first) => multiply(env, slots, first, rest.as_slice()),
            Err(error) => Err(error),
        },
    }
}

// An operand's value as a number. Literals and variables, which most operands are, take no further call.
#[inline(always)]
#[cycle(value)]
fn operand(env: &Environment, slots: &[u16], e: &Expr) -> Result<i64, EvaluationError>
    requires found { FindsExpression slots.now env.now e.now }
    ensures { Calculates result (integer_result (value_of e.now env.now.variables)) }
{
    match e {
        Expr::Number(number) => Ok(number.value),
        Expr::Var(name) => Ok(env.integer_or_zero(slots, name)),
        _ => integer(env, slots, e),
    }
}

// A number as a value.
fn integral(number: Result<i64, EvaluationError>) -> Result<Value, EvaluationError>
    ensures { result ≡ integral number }
{
    match number {
        Ok(number) => Ok(Value::Int(number)),
        Err(error) => Err(error),
    }
}

#[cycle(value)]
fn item_at(
    env: &Environment,
    slots: &[u16],
    name: &Name,
    index: &Expr,
) -> Result<i64, EvaluationError>
    requires name { FindsName slots.now env.now name.now }
    requires index { FindsExpression slots.now env.now index.now }
    ensures { Calculates (integral result) (node.item_at env.now.variables name.now.bytes (value_of index.now env.now.variables)) }
{
    let index = operand(env, slots, index)?;
    match env.item(slots, name, index) {
        Some(item) => Ok(item),
        None => Err(EvaluationError::Fault(FaultKind::Index)),
    }
}

#[cycle(value)]
fn negated(env: &Environment, slots: &[u16], operand: &Expr) -> Result<i64, EvaluationError>
    requires found { FindsExpression slots.now env.now operand.now }
    ensures { Calculates (integral result) (node.negated (value_of operand.now env.now.variables)) }
{
    Ok(integer(env, slots, operand)?.wrapping_neg())
}

#[cycle(value)]
fn same(env: &Environment, slots: &[u16], left: Value, right: &Expr) -> Result<i64, EvaluationError>
    requires found { FindsExpression slots.now env.now right.now }
    ensures { Calculates (integral result) (node.same left (value_of right.now env.now.variables)) }
{
    let right = value(env, slots, right)?;
    Ok(truth(is_same(&left, &right)))
}

#[cycle(value)]
fn older(
    env: &Environment,
    slots: &[u16],
    left: Value,
    right: &Expr,
) -> Result<i64, EvaluationError>
    requires found { FindsExpression slots.now env.now right.now }
    ensures { Calculates (integral result) (node.older left (value_of right.now env.now.variables)) }
{
    let right = value(env, slots, right)?;
    Ok(truth(is_older(&left, &right)))
}

#[cycle(value)]
fn comparison(
    env: &Environment,
    slots: &[u16],
    left: i64,
    how: Comparison,
    right: &Expr,
) -> Result<i64, EvaluationError>
    requires found { FindsExpression slots.now env.now right.now }
    ensures { Calculates (integral result) (node.comparison left how (value_of right.now env.now.variables)) }
{
    let right = operand(env, slots, right)?;
    Ok(truth(compare(how, left, right)))
}

#[cycle(value)]
fn add(
    env: &Environment,
    slots: &[u16],
    first: i64,
    rest: &[SumPart],
) -> Result<i64, EvaluationError>
    requires found { all_true (map (every_in_summand (has_slot slots.now env.now.names)) rest.now) ≡ true }
    ensures { Calculates (integral result) (sums env.now.variables (Int first) (map sum_part rest.now)) }
{
    let mut total = first;
    for part in rest {
        let right = operand(env, slots, &part.operand)?;
        total = sum(part.minus, total, right);
    }
    Ok(total)
}

#[cycle(value)]
fn multiply(
    env: &Environment,
    slots: &[u16],
    first: i64,
    rest: &[ProductPart],
) -> Result<i64, EvaluationError>
    requires found { all_true (map (every_in_factor (has_slot slots.now env.now.names)) rest.now) ≡ true }
    ensures { Calculates (integral result) (products env.now.variables (Int first) (map product_part rest.now)) }
{
    let mut total = first;
    for part in rest {
        let right = operand(env, slots, &part.operand)?;
        total = product(part.sign, total, right)?;
    }
    Ok(total)
}

// The values of arguments, from left to right.
#[inline(always)]
pub(crate) fn values(
    env: &Environment,
    slots: &[u16],
    args: &[Expr],
    room: Items<Value>,
) -> Result<Items<Value>, EvaluationError>
    requires args { FindsArguments slots.now env.now args.now }
    requires room { room ≡ [] }
    ensures { Calculates result (values_of args.now env.now.variables) }
{
    let mut values = room.0;
    values.try_reserve_exact(args.len())?;
    for e in args {
        values.push(evaluate(env, slots, e)?)?;
    }
    Ok(Items(values))
}
