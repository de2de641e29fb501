// Calculations of plain operands: numbers, variables, and products of both. Most expressions are such, and evaluate
// without recursion or an error value.

ghost use Rattle.std.specs.Prelude.{◌≡◌, Ok, IfSome, map, true};
ghost use Rattle.serial_meaning.specs.Values.{value_of, sums, products, sum_part, product_part};
ghost use Rattle.serial_meaning.specs.declared.value.Value.TheVariants.{Int};
ghost use Rattle.script_check.specs.Slots.{all_true, every_in_factor, every_in_summand, has_slot};
ghost use Rattle.strand_values.specs.Environments.{FindsExpression};
ghost use Rattle.strand_values.specs.Gives.{integer_result};
ghost use Rattle.strand_values.specs.Nodes as node;

use crate::arithmetic::{compare, product, sum};
use crate::environment::Environment;
use crate::scalar::truth;
use script_grammar::{Expr, ProductPart, SumPart};

// The value of an expression that is a number, a variable that holds an integer, or a calculation of plain operands.
// None for other expressions, and where a fault is met. The first two take no call.
#[inline(always)]
pub(crate) fn plain(env: &Environment, slots: &[u16], e: &Expr) -> Option<i64>
    requires { FindsExpression slots.now env.now e.now }
    ensures { IfSome result (λ n. value_of e.now env.now.variables ≡ Ok (Int n)) }
{
    match e {
        Expr::Number(number) => Some(number.value),
        Expr::Var(name) => env.integer_of(slots, name),
        _ => calculated(env, slots, e),
    }
}

// The same, for a loop over statements: a short calculation takes no call either.
#[inline(always)]
pub(crate) fn plain_in_place(env: &Environment, slots: &[u16], e: &Expr) -> Option<i64>
    requires { FindsExpression slots.now env.now e.now }
    ensures { IfSome result (λ n. value_of e.now env.now.variables ≡ Ok (Int n)) }
{
    match e {
        Expr::Number(number) => Some(number.value),
        Expr::Var(name) => env.integer_of(slots, name),
        _ => match short(env, slots, e) {
            Some(number) => Some(number),
            None => longer(env, slots, e),
        },
    }
}

// The same for a calculation of plain operands.
#[inline(never)]
fn calculated(env: &Environment, slots: &[u16], e: &Expr) -> Option<i64>
    requires { FindsExpression slots.now env.now e.now }
    ensures { IfSome result (λ n. value_of e.now env.now.variables ≡ Ok (Int n)) }
{
    match short(env, slots, e) {
        Some(number) => Some(number),
        None => longer(env, slots, e),
    }
}

// The same for a comparison of two leaves, and for a sum of two operands whose second one is a leaf. It takes no call.
#[inline(always)]
fn short(env: &Environment, slots: &[u16], e: &Expr) -> Option<i64>
    requires { FindsExpression slots.now env.now e.now }
    ensures { IfSome result (λ n. value_of e.now env.now.variables ≡ Ok (Int n)) }
{
    match e {
        Expr::Sum(first, rest) => {
            let [part] = rest.as_slice() else {
                return None;
            };
            let right = leaf(env, slots, &part.operand)?;
            let left = short_operand(env, slots, first.get())?;
            Some(sum(part.minus, left, right))
        }
        Expr::Compare(left, how, right) => {
            let left = leaf(env, slots, left.get())?;
            let right = leaf(env, slots, right.get())?;
            Some(truth(compare(*how, left, right)))
        }
        _ => None,
    }
}

// The value of a leaf or of a product of two leaves, as a number.
#[inline(always)]
fn short_operand(env: &Environment, slots: &[u16], e: &Expr) -> Option<i64>
    requires { FindsExpression slots.now env.now e.now }
    ensures { IfSome result (λ n. integer_result (value_of e.now env.now.variables) ≡ Ok n) }
{
    match e {
        Expr::Product(first, rest) => {
            let [part] = rest.as_slice() else {
                return None;
            };
            let left = leaf(env, slots, first.get())?;
            let right = leaf(env, slots, &part.operand)?;
            product(part.sign, left, right).ok()
        }
        _ => leaf(env, slots, e),
    }
}

// The same for any calculation of plain operands.
#[inline(never)]
fn longer(env: &Environment, slots: &[u16], e: &Expr) -> Option<i64>
    requires { FindsExpression slots.now env.now e.now }
    ensures { IfSome result (λ n. value_of e.now env.now.variables ≡ Ok (Int n)) }
{
    match e {
        Expr::Sum(first, rest) => {
            if rest.as_slice().is_empty() {
                return None;
            }
            let first = first_operand(env, slots, first.get())?;
            total(env, slots, first, rest.as_slice())
        }
        Expr::Product(first, rest) => {
            if rest.as_slice().is_empty() {
                return None;
            }
            scaled(env, slots, first.get(), rest.as_slice())
        }
        Expr::Compare(left, how, right) => {
            let left = first_operand(env, slots, left.get())?;
            let right = operand(env, slots, right.get())?;
            Some(truth(compare(*how, left, right)))
        }
        _ => None,
    }
}

// The value of a plain operand, as a number. A literal takes no call.
#[inline(always)]
fn operand(env: &Environment, slots: &[u16], e: &Expr) -> Option<i64>
    requires { FindsExpression slots.now env.now e.now }
    ensures { IfSome result (λ n. integer_result (value_of e.now env.now.variables) ≡ Ok n) }
{
    match e {
        Expr::Number(number) => Some(number.value),
        _ => first_operand(env, slots, e),
    }
}

// The same for an operand that is seldom a literal.
#[inline(always)]
fn first_operand(env: &Environment, slots: &[u16], e: &Expr) -> Option<i64>
    requires { FindsExpression slots.now env.now e.now }
    ensures { IfSome result (λ n. integer_result (value_of e.now env.now.variables) ≡ Ok n) }
{
    match e {
        Expr::Number(number) => Some(number.value),
        Expr::Var(name) => Some(env.integer_or_zero(slots, name)),
        Expr::Product(first, rest) => scaled(env, slots, first.get(), rest.as_slice()),
        _ => None,
    }
}

// The value of a literal or a variable, as a number.
#[inline(always)]
fn leaf(env: &Environment, slots: &[u16], e: &Expr) -> Option<i64>
    requires { FindsExpression slots.now env.now e.now }
    ensures { IfSome result (λ n. integer_result (value_of e.now env.now.variables) ≡ Ok n) }
{
    match e {
        Expr::Number(number) => Some(number.value),
        Expr::Var(name) => Some(env.integer_or_zero(slots, name)),
        _ => None,
    }
}

// A sum that begins with this number.
#[inline(always)]
fn total(env: &Environment, slots: &[u16], first: i64, rest: &[SumPart]) -> Option<i64>
    requires { all_true (map (every_in_summand (has_slot slots.now env.now.names)) rest.now) ≡ true }
    ensures { IfSome result (λ n. sums env.now.variables (Int first) (map sum_part rest.now) ≡ Ok (Int n)) }
{
    let mut total = first;
    for part in rest {
        let right = operand(env, slots, &part.operand)?;
        total = sum(part.minus, total, right);
    }
    Some(total)
}

// The value of a product, as a number.
fn scaled(env: &Environment, slots: &[u16], first: &Expr, rest: &[ProductPart]) -> Option<i64>
    requires first { FindsExpression slots.now env.now first.now }
    requires rest { all_true (map (every_in_factor (has_slot slots.now env.now.names)) rest.now) ≡ true }
    ensures { IfSome result (λ n. integer_result (node.product_value env.now.variables (value_of first.now env.now.variables) rest.now) ≡ Ok n) }
{
    let first = leaf(env, slots, first)?;
    multiplied(env, slots, first, rest)
}

// A product that begins with this number.
#[inline(always)]
fn multiplied(env: &Environment, slots: &[u16], first: i64, rest: &[ProductPart]) -> Option<i64>
    requires { all_true (map (every_in_factor (has_slot slots.now env.now.names)) rest.now) ≡ true }
    ensures { IfSome result (λ n. products env.now.variables (Int first) (map product_part rest.now) ≡ Ok (Int n)) }
{
    let mut total = first;
    for part in rest {
        let right = leaf(env, slots, &part.operand)?;
        total = product(part.sign, total, right).ok()?;
    }
    Some(total)
}
