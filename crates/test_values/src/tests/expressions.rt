// Expressions and writes on small environments.

use super::frame::{Frame, NAMES, name};
use super::same;
use contract_views::{Boxed, Items};
use ped_path::{Ped, Pedigree};
use script_grammar::{Comparison, Expr, Number, ProductPart, ProductSign, SumPart};
use serial_meaning::{FaultKind, Value};
use std::alloc::Global;
use std::process::Abort;
use std::test::Fail;
use strand_values::{EvaluationError, count_of, is_true, iteration_count, number};

fn int(value: i64) -> Expr {
    Expr::Number(Number { at: 0, value })
}

fn variable(text: &str) -> Expr {
    Expr::Var(name(text))
}

fn boxed(alloc: Global, e: Expr) -> Result<Boxed<Expr>, Fail> {
    Ok(Boxed(Box::new(alloc, e)?))
}

fn named(alloc: Global, text: &str) -> Result<Boxed<Expr>, Fail> {
    boxed(alloc, variable(text))
}

// The item `a[i]`.
fn item_of_a(alloc: Global, i: i64) -> Result<Expr, Fail> {
    Ok(Expr::Item(name("a"), boxed(alloc, int(i))?))
}

fn sum(alloc: Global, first: Expr, minus: bool, operand: Expr) -> Result<Expr, Fail> {
    let mut rest = Vec::new(alloc);
    rest.push(SumPart { minus, operand })?;
    Ok(Expr::Sum(boxed(alloc, first)?, Items(rest)))
}

fn product(alloc: Global, first: Expr, sign: ProductSign, operand: Expr) -> Result<Expr, Fail> {
    let mut rest = Vec::new(alloc);
    rest.push(ProductPart { sign, operand })?;
    Ok(Expr::Product(boxed(alloc, first)?, Items(rest)))
}

// A fault of the kind `Divide`.
fn divided(alloc: Global) -> Result<Expr, Fail> {
    product(alloc, int(1), ProductSign::Over, int(0))
}

// The object with the pedigree of this one rank.
fn object(alloc: Global, rank: u32) -> Result<Value, Fail> {
    Ok(Value::Id(Pedigree {
        path: Ped::root(alloc)?,
        rank: rank as u64,
    }))
}

// An Int `n` of 7, the objects `early` and `late`, and an array `a` of three zeros.
fn environment(alloc: Global) -> Result<Frame, Fail> {
    let mut environment = Frame::new(alloc)?;
    environment.set(alloc, &name("n"), Value::Int(7))?;
    for (text, rank) in [("early", 2), ("late", 5)] {
        environment.set(alloc, &name(text), object(alloc, rank)?)?;
    }
    environment.set_array(alloc, &name("a"), 3)?;
    Ok(environment)
}

// The integer that an expression gives there, or its fault.
fn value_of(alloc: Global, e: Expr) -> Result<Result<i64, FaultKind>, Fail> {
    value_in(alloc, &environment(alloc)?, &e)
}

// The same in this environment.
fn value_in(alloc: Global, environment: &Frame, e: &Expr) -> Result<Result<i64, FaultKind>, Fail> {
    match environment.value(alloc, e)? {
        Ok(value) => Ok(Ok(number(&value))),
        Err(EvaluationError::Fault(kind)) => Ok(Err(kind)),
        Err(error) => Err(error)?,
    }
}

const LEAST: i64 = i64::MIN;

const GREATEST: i64 = i64::MAX;

static PRODUCTS: [(i64, ProductSign, i64, Result<i64, FaultKind>); 13] = [
    (6, ProductSign::Times, 7, Ok(42)),
    (GREATEST, ProductSign::Times, 2, Ok(-2)),
    (LEAST, ProductSign::Times, -1, Ok(LEAST)),
    (7, ProductSign::Over, 2, Ok(3)),
    (-7, ProductSign::Over, 2, Ok(-3)),
    (7, ProductSign::Over, -2, Ok(-3)),
    (LEAST, ProductSign::Over, -1, Ok(LEAST)),
    (7, ProductSign::Modulo, 2, Ok(1)),
    (-7, ProductSign::Modulo, 2, Ok(-1)),
    (7, ProductSign::Modulo, -2, Ok(1)),
    (LEAST, ProductSign::Modulo, -1, Ok(0)),
    (1, ProductSign::Over, 0, Err(FaultKind::Divide)),
    (1, ProductSign::Modulo, 0, Err(FaultKind::Divide)),
];

#[test]
fn products_wrap_and_quotients_are_cut_toward_zero(rt: HostRuntime) -> Result<(), Fail> {
    for &(x, sign, y, expected) in &PRODUCTS {
        let e = product(rt.alloc(), int(x), sign, int(y))?;
        same(
            &rt,
            format_args!("{x} {sign:?} {y}"),
            value_of(rt.alloc(), e)?,
            expected,
        );
    }
    Ok(())
}

static SUMS: [(i64, bool, i64, i64); 4] = [
    (1, false, 1, 2),
    (GREATEST, false, 1, LEAST),
    (2, true, 3, -1),
    (LEAST, true, 1, GREATEST),
];

#[test]
fn sums_wrap(rt: HostRuntime) -> Result<(), Fail> {
    for &(x, minus, y, expected) in &SUMS {
        let e = sum(rt.alloc(), int(x), minus, int(y))?;
        same(
            &rt,
            format_args!("{x} {minus} {y}"),
            value_of(rt.alloc(), e)?,
            Ok(expected),
        );
    }
    Ok(())
}

#[test]
fn minuses_wrap(rt: HostRuntime) -> Result<(), Fail> {
    for (x, expected) in [(7, -7), (0, 0), (LEAST, LEAST)] {
        let e = Expr::Neg(0, boxed(rt.alloc(), int(x))?);
        same(&rt, x, value_of(rt.alloc(), e)?, Ok(expected));
    }
    Ok(())
}

// What 0, 1 and 2 give, compared with 1.
static COMPARISONS: [(Comparison, [i64; 3]); 6] = [
    (Comparison::Eq, [0, 1, 0]),
    (Comparison::Ne, [1, 0, 1]),
    (Comparison::Lt, [1, 0, 0]),
    (Comparison::Le, [1, 1, 0]),
    (Comparison::Gt, [0, 0, 1]),
    (Comparison::Ge, [0, 1, 1]),
];

// The comparison of an integer with 1.
fn with_one(alloc: Global, left: i64, how: Comparison) -> Result<Expr, Fail> {
    let left = boxed(alloc, int(left))?;
    Ok(Expr::Compare(left, how, boxed(alloc, int(1))?))
}

#[test]
fn comparisons_are_1_or_0(rt: HostRuntime) -> Result<(), Fail> {
    for &(how, expected) in &COMPARISONS {
        for i in 0..3usize {
            let e = with_one(rt.alloc(), i as i64, how)?;
            same(
                &rt,
                format_args!("{i} {how:?} 1"),
                value_of(rt.alloc(), e)?,
                Ok(expected[i]),
            );
        }
    }
    Ok(())
}

#[test]
fn all_but_0_hold(rt: HostRuntime) -> Result<(), Fail> {
    let environment = environment(rt.alloc())?;
    for (number, holds) in [(0, false), (1, true), (-1, true)] {
        same(&rt, number, is_true(&Value::Int(number)), holds);
        same(
            &rt,
            number,
            environment.holds(rt.alloc(), &int(number))?,
            holds,
        );
    }
    Ok(())
}

// `n - 3 - 4`
fn two_differences(alloc: Global) -> Result<Expr, Fail> {
    let mut parts = Vec::new(alloc);
    for number in [3, 4] {
        parts.push(SumPart {
            minus: true,
            operand: int(number),
        })?;
    }
    Ok(Expr::Sum(named(alloc, "n")?, Items(parts)))
}

#[test]
fn differences_go_from_the_left(rt: HostRuntime) -> Result<(), Fail> {
    let e = two_differences(rt.alloc())?;
    same(&rt, "n - 3 - 4", value_of(rt.alloc(), e)?, Ok(0));
    Ok(())
}

fn part(sign: ProductSign, operand: Expr) -> ProductPart {
    ProductPart { sign, operand }
}

// `1 / 0 * a[9]`
fn quotient_and_product(alloc: Global) -> Result<Expr, Fail> {
    let mut parts = Vec::new(alloc);
    parts.push(part(ProductSign::Over, int(0)))?;
    parts.push(part(ProductSign::Times, item_of_a(alloc, 9)?))?;
    Ok(Expr::Product(boxed(alloc, int(1))?, Items(parts)))
}

// The quotient is taken before the index is looked at.
#[test]
fn an_operation_is_done_before_the_next_operand(rt: HostRuntime) -> Result<(), Fail> {
    let e = quotient_and_product(rt.alloc())?;
    same(
        &rt,
        "1 / 0 * a[9]",
        value_of(rt.alloc(), e)?,
        Err(FaultKind::Divide),
    );
    Ok(())
}

// `a[9] * (1 / 0)`
fn two_faults(alloc: Global) -> Result<Expr, Fail> {
    let left = item_of_a(alloc, 9)?;
    product(alloc, left, ProductSign::Times, divided(alloc)?)
}

#[test]
fn the_left_operand_faults_first(rt: HostRuntime) -> Result<(), Fail> {
    let e = two_faults(rt.alloc())?;
    same(
        &rt,
        "a[9] * (1 / 0)",
        value_of(rt.alloc(), e)?,
        Err(FaultKind::Index),
    );
    Ok(())
}

fn same_ids(alloc: Global, left: &str, right: &str) -> Result<Expr, Fail> {
    Ok(Expr::Same(0, named(alloc, left)?, named(alloc, right)?))
}

fn older_ids(alloc: Global, left: &str, right: &str) -> Result<Expr, Fail> {
    Ok(Expr::Older(0, named(alloc, left)?, named(alloc, right)?))
}

#[test]
fn ids_are_the_same_and_older_by_their_pedigrees(rt: HostRuntime) -> Result<(), Fail> {
    for (left, right, is_same, is_older) in [
        ("early", "early", 1, 0),
        ("early", "late", 0, 1),
        ("late", "early", 0, 0),
    ] {
        let compared = value_of(rt.alloc(), same_ids(rt.alloc(), left, right)?)?;
        same(
            &rt,
            format_args!("same {left} {right}"),
            compared,
            Ok(is_same),
        );
        let compared = value_of(rt.alloc(), older_ids(rt.alloc(), left, right)?)?;
        same(
            &rt,
            format_args!("older {left} {right}"),
            compared,
            Ok(is_older),
        );
    }
    Ok(())
}

// The array `a` with 9 as its last item.
fn with_nine(alloc: Global) -> Result<Frame, Fail> {
    let mut environment = environment(alloc)?;
    environment.set_item(alloc, &name("a"), 2, 9)?;
    Ok(environment)
}

static ITEMS: [(i64, Result<i64, FaultKind>); 4] = [
    (-1, Err(FaultKind::Index)),
    (0, Ok(0)),
    (2, Ok(9)),
    (3, Err(FaultKind::Index)),
];

// The item of `a` is this, and so is what its expression gives.
fn reads(
    rt: &(impl Abort + AllocGlobal),
    environment: &Frame,
    i: i64,
    expected: Result<i64, FaultKind>,
) -> Result<(), Fail> {
    let found = environment.item(rt.alloc(), &name("a"), i)?;
    same(rt, format_args!("item {i}"), found, expected.ok());
    let given = value_in(rt.alloc(), environment, &item_of_a(rt.alloc(), i)?)?;
    same(rt, format_args!("item {i}"), given, expected);
    Ok(())
}

#[test]
fn items_are_read_and_written_within_the_array(rt: HostRuntime) -> Result<(), Fail> {
    let environment = with_nine(rt.alloc())?;
    for &(i, expected) in &ITEMS {
        reads(&rt, &environment, i, expected)?;
    }
    Ok(())
}

#[test]
fn arrays_have_room_for_their_length(rt: HostRuntime) -> Result<(), Fail> {
    let environment = environment(rt.alloc())?;
    let a = name("a");
    assert!(rt; environment.has_room(rt.alloc(), &a, 3)?);
    assert!(rt; !environment.has_room(rt.alloc(), &a, 4)?);
    Ok(())
}

// The same array after a loop of two iterations into it, and one into no array.
fn filled(alloc: Global) -> Result<Frame, Fail> {
    let mut environment = with_nine(alloc)?;
    let a = name("a");
    environment.fill(alloc, Some(&a), &[Value::Int(4), Value::Int(5)])?;
    environment.fill(alloc, None, &[Value::Int(6)])?;
    Ok(environment)
}

#[test]
fn the_values_of_a_loop_are_the_first_items(rt: HostRuntime) -> Result<(), Fail> {
    let environment = filled(rt.alloc())?;
    let a = name("a");
    for (i, expected) in [(0, 4), (1, 5), (2, 9)] {
        same(&rt, i, environment.item(rt.alloc(), &a, i)?, Some(expected));
    }
    Ok(())
}

// The environment where `n` is 8, and there is an `x` of 1.
fn with_scalars(alloc: Global) -> Result<Frame, Fail> {
    let mut environment = environment(alloc)?;
    for (text, number) in [("n", 8), ("x", 1)] {
        environment.set(alloc, &name(text), Value::Int(number))?;
    }
    Ok(environment)
}

#[test]
fn scalars_are_set_by_name(rt: HostRuntime) -> Result<(), Fail> {
    let environment = with_scalars(rt.alloc())?;
    for (text, expected) in [("n", 8), ("x", 1)] {
        let e = variable(text);
        same(
            &rt,
            text,
            value_in(rt.alloc(), &environment, &e)?,
            Ok(expected),
        );
    }
    Ok(())
}

// The environment where each name holds its slot's number.
fn with_names(alloc: Global) -> Result<Frame, Fail> {
    let mut environment = environment(alloc)?;
    for (i, &text) in NAMES.iter().enumerate() {
        environment.set(alloc, &name(text), Value::Int(i as i64))?;
    }
    Ok(environment)
}

#[test]
fn names_differ_by_their_lengths_and_by_each_byte(rt: HostRuntime) -> Result<(), Fail> {
    let environment = with_names(rt.alloc())?;
    for (i, &text) in NAMES.iter().enumerate() {
        let e = variable(text);
        same(
            &rt,
            text,
            value_in(rt.alloc(), &environment, &e)?,
            Ok(i as i64),
        );
    }
    Ok(())
}

// The error of `n = 1 / 0` after `n = 9`.
fn error_of_assignment(
    alloc: Global,
    environment: &mut Frame,
) -> Result<Option<EvaluationError>, Fail> {
    let n = name("n");
    environment.assign(alloc, &n, &int(9))?;
    environment.assign(alloc, &n, &divided(alloc)?)
}

#[test]
fn an_assignment_that_faults_changes_nothing(rt: HostRuntime) -> Result<(), Fail> {
    let mut environment = environment(rt.alloc())?;
    let error = error_of_assignment(rt.alloc(), &mut environment)?;
    same(
        &rt,
        "n = 1 / 0",
        error,
        Some(EvaluationError::Fault(FaultKind::Divide)),
    );
    let e = variable("n");
    same(&rt, "n", value_in(rt.alloc(), &environment, &e)?, Ok(9));
    Ok(())
}

// The integers that two arguments give.
fn numbers(alloc: Global, first: Expr, second: Expr) -> Result<Vec<i64>, Fail> {
    let values = environment(alloc)?.values(alloc, first, second)??;
    let mut numbers = Vec::new(alloc);
    for value in values.as_slice() {
        numbers.push(number(value))?;
    }
    Ok(numbers)
}

#[test]
fn arguments_are_taken_from_the_left(rt: HostRuntime) -> Result<(), Fail> {
    let found = numbers(rt.alloc(), variable("n"), int(3))?;
    same(&rt, "n, 3", found.as_slice(), [7, 3].as_slice());
    Ok(())
}

#[test]
fn the_first_fault_of_arguments_is_told(rt: HostRuntime) -> Result<(), Fail> {
    let environment = environment(rt.alloc())?;
    let (first, second) = (item_of_a(rt.alloc(), 9)?, divided(rt.alloc())?);
    let error = environment.values(rt.alloc(), first, second)?.err();
    same(
        &rt,
        "a[9], 1 / 0",
        error,
        Some(EvaluationError::Fault(FaultKind::Index)),
    );
    Ok(())
}

#[test]
fn a_loop_has_the_integers_between_its_bounds(rt: HostRuntime) {
    for (lo, hi, wanted) in [(3, 5, 2), (5, 3, 0), (LEAST, GREATEST, u64::MAX)] {
        same(
            &rt,
            format_args!("{lo}..{hi}"),
            iteration_count(lo, hi),
            wanted,
        );
    }
    for (number, wanted) in [(12, 12), (-1, 0)] {
        same(&rt, number, count_of(number), wanted);
    }
}
