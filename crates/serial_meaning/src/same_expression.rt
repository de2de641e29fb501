// Whether two expressions are one tree, with all offsets.

ghost use Rattle.std.specs.Prelude.{◌≡◌, ◌↔◌, IsTrue};

use script_grammar::{CallText, Expr, Name, ProductPart, SumPart};

pub(crate) fn same_name(name: &Name, other: &Name) -> bool
    ensures { IsTrue result ↔ (name.now ≡ other.now) }
{
    name.at == other.at && name.bytes.same(&other.bytes)
}

#[cycle(expressions)]
pub(crate) fn same_expr(e: &Expr, other: &Expr) -> bool
    ensures { IsTrue result ↔ (e.now ≡ other.now) }
{
    match (e, other) {
        (Expr::Number(number), Expr::Number(other)) => *number == *other,
        (Expr::Var(name), Expr::Var(other)) => same_name(name, other),
        (Expr::Item(name, index), Expr::Item(other, other_index)) => {
            same_name(name, other) && same_expr(index.get(), other_index.get())
        }
        (Expr::Neg(at, x), Expr::Neg(other, y)) => at == other && same_expr(x.get(), y.get()),
        (Expr::Same(at, x, y), Expr::Same(other, other_x, other_y)) => {
            at == other && same_expr(x.get(), other_x.get()) && same_expr(y.get(), other_y.get())
        }
        (Expr::Older(at, x, y), Expr::Older(other, other_x, other_y)) => {
            at == other && same_expr(x.get(), other_x.get()) && same_expr(y.get(), other_y.get())
        }
        (Expr::Compare(x, how, y), Expr::Compare(other_x, other, other_y)) => {
            *how == *other && same_expr(x.get(), other_x.get()) && same_expr(y.get(), other_y.get())
        }
        (Expr::Sum(x, parts), Expr::Sum(other, other_parts)) => {
            same_expr(x.get(), other.get())
                && same_sum_parts(parts.as_slice(), other_parts.as_slice())
        }
        (Expr::Product(x, parts), Expr::Product(other, other_parts)) => {
            same_expr(x.get(), other.get())
                && same_product_parts(parts.as_slice(), other_parts.as_slice())
        }
        _ => false,
    }
}

#[cycle(expressions)]
fn same_sum_parts(parts: &[SumPart], others: &[SumPart]) -> bool
    ensures { IsTrue result ↔ (parts.now ≡ others.now) }
{
    if parts.len() != others.len() {
        return false;
    }
    for (i, part) in parts.iter().enumerate() {
        let other = &others[i];
        if part.minus != other.minus || !same_expr(&part.operand, &other.operand) {
            return false;
        }
    }
    true
}

#[cycle(expressions)]
fn same_product_parts(parts: &[ProductPart], others: &[ProductPart]) -> bool
    ensures { IsTrue result ↔ (parts.now ≡ others.now) }
{
    if parts.len() != others.len() {
        return false;
    }
    for (i, part) in parts.iter().enumerate() {
        let other = &others[i];
        if part.sign != other.sign || !same_expr(&part.operand, &other.operand) {
            return false;
        }
    }
    true
}

// Whether both lists have the same expressions.
pub(crate) fn same_exprs(exprs: &[Expr], others: &[Expr]) -> bool
    ensures { IsTrue result ↔ (exprs.now ≡ others.now) }
{
    if exprs.len() != others.len() {
        return false;
    }
    for (i, e) in exprs.iter().enumerate() {
        if !same_expr(e, &others[i]) {
            return false;
        }
    }
    true
}

pub(crate) fn same_call(call: &CallText, other: &CallText) -> bool
    ensures { IsTrue result ↔ (call.now ≡ other.now) }
{
    same_name(&call.name, &other.name) && same_exprs(call.args.as_slice(), other.args.as_slice())
}
