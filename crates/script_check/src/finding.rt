// Whether a table has the slot of each variable that an expression names.

ghost use Rattle.std.specs.Prelude.{◌≡◌, IfOk, map};
ghost use Rattle.script_check.specs.Walk.{finds};
ghost use Rattle.script_check.specs.Slots.{all_true, every_in, every_in_factor, every_in_summand, has_slot};

use crate::memory::Memory;
use crate::symbols::MOST_VARIABLES;
use crate::variables::Variables;
use contract_views::Items;
use script_grammar::{Expr, Name, NameText, ProductPart, SumPart};
use std::alloc::Global;
use std::marker::Model;

// A table of slots by offset, and variables with their slots. Contracts see the table and the names.
#[derive(Drop)]
struct Finding<'t> {
    table: &'t [u16],
    variables: &'t Variables,
}

impl<'t> Model for Finding<'t> {
    ghost use Rattle.script_check.specs.Walk.{FindingView};

    ghost Value = { FindingView };

    ghost view = { λ f. record { table = f.table.now; names = f.variables.now } };
}

/// Whether a table has the slot of each variable that an expression names. For testing tables without a script: of the names `x`
/// and `y` a table of 0 and 1 has those of `x` at 0 and of `y` at 1, and not the other way round. More names than a function may
/// have variables also give `Memory`.
pub fn finds(
    alloc: Global,
    table: &[u16],
    names: &Items<NameText>,
    e: &Expr,
) -> Result<bool, Memory>
    ensures { IfOk result (λ all. all ≡ every_in (has_slot table.now names.now) e.now) }
{
    let names = names.as_slice();
    if names.len() > MOST_VARIABLES {
        return Err(Memory);
    }
    let mut variables = Variables::new(alloc);
    for name in names {
        variables = variables.with(alloc, name)?;
    }
    let finding = Finding {
        table,
        variables: &variables,
    };
    Ok(in_expr(&finding, e))
}

// Whether the table has this name's slot at its offset.
fn has_slot(f: &Finding, x: &Name) -> bool
    ensures { result ≡ finds f.now x.now }
{
    match (f.table.get(x.at as usize), f.variables.slot(&x.bytes)) {
        (Some(slot), Some(own)) => *slot == own,
        _ => false,
    }
}

#[cycle(finding)]
fn in_expr(f: &Finding, e: &Expr) -> bool
    ensures { result ≡ every_in (finds f.now) e.now }
{
    match e {
        Expr::Number(_) => true,
        Expr::Var(x) => has_slot(f, x),
        Expr::Item(x, i) => has_slot(f, x) && in_expr(f, i.get()),
        Expr::Neg(_, e) => in_expr(f, e.get()),
        Expr::Same(_, a, b) => in_expr(f, a.get()) && in_expr(f, b.get()),
        Expr::Older(_, a, b) => in_expr(f, a.get()) && in_expr(f, b.get()),
        Expr::Compare(a, _, b) => in_expr(f, a.get()) && in_expr(f, b.get()),
        Expr::Sum(first, rest) => in_expr(f, first.get()) && in_summands(f, rest.as_slice()),
        Expr::Product(first, rest) => in_expr(f, first.get()) && in_factors(f, rest.as_slice()),
    }
}

#[cycle(finding)]
fn in_summands(f: &Finding, parts: &[SumPart]) -> bool
    ensures { result ≡ all_true (map (every_in_summand (finds f.now)) parts.now) }
{
    for part in parts {
        if !in_expr(f, &part.operand) {
            return false;
        }
    }
    true
}

#[cycle(finding)]
fn in_factors(f: &Finding, parts: &[ProductPart]) -> bool
    ensures { result ≡ all_true (map (every_in_factor (finds f.now)) parts.now) }
{
    for part in parts {
        if !in_expr(f, &part.operand) {
            return false;
        }
    }
    true
}
