// The variables that a function's text names, in the order of the text.

ghost use Rattle.std.specs.Prelude.{◌≡◌, ◌++◌, ◌∷◌, [], IfOk, OnOk, map};
ghost use Rattle.script_check.specs.Slots.{joined, named_in, named_in_all, named_in_block, named_in_factor, named_in_function, named_in_right, named_in_statement, named_in_summand, named_in_target};

use crate::memory::Memory;
use contract_views::Items;
use script_grammar::{Act, CallText, Expr, Function, Name, ProductPart, Right, Stmt, SumPart};
use std::alloc::Global;

// Those of a whole function, without its parameters.
pub(crate) fn named_in(alloc: Global, f: &Function) -> Result<Items<Name>, Memory>
    ensures { IfOk result (λ named. named ≡ named_in_function f.now) }
{
    let mut named = Vec::new(alloc);
    in_block(&mut named, f.body.as_slice())?;
    in_expr(&mut named, &f.result)?;
    Ok(Items(named))
}

#[cycle(named)]
fn in_block(named: &mut Vec<Name>, statements: &[Stmt]) -> Result<(), Memory>
    ensures { OnOk result (named.new.items ≡ named.old.items ++ named_in_block statements.now) }
{
    for statement in statements {
        in_statement(named, statement)?;
    }
    Ok(())
}

#[cycle(named)]
fn in_statement(named: &mut Vec<Name>, statement: &Stmt) -> Result<(), Memory>
    ensures { OnOk result (named.new.items ≡ named.old.items ++ named_in_statement statement.now) }
{
    match &statement.act {
        Act::Let(x, r) | Act::Set(x, r) => {
            add_name(named, x)?;
            in_right(named, r)?;
            Ok(())
        }
        Act::Array(x, _) => add_name(named, x),
        Act::Store(x, i, e) => {
            add_name(named, x)?;
            in_both(named, i, e)?;
            Ok(())
        }
        Act::Spawn(c) | Act::Call(c) => in_all(named, c.args.as_slice()),
        Act::Sync => Ok(()),
        Act::Print(e) => in_expr(named, e),
        Act::If(e, yes, no) => {
            in_expr(named, e)?;
            in_block(named, yes.as_slice())?;
            in_block(named, no.as_slice())?;
            Ok(())
        }
        Act::While(e, body) => {
            in_expr(named, e)?;
            in_block(named, body.as_slice())?;
            Ok(())
        }
        Act::Pfor {
            var: _,
            lo,
            hi,
            target,
            call,
        } => in_loop(named, lo, hi, target, call),
        Act::Scope(block) => in_block(named, block.as_slice()),
    }
}

fn in_loop(
    named: &mut Vec<Name>,
    lo: &Expr,
    hi: &Expr,
    target: &Option<Name>,
    call: &CallText,
) -> Result<(), Memory>
    ensures { OnOk result (named.new.items ≡ named.old.items
        ++ (named_in lo.now ++ (named_in hi.now ++ (named_in_target target.now ++ named_in_all call.now.args)))) }
{
    in_both(named, lo, hi)?;
    in_target(named, target)?;
    in_all(named, call.args.as_slice())?;
    Ok(())
}

fn in_target(named: &mut Vec<Name>, target: &Option<Name>) -> Result<(), Memory>
    ensures { OnOk result (named.new.items ≡ named.old.items ++ named_in_target target.now) }
{
    match target {
        Some(x) => add_name(named, x),
        None => Ok(()),
    }
}

fn in_both(named: &mut Vec<Name>, left: &Expr, right: &Expr) -> Result<(), Memory>
    ensures { OnOk result (named.new.items ≡ named.old.items ++ (named_in left.now ++ named_in right.now)) }
{
    in_expr(named, left)?;
    in_expr(named, right)?;
    Ok(())
}

fn in_right(named: &mut Vec<Name>, right: &Right) -> Result<(), Memory>
    ensures { OnOk result (named.new.items ≡ named.old.items ++ named_in_right right.now) }
{
    match right {
        Right::Value(e) => in_expr(named, e),
        Right::Draw(_) | Right::New(_) => Ok(()),
        Right::Call(_, c) | Right::Spawn(_, c) => in_all(named, c.args.as_slice()),
    }
}

fn in_all(named: &mut Vec<Name>, es: &[Expr]) -> Result<(), Memory>
    ensures { OnOk result (named.new.items ≡ named.old.items ++ named_in_all es.now) }
{
    for e in es {
        in_expr(named, e)?;
    }
    Ok(())
}

#[cycle(operands)]
fn in_expr(named: &mut Vec<Name>, e: &Expr) -> Result<(), Memory>
    ensures { OnOk result (named.new.items ≡ named.old.items ++ named_in e.now) }
{
    match e {
        Expr::Number(_) => Ok(()),
        Expr::Var(x) => add_name(named, x),
        Expr::Item(x, i) => {
            add_name(named, x)?;
            in_expr(named, i.get())?;
            Ok(())
        }
        Expr::Neg(_, e) => in_expr(named, e.get()),
        Expr::Same(_, a, b) | Expr::Older(_, a, b) | Expr::Compare(a, _, b) => {
            in_expr(named, a.get())?;
            in_expr(named, b.get())?;
            Ok(())
        }
        Expr::Sum(first, rest) => {
            in_expr(named, first.get())?;
            in_summands(named, rest.as_slice())?;
            Ok(())
        }
        Expr::Product(first, rest) => {
            in_expr(named, first.get())?;
            in_factors(named, rest.as_slice())?;
            Ok(())
        }
    }
}

#[cycle(operands)]
fn in_summands(named: &mut Vec<Name>, parts: &[SumPart]) -> Result<(), Memory>
    ensures { OnOk result (named.new.items ≡ named.old.items ++ joined (map named_in_summand parts.now)) }
{
    for part in parts {
        in_expr(named, &part.operand)?;
    }
    Ok(())
}

#[cycle(operands)]
fn in_factors(named: &mut Vec<Name>, parts: &[ProductPart]) -> Result<(), Memory>
    ensures { OnOk result (named.new.items ≡ named.old.items ++ joined (map named_in_factor parts.now)) }
{
    for part in parts {
        in_expr(named, &part.operand)?;
    }
    Ok(())
}

// Adds a name.
pub(crate) fn add_name(named: &mut Vec<Name>, x: &Name) -> Result<(), Memory>
    ensures { OnOk result (named.new.items ≡ named.old.items ++ x.now ∷ []) }
{
    named.push(x.copy())?;
    Ok(())
}
