// Whether two statements are one tree, with all offsets.

ghost use Rattle.std.specs.Prelude.{◌≡◌, ◌↔◌, IsTrue};
ghost use Rattle.script_grammar.specs.declared.tree.Act.TheVariants.{Pfor};

use crate::same_expression::{same_call, same_expr, same_name};
use script_grammar::{Act, CallText, Expr, Name, Right, Stmt};

fn same_right(right: &Right, other: &Right) -> bool
    ensures { IsTrue result ↔ (right.now ≡ other.now) }
{
    match (right, other) {
        (Right::Value(e), Right::Value(other)) => same_expr(e, other),
        (Right::Draw(at), Right::Draw(other)) => at == other,
        (Right::New(at), Right::New(other)) => at == other,
        (Right::Call(at, call), Right::Call(other, other_call)) => {
            at == other && same_call(call, other_call)
        }
        (Right::Spawn(at, call), Right::Spawn(other, other_call)) => {
            at == other && same_call(call, other_call)
        }
        _ => false,
    }
}

fn same_target(target: &Option<Name>, other: &Option<Name>) -> bool
    ensures { IsTrue result ↔ (target.now ≡ other.now) }
{
    match (target, other) {
        (Some(name), Some(other)) => same_name(name, other),
        (None, None) => true,
        _ => false,
    }
}

// Whether an act is the loop of these parts.
fn is_loop(
    act: &Act,
    var: &Name,
    lo: &Expr,
    hi: &Expr,
    target: &Option<Name>,
    call: &CallText,
) -> bool
    ensures { IsTrue result ↔ (Pfor var.now lo.now hi.now target.now call.now ≡ act.now) }
{
    match act {
        Act::Pfor {
            var: own_var,
            lo: own_lo,
            hi: own_hi,
            target: own_target,
            call: own_call,
        } => {
            same_name(var, own_var)
                && same_expr(lo, own_lo)
                && same_expr(hi, own_hi)
                && same_target(target, own_target)
                && same_call(call, own_call)
        }
        _ => false,
    }
}

#[cycle(statements)]
pub(crate) fn same_stmts(stmts: &[Stmt], others: &[Stmt]) -> bool
    ensures { IsTrue result ↔ (stmts.now ≡ others.now) }
{
    if stmts.len() != others.len() {
        return false;
    }
    for (i, stmt) in stmts.iter().enumerate() {
        let other = &others[i];
        if stmt.at != other.at || !same_act(&stmt.act, &other.act) {
            return false;
        }
    }
    true
}

#[cycle(statements)]
fn same_act(act: &Act, other: &Act) -> bool
    ensures { IsTrue result ↔ (act.now ≡ other.now) }
{
    match (act, other) {
        (Act::Let(name, right), Act::Let(other, other_right))
        | (Act::Set(name, right), Act::Set(other, other_right)) => {
            same_name(name, other) && same_right(right, other_right)
        }
        (Act::Array(name, length), Act::Array(other, other_length)) => {
            same_name(name, other) && *length == *other_length
        }
        (Act::Store(name, index, value), Act::Store(other, other_index, other_value)) => {
            same_name(name, other) && same_expr(index, other_index) && same_expr(value, other_value)
        }
        (Act::Spawn(call), Act::Spawn(other)) => same_call(call, other),
        (Act::Call(call), Act::Call(other)) => same_call(call, other),
        (Act::Sync, Act::Sync) => true,
        (Act::Print(e), Act::Print(other)) => same_expr(e, other),
        (Act::If(e, yes, no), Act::If(other, other_yes, other_no)) => {
            same_expr(e, other)
                && same_stmts(yes.as_slice(), other_yes.as_slice())
                && same_stmts(no.as_slice(), other_no.as_slice())
        }
        (Act::While(e, body), Act::While(other, other_body)) => {
            same_expr(e, other) && same_stmts(body.as_slice(), other_body.as_slice())
        }
        (
            Act::Pfor {
                var,
                lo,
                hi,
                target,
                call,
            },
            other,
        ) => is_loop(other, var, lo, hi, target, call),
        (Act::Scope(block), Act::Scope(other)) => same_stmts(block.as_slice(), other.as_slice()),
        _ => false,
    }
}
