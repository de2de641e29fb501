// Whether the texts of functions contain a spawn.

ghost use Rattle.std.specs.Prelude.{◌≡◌, IfOk};
ghost use Rattle.script_check.specs.Spawns.{any_spawns, each_spawns, spawns, is_spawn};

use crate::memory::Memory;
use contract_views::Items;
use script_grammar::{Act, Function, Right, Stmt};
use std::alloc::Global;

// Of each function, whether the word `spawn` is in its text.
pub(crate) fn each_spawns(alloc: Global, functions: &[Function]) -> Result<Items<bool>, Memory>
    ensures { IfOk result (λ each. each ≡ each_spawns functions.now) }
{
    let mut each = Vec::with_capacity(alloc, functions.len())?;
    for f in functions {
        each.push(any_spawns(f.body.as_slice()))?;
    }
    Ok(Items(each))
}

// Whether the word `spawn` is in these statements, also in their blocks.
#[cycle(texts)]
fn any_spawns(statements: &[Stmt]) -> bool
    ensures { result ≡ any_spawns statements.now }
{
    for statement in statements {
        if spawns(statement) {
            return true;
        }
    }
    false
}

#[cycle(texts)]
fn spawns(statement: &Stmt) -> bool
    ensures { result ≡ spawns statement.now }
{
    match &statement.act {
        Act::Let(_, r) | Act::Set(_, r) => is_spawn(r),
        Act::Spawn(_) => true,
        Act::If(_, yes, no) => any_spawns(yes.as_slice()) || any_spawns(no.as_slice()),
        Act::While(_, body) | Act::Scope(body) => any_spawns(body.as_slice()),
        _ => false,
    }
}

fn is_spawn(right: &Right) -> bool
    ensures { result ≡ is_spawn right.now }
{
    matches!(right, Right::Spawn(_, _))
}
