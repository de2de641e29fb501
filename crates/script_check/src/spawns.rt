// Which names statements leave pending.

ghost use Rattle.std.specs.Prelude.{◌≡◌, IfOk, OnOk};
ghost use Rattle.script_check.specs.Names.{no_names, union};
ghost use Rattle.script_check.specs.Statements.{after, judge};
ghost use Rattle.script_check.specs.Walk.{walk_state, keeps, keeps_all};

use crate::memory::Memory;
use crate::symbols::SymbolTable;
use script_grammar::{Act, Right, Stmt};
use std::alloc::Global;

// Adds the names that these statements leave pending where nothing was before. Returns whether what was pending before may still be
// so after them. It goes from the last statement to the first, so that it meets a sync, also that at the end of a scope, before the
// spawns that the sync ends.
#[cycle(spawns)]
pub(crate) fn collect(
    alloc: Global,
    symbols: &mut SymbolTable,
    statements: &[Stmt],
) -> Result<bool, Memory>
    ensures keeps { IfOk result (λ b. b ≡ keeps_all statements.now) }
    ensures state { OnOk result (walk_state symbols.new ≡ record (walk_state symbols.old) { names = union (after statements.now no_names) (walk_state symbols.old).names }) }
{
    let mut i = statements.len();
    while i > 0 {
        i -= 1;
        if !collect_one(alloc, symbols, &statements[i])? {
            return Ok(false);
        }
    }
    Ok(true)
}

// The same for one statement.
#[cycle(spawns)]
fn collect_one(alloc: Global, symbols: &mut SymbolTable, statement: &Stmt) -> Result<bool, Memory>
    ensures keeps { IfOk result (λ b. b ≡ keeps statement.now) }
    ensures state { OnOk result (walk_state symbols.new ≡ record (walk_state symbols.old) { names = union ((judge statement.now).after no_names) (walk_state symbols.old).names }) }
{
    match &statement.act {
        Act::Let(x, Right::Spawn(_, _)) => {
            symbols.add_pending(alloc, x)?;
            Ok(true)
        }
        Act::Set(x, Right::Spawn(_, _)) => {
            symbols.add_pending(alloc, x)?;
            Ok(true)
        }
        Act::Sync | Act::Scope(_) => Ok(false),
        Act::If(_, a, b) => {
            let first = collect(alloc, symbols, a.as_slice())?;
            let second = collect(alloc, symbols, b.as_slice())?;
            Ok(first || second)
        }
        Act::While(_, a) => {
            collect(alloc, symbols, a.as_slice())?;
            Ok(true)
        }
        _ => Ok(true),
    }
}
