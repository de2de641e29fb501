// Which function each call of a script means, by the name's offset.

ghost use Rattle.std.specs.Prelude.{◌≡◌, ◌≤◌, ◌++◌, ◌∷◌, [], IfOk, OnOk, length};
ghost use Rattle.script_check.specs.Slots.{called_in, called_in_block, called_in_right, called_in_statement, function_names, table_of_callees, with_entries};
ghost use Rattle.script_check.specs.Tables.{table_of};
ghost use Rattle.script_check.specs.Walk.{IsIndex};

use crate::memory::Memory;
use crate::named::add_name;
use crate::names::NameTable;
use crate::slots::set_entry;
use contract_views::Items;
use script_grammar::{Act, Function, Name, Right, Stmt};
use std::alloc::Global;

// Maps the offset of each called name to the index of the first function with that name.
pub(crate) fn callees(
    alloc: Global,
    first: &NameTable<u32>,
    functions: &[Function],
) -> Result<Items<u16>, Memory>
    requires index { IsIndex functions.now (table_of first.now.map) }
    requires few { length functions.now ≤ 1024 }
    ensures { IfOk result (λ table. table ≡ table_of_callees functions.now) }
{
    let called = called_in(alloc, functions)?;
    let mut table = Vec::new(alloc);
    put_each(&mut table, first, functions, called.as_slice())?;
    Ok(Items(table))
}

// The index of the function of each of these names.
fn put_each(
    table: &mut Vec<u16>,
    first: &NameTable<u32>,
    functions: &[Function],
    called: &[Name],
) -> Result<(), Memory>
    requires index { IsIndex functions.now (table_of first.now.map) }
    requires few { length functions.now ≤ 1024 }
    ensures { OnOk result (table.new.items ≡ with_entries (function_names functions.now) table.old.items called.now) }
{
    for name in called {
        let number = first.get(name.bytes.as_slice()).unwrap_or(0);
        set_entry(table, name.at as usize, number as u16)?;
    }
    Ok(())
}

// The names by which a script calls functions, in the order of the text.
fn called_in(alloc: Global, functions: &[Function]) -> Result<Items<Name>, Memory>
    ensures { IfOk result (λ called. called ≡ called_in functions.now) }
{
    let mut called = Vec::new(alloc);
    for f in functions {
        in_block(&mut called, f.body.as_slice())?;
    }
    Ok(Items(called))
}

#[cycle(called)]
fn in_block(called: &mut Vec<Name>, statements: &[Stmt]) -> Result<(), Memory>
    ensures { OnOk result (called.new.items ≡ called.old.items ++ called_in_block statements.now) }
{
    for statement in statements {
        in_statement(called, statement)?;
    }
    Ok(())
}

#[cycle(called)]
fn in_statement(called: &mut Vec<Name>, statement: &Stmt) -> Result<(), Memory>
    ensures { OnOk result (called.new.items ≡ called.old.items ++ called_in_statement statement.now) }
{
    match &statement.act {
        Act::Let(_, r) | Act::Set(_, r) => in_right(called, r),
        Act::Spawn(c) | Act::Call(c) => add_name(called, &c.name),
        Act::Pfor {
            var: _,
            lo: _,
            hi: _,
            target: _,
            call,
        } => add_name(called, &call.name),
        Act::If(_, yes, no) => {
            in_block(called, yes.as_slice())?;
            in_block(called, no.as_slice())?;
            Ok(())
        }
        Act::While(_, body) | Act::Scope(body) => in_block(called, body.as_slice()),
        Act::Array(_, _) | Act::Store(_, _, _) | Act::Sync | Act::Print(_) => Ok(()),
    }
}

fn in_right(called: &mut Vec<Name>, right: &Right) -> Result<(), Memory>
    ensures { OnOk result (called.new.items ≡ called.old.items ++ called_in_right right.now) }
{
    match right {
        Right::Call(_, c) | Right::Spawn(_, c) => add_name(called, &c.name),
        Right::Value(_) | Right::Draw(_) | Right::New(_) => Ok(()),
    }
}
