ghost use Rattle.std.specs.Prelude.{◌≡◌, ◌++◌, IfOk, OnOk, codes, map};
ghost use Rattle.std.specs.Fmt.{signed_decimal};
ghost use Rattle.script_print.specs.Canonical.{act_text, after_commas, block_text, call_text, else_text, expr_text, into_text, listed, loop_call_text, range_text, right_text, stmt_text, stmts_text};

use crate::expression::write_expr;
use crate::memory::Memory;
use crate::words::{write_name, write_number};
use script_grammar::{Act, CallText, Expr, Name, Number, Right, Stmt};
use std::alloc::Global;

// The expressions, each after a comma and a space.
fn write_after_commas(args: &[Expr], text: &mut Vec<u8>) -> Result<(), Memory>
    ensures { OnOk result (text.new.items ≡ text.old.items ++ after_commas expr_text args.now) }
{
    for arg in args {
        text.extend_from_slice(b", ")?;
        write_expr(arg, text)?;
    }
    Ok(())
}

fn write_args(args: &[Expr], text: &mut Vec<u8>) -> Result<(), Memory>
    ensures { OnOk result (text.new.items ≡ text.old.items ++ listed expr_text args.now) }
{
    if let Some((first, others)) = args.split_first() {
        write_expr(first, text)?;
        write_after_commas(others, text)?;
    }
    Ok(())
}

fn write_call(call: &CallText, text: &mut Vec<u8>) -> Result<(), Memory>
    ensures { OnOk result (text.new.items ≡ text.old.items ++ call_text call.now) }
{
    write_name(&call.name, text)?;
    text.push(b'(')?;
    write_args(call.args.as_slice(), text)?;
    text.push(b')')?;
    Ok(())
}

fn write_right(right: &Right, text: &mut Vec<u8>) -> Result<(), Memory>
    ensures { OnOk result (text.new.items ≡ text.old.items ++ right_text right.now) }
{
    match right {
        Right::Value(e) => write_expr(e, text)?,
        Right::Draw(_) => text.extend_from_slice(b"draw")?,
        Right::New(_) => text.extend_from_slice(b"new")?,
        Right::Call(_, call) => {
            text.extend_from_slice(b"call ")?;
            write_call(call, text)?;
        }
        Right::Spawn(_, call) => {
            text.extend_from_slice(b"spawn ")?;
            write_call(call, text)?;
        }
    }
    Ok(())
}

// `spawn f(..);` or `call f(..);`
fn write_called(head: &[u8], call: &CallText, text: &mut Vec<u8>) -> Result<(), Memory>
    ensures { OnOk result (text.new.items ≡ text.old.items ++ head.now ++ call_text call.now ++ codes ";") }
{
    text.extend_from_slice(head)?;
    write_call(call, text)?;
    text.push(b';')?;
    Ok(())
}

// `print E;`
fn write_print(e: &Expr, text: &mut Vec<u8>) -> Result<(), Memory>
    ensures { OnOk result (text.new.items ≡ text.old.items ++ codes "print " ++ expr_text e.now ++ codes ";") }
{
    text.extend_from_slice(b"print ")?;
    write_expr(e, text)?;
    text.push(b';')?;
    Ok(())
}

// `x = R;`, after this head: `let ` or nothing.
fn write_set(head: &[u8], name: &Name, right: &Right, text: &mut Vec<u8>) -> Result<(), Memory>
    ensures { OnOk result (text.new.items ≡ text.old.items ++ head.now ++ name.now.bytes ++ codes " = " ++ right_text right.now ++ codes ";") }
{
    text.extend_from_slice(head)?;
    write_name(name, text)?;
    text.extend_from_slice(b" = ")?;
    write_right(right, text)?;
    text.push(b';')?;
    Ok(())
}

// `let a[n];`
fn write_array(name: &Name, length: Number, text: &mut Vec<u8>) -> Result<(), Memory>
    ensures { OnOk result (text.new.items ≡ text.old.items ++ codes "let " ++ name.now.bytes ++ codes "[" ++ signed_decimal length.value ++ codes "];") }
{
    text.extend_from_slice(b"let ")?;
    write_name(name, text)?;
    text.push(b'[')?;
    write_number(length, text)?;
    text.extend_from_slice(b"];")?;
    Ok(())
}

// `a[E] = E;`
fn write_store(name: &Name, index: &Expr, value: &Expr, text: &mut Vec<u8>) -> Result<(), Memory>
    ensures { OnOk result (text.new.items ≡ text.old.items ++ name.now.bytes ++ codes "[" ++ expr_text index.now ++ codes "] = " ++ expr_text value.now ++ codes ";") }
{
    write_name(name, text)?;
    text.push(b'[')?;
    write_expr(index, text)?;
    text.extend_from_slice(b"] = ")?;
    write_expr(value, text)?;
    text.push(b';')?;
    Ok(())
}

// ` into a`, where the loop has a target.
fn write_into(target: &Option<Name>, text: &mut Vec<u8>) -> Result<(), Memory>
    ensures { OnOk result (text.new.items ≡ text.old.items ++ into_text target.now) }
{
    if let Some(name) = target {
        text.extend_from_slice(b" into ")?;
        write_name(name, text)?;
    }
    Ok(())
}

// `pfor i in E..E`
fn write_range(var: &Name, lo: &Expr, hi: &Expr, text: &mut Vec<u8>) -> Result<(), Memory>
    ensures { OnOk result (text.new.items ≡ text.old.items ++ range_text var.now lo.now hi.now) }
{
    text.extend_from_slice(b"pfor ")?;
    write_name(var, text)?;
    text.extend_from_slice(b" in ")?;
    write_expr(lo, text)?;
    text.extend_from_slice(b"..")?;
    write_expr(hi, text)
}

// ` call f(i, ..);`
fn write_loop_call(var: &Name, call: &CallText, text: &mut Vec<u8>) -> Result<(), Memory>
    ensures { OnOk result (text.new.items ≡ text.old.items ++ loop_call_text var.now call.now) }
{
    text.extend_from_slice(b" call ")?;
    write_name(&call.name, text)?;
    text.push(b'(')?;
    write_name(var, text)?;
    write_after_commas(call.args.as_slice(), text)?;
    text.extend_from_slice(b");")?;
    Ok(())
}

// `if E ` or `while E `
fn write_guard(head: &[u8], guard: &Expr, text: &mut Vec<u8>) -> Result<(), Memory>
    ensures { OnOk result (text.new.items ≡ text.old.items ++ head.now ++ expr_text guard.now ++ codes " ") }
{
    text.extend_from_slice(head)?;
    write_expr(guard, text)?;
    text.push(b' ')?;
    Ok(())
}

// The margin inside a block.
fn inner_margin(alloc: Global, margin: &[u8]) -> Result<Vec<u8>, Memory>
    ensures { IfOk result (λ inner. inner.items ≡ margin.now ++ codes "  ") }
{
    let mut inner = Vec::from_slice(alloc, margin)?;
    inner.extend_from_slice(b"  ")?;
    Ok(inner)
}

// Appends the lines of these statements, each after the margin.
#[cycle(statements)]
#[tactic(auto, using(crate::proofs::Computing::act_rules))]
pub(crate) fn write_stmts(
    alloc: Global,
    stmts: &[Stmt],
    margin: &[u8],
    text: &mut Vec<u8>,
) -> Result<(), Memory>
    ensures { OnOk result (text.new.items ≡ text.old.items ++ stmts_text stmts.now margin.now) }
{
    for stmt in stmts {
        text.extend_from_slice(margin)?;
        write_act(alloc, &stmt.act, margin, text)?;
        text.push(b'\n')?;
    }
    Ok(())
}

#[cycle(statements)]
#[tactic(auto, using(crate::proofs::Computing::act_rules))]
fn write_block(
    alloc: Global,
    block: &[Stmt],
    margin: &[u8],
    text: &mut Vec<u8>,
) -> Result<(), Memory>
    ensures { OnOk result (text.new.items ≡ text.old.items ++ block_text (map stmt_text block.now) margin.now) }
{
    text.extend_from_slice(b"{\n")?;
    write_stmts(alloc, block, &inner_margin(alloc, margin)?, text)?;
    text.extend_from_slice(margin)?;
    text.push(b'}')?;
    Ok(())
}

#[cycle(statements)]
#[tactic(auto, using(crate::proofs::Computing::act_rules))]
fn write_else(
    alloc: Global,
    block: &[Stmt],
    margin: &[u8],
    text: &mut Vec<u8>,
) -> Result<(), Memory>
    ensures { OnOk result (text.new.items ≡ text.old.items ++ else_text (map stmt_text block.now) margin.now) }
{
    if !block.is_empty() {
        text.extend_from_slice(b" else ")?;
        write_block(alloc, block, margin, text)?;
    }
    Ok(())
}

#[cycle(statements)]
#[tactic(auto, using(crate::proofs::Computing::act_rules))]
fn write_act(alloc: Global, act: &Act, margin: &[u8], text: &mut Vec<u8>) -> Result<(), Memory>
    ensures { OnOk result (text.new.items ≡ text.old.items ++ act_text act.now margin.now) }
{
    match act {
        Act::Let(name, right) => write_set(b"let ", name, right, text),
        Act::Array(name, length) => write_array(name, *length, text),
        Act::Set(name, right) => write_set(b"", name, right, text),
        Act::Store(name, index, value) => write_store(name, index, value, text),
        Act::Spawn(call) => write_called(b"spawn ", call, text),
        Act::Call(call) => write_called(b"call ", call, text),
        Act::Sync => Ok(text.extend_from_slice(b"sync;")?),
        Act::Print(e) => write_print(e, text),
        Act::If(guard, block, otherwise) => {
            write_guard(b"if ", guard, text)?;
            write_block(alloc, block.as_slice(), margin, text)?;
            write_else(alloc, otherwise.as_slice(), margin, text)
        }
        Act::While(guard, block) => {
            write_guard(b"while ", guard, text)?;
            write_block(alloc, block.as_slice(), margin, text)
        }
        Act::Pfor {
            var,
            lo,
            hi,
            target,
            call,
        } => {
            write_range(var, lo, hi, text)?;
            write_into(target, text)?;
            write_loop_call(var, call, text)
        }
        Act::Scope(block) => {
            text.extend_from_slice(b"scope ")?;
            write_block(alloc, block.as_slice(), margin, text)
        }
    }
}
