ghost use Rattle.std.specs.Prelude.{◌≡◌, ◌++◌, IfOk, OnOk, flat_map};
ghost use Rattle.script_grammar.specs.declared.tree.Script.{Script};
ghost use Rattle.script_grammar.specs.Text.{IsOfText};
ghost use Rattle.script_print.specs.Unplaced.{unplaced, IsTextOf};
ghost use Rattle.script_print.specs.Canonical.{after_commas, canonical, function_text, head_text, listed, param_text, version_text};

use crate::expression::write_expr;
use crate::memory::Memory;
use crate::statement::write_stmts;
use crate::words::write_name;
use script_grammar::{Function, Kind, Param, Script, Version};
use std::alloc::Global;

/// The canonical text of a script.
///
/// For a script that was read from a text, it is a text of the same tree, apart from offsets, and so it is its own canonical text. A
/// tree that no text has, such as a sum of one term, has a canonical text too. It can be longer than the text that the script was read
/// from, and longer than a text may be. The time is linear in its length. Only running out of memory makes it `Err`.
pub fn print_script(alloc: Global, script: &Script) -> Result<Vec<u8>, Memory>
    ensures text { IfOk result (λ text. text.items ≡ canonical script.now) }
    ensures same_tree { IfOk result (λ text. IsOfText script.now → IsTextOf text.items script.now) }
    ensures one_text { IfOk result (λ text. (other : Script) → unplaced other ≡ unplaced script.now → canonical other ≡ text.items) }
{
    let mut text = Vec::new(alloc);
    write_version(script.version, &mut text)?;
    write_functions(alloc, script.functions.as_slice(), &mut text)?;
    Ok(text)
}

// The version line; a text of version 1 begins with its functions.
fn write_version(version: Version, text: &mut Vec<u8>) -> Result<(), Memory>
    ensures { OnOk result (text.new.items ≡ text.old.items ++ version_text version) }
{
    match version {
        Version::One => {}
        Version::Two => text.extend_from_slice(b"version 2\n")?,
    }
    Ok(())
}

fn write_functions(alloc: Global, functions: &[Function], text: &mut Vec<u8>) -> Result<(), Memory>
    ensures { OnOk result (text.new.items ≡ text.old.items ++ flat_map function_text functions.now) }
{
    for function in functions {
        write_function(alloc, function, text)?;
    }
    Ok(())
}

fn write_function(alloc: Global, function: &Function, text: &mut Vec<u8>) -> Result<(), Memory>
    ensures { OnOk result (text.new.items ≡ text.old.items ++ function_text function.now) }
{
    write_head(function, text)?;
    write_stmts(alloc, function.body.as_slice(), b"  ", text)?;
    text.extend_from_slice(b"  return ")?;
    write_expr(&function.result, text)?;
    text.extend_from_slice(b";\n}\n")?;
    Ok(())
}

// `fn NAME(PARAMS) -> id {`
fn write_head(function: &Function, text: &mut Vec<u8>) -> Result<(), Memory>
    ensures { OnOk result (text.new.items ≡ text.old.items ++ head_text function.now) }
{
    text.extend_from_slice(b"fn ")?;
    write_name(&function.name, text)?;
    text.push(b'(')?;
    write_params(function.params.as_slice(), text)?;
    text.push(b')')?;
    if function.answer == Kind::Id {
        text.extend_from_slice(b" -> id")?;
    }
    text.extend_from_slice(b" {\n")?;
    Ok(())
}

fn write_params(params: &[Param], text: &mut Vec<u8>) -> Result<(), Memory>
    ensures { OnOk result (text.new.items ≡ text.old.items ++ listed param_text params.now) }
{
    if let Some((first, others)) = params.split_first() {
        write_param(first, text)?;
        write_params_after_commas(others, text)?;
    }
    Ok(())
}

fn write_params_after_commas(params: &[Param], text: &mut Vec<u8>) -> Result<(), Memory>
    ensures { OnOk result (text.new.items ≡ text.old.items ++ after_commas param_text params.now) }
{
    for param in params {
        text.extend_from_slice(b", ")?;
        write_param(param, text)?;
    }
    Ok(())
}

fn write_param(param: &Param, text: &mut Vec<u8>) -> Result<(), Memory>
    ensures { OnOk result (text.new.items ≡ text.old.items ++ param_text param.now) }
{
    if param.kind == Kind::Id {
        text.extend_from_slice(b"id ")?;
    }
    write_name(&param.name, text)
}
