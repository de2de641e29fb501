// The violations in functions.

ghost use Rattle.std.specs.Prelude.{◌≡◌, OnOk};
ghost use Rattle.script_check.specs.Violations.{earliest};
ghost use Rattle.script_check.specs.Functions.{function_named, main_name};
ghost use Rattle.script_check.specs.Valid.{function_violations, known_params, main_violations, param_violations};
ghost use Rattle.script_check.specs.Walk.{known_in, walk_state};

use crate::condition::Condition;
use crate::expression::want;
use crate::findings::Findings;
use crate::functions::Functions;
use crate::memory::Memory;
use crate::statement::judge_each;
use crate::symbols::SymbolTable;
use crate::variable::Variable;
use script_grammar::{Function, Param};
use std::alloc::Global;

// That there is a function named `main`, and that it has no parameters.
pub(crate) fn judge_main(functions: &Functions, found: &mut Findings)
    ensures { found.new ≡ earliest found.old (main_violations (function_named functions.now main_name)) }
{
    match functions.function_named(b"main") {
        Some(f) => {
            if let Some(param) = f.params.as_slice().first() {
                found.add_violation_if(true, Condition::MainHasParameters, param.name.at);
            }
        }
        None => found.add_violation_if(true, Condition::NoMain, 0),
    }
}

// Declares the parameters.
fn declare_params(
    alloc: Global,
    symbols: &mut SymbolTable,
    found: &mut Findings,
    params: &[Param],
) -> Result<(), Memory>
    ensures state { OnOk result (walk_state symbols.new ≡ record (walk_state symbols.old) { known = known_params params.now (known_in symbols.old) }) }
    ensures found { OnOk result (found.new ≡ earliest found.old (param_violations params.now (known_in symbols.old))) }
{
    for param in params {
        symbols.declare(alloc, found, &param.name, Variable::Scalar(param.kind))?;
    }
    Ok(())
}

// A function. Its result is read after a sync.
pub(crate) fn judge_function(
    alloc: Global,
    functions: &Functions,
    found: &mut Findings,
    f: &Function,
) -> Result<(), Memory>
    ensures { OnOk result (found.new ≡ earliest found.old (function_violations functions.now f.now)) }
{
    let mut symbols = SymbolTable::new(alloc);
    declare_params(alloc, &mut symbols, found, f.params.as_slice())?;
    judge_each(
        alloc,
        functions,
        &mut symbols,
        found,
        false,
        f.body.as_slice(),
    )?;
    symbols.sync(alloc)?;
    want(&symbols, found, f.answer, &f.result);
    Ok(())
}
