// The violations in calls.

ghost use Rattle.std.specs.Prelude.{◌≡◌, [], Some};
ghost use Rattle.script_check.specs.Violations.{earliest};
ghost use Rattle.script_check.specs.Functions.{function_named};
ghost use Rattle.script_check.specs.Rules.{array_use};
ghost use Rattle.script_check.specs.Statements.{arguments, call, answer_kind_of, loop_call_of, target_use};
ghost use Rattle.script_check.specs.Walk.{known_in, pending_in};

use crate::condition::Condition;
use crate::expression::{see, use_array, want};
use crate::findings::Findings;
use crate::functions::Functions;
use crate::symbols::SymbolTable;
use script_grammar::{CallText, Expr, Function, Kind, Name, Param};

// Arguments, each of its parameter's kind.
pub(crate) fn judge_arguments(
    symbols: &SymbolTable,
    found: &mut Findings,
    params: &[Param],
    args: &[Expr],
)
    ensures { found.new ≡ earliest found.old (arguments params.now args.now (known_in symbols.now) (pending_in symbols.now)) }
{
    for (i, e) in args.iter().enumerate() {
        match params.get(i) {
            Some(param) => {
                want(symbols, found, param.kind, e);
            }
            None => {
                see(symbols, found, e);
            }
        }
    }
}

// A call or spawn. Returns the function's kind, if the function exists.
pub(crate) fn judge_call(
    functions: &Functions,
    symbols: &SymbolTable,
    found: &mut Findings,
    c: &CallText,
) -> Option<Kind>
    ensures kind { result ≡ answer_kind_of (function_named functions.now c.now.name.bytes) }
    ensures found { found.new ≡ earliest found.old (call functions.now c.now (known_in symbols.now) (pending_in symbols.now)) }
{
    let name = &c.name;
    let args = c.args.as_slice();
    match functions.function_named(name.bytes.as_slice()) {
        Some(f) => {
            let params = f.params.as_slice();
            found.add_violation_if(
                params.len() != args.len(),
                Condition::WrongNumberOfArguments,
                name.at,
            );
            judge_arguments(symbols, found, params, args);
            Some(f.answer)
        }
        None => {
            found.add_violation_if(true, Condition::UnknownFunction, name.at);
            judge_arguments(symbols, found, &[], args);
            None
        }
    }
}

// The target of a parallel loop.
pub(crate) fn judge_target(symbols: &SymbolTable, found: &mut Findings, target: &Option<Name>)
    ensures { found.new ≡ earliest found.old (target_use target.now (known_in symbols.now) (pending_in symbols.now)) }
{
    if let Some(x) = target {
        use_array(symbols, found, x);
    }
}

// The call of a parallel loop, whose first argument is the loop variable.
pub(crate) fn judge_loop_call(
    functions: &Functions,
    symbols: &SymbolTable,
    found: &mut Findings,
    has_target: bool,
    c: &CallText,
)
    ensures { found.new ≡ earliest found.old (loop_call_of (function_named functions.now c.now.name.bytes) has_target c.now (known_in symbols.now) (pending_in symbols.now)) }
{
    let name = &c.name;
    match functions.function_named(name.bytes.as_slice()) {
        Some(f) => judge_iterations(symbols, found, f, has_target, c),
        None => {
            found.add_violation_if(true, Condition::UnknownFunction, name.at);
            judge_arguments(symbols, found, &[], c.args.as_slice());
        }
    }
}

// The same, for an existing function.
fn judge_iterations(
    symbols: &SymbolTable,
    found: &mut Findings,
    f: &Function,
    has_target: bool,
    c: &CallText,
)
    ensures { found.new ≡ earliest found.old (loop_call_of (Some f.now) has_target c.now (known_in symbols.now) (pending_in symbols.now)) }
{
    let at = c.name.at;
    let params = f.params.as_slice();
    let args = c.args.as_slice();
    found.add_violation_if(has_target && f.answer == Kind::Id, Condition::WrongKind, at);
    match params.split_first() {
        Some((number, others)) => {
            found.add_violation_if(
                others.len() != args.len(),
                Condition::WrongNumberOfArguments,
                at,
            );
            found.add_violation_if(number.kind == Kind::Id, Condition::WrongKind, at);
            judge_arguments(symbols, found, others, args);
        }
        None => {
            found.add_violation_if(true, Condition::WrongNumberOfArguments, at);
            judge_arguments(symbols, found, &[], args);
        }
    }
}
