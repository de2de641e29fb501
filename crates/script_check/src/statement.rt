// The violations in statements.

ghost use Rattle.std.specs.Prelude.{◌≡◌, Bool, true, false, ◌&&◌, ◌||◌, ◌++◌, OnOk, IfOk, is_some};
ghost use Rattle.script_grammar.specs.declared.tree.Act.{out-Act};
ghost use Rattle.script_grammar.specs.declared.tree.Kind.TheVariants as kind;
ghost use Rattle.script_grammar.specs.declared.tree.Stmt.{out-Stmt};
ghost use Rattle.script_check.specs.declared.variable.Variable.TheVariants.{Scalar, Array};
ghost use Rattle.script_check.specs.Violations.{earliest};
ghost use Rattle.script_check.specs.Tables.{with_first};
ghost use Rattle.script_check.specs.Functions.{function_named};
ghost use Rattle.script_check.specs.Names.{union, after_right};
ghost use Rattle.script_check.specs.Rules.{declaration, array_length, scalar_use, array_use, kind_of_variable};
ghost use Rattle.script_check.specs.Expressions.{reading_of, wanted, two_wanted};
ghost use Rattle.script_check.specs.Statements.{context, judge, judge_all, read_right, wanted_as, declared_kind, known_each, violations_each, after, target_use, loop_call_of};
ghost use Rattle.script_check.specs.Walk.{HasBlocks, state_after, state_after_all, keeps, keeps_all, known_in, pending_in, walk_state};

use crate::call::{judge_call, judge_loop_call, judge_target};
use crate::condition::Condition;
use crate::expression::{Seen, see, use_array, use_scalar, want};
use crate::findings::Findings;
use crate::functions::Functions;
use crate::memory::Memory;
use crate::spawns::collect;
use crate::symbols::SymbolTable;
use crate::variable::Variable;
use script_grammar::{Act, CallText, Expr, Kind, Name, Number, Right, Stmt};
use std::alloc::Global;

// A right side, before it is assigned.
fn see_right(
    functions: &Functions,
    symbols: &SymbolTable,
    found: &mut Findings,
    right: &Right,
) -> Seen
    ensures at { result.at ≡ (read_right functions.now right.now).at }
    ensures kind { result.kind ≡ (read_right functions.now right.now).kind (known_in symbols.now) }
    ensures found { found.new ≡ earliest found.old ((read_right functions.now right.now).violations (known_in symbols.now) (pending_in symbols.now)) }
{
    match right {
        Right::Value(e) => see(symbols, found, e),
        Right::Draw(at) => Seen {
            at: *at,
            kind: Some(Kind::Int),
        },
        Right::New(at) => Seen {
            at: *at,
            kind: Some(Kind::Id),
        },
        Right::Call(at, c) | Right::Spawn(at, c) => {
            let kind = judge_call(functions, symbols, found, c);
            Seen { at: *at, kind }
        }
    }
}

// `let x = R`.
#[tactic(auto, using(crate::proofs::LeastViolation::Earliest::earliest_append))]
fn judge_let(
    alloc: Global,
    functions: &Functions,
    symbols: &mut SymbolTable,
    found: &mut Findings,
    x: &Name,
    right: &Right,
) -> Result<(), Memory>
    ensures state { OnOk result (walk_state symbols.new ≡ record (walk_state symbols.old) {
      known = with_first (known_in symbols.old) x.now.bytes (Scalar (declared_kind ((read_right functions.now right.now).kind (known_in symbols.old))));
      names = after_right x.now right.now (walk_state symbols.old).names;
    }) }
    ensures found { OnOk result (found.new ≡ earliest found.old ((read_right functions.now right.now).violations (known_in symbols.old) (pending_in symbols.old) ++ declaration (known_in symbols.old) x.now)) }
{
    let seen = see_right(functions, symbols, found, right);
    symbols.declare(alloc, found, x, Variable::Scalar(declared_kind(seen.kind)))?;
    spawn_into(alloc, symbols, x, right)
}

// The kind of a variable that a right side of this kind declares. One without a kind calls an unknown function.
fn declared_kind(kind: Option<Kind>) -> Kind
    ensures { result ≡ declared_kind kind }
{
    kind.unwrap_or(Kind::Int)
}

// `let a[n]`.
#[tactic(auto, using(crate::proofs::LeastViolation::Earliest::earliest_append))]
fn judge_array(
    alloc: Global,
    symbols: &mut SymbolTable,
    found: &mut Findings,
    x: &Name,
    n: &Number,
) -> Result<(), Memory>
    ensures state { OnOk result (walk_state symbols.new ≡ record (walk_state symbols.old) { known = with_first (known_in symbols.old) x.now.bytes Array }) }
    ensures found { OnOk result (found.new ≡ earliest found.old (declaration (known_in symbols.old) x.now ++ array_length n.now)) }
{
    symbols.declare(alloc, found, x, Variable::Array)?;
    found.add_violation_if(n.value < 1 || 4096 < n.value, Condition::ArrayLength, n.at);
    Ok(())
}

// `x = R`.
fn judge_set(
    alloc: Global,
    functions: &Functions,
    symbols: &mut SymbolTable,
    found: &mut Findings,
    x: &Name,
    right: &Right,
) -> Result<(), Memory>
    ensures state { OnOk result (walk_state symbols.new ≡ record (walk_state symbols.old) { names = after_right x.now right.now (walk_state symbols.old).names }) }
    ensures found { OnOk result (found.new ≡ earliest found.old (scalar_use ((known_in symbols.old).what x.now.bytes) (pending_in symbols.old) x.now
        ++ wanted_as (kind_of_variable ((known_in symbols.old).what x.now.bytes)) (read_right functions.now right.now) (known_in symbols.old) (pending_in symbols.old))) }
{
    let kind = use_scalar(symbols, found, x);
    want_right(functions, symbols, found, kind, right);
    spawn_into(alloc, symbols, x, right)
}

// A right side that is assigned: it must have the variable's kind, if that has one.
#[tactic(auto, using(crate::proofs::LeastViolation::Earliest::earliest_append), unfolding(crate::specs::Expressions::wanted))]
fn want_right(
    functions: &Functions,
    symbols: &SymbolTable,
    found: &mut Findings,
    kind: Option<Kind>,
    right: &Right,
)
    ensures { found.new ≡ earliest found.old (wanted_as kind (read_right functions.now right.now) (known_in symbols.now) (pending_in symbols.now)) }
{
    let seen = see_right(functions, symbols, found, right);
    if let Some(kind) = kind {
        seen.want(found, kind);
    }
}

// Makes a target pending, where the right side is a spawn.
fn spawn_into(
    alloc: Global,
    symbols: &mut SymbolTable,
    x: &Name,
    right: &Right,
) -> Result<(), Memory>
    ensures { OnOk result (walk_state symbols.new ≡ record (walk_state symbols.old) { names = after_right x.now right.now (walk_state symbols.old).names }) }
{
    match right {
        Right::Spawn(_, _) => symbols.add_pending(alloc, x),
        _ => Ok(()),
    }
}

// `a[E] = E`.
#[tactic(auto, using(crate::proofs::LeastViolation::Earliest::earliest_append))]
fn judge_store(symbols: &SymbolTable, found: &mut Findings, x: &Name, i: &Expr, e: &Expr)
    ensures { found.new ≡ earliest found.old (array_use ((known_in symbols.now).what x.now.bytes) (pending_in symbols.now) x.now
        ++ two_wanted kind.Int (reading_of i.now) (reading_of e.now) (known_in symbols.now) (pending_in symbols.now)) }
{
    use_array(symbols, found, x);
    want_two(symbols, found, i, e);
}

// `pfor i in E..E into a call f(i, ..)`.
#[tactic(auto, using(crate::proofs::LeastViolation::Earliest::earliest_append))]
fn judge_loop(
    functions: &Functions,
    symbols: &SymbolTable,
    found: &mut Findings,
    lo: &Expr,
    hi: &Expr,
    target: &Option<Name>,
    call: &CallText,
)
    ensures { found.new ≡ earliest found.old (two_wanted kind.Int (reading_of lo.now) (reading_of hi.now) (known_in symbols.now) (pending_in symbols.now)
        ++ target_use target.now (known_in symbols.now) (pending_in symbols.now)
        ++ loop_call_of (function_named functions.now call.now.name.bytes) (is_some target.now) call.now (known_in symbols.now) (pending_in symbols.now)) }
{
    want_two(symbols, found, lo, hi);
    judge_target(symbols, found, target);
    judge_loop_call(functions, symbols, found, target.is_some(), call);
}

// Two expressions that must be numbers.
#[tactic(auto, using(crate::proofs::LeastViolation::Earliest::earliest_append), unfolding(crate::specs::Expressions::two_wanted))]
fn want_two(symbols: &SymbolTable, found: &mut Findings, a: &Expr, b: &Expr)
    ensures { found.new ≡ earliest found.old (two_wanted kind.Int (reading_of a.now) (reading_of b.now) (known_in symbols.now) (pending_in symbols.now)) }
{
    want(symbols, found, Kind::Int, a);
    want(symbols, found, Kind::Int, b);
}

// The end of an `if`: what was pending before may still be so where one of these blocks keeps it.
fn end_if(
    alloc: Global,
    symbols: &mut SymbolTable,
    keeps: bool,
    a: &[Stmt],
    b: &[Stmt],
) -> Result<(), Memory>
    requires { keeps ≡ (keeps_all a.now || keeps_all b.now) }
    ensures { OnOk result (walk_state symbols.new ≡ record (walk_state symbols.old) {
      names = union (after a.now (walk_state symbols.old).names) (after b.now (walk_state symbols.old).names);
      keeps = keeps && (walk_state symbols.old).keeps;
    }) }
{
    symbols.keep_if(alloc, keeps)?;
    collect(alloc, symbols, a)?;
    collect(alloc, symbols, b)?;
    Ok(())
}

// The start of a `while`: its condition and its body are judged with all that an earlier iteration may have left pending.
fn begin_while(alloc: Global, symbols: &mut SymbolTable, body: &[Stmt]) -> Result<(), Memory>
    ensures { OnOk result (walk_state symbols.new ≡ record (walk_state symbols.old) { names = union (walk_state symbols.old).names (after body.now (walk_state symbols.old).names) }) }
{
    collect(alloc, symbols, body)?;
    Ok(())
}

// A list of statements.
#[cycle(statements)]
pub(crate) fn judge_each(
    alloc: Global,
    functions: &Functions,
    symbols: &mut SymbolTable,
    found: &mut Findings,
    in_block: bool,
    statements: &[Stmt],
) -> Result<(), Memory>
    ensures state { OnOk result (walk_state symbols.new ≡ state_after_all functions.now statements.now (walk_state symbols.old)) }
    ensures found { OnOk result (found.new ≡ earliest found.old (violations_each (judge_all statements.now) (context functions.now in_block) (known_in symbols.old) (pending_in symbols.old))) }
{
    for statement in statements {
        judge(alloc, functions, symbols, found, in_block, statement)?;
    }
    Ok(())
}

// The statements of a block. What they leave pending is dropped. Returns whether what was pending before may still be so.
#[cycle(statements)]
fn judge_block(
    alloc: Global,
    functions: &Functions,
    symbols: &mut SymbolTable,
    found: &mut Findings,
    statements: &[Stmt],
) -> Result<bool, Memory>
    ensures keeps { IfOk result (λ b. b ≡ keeps_all statements.now) }
    ensures state { OnOk result (walk_state symbols.new ≡ record (walk_state symbols.old) { known = known_each (judge_all statements.now) functions.now (known_in symbols.old) }) }
    ensures found { OnOk result (found.new ≡ earliest found.old (violations_each (judge_all statements.now) (context functions.now true) (known_in symbols.old) (pending_in symbols.old))) }
{
    let outer = symbols.enter(alloc);
    judge_each(alloc, functions, symbols, found, true, statements)?;
    Ok(symbols.leave(outer))
}

// One statement.
#[cycle(statements)]
#[tactic(auto, using(crate::proofs::LeastViolation::Earliest::earliest_append))]
fn judge(
    alloc: Global,
    functions: &Functions,
    symbols: &mut SymbolTable,
    found: &mut Findings,
    in_block: bool,
    statement: &Stmt,
) -> Result<(), Memory>
    ensures state { OnOk result (walk_state symbols.new ≡ state_after functions.now statement.now (walk_state symbols.old)) }
    ensures found { OnOk result (found.new ≡ earliest found.old ((judge statement.now).violations (context functions.now in_block) (known_in symbols.old) (pending_in symbols.old))) }
{
    match &statement.act {
        Act::Let(x, right) => {
            found.add_violation_if(in_block, Condition::LetInABlock, statement.at);
            judge_let(alloc, functions, symbols, found, x, right)?;
        }
        Act::Array(x, n) => {
            found.add_violation_if(in_block, Condition::LetInABlock, statement.at);
            judge_array(alloc, symbols, found, x, n)?;
        }
        Act::Set(x, right) => judge_set(alloc, functions, symbols, found, x, right)?,
        Act::Store(x, i, e) => judge_store(symbols, found, x, i, e),
        Act::Spawn(c) | Act::Call(c) => {
            judge_call(functions, symbols, found, c);
        }
        Act::Sync => symbols.sync(alloc)?,
        Act::Print(e) => {
            see(symbols, found, e);
        }
        Act::Pfor {
            var: _,
            lo,
            hi,
            target,
            call,
        } => judge_loop(functions, symbols, found, lo, hi, target, call),
        _ => judge_nested(alloc, functions, symbols, found, statement)?,
    }
    Ok(())
}

// A statement with blocks. Both blocks of an `if`, and that of a `scope`, are judged with what is pending before; a `while` is
// judged once, with what an earlier iteration may have left pending. A `scope` ends with a sync.
#[cycle(statements)]
#[tactic(auto, using(crate::proofs::LeastViolation::Earliest::earliest_append))]
fn judge_nested(
    alloc: Global,
    functions: &Functions,
    symbols: &mut SymbolTable,
    found: &mut Findings,
    statement: &Stmt,
) -> Result<(), Memory>
    requires { HasBlocks (out-Act (out-Stmt statement.now).act) }
    ensures state { OnOk result (walk_state symbols.new ≡ state_after functions.now statement.now (walk_state symbols.old)) }
    ensures found { (in_block : Bool) → OnOk result (found.new ≡ earliest found.old ((judge statement.now).violations (context functions.now in_block) (known_in symbols.old) (pending_in symbols.old))) }
{
    match &statement.act {
        Act::If(e, a, b) => {
            want(symbols, found, Kind::Int, e);
            let first = judge_block(alloc, functions, symbols, found, a.as_slice())?;
            let second = judge_block(alloc, functions, symbols, found, b.as_slice())?;
            end_if(alloc, symbols, first | second, a.as_slice(), b.as_slice())?;
        }
        Act::While(e, a) => {
            begin_while(alloc, symbols, a.as_slice())?;
            want(symbols, found, Kind::Int, e);
            judge_block(alloc, functions, symbols, found, a.as_slice())?;
        }
        Act::Scope(a) => {
            judge_block(alloc, functions, symbols, found, a.as_slice())?;
            symbols.sync(alloc)?;
        }
        _ => unreachable!(),
    }
    Ok(())
}
