// Calls, and the end of a frame.

ghost use Rattle.std.specs.Prelude.{◌≡◌, ◌<◌, ◌≤◌, ◌+◌, ◌++◌, ◌∷◌, [], false, true, Some, None, Err, IfOk, IfSome, OnErr, OnOk, length};
ghost use Rattle.std.specs.Option.{option_copied};
ghost use Rattle.script_grammar.specs.declared.tree.Stmt.{Stmt};
ghost use Rattle.serial_meaning.specs.Functions.{function_at, function_number};
ghost use Rattle.serial_meaning.specs.Plan.{PlanView, functions_of};
ghost use Rattle.serial_meaning.specs.declared.event.FaultKind.{FaultKind};
ghost use Rattle.strand_values.specs.declared.evaluation_error.EvaluationError.TheVariants.{Fault};
ghost use Rattle.script_check.specs.Spawns.{spawns_in};
ghost use Rattle.strand_meaning.specs.Machine.{here_of, move, return_move, with_scalar};
ghost use Rattle.strand_values.specs.Gives.{Calculates};
ghost use Rattle.strand_values.specs.Environments.{FindsArguments, with_variables};
ghost use Rattle.strand_moves.specs.Found.{AreSlots, FindsCallee, FindsTarget};
ghost use Rattle.strand_moves.specs.Acts.{Acts, BeginsOne, Costs, IsCallee, StaysUnlessMemory, result_of};
ghost use Rattle.strand_moves.specs.InstanceParts.{AreNamed, IsInstance, IsNamed, IsStrand, KeepsNames, machine_of, path_of, present_of};
ghost use Rattle.strand_moves.specs.Moves.{Makes, MovesTrail, call_to, present_pedigree, run_of};
ghost use Rattle.strand_moves.specs.StraightRuns.{HasPassedStatement, unpassed};
ghost use Rattle.strand_moves.specs.declared.effects.MoveResult.TheVariants as move_result;
ghost use Rattle.strand_moves.specs.FastPath.{StaysThere, silent, synced_at};

use crate::effects::{Effects, MoveResult};
use crate::fast_path::silent;
use crate::frame::{Frame, target_of};
use crate::instance_parts::InstanceParts;
use crate::memory::Memory;
use script_grammar::{CallText, Function, Name, Stmt};
use serial_meaning::{FaultKind, Plan, Value};
use std::alloc::Global;
use std::mem;
use strand_values::{Environment, EnvironmentPool, EvaluationError, Target};

// The most open calls of an instance.
const MOST_CALLS: usize = 256;

impl InstanceParts {
    // A call. Its value goes to `target`, if there is one.
    pub(crate) fn call(
        &mut self,
        alloc: Global,
        plan: &Plan,
        slots: &[u16],
        target: Option<&Name>,
        call: &CallText,
        pool: &mut EnvironmentPool,
    ) -> Result<(), EvaluationError>
        requires goes_on { self.old.leaving ≡ false }
        requires slots { AreSlots slots.now plan.now }
        requires called { FindsCallee plan.now call.now.name }
        requires args { FindsArguments slots.now self.old.top.env call.now.args }
        requires target { FindsTarget slots.now self.old.top.env (option_copied target) }
        ensures shows { (st : Stmt) → Acts plan.now st (call_to (option_copied target.entry) call.now) self.old self.new (silent result) }
        ensures same { (kind : FaultKind) → result ≡ Err (Fault kind) → self.new ≡ self.old }
        ensures stays { StaysUnlessMemory self.old self.new (silent result) }
        ensures few { Costs self.old self.new }
        ensures begins { OnOk result (BeginsOne self.old self.new) }
        ensures named { KeepsNames plan.now self.old self.new }
    {
        let number = plan.callee(&call.name);
        let Some(function) = function_in(plan, number) else {
            unreachable!()
        };
        self.enter(alloc, plan, slots, number, function, target, call, pool)
    }

    // A call of this function.
    fn enter(
        &mut self,
        alloc: Global,
        plan: &Plan,
        slots: &[u16],
        number: u32,
        function: &Function,
        target: Option<&Name>,
        call: &CallText,
        pool: &mut EnvironmentPool,
    ) -> Result<(), EvaluationError>
        requires goes_on { self.old.leaving ≡ false }
        requires slots { AreSlots slots.now plan.now }
        requires args { FindsArguments slots.now self.old.top.env call.now.args }
        requires target { FindsTarget slots.now self.old.top.env (option_copied target) }
        requires number { number ≡ function_number (functions_of plan.now) call.now.name.bytes }
        requires there { function_at (functions_of plan.now) number ≡ Some function.now }
        ensures shows { (st : Stmt) → Acts plan.now st (call_to (option_copied target.entry) call.now) self.old self.new (silent result) }
        ensures same { (kind : FaultKind) → result ≡ Err (Fault kind) → self.new ≡ self.old }
        ensures stays { StaysUnlessMemory self.old self.new (silent result) }
        ensures few { Costs self.old self.new }
        ensures begins { OnOk result (BeginsOne self.old self.new) }
        ensures named { KeepsNames plan.now self.old self.new }
    {
        let Some(names) = plan.names(number) else {
            unreachable!()
        };
        let params = function.params.as_slice();
        let args = call.args.as_slice();
        let env = self
            .top
            .env
            .called_with(alloc, slots, names, params, args, pool)?;
        if self.below.len() >= MOST_CALLS {
            return Err(EvaluationError::Fault(FaultKind::Calls));
        }
        self.open_call(alloc, number, env, target)?;
        Ok(())
    }

    // Begins a function with these variables over the innermost frame.
    fn open_call(
        &mut self,
        alloc: Global,
        number: u32,
        env: Environment,
        target: Option<&Name>,
    ) -> Result<(), Memory>
        ensures top { OnOk result (IsCallee number env (option_copied target.entry) self.new.top) }
        ensures below { OnOk result (self.new.below.items ≡ self.old.below.items ++ self.old.top ∷ []) }
        ensures err { OnErr result (StaysThere self.old self.new) }
        ensures trail { self.new.trail ≡ self.old.trail }
        ensures leaving { self.new.leaving ≡ self.old.leaving }
        ensures rank { self.new.rank ≡ self.old.rank }
        ensures steps { self.new.steps ≡ self.old.steps }
    {
        // most instances have one or two open calls at a time, and a list would begin with room for four
        if self.below.is_empty() {
            self.below.try_reserve_exact(2)?;
        } else {
            self.below.try_reserve(1)?;
        }
        let target = target_of(target);
        let callee = Frame::new(alloc, number, env, target);
        let caller = mem::replace(&mut self.top, callee);
        self.below.push_reserved(caller);
        Ok(())
    }

    // Assigns a value to a variable of the innermost frame, if one is given.
    #[inline(always)]
    pub(crate) fn receive(&mut self, slots: &[u16], target: Option<&Target>, value: Value)
        requires { FindsTarget slots.now self.old.top.env (option_copied target) }
        ensures { self.new ≡ record self.old { top = record self.old.top { env = with_variables self.old.top.env (with_scalar (option_copied target.entry) value self.old.top.env.variables) } } }
    {
        if let Some(x) = target {
            self.top.env.receive(slots, x, value);
        }
    }

    // The step of a return in a frame without spawns since its last sync. Returns whether the return implies a sync,
    // which takes a rank.
    pub(crate) fn return_alone(&mut self, plan: &Plan) -> Result<bool, FaultKind>
        requires strand { IsStrand plan.now self.old }
        requires here { here_of (path_of self.old) (machine_of plan.now self.old) ≡ present_of self.old }
        requires alone { self.old.top.spawned ≡ false }
        ensures shows { let m = machine_of plan.now self.old in
            Makes (return_move plan.now (path_of self.old) m false) (present_pedigree (present_of self.old) m) (machine_of plan.now self.new) (synced_at (present_pedigree (present_of self.old) m) result) }
        ensures same { (kind : FaultKind) → result ≡ Err kind → self.new ≡ self.old }
        ensures paid { OnOk result (self.new.steps + 1 ≡ self.old.steps) }
        ensures rest { OnOk result (self.new ≡ record self.old { steps = self.new.steps; rank = self.new.rank; top = record self.old.top { returning = true } }) }
        ensures few { self.new.rank + self.new.steps ≤ self.old.rank + self.old.steps }
        ensures named { KeepsNames plan.now self.old self.new }
    {
        self.pay()?;
        self.top.returning = true;
        if !self.has_spawns(plan) {
            return Ok(false);
        }
        self.rank += 1;
        Ok(true)
    }

    // The step of a return, and the sync that it implies.
    pub(crate) fn return_step(&mut self, plan: &Plan) -> Result<MoveResult, EvaluationError>
        requires strand { IsStrand plan.now self.old }
        requires here { here_of (path_of self.old) (machine_of plan.now self.old) ≡ present_of self.old }
        ensures shows { let m = machine_of plan.now self.old in
            Makes (return_move plan.now (path_of self.old) m false) (present_pedigree (present_of self.old) m) (machine_of plan.now self.new) result }
        ensures child { IfOk result (MovesTrail plan.now) }
        ensures stays { StaysUnlessMemory self.old self.new result }
        ensures few { self.new.rank + self.new.steps ≤ self.old.rank + self.old.steps }
        ensures named { KeepsNames plan.now self.old self.new }
    {
        self.pay()?;
        self.top.returning = true;
        if self.has_spawns(plan) {
            return self.sync();
        }
        Ok(MoveResult::Moved(Effects::Nothing))
    }

    // Whether the text of the innermost frame's function has the word `spawn`.
    pub(crate) fn has_spawns(&self, plan: &Plan) -> bool
        ensures { result ≡ spawns_in (function_at (functions_of plan.now) self.now.top.function) }
    {
        plan.spawns(self.top.function)
    }

    // The value that the innermost frame returns.
    #[inline(always)]
    fn result(&self, plan: &Plan) -> Result<Value, EvaluationError>
        requires { IsNamed plan.now self.now.top }
        ensures { Calculates result (result_of (function_at (functions_of plan.now) self.now.top.function) self.now.top.env.variables) }
    {
        match function_in(plan, self.top.function) {
            Some(f) => self.top.env.value(plan.slots(), &f.result),
            None => Ok(Value::Int(0)),
        }
    }

    // The instance's value, where its next move is to end by it and meets no fault.
    #[inline(always)]
    pub(crate) fn last_value(
        &self,
        plan: &Plan,
        next: Option<&Stmt>,
    ) -> Result<Option<Value>, Memory>
        requires sound { IsInstance plan.now self.now }
        requires passed { HasPassedStatement plan.now self.now (option_copied next) }
        ensures { IfOk result (λ last. IfSome last (λ v. move plan.now (path_of self.now) (unpassed plan.now self.now (option_copied next.entry)) ≡ run_of (move_result.Returned v) (machine_of plan.now self.now))) }
    {
        let None = next else {
            return Ok(None);
        };
        if !self.top.returning || !self.below.is_empty() {
            return Ok(None);
        }
        if !self.top.levels.as_slice().is_empty() {
            return Ok(None);
        }
        match self.result(plan) {
            Ok(value) => Ok(Some(value)),
            Err(EvaluationError::Fault(_)) => Ok(None),
            Err(EvaluationError::Memory) => Err(Memory),
        }
    }

    // Ends the innermost frame: its value goes to the frame below, or is the instance's.
    pub(crate) fn end(&mut self, alloc: Global, plan: &Plan) -> Result<MoveResult, EvaluationError>
        requires named { AreNamed plan.now self.old }
        requires outside { self.old.top.levels.items ≡ [] }
        requires goes_on { self.old.leaving ≡ false }
        requires here { here_of (path_of self.old) (machine_of plan.now self.old) ≡ present_of self.old }
        ensures shows { let m = machine_of plan.now self.old in
            Makes (return_move plan.now (path_of self.old) m true) (present_pedigree (present_of self.old) m) (machine_of plan.now self.new) result }
        ensures child { IfOk result (MovesTrail plan.now) }
        ensures stays { StaysUnlessMemory self.old self.new result }
        ensures few { self.new.rank + self.new.steps ≤ self.old.rank + self.old.steps }
        ensures named { KeepsNames plan.now self.old self.new }
    {
        if self.below.is_empty() {
            return Ok(MoveResult::Returned(self.result(plan)?));
        }
        silent(self.give_back(plan, &mut EnvironmentPool::new(alloc)))
    }

    // Ends the innermost frame: its value goes to the frame below.
    #[inline(always)]
    pub(crate) fn give_back(
        &mut self,
        plan: &Plan,
        pool: &mut EnvironmentPool,
    ) -> Result<(), EvaluationError>
        requires named { AreNamed plan.now self.old }
        requires outside { self.old.top.levels.items ≡ [] }
        requires goes_on { self.old.leaving ≡ false }
        requires below { self.old.below.items ≡ [] → ⊥ }
        requires here { here_of (path_of self.old) (machine_of plan.now self.old) ≡ present_of self.old }
        ensures shows { let m = machine_of plan.now self.old in
            Makes (return_move plan.now (path_of self.old) m true) (present_pedigree (present_of self.old) m) (machine_of plan.now self.new) (silent result) }
        ensures same { (kind : FaultKind) → result ≡ Err (Fault kind) → self.new ≡ self.old }
        ensures stays { StaysUnlessMemory self.old self.new (silent result) }
        ensures steps { self.new.steps ≡ self.old.steps }
        ensures rank { self.new.rank ≡ self.old.rank }
        ensures named { KeepsNames plan.now self.old self.new }
        ensures fewer { OnOk result (length self.new.below.items < length self.old.below.items) }
    {
        let value = self.result(plan)?;
        let Some(caller) = self.below.pop() else {
            unreachable!()
        };
        let callee = mem::replace(&mut self.top, caller);
        self.receive(plan.slots(), callee.target.as_ref(), value);
        callee.discard(pool);
        Ok(())
    }
}

// The function with this index, if there is one.
pub(crate) fn function_in(plan: &Plan, number: u32) -> Option<&Function>
    ensures { option_copied result ≡ function_at (functions_of plan.now) number }
{
    plan.functions().get(number as usize)
}
