// Children: spawns, syncs and parallel loops.

ghost use Rattle.std.specs.Prelude.{◌≡◌, ◌<◌, ◌≤◌, ◌^◌, ◌+◌, ◌++◌, ◌∷◌, [], ℕ, Bool, None, Some, Err, IfOk, IfSome, OnErr, OnOk, false, true, length};
ghost use Rattle.std.specs.Option.{option_copied};
ghost use Rattle.dotmix.specs.Trails.{FitsGamma};
ghost use Rattle.script_grammar.specs.declared.tree.Act.TheOpen as act;
ghost use Rattle.script_check.specs.Slots.{every_in_statement};
ghost use Rattle.script_grammar.specs.declared.tree.Name.{Name};
ghost use Rattle.script_grammar.specs.declared.tree.Act.{out-Act};
ghost use Rattle.script_grammar.specs.declared.tree.Stmt.{Stmt, out-Stmt};
ghost use Rattle.serial_meaning.specs.Exec.{with_loop_values};
ghost use Rattle.serial_meaning.specs.Functions.{function_at};
ghost use Rattle.serial_meaning.specs.Open.{answer_placeholder};
ghost use Rattle.serial_meaning.specs.Plan.{PlanView, functions_of};
ghost use Rattle.serial_meaning.specs.declared.event.Event.TheVariants as event;
ghost use Rattle.strand_meaning.specs.Machine.{Emitted, sync_effects, with_scalar};
ghost use Rattle.strand_values.specs.Environments.{with_variables};
ghost use Rattle.strand_moves.specs.Found.{EveryInSpawn, FindsLoop, FindsSpawn, FindsTarget};
ghost use Rattle.strand_moves.specs.Acts.{Acts, Costs, Stays, loop_begins};
ghost use Rattle.strand_moves.specs.InstanceParts.{IsInstance, IsStrand, KeepsNames, path_of, present_of};
ghost use Rattle.strand_values.specs.declared.evaluation_error.EvaluationError.TheVariants as error;
ghost use Rattle.serial_meaning.specs.declared.event.FaultKind.{FaultKind};
ghost use Rattle.strand_values.specs.declared.evaluation_error.EvaluationError.TheVariants.{Fault};
ghost use Rattle.strand_moves.specs.Moves.{IsTrailOf, MovesTrail, HasEffects, spawn_to};
ghost use Rattle.strand_moves.specs.StraightRuns.{HasPassedStatement};
ghost use Rattle.strand_moves.specs.Spawns.{DoesAs, HasSpawned, IsBoxedSpawn, SpawnsTrail, spawn_as_move};
ghost use Rattle.strand_moves.specs.Waits.{HasWaited, ShowsTrailAfter, WaitsTrail, sync_waits, wait_as_move};

use crate::calls::function_in;
use crate::effects::{Child, Effects, LoopedChild, MoveResult, SpawnedChild, Waits};
use crate::event_sink::EventSink;
use crate::frame::target_of;
use crate::instance_parts::InstanceParts;
use crate::instance_pool::InstancePool;
use crate::memory::Memory;
use crate::narrow::narrowed;
use contract_views::{Boxed, Items};
use dotmix::Trail;
use loop_range::IterRange;
use ped_path::{Ped, Pedigree};
use script_grammar::{Act, CallText, Expr, Kind, Name, Right, Stmt};
use serial_meaning::{Event, EventKind, FaultKind, Origin, Plan, Value};
use std::alloc::Global;
use strand_values::{EvaluationError, Target, iteration_count, number};

impl InstanceParts {
    // A spawn. The child's value will go to `target`, if there is one.
    #[inline(always)]
    pub(crate) fn spawn(
        &mut self,
        alloc: Global,
        plan: &Plan,
        slots: &[u16],
        target: Option<&Name>,
        call: &CallText,
        room: Items<Value>,
    ) -> Result<SpawnedChild, EvaluationError>
        requires room { room ≡ [] }
        requires strand { IsStrand plan.now self.old }
        requires finds { FindsSpawn plan.now slots.now self.old.top.env (option_copied target) call.now }
        ensures shows { (st : Stmt) → Acts plan.now st (spawn_to (option_copied target.entry) call.now) self.old self.new (spawn_as_move (event.Spawn (present_of self.old ++ self.old.rank ∷ [])) result) }
        ensures same { (kind : FaultKind) → result ≡ Err (Fault kind) → self.new ≡ self.old }
        ensures child { IfOk result (λ s. IsTrailOf plan.now s.child.origin s.child.trail) }
        ensures stays { Stays self.old self.new }
        ensures few { Costs self.old self.new }
        ensures named { (plan : PlanView) → KeepsNames plan self.old self.new }
    {
        let height = narrowed(self.below.len())?;
        let args = self.top.env.values_in(slots, call.args.as_slice(), room)?;
        if self.trail.path.len() + 1 >= plan.limits.depth as u64 {
            return Err(EvaluationError::Fault(FaultKind::Depth));
        }
        let function = plan.callee(&call.name);
        let target = self.receive_placeholder(alloc, plan, slots, function, target)?;
        let (trail, path) = self.child_place(alloc, plan)?;
        let origin = Origin::Instance {
            function,
            args,
            path,
        };
        self.rank += 1;
        self.top.spawned = true;
        Ok(SpawnedChild {
            child: Child { origin, trail },
            height,
            target,
        })
    }

    // The same, with its event, as a move.
    pub(crate) fn spawn_move(
        &mut self,
        alloc: Global,
        plan: &Plan,
        slots: &[u16],
        target: Option<&Name>,
        call: &CallText,
    ) -> Result<MoveResult, EvaluationError>
        requires strand { IsStrand plan.now self.old }
        requires finds { FindsSpawn plan.now slots.now self.old.top.env (option_copied target) call.now }
        ensures shows { (st : Stmt) → Acts plan.now st (spawn_to (option_copied target.entry) call.now) self.old self.new result }
        ensures child { IfOk result (MovesTrail plan.now) }
        ensures stays { Stays self.old self.new }
        ensures few { Costs self.old self.new }
        ensures named { (plan : PlanView) → KeepsNames plan self.old self.new }
    {
        let event = Event::Spawn(self.pedigree()?);
        let done = self.spawn(alloc, plan, slots, target, call, Items(Vec::new(alloc)));
        spawn_as_move(alloc, event, done)
    }

    // The spawn that the cursor has just passed. Its event goes to the sink. Where the statement is another one, or
    // meets a fault, nothing changes.
    pub(crate) fn spawn_statement<S: EventSink>(
        &mut self,
        alloc: Global,
        plan: &Plan,
        statement: &Stmt,
        sink: &mut S,
        pool: &mut InstancePool,
    ) -> Result<Option<SpawnedChild>, Memory>
        requires sound { IsInstance plan.now self.old }
        requires passed { HasPassedStatement plan.now self.old (Some statement.now) }
        ensures did { IfOk result (HasSpawned S.after plan.now self.old sink.old (Some statement.now) self.new sink.new) }
        ensures child { IfOk result (SpawnsTrail plan.now) }
        ensures path { IfOk result (λ _. path_of self.new ≡ path_of self.old) }
        ensures sound { IfOk result (λ _. IsInstance plan.now self.new) }
    {
        let Some(text) = spawn_in(statement) else {
            return Ok(None);
        };
        if self.steps == 0 {
            return Ok(None);
        }
        self.steps -= 1;
        let rank = self.rank;
        match self.spawn(
            alloc,
            plan,
            plan.slots(),
            text.0,
            text.1,
            pool.values(alloc),
        ) {
            Ok(spawned) => {
                sink.emit_at(alloc, &self.trail.path, rank, EventKind::Spawn)?;
                Ok(Some(spawned))
            }
            Err(EvaluationError::Fault(_)) => {
                self.steps += 1;
                Ok(None)
            }
            Err(EvaluationError::Memory) => Err(Memory),
        }
    }

    // A sync, written or implied.
    pub(crate) fn sync(&mut self) -> Result<MoveResult, EvaluationError>
        requires { self.old.rank < 2 ^ 32 }
        ensures effects { IfOk result (HasEffects (Emitted (event.Sync (present_of self.old ++ self.old.rank ∷ [])) ∷ sync_effects self.old.top.spawned)) }
        ensures passed { OnOk result (self.new ≡ record self.old { rank = self.old.rank + 1; top = record self.old.top { spawned = false } }) }
        ensures fine { OnErr result (result ≡ Err error.Memory) }
        ensures child { (plan : PlanView) → IfOk result (MovesTrail plan) }
        ensures stays { Stays self.old self.new }
        ensures few { Costs self.old self.new }
        ensures named { (plan : PlanView) → KeepsNames plan self.old self.new }
    {
        let event = Event::Sync(self.pedigree()?);
        if self.pass_sync() {
            return Ok(MoveResult::Moved(Effects::Synced(event)));
        }
        Ok(MoveResult::Moved(Effects::Emitted(event)))
    }

    // Passes a sync, whose event isn't shown yet. Returns whether the instance waits there.
    #[inline(always)]
    fn pass_sync(&mut self) -> bool
        requires { self.old.rank < 2 ^ 32 }
        ensures waits { result ≡ self.old.top.spawned }
        ensures passed { self.new ≡ record self.old { rank = self.old.rank + 1; top = record self.old.top { spawned = false } } }
        ensures stays { Stays self.old self.new }
        ensures few { Costs self.old self.new }
        ensures named { (plan : PlanView) → KeepsNames plan self.old self.new }
    {
        let waits = self.top.spawned;
        self.rank += 1;
        self.top.spawned = false;
        waits
    }

    // The sync that the cursor has just passed. Its event goes to the sink. Where no step is left nothing changes.
    fn sync_sent<S: EventSink>(
        &mut self,
        alloc: Global,
        plan: &Plan,
        statement: &Stmt,
        sink: &mut S,
    ) -> Result<Option<Waits>, Memory>
        requires sound { IsInstance plan.now self.old }
        requires passed { HasPassedStatement plan.now self.old (Some statement.now) }
        requires is { out-Act (out-Stmt statement.now).act ≡ act.Sync }
        ensures did { IfOk result (HasWaited S.after plan.now self.old sink.old (Some statement.now) self.new sink.new) }
        ensures child { IfOk result (WaitsTrail plan.now) }
        ensures path { IfOk result (λ _. path_of self.new ≡ path_of self.old) }
        ensures sound { IfOk result (λ _. IsInstance plan.now self.new) }
    {
        if self.steps == 0 {
            return Ok(None);
        }
        self.steps -= 1;
        Ok(Some(self.emit_sync(alloc, sink)?))
    }

    // Passes a sync. Its event goes to the sink.
    #[inline(always)]
    fn emit_sync<S: EventSink>(&mut self, alloc: Global, sink: &mut S) -> Result<Waits, Memory>
        requires { self.old.rank < 2 ^ 32 }
        ensures sent { OnOk result (sink.new ≡ S.after (event.Sync (present_of self.old ++ self.old.rank ∷ [])) sink.old) }
        ensures waits { IfOk result (λ w. w ≡ sync_waits self.old.top.spawned) }
        ensures passed { OnOk result (self.new ≡ record self.old { rank = self.old.rank + 1; top = record self.old.top { spawned = false } }) }
    {
        sink.emit_at(alloc, &self.trail.path, self.rank, EventKind::Sync)?;
        if self.pass_sync() {
            return Ok(Waits::ForChildren);
        }
        Ok(Waits::Nothing)
    }

    // Where the cursor has passed all statements of its block: the sync at the end of a scope, or the step of a return
    // and the sync that it implies. Its event goes to the sink. Where there is none, or no step is left, nothing changes.
    #[inline(always)]
    pub(crate) fn wait_end<S: EventSink>(
        &mut self,
        alloc: Global,
        plan: &Plan,
        sink: &mut S,
    ) -> Result<Option<Waits>, Memory>
        requires sound { IsInstance plan.now self.old }
        requires passed { HasPassedStatement plan.now self.old None }
        ensures did { IfOk result (HasWaited S.after plan.now self.old sink.old None self.new sink.new) }
        ensures child { IfOk result (WaitsTrail plan.now) }
        ensures path { IfOk result (λ _. path_of self.new ≡ path_of self.old) }
        ensures sound { IfOk result (λ _. IsInstance plan.now self.new) }
    {
        if self.leaving || self.top.returning {
            return Ok(None);
        }
        if self.top.levels.as_slice().is_empty() {
            return self.return_sent(alloc, plan, sink);
        }
        self.leaving = true;
        Ok(Some(self.emit_sync(alloc, sink)?))
    }

    // The same of a return.
    fn return_sent<S: EventSink>(
        &mut self,
        alloc: Global,
        plan: &Plan,
        sink: &mut S,
    ) -> Result<Option<Waits>, Memory>
        requires sound { IsInstance plan.now self.old }
        requires passed { HasPassedStatement plan.now self.old None }
        requires goes_on { self.old.leaving ≡ false }
        requires outside { self.old.top.levels.items ≡ [] }
        requires first { self.old.top.returning ≡ false }
        ensures did { IfOk result (HasWaited S.after plan.now self.old sink.old None self.new sink.new) }
        ensures child { IfOk result (WaitsTrail plan.now) }
        ensures path { IfOk result (λ _. path_of self.new ≡ path_of self.old) }
        ensures sound { IfOk result (λ _. IsInstance plan.now self.new) }
    {
        if self.steps == 0 || !self.has_spawns(plan) {
            return Ok(None);
        }
        self.steps -= 1;
        self.top.returning = true;
        Ok(Some(self.emit_sync(alloc, sink)?))
    }

    // The sync or the parallel loop that the cursor has just passed. Its event goes to the sink. Where the statement is
    // another one, or meets a fault, nothing changes.
    pub(crate) fn wait_statement<S: EventSink>(
        &mut self,
        alloc: Global,
        plan: &Plan,
        statement: &Stmt,
        sink: &mut S,
    ) -> Result<Option<Waits>, Memory>
        requires sound { IsInstance plan.now self.old }
        requires passed { HasPassedStatement plan.now self.old (Some statement.now) }
        ensures did { IfOk result (HasWaited S.after plan.now self.old sink.old (Some statement.now) self.new sink.new) }
        ensures child { IfOk result (WaitsTrail plan.now) }
        ensures path { IfOk result (λ _. path_of self.new ≡ path_of self.old) }
        ensures sound { IfOk result (λ _. IsInstance plan.now self.new) }
    {
        match &statement.act {
            Act::Sync => self.sync_sent(alloc, plan, statement, sink),
            Act::Pfor { .. } => self.loop_sent(alloc, plan, statement, sink),
            _ => Ok(None),
        }
    }

    // The same of a parallel loop.
    fn loop_sent<S: EventSink>(
        &mut self,
        alloc: Global,
        plan: &Plan,
        statement: &Stmt,
        sink: &mut S,
    ) -> Result<Option<Waits>, Memory>
        requires sound { IsInstance plan.now self.old }
        requires passed { HasPassedStatement plan.now self.old (Some statement.now) }
        ensures did { IfOk result (HasWaited S.after plan.now self.old sink.old (Some statement.now) self.new sink.new) }
        ensures child { IfOk result (WaitsTrail plan.now) }
        ensures path { IfOk result (λ _. path_of self.new ≡ path_of self.old) }
        ensures sound { IfOk result (λ _. IsInstance plan.now self.new) }
    {
        let Act::Pfor {
            var: _,
            lo,
            hi,
            target,
            call,
        } = &statement.act
        else {
            return Ok(None);
        };
        if self.steps == 0 {
            return Ok(None);
        }
        self.steps -= 1;
        let rank = self.rank;
        match self.pfor(alloc, plan, plan.slots(), lo, hi, target, call) {
            Ok(waits) => {
                sink.emit_at(alloc, &self.trail.path, rank, EventKind::Loop)?;
                Ok(Some(waits))
            }
            Err(EvaluationError::Fault(_)) => {
                self.steps += 1;
                Ok(None)
            }
            Err(EvaluationError::Memory) => Err(Memory),
        }
    }

    // A parallel loop, whose event isn't shown yet.
    #[inline(always)]
    fn pfor(
        &mut self,
        alloc: Global,
        plan: &Plan,
        slots: &[u16],
        lo: &Expr,
        hi: &Expr,
        target: &Option<Name>,
        call: &CallText,
    ) -> Result<Waits, EvaluationError>
        requires strand { IsStrand plan.now self.old }
        requires steps { self.old.steps < 2 ^ 32 }
        requires finds { FindsLoop plan.now slots.now self.old.top.env lo.now hi.now target.now call.now }
        ensures shows { (st : Stmt) (var : _) → Acts plan.now st (act.Pfor var lo.now hi.now target.now call.now) self.old self.new (wait_as_move (event.Loop (present_of self.old ++ self.old.rank ∷ [])) result) }
        ensures same { (kind : FaultKind) → result ≡ Err (Fault kind) → self.new ≡ self.old }
        ensures child { IfOk result (ShowsTrailAfter plan.now) }
        ensures stays { Stays self.old self.new }
        ensures few { Costs self.old self.new }
        ensures named { (plan : PlanView) → KeepsNames plan self.old self.new }
    {
        let first = number(&self.top.env.value(slots, lo)?);
        let end = number(&self.top.env.value(slots, hi)?);
        let rest = self.top.env.values(alloc, slots, call.args.as_slice())?;
        let count = iteration_count(first, end);
        self.begin_loop(plan, slots, target, count)?;
        if count == 0 {
            self.pass_loop(alloc, slots, target);
            return Ok(Waits::Nothing);
        }
        let function = plan.callee(&call.name);
        let (trail, path) = self.child_place(alloc, plan)?;
        let range = IterRange { lo: 0, hi: count };
        let origin = Origin::Loop {
            function,
            rest,
            first,
            path,
            range,
        };
        let child = Child { origin, trail };
        let looped = looped_child(alloc, target, child)?;
        self.pass_loop(alloc, slots, target);
        Ok(Waits::ForLoop(looped))
    }

    // The same, with its event, as a move.
    pub(crate) fn pfor_move(
        &mut self,
        alloc: Global,
        plan: &Plan,
        slots: &[u16],
        lo: &Expr,
        hi: &Expr,
        target: &Option<Name>,
        call: &CallText,
    ) -> Result<MoveResult, EvaluationError>
        requires strand { IsStrand plan.now self.old }
        requires steps { self.old.steps < 2 ^ 32 }
        requires finds { FindsLoop plan.now slots.now self.old.top.env lo.now hi.now target.now call.now }
        ensures shows { (st : Stmt) (var : _) → Acts plan.now st (act.Pfor var lo.now hi.now target.now call.now) self.old self.new result }
        ensures child { IfOk result (MovesTrail plan.now) }
        ensures stays { Stays self.old self.new }
        ensures few { Costs self.old self.new }
        ensures named { (plan : PlanView) → KeepsNames plan self.old self.new }
    {
        let event = Event::Loop(self.pedigree()?);
        let done = self.pfor(alloc, plan, slots, lo, hi, target, call);
        wait_as_move(event, done)
    }

    // Checks and pays what a loop of `count` iterations needs: its steps, an item of its target for each, and the
    // depth of their pedigrees.
    fn begin_loop(
        &mut self,
        plan: &Plan,
        slots: &[u16],
        target: &Option<Name>,
        count: u64,
    ) -> Result<(), FaultKind>
        requires { FindsTarget slots.now self.old.top.env target.now }
        ensures result { result ≡ loop_begins plan.now (present_of self.old) count target.now self.old.top.env.variables self.old.steps }
        ensures ok { OnOk result (self.new.steps + count ≡ self.old.steps) }
        ensures less { self.new.steps ≤ self.old.steps }
        ensures same { OnErr result (self.new ≡ self.old) }
        ensures others { self.new ≡ record self.old { steps = self.new.steps } }
    {
        if count > self.steps {
            return Err(FaultKind::Budget);
        }
        if !self.top.env.has_room(slots, target.as_ref(), count) {
            return Err(FaultKind::Index);
        }
        if count != 0 && self.trail.path.len() + 2 >= plan.limits.depth as u64 {
            return Err(FaultKind::Depth);
        }
        self.steps -= count;
        Ok(())
    }

    // Passes a loop: its target has no value until it has ended.
    fn pass_loop(&mut self, alloc: Global, slots: &[u16], target: &Option<Name>)
        requires rank { self.old.rank < 2 ^ 32 }
        requires target { FindsTarget slots.now self.old.top.env target.now }
        ensures passed { self.new ≡ record self.old { rank = self.old.rank + 1; top = record self.old.top { env = with_variables self.old.top.env (with_loop_values target.now [] self.old.top.env.variables) } } }
        ensures stays { Stays self.old self.new }
        ensures few { Costs self.old self.new }
        ensures named { (plan : PlanView) → KeepsNames plan self.old self.new }
    {
        self.top.env.clear(alloc, slots, target.as_ref());
        self.rank += 1;
    }

    // The trail of a child of this strand, and its path, which shares the trail's memory.
    #[inline(always)]
    pub(crate) fn child_place(&self, alloc: Global, plan: &Plan) -> Result<(Trail, Ped), Memory>
        requires fits { FitsGamma plan.now.gamma self.now.trail }
        requires within { length (present_of self.now) < length plan.now.gamma }
        requires rank { self.now.rank < 2 ^ 32 }
        ensures path { IfOk result (λ place. place.0.path ≡ present_of self.now ++ self.now.rank ∷ []) }
        ensures fits { IfOk result (λ place. FitsGamma plan.now.gamma place.0) }
        ensures shared { IfOk result (λ place. place.1 ≡ place.0.path) }
    {
        let trail = self.trail.child(alloc, &plan.gamma, self.rank)?;
        let path = trail.path.share()?;
        Ok((trail, path))
    }

    // Puts the placeholder for the value of a child of this function into a spawn's target.
    #[inline(always)]
    fn receive_placeholder(
        &mut self,
        alloc: Global,
        plan: &Plan,
        slots: &[u16],
        function: u32,
        target: Option<&Name>,
    ) -> Result<Option<Target>, Memory>
        requires { FindsTarget slots.now self.old.top.env (option_copied target) }
        ensures to { IfOk result (λ to. to ≡ option_copied target.entry) }
        ensures names { self.new.top.env.names ≡ self.old.top.env.names }
        ensures env { OnOk result (self.new.top.env ≡ with_variables self.old.top.env (with_scalar (option_copied target.entry) (answer_placeholder (function_at (functions_of plan.now) function)) self.old.top.env.variables)) }
        ensures others { self.new ≡ record self.old { top = record self.old.top { env = self.new.top.env } } }
    {
        let instead = placeholder(alloc, plan, function)?;
        if let Some(x) = target {
            self.top.env.set_scalar(slots, x, instead);
        }
        Ok(target_of(target))
    }
}

// The variable and the call of a spawn. None for other statements.
fn spawn_in<'a>(statement: &'a Stmt) -> Option<(Option<&'a Name>, &'a CallText)>
    ensures does { IfSome result (λ text. DoesAs statement.now (option_copied text.0) text.1.now) }
    ensures every { (is calls : Name → Bool) → every_in_statement is calls statement.now ≡ true → IfSome result (λ text. EveryInSpawn is calls (option_copied text.0) text.1.now) }
{
    match &statement.act {
        Act::Spawn(c) => Some((None, c)),
        Act::Let(x, r) => match r {
            Right::Spawn(_, c) => Some((Some(x), c)),
            _ => None,
        },
        Act::Set(x, r) => match r {
            Right::Spawn(_, c) => Some((Some(x), c)),
            _ => None,
        },
        _ => None,
    }
}

// A spawn that showed this event, as a move.
fn spawn_as_move(
    alloc: Global,
    event: Event,
    done: Result<SpawnedChild, EvaluationError>,
) -> Result<MoveResult, EvaluationError>
    ensures { IsBoxedSpawn event done result }
{
    match done {
        Ok(spawned) => match boxed(alloc, spawned) {
            Ok(spawned) => Ok(MoveResult::Moved(Effects::Spawned { event, spawned })),
            Err(_) => Err(EvaluationError::Memory),
        },
        Err(error) => Err(error),
    }
}

// The loop that this child runs.
fn looped_child(
    alloc: Global,
    target: &Option<Name>,
    child: Child,
) -> Result<Boxed<LoopedChild>, Memory>
    ensures { IfOk result (λ looped. looped ≡ record { child = child; target = target.now }) }
{
    let target = target_of(target.as_ref());
    boxed(alloc, LoopedChild { child, target })
}

// What an instance waits for after this event, as a move.
fn wait_as_move(
    event: Event,
    done: Result<Waits, EvaluationError>,
) -> Result<MoveResult, EvaluationError>
    ensures { result ≡ wait_as_move event done }
{
    match done {
        Ok(Waits::Nothing) => Ok(MoveResult::Moved(Effects::Emitted(event))),
        Ok(Waits::ForChildren) => Ok(MoveResult::Moved(Effects::Synced(event))),
        Ok(Waits::ForLoop(looped)) => Ok(MoveResult::Moved(Effects::Looped { event, looped })),
        Err(error) => Err(error),
    }
}

// Boxes a value, so that `Effects` and `Waits` stay small.
fn boxed<T: Drop>(alloc: Global, it: T) -> Result<Boxed<T>, Memory>
    ensures { IfOk result (λ box. box ≡ it) }
{
    match Box::new(alloc, it) {
        Ok(it) => Ok(Boxed(it)),
        Err(failed) => {
            drop(failed);
            Err(Memory)
        }
    }
}

// The placeholder for the value of a child of this function.
fn placeholder(alloc: Global, plan: &Plan, function: u32) -> Result<Value, Memory>
    ensures { IfOk result (λ v. v ≡ answer_placeholder (function_at (functions_of plan.now) function)) }
{
    match function_in(plan, function) {
        Some(f) => match f.answer {
            Kind::Int => Ok(Value::Int(0)),
            Kind::Id => Ok(Value::Id(Pedigree {
                path: Ped::root(alloc)?,
                rank: 0,
            })),
        },
        None => Ok(Value::Int(0)),
    }
}
