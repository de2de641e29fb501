// Instances.

ghost use Rattle.std.specs.Prelude.{◌≡◌, ◌<◌, [], ◌∷◌, None, Some, Ok, Err, IfOk, IfSome, length};
ghost use Rattle.std.specs.Option.{option_copied};
ghost use Rattle.dotmix.specs.Trails.{FitsGamma};
ghost use Rattle.serial_meaning.specs.Plan.{PlanView, functions_of};
ghost use Rattle.strand_meaning.specs.Machine.{Stands, function_begun, move};
ghost use Rattle.strand_meaning.specs.Found.{FindsAt, FindsInnermost, functions_in};
ghost use Rattle.strand_meaning.specs.Task.{frame_with_answer, changed, with_values};
ghost use Rattle.strand_moves.specs.declared.effects.MoveResult.TheVariants as move_result;

use crate::effects::{MoveResult, SpawnedChild, Waits};
use crate::event_sink::EventSink;
use crate::instance_parts::InstanceParts;
use crate::instance_pool::InstancePool;
use crate::memory::Memory;
use dotmix::Trail;
use script_grammar::Stmt;
use serial_meaning::{Fault, Plan, Value};
use std::alloc::Global;
use strand_values::Target;

/// An instance that is running. It is boxed, since the tasks that hold it are moved often.
#[derive(Drop)]
pub struct Instance {
    pub(crate) parts: Box<InstanceParts>,
}

impl Instance {
    ghost use Rattle.strand_moves.specs.Machines.{ComesToStatement, HasPassedStatement, HasSpawned, HasWaited, IsInstance, machine_of, path_of, unpassed};
    ghost use Rattle.strand_moves.specs.Moves.{run_of, MovesTrail};
    ghost use Rattle.strand_moves.specs.Spawns.{SpawnsTrail};
    ghost use Rattle.strand_moves.specs.Waits.{WaitsTrail};

    /// An instance of the function with this index, before its first move.
    #[inline(always)]
    pub fn new(
        alloc: Global,
        plan: &Plan,
        function: u32,
        args: &[Value],
        trail: Trail,
        pool: &mut InstancePool,
    ) -> Result<Instance, Memory>
        requires there { function < length (functions_of plan.now) }
        requires fits { FitsGamma plan.now.gamma trail }
        requires within { length trail.path < plan.now.limits.depth }
        ensures begins { IfOk result (λ i. function_begun plan.now function args.now ≡ Stands (machine_of plan.now i)) }
        ensures path { IfOk result (λ i. path_of i ≡ trail.path) }
        ensures sound { IfOk result (IsInstance plan.now) }
    {
        let parts = InstanceParts::new(alloc, plan, function, args, trail, pool)?;
        Ok(Instance { parts })
    }

    /// Moves the present path to memory of its own, where there is some. Then the paths of further children share no list of blocks with those of
    /// earlier ones.
    pub fn unshare_path(&mut self, alloc: Global)
        ensures { self.new ≡ self.old }
    {
        self.parts.trail.path.unshare(alloc);
    }

    /// One move. After `Memory` the instance must not be used any more.
    pub fn make_move(&mut self, alloc: Global, plan: &Plan) -> Result<MoveResult, Memory>
        requires { IsInstance plan.now self.old }
        ensures moves { IfOk result (λ move_result. move plan.now (path_of self.old) (machine_of plan.now self.old) ≡ run_of move_result (machine_of plan.now self.new)) }
        ensures child { IfOk result (MovesTrail plan.now) }
        ensures path { IfOk result (λ _. path_of self.new ≡ path_of self.old) }
        ensures sound { IfOk result (λ _. IsInstance plan.now self.new) }
    {
        self.parts.make_move(alloc, plan)
    }

    /// Makes moves in a row that show nothing or an event, which the sink takes. Returns the statement whose move is next, if one is left, for
    /// `spawn`, `wait` or `make`, and else for `wait_end` or `make`. After `Memory` the instance must not be used any more.
    pub fn straight_run<'a, S: EventSink>(
        &mut self,
        alloc: Global,
        plan: &'a Plan,
        sink: &mut S,
        pool: &mut InstancePool,
    ) -> Result<Option<&'a Stmt>, Memory>
        requires { IsInstance plan.now self.old }
        ensures { IfOk result (λ next. ComesToStatement S.after plan.now self.old sink.old self.new sink.new (option_copied next)) }
    {
        self.parts
            .straight_run(alloc, plan, sink, &mut pool.environments)
    }

    /// The next move, where it is the spawn of a child. Its event goes to the sink. Otherwise, or where it meets a
    /// fault, nothing changes.
    pub fn spawn<S: EventSink>(
        &mut self,
        alloc: Global,
        plan: &Plan,
        statement: &Stmt,
        sink: &mut S,
        pool: &mut InstancePool,
    ) -> Result<Option<SpawnedChild>, Memory>
        requires sound { IsInstance plan.now self.old }
        requires passed { HasPassedStatement plan.now self.old (Some statement.now) }
        ensures did { IfOk result (HasSpawned S.after plan.now self.old sink.old (Some statement.now) self.new sink.new) }
        ensures child { IfOk result (SpawnsTrail plan.now) }
        ensures path { IfOk result (λ _. path_of self.new ≡ path_of self.old) }
        ensures sound { IfOk result (λ _. IsInstance plan.now self.new) }
    {
        self.parts
            .spawn_statement(alloc, plan, statement, sink, pool)
    }

    /// The next move, where it is a written sync or a parallel loop. Its event goes to the sink. Otherwise, or where it
    /// meets a fault, nothing changes.
    pub fn wait<S: EventSink>(
        &mut self,
        alloc: Global,
        plan: &Plan,
        statement: &Stmt,
        sink: &mut S,
    ) -> Result<Option<Waits>, Memory>
        requires sound { IsInstance plan.now self.old }
        requires passed { HasPassedStatement plan.now self.old (Some statement.now) }
        ensures did { IfOk result (HasWaited S.after plan.now self.old sink.old (Some statement.now) self.new sink.new) }
        ensures child { IfOk result (WaitsTrail plan.now) }
        ensures path { IfOk result (λ _. path_of self.new ≡ path_of self.old) }
        ensures sound { IfOk result (λ _. IsInstance plan.now self.new) }
    {
        self.parts.wait_statement(alloc, plan, statement, sink)
    }

    /// The next move where no statement is left, if it is the sync that a return implies or that at the end of a scope.
    /// Its event goes to the sink. Otherwise, or where it meets a fault, nothing changes.
    #[inline(always)]
    pub fn wait_end<S: EventSink>(
        &mut self,
        alloc: Global,
        plan: &Plan,
        sink: &mut S,
    ) -> Result<Option<Waits>, Memory>
        requires sound { IsInstance plan.now self.old }
        requires passed { HasPassedStatement plan.now self.old None }
        ensures did { IfOk result (HasWaited S.after plan.now self.old sink.old None self.new sink.new) }
        ensures child { IfOk result (WaitsTrail plan.now) }
        ensures path { IfOk result (λ _. path_of self.new ≡ path_of self.old) }
        ensures sound { IfOk result (λ _. IsInstance plan.now self.new) }
    {
        self.parts.wait_end(alloc, plan, sink)
    }

    /// The value by which the instance ends, where its next move is that end and meets no fault.
    #[inline(always)]
    pub fn last_value(&self, plan: &Plan, next: Option<&Stmt>) -> Result<Option<Value>, Memory>
        requires sound { IsInstance plan.now self.now }
        requires passed { HasPassedStatement plan.now self.now (option_copied next) }
        ensures { IfOk result (λ last. IfSome last (λ v. move plan.now (path_of self.now) (unpassed plan.now self.now (option_copied next.entry)) ≡ run_of (move_result.Returned v) (machine_of plan.now self.now))) }
    {
        self.parts.last_value(plan, next)
    }

    /// The next move. After `Memory` the instance must not be used any more.
    pub fn make(
        &mut self,
        alloc: Global,
        plan: &Plan,
        next: Option<&Stmt>,
    ) -> Result<MoveResult, Memory>
        requires sound { IsInstance plan.now self.old }
        requires passed { HasPassedStatement plan.now self.old (option_copied next) }
        ensures moves { IfOk result (λ move_result. move plan.now (path_of self.old) (unpassed plan.now self.old (option_copied next.entry)) ≡ run_of move_result (machine_of plan.now self.new)) }
        ensures child { IfOk result (MovesTrail plan.now) }
        ensures path { IfOk result (λ _. path_of self.new ≡ path_of self.old) }
        ensures sound { IfOk result (λ _. IsInstance plan.now self.new) }
    {
        self.parts.make(alloc, plan, next)
    }

    /// Drops an instance that has ended. Its memory goes to the pool.
    #[inline(always)]
    pub fn discard(self, pool: &mut InstancePool)
        ensures { pool.new ≡ pool.old }
    {
        pool.keep(self.parts);
    }

    /// Takes the fault of a child of the frame with `height` others below it.
    pub fn receive_fault(&mut self, height: usize, fault: Fault)
        ensures machine { (plan : PlanView) (target : _) → machine_of plan self.new ≡ changed height (frame_with_answer target (Err fault)) (machine_of plan self.old) }
        ensures path { path_of self.new ≡ path_of self.old }
        ensures sound { (plan : PlanView) → IsInstance plan self.old → IsInstance plan self.new }
    {
        self.parts.receive_fault(height, fault);
    }

    /// Takes the value of a child of the frame with `height` others below it. Where that frame has no such variable,
    /// nothing changes.
    pub fn receive_value(
        &mut self,
        plan: &Plan,
        height: usize,
        target: Option<&Target>,
        value: Value,
    )
        requires sound { IsInstance plan.now self.old }
        requires found { FindsAt plan.now height (option_copied target) (functions_in (machine_of plan.now self.old)) }
        ensures machine { (p : PlanView) → machine_of p self.new ≡ changed height (frame_with_answer (option_copied target.entry) (Ok (value ∷ []))) (machine_of p self.old) }
        ensures path { path_of self.new ≡ path_of self.old }
        ensures sound { (p : PlanView) → IsInstance p self.old → IsInstance p self.new }
    {
        self.parts.receive_value(plan, height, target, value);
    }

    /// Takes the values of a loop of the innermost frame.
    pub fn receive_values(
        &mut self,
        alloc: Global,
        plan: &Plan,
        target: Option<&Target>,
        values: &[Value],
    )
        requires sound { IsInstance plan.now self.old }
        requires found { FindsInnermost plan.now (option_copied target) (functions_in (machine_of plan.now self.old)) }
        ensures machine { (p : PlanView) → machine_of p self.new ≡ with_values (option_copied target.entry) values.now (machine_of p self.old) }
        ensures path { path_of self.new ≡ path_of self.old }
        ensures sound { (p : PlanView) → IsInstance p self.old → IsInstance p self.new }
    {
        self.parts.receive_values(alloc, plan, target, values);
    }

    /// The least fault among the answers that the innermost frame took since its last sync.
    pub fn childs_fault(&self) -> Option<&Fault>
        ensures { (plan : PlanView) → option_copied result ≡ (machine_of plan self.now).top.faulted }
    {
        self.parts.childs_fault()
    }
}
