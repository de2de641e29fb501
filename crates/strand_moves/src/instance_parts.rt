// What an instance is, and its moves.

ghost use Rattle.std.specs.Prelude.{◌≡◌, ◌<◌, ◌+◌, ◌^◌, ◌++◌, ◌∷◌, [], Err, IfOk, OnOk, length};
ghost use Rattle.std.specs.Option.{option_copied};
ghost use Rattle.dotmix.specs.Trails.{FitsGamma};
ghost use Rattle.serial_meaning.specs.Plan.{functions_of};
ghost use Rattle.strand_meaning.specs.Machine.{Stands, function_begun, move};

use crate::effects::MoveResult;
use crate::frame::Frame;
use crate::instance_pool::InstancePool;
use crate::memory::Memory;
use dotmix::Trail;
use ped_path::Pedigree;
use script_grammar::Stmt;
use serial_meaning::{Fault, FaultKind, Plan, Value};
use spare_memory::boxed;
use std::alloc::Global;
use strand_values::{Environment, EvaluationError};

// The content of an instance's box: its present path, its rank, the steps that it has left, and its frames.
#[derive(Drop)]
pub(crate) struct InstanceParts {
    // The trail of the present path: the instance's own, and then the ranks of the open scopes.
    pub(crate) trail: Trail,
    pub(crate) rank: u64,
    pub(crate) steps: u64,
    // Whether the sync at the end of the innermost open scope is past.
    pub(crate) leaving: bool,
    // The innermost frame.
    pub(crate) top: Frame,
    // The others, which are its open calls, the outermost first.
    pub(crate) below: Vec<Frame>,
}

impl InstanceParts {
    ghost use Rattle.strand_moves.specs.Acts.{KeepsInstance};
    ghost use Rattle.strand_moves.specs.InstanceParts.{IsInstance, machine_of, path_of, present_of};
    ghost use Rattle.strand_moves.specs.Moves.{run_of, Makes, MovesTrail, present_pedigree};
    ghost use Rattle.strand_moves.specs.StraightRuns.{HasPassedStatement, unpassed};

    // An instance of the function with this index, before its first move.
    #[inline(always)]
    pub fn new(
        alloc: Global,
        plan: &Plan,
        function: u32,
        args: &[Value],
        trail: Trail,
        pool: &mut InstancePool,
    ) -> Result<Box<InstanceParts>, Memory>
        requires there { function < length (functions_of plan.now) }
        requires fits { FitsGamma plan.now.gamma trail }
        requires within { length trail.path < plan.now.limits.depth }
        ensures begins { IfOk result (λ i. function_begun plan.now function args.now ≡ Stands (machine_of plan.now i.value)) }
        ensures path { IfOk result (λ i. path_of i.value ≡ trail.path) }
        ensures sound { IfOk result (λ i. IsInstance plan.now i.value) }
    {
        let f = &plan.functions()[function as usize];
        let Some(names) = plan.names(function) else {
            unreachable!()
        };
        // Read for the proof: no two parameters have the same name.
        plan.slots();
        let env = Environment::bound(
            alloc,
            names,
            f.params.as_slice(),
            args,
            &mut pool.environments,
        )?;
        let parts = InstanceParts {
            trail,
            rank: 0,
            steps: plan.limits.budget as u64,
            leaving: false,
            top: Frame::new(alloc, function, env, None),
            below: pool.frames(alloc),
        };
        Ok(boxed(pool.boxes.take(), alloc, parts)?)
    }

    // One move. After `Memory` the instance must not be used any more.
    pub fn make_move(&mut self, alloc: Global, plan: &Plan) -> Result<MoveResult, Memory>
        requires { IsInstance plan.now self.old }
        ensures moves { IfOk result (λ move_result. move plan.now (path_of self.old) (machine_of plan.now self.old) ≡ run_of move_result (machine_of plan.now self.new)) }
        ensures child { IfOk result (MovesTrail plan.now) }
        ensures path { IfOk result (λ _. path_of self.new ≡ path_of self.old) }
        ensures sound { IfOk result (λ _. IsInstance plan.now self.new) }
    {
        let text = self.top.statements(plan);
        match self.top.cursor.pass_next(text) {
            Some(statement) => self.make(alloc, plan, Some(statement)),
            None => self.make(alloc, plan, None),
        }
    }

    // The move of the statement that the cursor has just passed, or, where none was left, of the end of the block.
    #[inline(always)]
    pub(crate) fn make(
        &mut self,
        alloc: Global,
        plan: &Plan,
        next: Option<&Stmt>,
    ) -> Result<MoveResult, Memory>
        requires sound { IsInstance plan.now self.old }
        requires passed { HasPassedStatement plan.now self.old (option_copied next) }
        ensures moves { IfOk result (λ move_result. move plan.now (path_of self.old) (unpassed plan.now self.old (option_copied next.entry)) ≡ run_of move_result (machine_of plan.now self.new)) }
        ensures child { IfOk result (MovesTrail plan.now) }
        ensures path { IfOk result (λ _. path_of self.new ≡ path_of self.old) }
        ensures sound { IfOk result (λ _. IsInstance plan.now self.new) }
    {
        match self.last_value(plan, next)? {
            Some(value) => Ok(MoveResult::Returned(value)),
            None => self.make_other(alloc, plan, next),
        }
    }

    // The same for any move. It stands apart, since the room for all that a move may show would else be cleared before the last one.
    #[inline(never)]
    fn make_other(
        &mut self,
        alloc: Global,
        plan: &Plan,
        next: Option<&Stmt>,
    ) -> Result<MoveResult, Memory>
        requires sound { IsInstance plan.now self.old }
        requires passed { HasPassedStatement plan.now self.old (option_copied next) }
        ensures moves { IfOk result (λ move_result. move plan.now (path_of self.old) (unpassed plan.now self.old (option_copied next.entry)) ≡ run_of move_result (machine_of plan.now self.new)) }
        ensures child { IfOk result (MovesTrail plan.now) }
        ensures path { IfOk result (λ _. path_of self.new ≡ path_of self.old) }
        ensures sound { IfOk result (λ _. IsInstance plan.now self.new) }
    {
        let rank = self.rank;
        match self.act(alloc, plan, next) {
            Ok(move_result) => Ok(move_result),
            Err(EvaluationError::Fault(kind)) => {
                let path = self.trail.path.share()?;
                let at = Pedigree { path, rank };
                Ok(MoveResult::Faulted(Fault { kind, at }))
            }
            Err(EvaluationError::Memory) => Err(Memory),
        }
    }

    // The same, with a fault as its kind alone.
    fn act(
        &mut self,
        alloc: Global,
        plan: &Plan,
        next: Option<&Stmt>,
    ) -> Result<MoveResult, EvaluationError>
        requires sound { IsInstance plan.now self.old }
        requires passed { HasPassedStatement plan.now self.old (option_copied next) }
        ensures moves { Makes (move plan.now (path_of self.old) (unpassed plan.now self.old (option_copied next.entry))) (present_pedigree (present_of self.old) (machine_of plan.now self.old)) (machine_of plan.now self.new) result }
        ensures child { IfOk result (MovesTrail plan.now) }
        ensures keeps { KeepsInstance plan.now self.old self.new result }
    {
        match next {
            Some(statement) => self.statement(alloc, plan, plan.slots(), statement),
            None => self.end_block(alloc, plan),
        }
    }

    // Pays a step.
    pub(crate) fn pay(&mut self) -> Result<(), FaultKind>
        ensures ok { OnOk result (self.new ≡ record self.old { steps = self.new.steps }) }
        ensures paid { OnOk result (self.new.steps + 1 ≡ self.old.steps) }
        ensures err { (kind : _) → result ≡ Err kind → (self.new ≡ self.old) × (self.old.steps ≡ 0) × (kind ≡ FaultKind.Budget) }
    {
        if self.steps == 0 {
            return Err(FaultKind::Budget);
        }
        self.steps -= 1;
        Ok(())
    }

    // The pedigree of the present strand.
    pub(crate) fn pedigree(&self) -> Result<Pedigree, Memory>
        requires { self.now.rank < 2 ^ 32 }
        ensures { IfOk result (λ j. j ≡ present_of self.now ++ self.now.rank ∷ []) }
    {
        Ok(Pedigree {
            path: self.trail.path.share()?,
            rank: self.rank,
        })
    }
}
