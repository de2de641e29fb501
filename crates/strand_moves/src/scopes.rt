// Scopes: a block one level deeper, and the end of a block.

ghost use Rattle.std.specs.Prelude.{◌≡◌, ◌<◌, ◌+◌, ◌^◌, ◌++◌, ◌∷◌, [], false, true, List, Err, IfOk, OnErr, OnOk};
ghost use Rattle.script_grammar.specs.declared.tree.Act.TheOpen as act;
ghost use Rattle.script_grammar.specs.declared.tree.Act.{out-Act};
ghost use Rattle.script_grammar.specs.declared.tree.Stmt.{Stmt, out-Stmt};
ghost use Rattle.serial_meaning.specs.Plan.{PlanView};
ghost use Rattle.serial_meaning.specs.declared.event.Event.TheVariants as event;
ghost use Rattle.serial_meaning.specs.declared.event.FaultKind.{FaultKind};
ghost use Rattle.strand_meaning.specs.Machine.{Emitted, end_move, sync_effects};
ghost use Rattle.strand_values.specs.declared.evaluation_error.EvaluationError.TheVariants as error;
ghost use Rattle.strand_values.specs.declared.evaluation_error.EvaluationError.TheVariants.{Fault};
ghost use Rattle.strand_moves.specs.Acts.{Acts, GoesIn, KeepsInstance};
ghost use Rattle.strand_moves.specs.Cursors.{IsAfterStatement, statements_left};
ghost use Rattle.strand_moves.specs.InstanceParts.{IsInstance, IsStrand, KeepsNames, machine_of, path_of, present_of, statements_of};
ghost use Rattle.strand_moves.specs.Moves.{Makes, MovesTrail, HasEffects, present_pedigree};
ghost use Rattle.strand_moves.specs.declared.effects.Effects.TheVariants as effect;

use crate::cursor::Cursor;
use crate::effects::{Effects, MoveResult};
use crate::frame::Level;
use crate::instance_parts::InstanceParts;
use crate::memory::Memory;
use dotmix::Trail;
use ped_path::Pedigree;
use serial_meaning::{FaultKind, Plan};
use std::alloc::Global;
use std::mem;
use strand_values::EvaluationError;

impl InstanceParts {
    // A scope, which the cursor has just passed: its block is one level deeper, from rank 0 on.
    pub(crate) fn scope(
        &mut self,
        alloc: Global,
        plan: &Plan,
    ) -> Result<MoveResult, EvaluationError>
        requires { IsStrand plan.now self.old }
        ensures shows { (st : Stmt) (block : List Stmt) → IsAfterStatement (statements_of plan.now self.old.top) self.old.top.cursor st →
            out-Act (out-Stmt st).act ≡ act.Scope block → Acts plan.now st (act.Scope block) self.old self.new result }
        ensures child { IfOk result (MovesTrail plan.now) }
        ensures same { (kind : FaultKind) → result ≡ Err (Fault kind) → self.new ≡ self.old }
        ensures into { IfOk result (λ _. GoesIn plan.now self.old self.new) }
        ensures named { (plan : PlanView) → KeepsNames plan self.old self.new }
    {
        if self.trail.path.len() + 1 >= plan.limits.depth as u64 {
            return Err(EvaluationError::Fault(FaultKind::Depth));
        }
        let (inner, path) = self.child_place(alloc, plan)?;
        self.go_in(alloc, inner)?;
        Ok(MoveResult::Moved(Effects::Opened(path)))
    }

    // Continues at rank 0 in the block of the scope that the cursor has just passed, on the path of this trail.
    fn go_in(&mut self, alloc: Global, inner: Trail) -> Result<(), Memory>
        ensures levels { OnOk result (self.new.top.levels.items ≡ self.old.top.levels.items ++ record { trail = self.old.trail; rank = self.old.rank; cursor = self.old.top.cursor } ∷ []) }
        ensures starts { (body : List Stmt) → statements_left body self.new.top.cursor ≡ body }
        ensures others { self.new ≡ record self.old { trail = inner; rank = 0; top = record self.old.top { levels = self.new.top.levels; cursor = self.new.top.cursor } } }
    {
        let level = Level {
            trail: mem::replace(&mut self.trail, inner),
            rank: mem::replace(&mut self.rank, 0),
            cursor: mem::replace(&mut self.top.cursor, Cursor::new(alloc)),
        };
        self.top.levels.push(alloc, level)?;
        Ok(())
    }

    // Where no statement is left in the innermost block: the end of a scope, or of the frame.
    pub(crate) fn end_block(
        &mut self,
        alloc: Global,
        plan: &Plan,
    ) -> Result<MoveResult, EvaluationError>
        requires instance { IsInstance plan.now self.old }
        requires none { statements_left (statements_of plan.now self.old.top) self.old.top.cursor ≡ [] }
        ensures shows { let m = machine_of plan.now self.old in
            Makes (end_move plan.now (path_of self.old) m m.top.levels) (present_pedigree (present_of self.old) m) (machine_of plan.now self.new) result }
        ensures child { IfOk result (MovesTrail plan.now) }
        ensures keeps { KeepsInstance plan.now self.old self.new result }
    {
        if self.leaving {
            return match self.top.levels.pop() {
                Some(level) => Ok(MoveResult::Moved(self.go_out(level)?)),
                None => Ok(MoveResult::Moved(Effects::Nothing)),
            };
        }
        if !self.top.levels.as_slice().is_empty() {
            return self.join_scope();
        }
        if self.top.returning {
            return self.end(alloc, plan);
        }
        self.return_step(plan)
    }

    // The sync at the end of the innermost scope.
    fn join_scope(&mut self) -> Result<MoveResult, EvaluationError>
        requires { self.old.rank < 2 ^ 32 }
        ensures effects { IfOk result (HasEffects (Emitted (event.Sync (present_of self.old ++ self.old.rank ∷ [])) ∷ sync_effects self.old.top.spawned)) }
        ensures passed { OnOk result (self.new ≡ record self.old { rank = self.old.rank + 1; leaving = true; top = record self.old.top { spawned = false } }) }
        ensures fine { OnErr result (result ≡ Err error.Memory) }
        ensures child { (plan : PlanView) → IfOk result (MovesTrail plan) }
    {
        self.leaving = true;
        self.sync()
    }

    // Continues after this scope, at the next rank of the path around it.
    fn go_out(&mut self, level: Level) -> Result<Effects, Memory>
        requires { level.rank < 2 ^ 32 }
        ensures effects { IfOk result (λ s. s ≡ effect.Closed (level.trail.path ++ level.rank ∷ [])) }
        ensures passed { OnOk result (self.new ≡ record self.old { trail = level.trail; rank = level.rank + 1; leaving = false; top = record self.old.top { cursor = level.cursor } }) }
    {
        let Level {
            trail,
            rank,
            cursor,
        } = level;
        let path = trail.path.share()?;
        let at = Pedigree { path, rank };
        self.trail = trail;
        self.rank = rank + 1;
        self.top.cursor = cursor;
        self.leaving = false;
        Ok(Effects::Closed(at))
    }
}
