// The right sides of `let` and of assignments.

ghost use Rattle.std.specs.Prelude.{◌≡◌, ◌<◌, ◌^◌, ◌++◌, ◌∷◌, [], ℕ, false, Ok, Err, IfOk, OnOk};
ghost use Rattle.script_grammar.specs.declared.tree.Act.TheOpen as act;
ghost use Rattle.script_grammar.specs.declared.tree.Right.TheVariants as right;
ghost use Rattle.script_grammar.specs.declared.tree.Stmt.{Stmt};
ghost use Rattle.serial_meaning.specs.Plan.{PlanView};
ghost use Rattle.serial_meaning.specs.declared.event.Event.TheVariants as event;
ghost use Rattle.serial_meaning.specs.declared.event.FaultKind.{FaultKind};
ghost use Rattle.strand_values.specs.declared.evaluation_error.EvaluationError.TheVariants.{Fault};
ghost use Rattle.strand_values.specs.Environments.{FindsExpression, FindsName};
ghost use Rattle.strand_moves.specs.Found.{AreSlots, FindsRight};
ghost use Rattle.strand_moves.specs.Acts.{Acts, Costs, StaysUnlessMemory, Stays};
ghost use Rattle.strand_moves.specs.InstanceParts.{IsStrand, KeepsNames, present_of};
ghost use Rattle.strand_moves.specs.Moves.{MovesTrail};
ghost use Rattle.strand_moves.specs.FastPath.{StaysThere, emitted, silent};

use crate::effects::{Effects, MoveResult};
use crate::fast_path::silent;
use crate::instance_parts::InstanceParts;
use crate::memory::Memory;
use script_grammar::{Expr, Name, Right};
use serial_meaning::{Event, Plan, Value};
use std::alloc::Global;
use strand_values::{EnvironmentPool, EvaluationError};

impl InstanceParts {
    // `let x = R` or `x = R`.
    pub(crate) fn assign(
        &mut self,
        alloc: Global,
        plan: &Plan,
        slots: &[u16],
        x: &Name,
        r: &Right,
    ) -> Result<MoveResult, EvaluationError>
        requires strand { IsStrand plan.now self.old }
        requires goes_on { self.old.leaving ≡ false }
        requires slots { AreSlots slots.now plan.now }
        requires name { FindsName slots.now self.old.top.env x.now }
        requires right { FindsRight plan.now slots.now self.old.top.env r.now }
        ensures shows { (st : Stmt) → Acts plan.now st (act.Set x.now r.now) self.old self.new result }
        ensures child { IfOk result (MovesTrail plan.now) }
        ensures stays { StaysUnlessMemory self.old self.new result }
        ensures few { Costs self.old self.new }
        ensures named { KeepsNames plan.now self.old self.new }
    {
        match r {
            Right::Value(e) => silent(self.set_value(slots, x, e)),
            Right::Draw(_) => {
                let at = self.pedigree()?;
                let word = self.draw(plan, slots, x);
                Ok(MoveResult::Moved(Effects::Emitted(Event::Draw(at, word))))
            }
            Right::New(_) => {
                let at = self.pedigree()?;
                self.make_object(slots, x)?;
                Ok(MoveResult::Moved(Effects::Emitted(Event::New(at))))
            }
            Right::Call(_, c) => silent(self.call(
                alloc,
                plan,
                slots,
                Some(x),
                c,
                &mut EnvironmentPool::new(alloc),
            )),
            Right::Spawn(_, c) => self.spawn_move(alloc, plan, slots, Some(x), c),
        }
    }

    pub(crate) fn set_value(
        &mut self,
        slots: &[u16],
        x: &Name,
        e: &Expr,
    ) -> Result<(), EvaluationError>
        requires name { FindsName slots.now self.old.top.env x.now }
        requires value { FindsExpression slots.now self.old.top.env e.now }
        ensures shows { (plan : PlanView) (st : Stmt) → Acts plan st (act.Set x.now (right.Value e.now)) self.old self.new (silent result) }
        ensures same { (kind : FaultKind) → result ≡ Err (Fault kind) → self.new ≡ self.old }
        ensures there { StaysThere self.old self.new }
        ensures cursor { self.new.top.cursor ≡ self.old.top.cursor }
        ensures stays { Stays self.old self.new }
        ensures few { Costs self.old self.new }
        ensures named { (plan : PlanView) → KeepsNames plan self.old self.new }
    {
        self.top.env.assign(slots, x, e)
    }

    // Assigns the strand's draw to `x`, and returns it.
    #[inline(always)]
    pub(crate) fn draw(&mut self, plan: &Plan, slots: &[u16], x: &Name) -> u64
        requires strand { IsStrand plan.now self.old }
        requires name { FindsName slots.now self.old.top.env x.now }
        ensures shows { (st : Stmt) (at : ℕ) → Acts plan.now st (act.Set x.now (right.Draw at)) self.old self.new (emitted (Ok (event.Draw (present_of self.old ++ self.old.rank ∷ []) result))) }
        ensures there { StaysThere self.old self.new }
        ensures cursor { self.new.top.cursor ≡ self.old.top.cursor }
        ensures stays { Stays self.old self.new }
        ensures few { Costs self.old self.new }
        ensures named { (plan : PlanView) → KeepsNames plan self.old self.new }
    {
        let word = self.trail.draw(&plan.gamma, self.rank, plan.rounds);
        self.top.env.set_number(slots, x, word.cast_signed());
        self.rank += 1;
        word
    }

    // Assigns the object made at the strand's pedigree to `x`.
    pub(crate) fn make_object(&mut self, slots: &[u16], x: &Name) -> Result<(), Memory>
        requires rank { self.old.rank < 2 ^ 32 }
        requires name { FindsName slots.now self.old.top.env x.now }
        ensures shows { OnOk result ((plan : PlanView) (st : Stmt) (at : ℕ) → Acts plan st (act.Set x.now (right.New at)) self.old self.new (emitted (Ok (event.New (present_of self.old ++ self.old.rank ∷ []))))) }
        ensures there { StaysThere self.old self.new }
        ensures cursor { self.new.top.cursor ≡ self.old.top.cursor }
        ensures stays { Stays self.old self.new }
        ensures few { Costs self.old self.new }
        ensures named { (plan : PlanView) → KeepsNames plan self.old self.new }
    {
        let object = self.pedigree()?;
        self.top.env.set_scalar(slots, x, Value::Id(object));
        self.rank += 1;
        Ok(())
    }
}
