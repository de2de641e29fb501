// Each statement as one move, whose result says what it shows or which fault it meets. Most kinds are dispatched in `fast_path` too:
// a straight run wants no result, only whether the statement was done. What isn't done there is done here. Both make the same calls
// for a kind, such as `array` and `branch`.

ghost use Rattle.std.specs.Prelude.{◌≡◌, ◌<◌, ◌+◌, ◌^◌, false, List, Err, IfOk, OnOk, if◌then◌else◌};
ghost use Rattle.script_grammar.specs.declared.tree.Stmt.{Stmt, out-Stmt};
ghost use Rattle.script_grammar.specs.declared.tree.Act.{out-Act};
ghost use Rattle.script_grammar.specs.declared.tree.Act.TheOpen as act;
ghost use Rattle.serial_meaning.specs.Plan.{PlanView};
ghost use Rattle.serial_meaning.specs.declared.event.FaultKind.{FaultKind};
ghost use Rattle.strand_meaning.specs.Machine.{statement_move};
ghost use Rattle.strand_values.specs.declared.evaluation_error.EvaluationError.TheVariants.{Fault};
ghost use Rattle.strand_values.specs.Environments.{FindsExpression, FindsName};
ghost use Rattle.strand_moves.specs.Found.{AreSlots, FindsStatement};
ghost use Rattle.strand_moves.specs.Acts.{Acts, Costs, KeepsInstance, Stays};
ghost use Rattle.strand_moves.specs.Cursors.{IsAfterStatement, MayEnter};
ghost use Rattle.strand_moves.specs.InstanceParts.{IsInstance, KeepsNames, machine_of, path_of, present_of, statements_of};
ghost use Rattle.strand_moves.specs.Moves.{Makes, MovesTrail, present_pedigree};
ghost use Rattle.strand_moves.specs.FastPath.{StaysThere, emitted, silent};

use crate::effects::MoveResult;
use crate::fast_path::{emitted, silent};
use crate::instance_parts::InstanceParts;
use contract_views::Items;
use script_grammar::{Act, Expr, Name, Number, Stmt};
use serial_meaning::{Event, FaultKind, Plan};
use std::alloc::Global;
use strand_values::{EnvironmentPool, EvaluationError, count_of};

// The block of an `if` that its condition picks.
#[inline(always)]
fn picked<'a>(holds: bool, yes: &'a Items<Stmt>, no: &'a Items<Stmt>) -> &'a [Stmt]
    ensures { result.now ≡ (if holds then yes.now else no.now) }
{
    if holds { yes.as_slice() } else { no.as_slice() }
}

impl InstanceParts {
    // A statement that the cursor has just passed: its step, and then what it does.
    pub(crate) fn statement(
        &mut self,
        alloc: Global,
        plan: &Plan,
        slots: &[u16],
        statement: &Stmt,
    ) -> Result<MoveResult, EvaluationError>
        requires instance { IsInstance plan.now self.old }
        requires goes_on { self.old.leaving ≡ false }
        requires after { IsAfterStatement (statements_of plan.now self.old.top) self.old.top.cursor statement.now }
        requires slots { AreSlots slots.now plan.now }
        requires finds { FindsStatement plan.now slots.now self.old.top.env statement.now }
        ensures shows { let m = machine_of plan.now self.old in
            Makes (statement_move plan.now (path_of self.old) m statement.now m.top.left) (present_pedigree (present_of self.old) m) (machine_of plan.now self.new) result }
        ensures child { IfOk result (MovesTrail plan.now) }
        ensures keeps { KeepsInstance plan.now self.old self.new result }
    {
        self.pay()?;
        match &statement.act {
            Act::Let(x, r) => self.assign(alloc, plan, slots, x, r),
            Act::Array(x, n) => silent(self.array(alloc, slots, x, *n)),
            Act::Set(x, r) => self.assign(alloc, plan, slots, x, r),
            Act::Store(x, i, e) => silent(self.store(slots, x, i, e)),
            Act::Spawn(c) => self.spawn_move(alloc, plan, slots, None, c),
            Act::Call(c) => silent(self.call(
                alloc,
                plan,
                slots,
                None,
                c,
                &mut EnvironmentPool::new(alloc),
            )),
            Act::Sync => self.sync_statement(),
            Act::Print(e) => emitted(self.print(slots, e)),
            Act::If(e, yes, no) => silent(self.branch(slots, e, yes, no)),
            Act::While(e, _) => silent(self.while_test(slots, e)),
            Act::Pfor {
                var: _,
                lo,
                hi,
                target,
                call,
            } => self.pfor_move(alloc, plan, slots, lo, hi, target, call),
            Act::Scope(_) => self.scope(alloc, plan),
        }
    }

    pub(crate) fn array(
        &mut self,
        alloc: Global,
        slots: &[u16],
        x: &Name,
        n: Number,
    ) -> Result<(), EvaluationError>
        requires { FindsName slots.now self.old.top.env x.now }
        ensures shows { (plan : PlanView) (st : Stmt) → Acts plan st (act.Array x.now n) self.old self.new (silent result) }
        ensures same { (kind : FaultKind) → result ≡ Err (Fault kind) → self.new ≡ self.old }
        ensures there { StaysThere self.old self.new }
        ensures cursor { self.new.top.cursor ≡ self.old.top.cursor }
        ensures stays { Stays self.old self.new }
        ensures few { Costs self.old self.new }
        ensures named { (plan : PlanView) → KeepsNames plan self.old self.new }
    {
        self.top.env.set_array(alloc, slots, x, count_of(n.value))?;
        Ok(())
    }

    pub(crate) fn store(
        &mut self,
        slots: &[u16],
        x: &Name,
        i: &Expr,
        e: &Expr,
    ) -> Result<(), EvaluationError>
        requires name { FindsName slots.now self.old.top.env x.now }
        requires index { FindsExpression slots.now self.old.top.env i.now }
        requires value { FindsExpression slots.now self.old.top.env e.now }
        ensures shows { (plan : PlanView) (st : Stmt) → Acts plan st (act.Store x.now i.now e.now) self.old self.new (silent result) }
        ensures same { (kind : FaultKind) → result ≡ Err (Fault kind) → self.new ≡ self.old }
        ensures there { StaysThere self.old self.new }
        ensures cursor { self.new.top.cursor ≡ self.old.top.cursor }
        ensures stays { Stays self.old self.new }
        ensures few { Costs self.old self.new }
        ensures named { (plan : PlanView) → KeepsNames plan self.old self.new }
    {
        let index = self.top.env.integer(slots, i)?;
        if self.top.env.item(slots, x, index).is_none() {
            return Err(EvaluationError::Fault(FaultKind::Index));
        }
        let value = self.top.env.value(slots, e)?;
        self.top.env.set_item(slots, x, index, &value);
        Ok(())
    }

    fn sync_statement(&mut self) -> Result<MoveResult, EvaluationError>
        requires { self.old.rank < 2 ^ 32 }
        ensures shows { (plan : PlanView) (st : Stmt) → Acts plan st act.Sync self.old self.new result }
        ensures child { (plan : PlanView) → IfOk result (MovesTrail plan) }
        ensures stays { Stays self.old self.new }
        ensures few { Costs self.old self.new }
        ensures named { (plan : PlanView) → KeepsNames plan self.old self.new }
    {
        self.sync()
    }

    pub(crate) fn print(&self, slots: &[u16], e: &Expr) -> Result<Event, EvaluationError>
        requires rank { self.now.rank < 2 ^ 32 }
        requires finds { FindsExpression slots.now self.now.top.env e.now }
        ensures { (plan : PlanView) (st : Stmt) → Acts plan st (act.Print e.now) self.now self.now (emitted result) }
    {
        let value = self.top.env.value(slots, e)?;
        Ok(Event::Print(self.pedigree()?, value))
    }

    // An `if` with these blocks. One that is empty isn't entered.
    #[inline(always)]
    pub(crate) fn branch(
        &mut self,
        slots: &[u16],
        e: &Expr,
        yes: &Items<Stmt>,
        no: &Items<Stmt>,
    ) -> Result<(), EvaluationError>
        requires { FindsExpression slots.now self.old.top.env e.now }
        ensures shows { (plan : PlanView) (st : Stmt) → IsAfterStatement (statements_of plan self.old.top) self.old.top.cursor st →
            out-Act (out-Stmt st).act ≡ act.If e.now yes.now no.now → Acts plan st (act.If e.now yes.now no.now) self.old self.new (silent result) }
        ensures same { (kind : FaultKind) → result ≡ Err (Fault kind) → self.new ≡ self.old }
        ensures there { StaysThere self.old self.new }
        ensures cursor { OnOk result (MayEnter self.old.top.cursor self.new.top.cursor) }
        ensures stays { Stays self.old self.new }
        ensures few { Costs self.old self.new }
        ensures named { (plan : PlanView) → KeepsNames plan self.old self.new }
    {
        let holds = self.top.env.holds(slots, e)?;
        if picked(holds, yes, no).is_empty() {
            return Ok(());
        }
        self.top.cursor.enter(holds)?;
        Ok(())
    }

    #[inline(always)]
    pub(crate) fn while_test(&mut self, slots: &[u16], e: &Expr) -> Result<(), EvaluationError>
        requires { FindsExpression slots.now self.old.top.env e.now }
        ensures shows { (plan : PlanView) (st : Stmt) (body : List Stmt) → IsAfterStatement (statements_of plan self.old.top) self.old.top.cursor st →
            out-Act (out-Stmt st).act ≡ act.While e.now body → Acts plan st (act.While e.now body) self.old self.new (silent result) }
        ensures same { (kind : FaultKind) → result ≡ Err (Fault kind) → self.new ≡ self.old }
        ensures there { StaysThere self.old self.new }
        ensures cursor { OnOk result (MayEnter self.old.top.cursor self.new.top.cursor) }
        ensures stays { Stays self.old self.new }
        ensures few { Costs self.old self.new }
        ensures named { (plan : PlanView) → KeepsNames plan self.old self.new }
    {
        let holds = self.top.env.holds(slots, e)?;
        if holds {
            self.top.cursor.enter_loop()?;
        }
        Ok(())
    }
}
