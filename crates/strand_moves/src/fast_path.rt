// Moves in a row that show nothing, or an event alone: most moves are of this kind. They are dispatched apart from `statement`, so that
// no result is made and matched for each move, and the block that the cursor is in isn't looked up again.

ghost use Rattle.std.specs.Prelude.{◌≡◌, ◌<◌, ◌+◌, ◌^◌, [], false, true, IfOk};
ghost use Rattle.std.specs.Option.{option_copied};
ghost use Rattle.script_grammar.specs.declared.tree.Act.{out-Act};
ghost use Rattle.script_grammar.specs.declared.tree.Act.TheOpen as act;
ghost use Rattle.script_grammar.specs.declared.tree.Stmt.{Stmt, out-Stmt};
ghost use Rattle.serial_meaning.specs.Plan.{PlanView};
ghost use Rattle.script_grammar.specs.declared.tree.Right.TheVariants as right;
ghost use Rattle.strand_values.specs.Environments.{FindsExpression, FindsName};
ghost use Rattle.strand_moves.specs.Found.{AreSlots, FindsRight, FindsRightVariables, FindsStatement, FindsVariables};
ghost use Rattle.strand_moves.specs.Acts.{Costs, Stays};
ghost use Rattle.strand_moves.specs.Cursors.{MayEnter, statements_left};
ghost use Rattle.strand_moves.specs.InstanceParts.{IsInstance, IsStrand, KeepsNames, statements_of};
ghost use Rattle.strand_moves.specs.FastPath.{HasCalled, HasEmitted, EndsFrame, MayGiveBack, HasGone, IsDone, IsSilent, IsEmittedTo, IsMoved, StaysThere, emitted, silent};
ghost use Rattle.strand_moves.specs.StraightRuns.{ComesToStatement};

use crate::effects::{Effects, MoveResult};
use crate::event_sink::EventSink;
use crate::instance_parts::InstanceParts;
use crate::memory::Memory;
use script_grammar::{Act, Expr, Name, Number, Right, Stmt};
use serial_meaning::{Event, EventKind, Plan};
use std::alloc::Global;
use strand_values::{EnvironmentPool, EvaluationError};

// A statement without an event, as a move.
pub(crate) fn silent(done: Result<(), EvaluationError>) -> Result<MoveResult, EvaluationError>
    ensures { result ≡ silent done }
{
    match done {
        Ok(()) => Ok(MoveResult::Moved(Effects::Nothing)),
        Err(error) => Err(error),
    }
}

// Whether it was done and met no fault.
fn moved(done: Result<(), EvaluationError>) -> Result<bool, Memory>
    ensures { IfOk result (IsMoved done) }
{
    match done {
        Ok(()) => Ok(true),
        Err(EvaluationError::Fault(_)) => Ok(false),
        Err(EvaluationError::Memory) => Err(Memory),
    }
}

// A statement with an event, as a move.
pub(crate) fn emitted(done: Result<Event, EvaluationError>) -> Result<MoveResult, EvaluationError>
    ensures { result ≡ emitted done }
{
    match done {
        Ok(event) => Ok(MoveResult::Moved(Effects::Emitted(event))),
        Err(error) => Err(error),
    }
}

// Whether there was an event, and no fault. The event goes to the sink.
#[inline(always)]
fn sent<S: EventSink>(
    alloc: Global,
    done: Result<Event, EvaluationError>,
    sink: &mut S,
) -> Result<bool, Memory>
    ensures { IfOk result (IsEmittedTo S.after done sink.old sink.new) }
{
    match done {
        Ok(event) => {
            sink.emit(alloc, event)?;
            Ok(true)
        }
        Err(EvaluationError::Fault(_)) => Ok(false),
        Err(EvaluationError::Memory) => Err(Memory),
    }
}

// Which call of a straight run does a statement that isn't plain, if one does.
#[derive(Clone, Copy, Debug, PartialEq, Eq)]
pub(crate) enum Form {
    Emitting,
    Calling,
    Other,
}

// Only a hint: each of these calls says itself whether it did the statement.
#[inline(always)]
fn form_of(statement: &Stmt) -> Form {
    match &statement.act {
        Act::Let(_, r) => form_of_right(r),
        Act::Set(_, r) => form_of_right(r),
        Act::Print(_) => Form::Emitting,
        Act::Call(_) => Form::Calling,
        _ => Form::Other,
    }
}

#[inline(always)]
fn form_of_right(r: &Right) -> Form {
    match r {
        Right::Draw(_) | Right::New(_) => Form::Emitting,
        Right::Call(_, _) => Form::Calling,
        Right::Value(_) | Right::Spawn(_, _) => Form::Other,
    }
}

impl InstanceParts {
    // Moves in a row, as long as they are plain or emitting statements, calls, or ends of frames after which the instance goes on. Plain and
    // emitting statements give a variable a value, make an array, store an item, print, or are an `if` or a `while`. The text is looked up
    // once for each frame that goes on, and the block only where one is entered or left. At the end the cursor has passed the first statement
    // that is none of these or meets a fault, if there is one.
    #[inline(always)]
    pub(crate) fn straight_run<'a, S: EventSink>(
        &mut self,
        alloc: Global,
        plan: &'a Plan,
        sink: &mut S,
        pool: &mut EnvironmentPool,
    ) -> Result<Option<&'a Stmt>, Memory>
        requires { IsInstance plan.now self.old }
        ensures { IfOk result (λ next. ComesToStatement S.after plan.now self.old sink.old self.new sink.new (option_copied next)) }
    {
        let slots = plan.slots();
        let mut text = self.top.statements(plan);
        let innermost = self.top.cursor.loop_around(text);
        let mut block = innermost.0;
        // the condition of the loop whose body the block is, where it is known
        let mut around = innermost.1;
        loop {
            around = self.loop_in_place(alloc, plan, block, around, sink)?;
            let Some(passed) = self.top.cursor.pass_in(text, block, around) else {
                if !self.frame_end(alloc, plan, sink, pool)? {
                    return Ok(None);
                }
                text = self.top.statements(plan);
                let below = self.top.cursor.loop_around(text);
                block = below.0;
                around = below.1;
                continue;
            };
            let statement = passed.0;
            if self.steps == 0 {
                return Ok(Some(statement));
            }
            self.steps -= 1;
            if self.silent_statement(alloc, slots, statement)? {
                if self.top.cursor.next == 0 {
                    // one of its blocks was entered
                    let inside = self.top.cursor.entered_block(statement);
                    block = inside.0;
                    around = inside.1;
                    continue;
                }
                block = passed.1;
                around = passed.2;
                continue;
            }
            match self.other_statement(alloc, plan, slots, statement, sink, pool)? {
                Form::Emitting => {
                    block = passed.1;
                    around = passed.2;
                }
                Form::Calling => {
                    text = self.top.statements(plan);
                    let called = self.top.cursor.loop_around(text);
                    block = called.0;
                    around = called.1;
                }
                Form::Other => return Ok(Some(statement)),
            }
        }
    }

    // Does a statement that isn't plain and whose step is paid, where its form allows it in a straight run, and
    // returns the form. Otherwise its step is given back.
    #[inline(always)]
    fn other_statement<S: EventSink>(
        &mut self,
        alloc: Global,
        plan: &Plan,
        slots: &[u16],
        statement: &Stmt,
        sink: &mut S,
        pool: &mut EnvironmentPool,
    ) -> Result<Form, Memory>
        requires strand { IsStrand plan.now self.old }
        requires goes_on { self.old.leaving ≡ false }
        requires paid { self.old.steps + 1 < 2 ^ 64 }
        requires slots { AreSlots slots.now plan.now }
        requires finds { FindsStatement plan.now slots.now self.old.top.env statement.now }
        ensures gone { IfOk result (λ form. HasGone S.after plan.now statement.now self.old sink.old self.new sink.new form) }
        ensures named { KeepsNames plan.now self.old self.new }
    {
        let form = form_of(statement);
        let done = match form {
            Form::Emitting => self.emitting_statement(alloc, plan, slots, statement, sink)?,
            Form::Calling => self.calling_statement(alloc, plan, slots, statement, pool)?,
            Form::Other => false,
        };
        if done {
            return Ok(form);
        }
        self.steps += 1;
        Ok(Form::Other)
    }

    // Where a frame has no statement left: the step of its return, unless it waits at a sync, and its value for the
    // frame below. Returns whether the straight run goes on. Otherwise nothing changed, or the instance's last return was
    // paid.
    fn frame_end<S: EventSink>(
        &mut self,
        alloc: Global,
        plan: &Plan,
        sink: &mut S,
        pool: &mut EnvironmentPool,
    ) -> Result<bool, Memory>
        requires instance { IsInstance plan.now self.old }
        requires none { statements_left (statements_of plan.now self.old.top) self.old.top.cursor ≡ [] }
        ensures did { IfOk result (EndsFrame S.after plan.now self.old sink.old self.new sink.new) }
    {
        if self.leaving || !self.top.levels.as_slice().is_empty() {
            return Ok(false);
        }
        if self.top.returning {
            if self.below.is_empty() {
                return Ok(false);
            }
            return moved(self.give_back(plan, pool));
        }
        if self.top.spawned {
            return Ok(false);
        }
        let rank = self.rank;
        let Ok(syncs) = self.return_alone(plan) else {
            return Ok(false);
        };
        if syncs {
            sink.emit_at(alloc, &self.trail.path, rank, EventKind::Sync)?;
        }
        if self.below.is_empty() {
            return Ok(false);
        }
        self.give_back_paid(plan, pool)?;
        Ok(true)
    }

    // Gives the value of a frame whose return is paid to the frame below, where no fault is met.
    #[inline(always)]
    fn give_back_paid(&mut self, plan: &Plan, pool: &mut EnvironmentPool) -> Result<(), Memory>
        requires instance { IsInstance plan.now self.old }
        requires goes_on { self.old.leaving ≡ false }
        requires none { statements_left (statements_of plan.now self.old.top) self.old.top.cursor ≡ [] }
        requires outside { self.old.top.levels.items ≡ [] }
        requires returning { self.old.top.returning ≡ true }
        requires below { self.old.below.items ≡ [] → ⊥ }
        ensures { IfOk result (λ _. MayGiveBack plan.now self.old self.new) }
    {
        moved(self.give_back(plan, pool))?;
        Ok(())
    }

    // Does a statement without an event, after its step. Returns whether it was done; otherwise nothing changes.
    #[inline(always)]
    fn silent_statement(
        &mut self,
        alloc: Global,
        slots: &[u16],
        statement: &Stmt,
    ) -> Result<bool, Memory>
        requires { FindsVariables slots.now self.old.top.env statement.now }
        ensures did { IfOk result (IsSilent statement.now self.old self.new) }
        ensures there { StaysThere self.old self.new }
        ensures cursor { IfOk result (λ _. MayEnter self.old.top.cursor self.new.top.cursor) }
        ensures stays { Stays self.old self.new }
        ensures few { Costs self.old self.new }
        ensures named { (plan : PlanView) → KeepsNames plan self.old self.new }
    {
        match &statement.act {
            Act::Let(x, r) => self.silent_right(slots, x, r),
            Act::Set(x, r) => self.silent_right(slots, x, r),
            Act::Array(x, n) => self.silent_array(alloc, slots, x, *n),
            Act::Store(x, i, e) => self.silent_store(slots, x, i, e),
            Act::If(e, yes, no) => moved(self.branch(slots, e, yes, no)),
            Act::While(e, _) => moved(self.while_test(slots, e)),
            _ => Ok(false),
        }
    }

    // The same for `let a[n]`. Where it stands in `silent_statement`, the room for its answer is cleared before each
    // statement; so with the next two.
    #[inline(never)]
    fn silent_array(
        &mut self,
        alloc: Global,
        slots: &[u16],
        x: &Name,
        n: Number,
    ) -> Result<bool, Memory>
        requires { FindsName slots.now self.old.top.env x.now }
        ensures did { (st : Stmt) → IfOk result (IsDone st (act.Array x.now n) self.old self.new) }
        ensures there { StaysThere self.old self.new }
        ensures cursor { self.new.top.cursor ≡ self.old.top.cursor }
        ensures stays { Stays self.old self.new }
        ensures few { Costs self.old self.new }
        ensures named { (plan : PlanView) → KeepsNames plan self.old self.new }
    {
        moved(self.array(alloc, slots, x, n))
    }

    // The same for `a[I] = E`.
    #[inline(never)]
    fn silent_store(&mut self, slots: &[u16], x: &Name, i: &Expr, e: &Expr) -> Result<bool, Memory>
        requires name { FindsName slots.now self.old.top.env x.now }
        requires index { FindsExpression slots.now self.old.top.env i.now }
        requires value { FindsExpression slots.now self.old.top.env e.now }
        ensures did { (st : Stmt) → IfOk result (IsDone st (act.Store x.now i.now e.now) self.old self.new) }
        ensures there { StaysThere self.old self.new }
        ensures cursor { self.new.top.cursor ≡ self.old.top.cursor }
        ensures stays { Stays self.old self.new }
        ensures few { Costs self.old self.new }
        ensures named { (plan : PlanView) → KeepsNames plan self.old self.new }
    {
        moved(self.store(slots, x, i, e))
    }

    // The same for `let x = E` and `x = E`, whatever the value.
    #[inline(never)]
    fn silent_value(&mut self, slots: &[u16], x: &Name, e: &Expr) -> Result<bool, Memory>
        requires name { FindsName slots.now self.old.top.env x.now }
        requires value { FindsExpression slots.now self.old.top.env e.now }
        ensures did { (st : Stmt) → IfOk result (IsDone st (act.Set x.now (right.Value e.now)) self.old self.new) }
        ensures there { StaysThere self.old self.new }
        ensures cursor { self.new.top.cursor ≡ self.old.top.cursor }
        ensures stays { Stays self.old self.new }
        ensures few { Costs self.old self.new }
        ensures named { (plan : PlanView) → KeepsNames plan self.old self.new }
    {
        moved(self.set_value(slots, x, e))
    }

    // The same for `let x = R` and `x = R`.
    #[inline(always)]
    fn silent_right(&mut self, slots: &[u16], x: &Name, r: &Right) -> Result<bool, Memory>
        requires name { FindsName slots.now self.old.top.env x.now }
        requires right { FindsRightVariables slots.now self.old.top.env r.now }
        ensures did { (st : Stmt) → IfOk result (IsDone st (act.Set x.now r.now) self.old self.new) }
        ensures there { StaysThere self.old self.new }
        ensures cursor { self.new.top.cursor ≡ self.old.top.cursor }
        ensures stays { Stays self.old self.new }
        ensures few { Costs self.old self.new }
        ensures named { (plan : PlanView) → KeepsNames plan self.old self.new }
    {
        match r {
            Right::Value(e) => match self.top.env.plain(slots, e) {
                Some(number) => {
                    self.top.env.set_number(slots, x, number);
                    Ok(true)
                }
                None => self.silent_value(slots, x, e),
            },
            _ => Ok(false),
        }
    }

    // Does a statement that shows just an event, which goes to the sink. Returns whether it was done; otherwise
    // nothing changes.
    fn emitting_statement<S: EventSink>(
        &mut self,
        alloc: Global,
        plan: &Plan,
        slots: &[u16],
        statement: &Stmt,
        sink: &mut S,
    ) -> Result<bool, Memory>
        requires strand { IsStrand plan.now self.old }
        requires finds { FindsStatement plan.now slots.now self.old.top.env statement.now }
        ensures did { IfOk result (HasEmitted S.after plan.now statement.now (out-Act (out-Stmt statement.now).act) self.old sink.old self.new sink.new) }
        ensures there { StaysThere self.old self.new }
        ensures cursor { self.new.top.cursor ≡ self.old.top.cursor }
        ensures stays { Stays self.old self.new }
        ensures few { Costs self.old self.new }
        ensures named { (plan : PlanView) → KeepsNames plan self.old self.new }
    {
        match &statement.act {
            Act::Let(x, r) => self.emitting_right(alloc, plan, slots, x, r, sink),
            Act::Set(x, r) => self.emitting_right(alloc, plan, slots, x, r, sink),
            Act::Print(e) => sent(alloc, self.print(slots, e), sink),
            _ => Ok(false),
        }
    }

    // The same for `let x = R` and `x = R`.
    #[inline(always)]
    fn emitting_right<S: EventSink>(
        &mut self,
        alloc: Global,
        plan: &Plan,
        slots: &[u16],
        x: &Name,
        r: &Right,
        sink: &mut S,
    ) -> Result<bool, Memory>
        requires strand { IsStrand plan.now self.old }
        requires name { FindsName slots.now self.old.top.env x.now }
        ensures did { (st : Stmt) → IfOk result (HasEmitted S.after plan.now st (act.Set x.now r.now) self.old sink.old self.new sink.new) }
        ensures there { StaysThere self.old self.new }
        ensures cursor { self.new.top.cursor ≡ self.old.top.cursor }
        ensures stays { Stays self.old self.new }
        ensures few { Costs self.old self.new }
        ensures named { (plan : PlanView) → KeepsNames plan self.old self.new }
    {
        match r {
            Right::Draw(_) => {
                let rank = self.rank;
                let word = self.draw(plan, slots, x);
                sink.emit_at(alloc, &self.trail.path, rank, EventKind::Draw(word))?;
                Ok(true)
            }
            Right::New(_) => {
                let rank = self.rank;
                self.make_object(slots, x)?;
                sink.emit_at(alloc, &self.trail.path, rank, EventKind::New)?;
                Ok(true)
            }
            _ => Ok(false),
        }
    }

    // Does a call, which shows no event. Returns whether it was done; otherwise nothing changes.
    #[inline(always)]
    fn calling_statement(
        &mut self,
        alloc: Global,
        plan: &Plan,
        slots: &[u16],
        statement: &Stmt,
        pool: &mut EnvironmentPool,
    ) -> Result<bool, Memory>
        requires goes_on { self.old.leaving ≡ false }
        requires slots { AreSlots slots.now plan.now }
        requires finds { FindsStatement plan.now slots.now self.old.top.env statement.now }
        ensures did { IfOk result (HasCalled plan.now statement.now (out-Act (out-Stmt statement.now).act) self.old self.new) }
        ensures few { Costs self.old self.new }
        ensures named { KeepsNames plan.now self.old self.new }
    {
        match &statement.act {
            Act::Let(x, r) => self.calling_right(alloc, plan, slots, x, r, pool),
            Act::Set(x, r) => self.calling_right(alloc, plan, slots, x, r, pool),
            Act::Call(c) => moved(self.call(alloc, plan, slots, None, c, pool)),
            _ => Ok(false),
        }
    }

    // The same for `let x = R` and `x = R`.
    #[inline(always)]
    fn calling_right(
        &mut self,
        alloc: Global,
        plan: &Plan,
        slots: &[u16],
        x: &Name,
        r: &Right,
        pool: &mut EnvironmentPool,
    ) -> Result<bool, Memory>
        requires goes_on { self.old.leaving ≡ false }
        requires slots { AreSlots slots.now plan.now }
        requires name { FindsName slots.now self.old.top.env x.now }
        requires right { FindsRight plan.now slots.now self.old.top.env r.now }
        ensures did { (st : Stmt) → IfOk result (HasCalled plan.now st (act.Set x.now r.now) self.old self.new) }
        ensures few { Costs self.old self.new }
        ensures named { KeepsNames plan.now self.old self.new }
    {
        match r {
            Right::Call(_, c) => moved(self.call(alloc, plan, slots, Some(x), c, pool)),
            _ => Ok(false),
        }
    }
}
