// Straight runs of statements that assign plain numbers or draws, and the iterations of the loop around them.

ghost use Rattle.std.specs.Prelude.{◌≡◌, ◌<◌, ◌≤◌, ◌+◌, ◌^◌, Some, length, slice_get, IfOk, IfSome};
ghost use Rattle.std.specs.Option.{option_copied};
ghost use Rattle.script_grammar.specs.declared.tree.Right.TheVariants as right;
ghost use Rattle.script_grammar.specs.declared.tree.Stmt.{out-Stmt};
ghost use Rattle.script_grammar.specs.declared.tree.Act.{out-Act};
ghost use Rattle.serial_meaning.specs.Plan.{PlanView};
ghost use Rattle.strand_moves.specs.Cursors.{IsAround, IsInLoop, IsStillIn, block_of};
ghost use Rattle.strand_moves.specs.Found.{AreSlots, FindsVariables};
ghost use Rattle.strand_values.specs.Environments.{FindsExpression};
ghost use Rattle.strand_moves.specs.InstanceParts.{IsInstance, statements_of};
ghost use Rattle.strand_moves.specs.FastPath.{Draws, GivesValue};
ghost use Rattle.strand_moves.specs.StraightRuns.{GoesOnInBlock, IsMoveInBlock, IsSentInBlock};

use crate::event_sink::EventSink;
use crate::instance_parts::InstanceParts;
use crate::memory::Memory;
use script_grammar::{Act, Expr, Name, Right, Stmt};
use serial_meaning::{EventKind, Plan};
use std::alloc::Global;

// The variable and the expression of `let x = E` or `x = E`.
#[inline(always)]
fn assignment<'a>(statement: &'a Stmt) -> Option<(&'a Name, &'a Expr)>
    ensures { IfSome result (λ given. GivesValue (out-Act (out-Stmt statement.now).act) given.0.now given.1.now) }
{
    match &statement.act {
        Act::Let(x, r) => with_value(x, r),
        Act::Set(x, r) => with_value(x, r),
        _ => None,
    }
}

// A variable with the expression on its right side, where that is one.
#[inline(always)]
fn with_value<'a>(x: &'a Name, r: &'a Right) -> Option<(&'a Name, &'a Expr)>
    ensures { IfSome result (λ given. (given.0.now ≡ x.now) × (r.now ≡ right.Value given.1.now)) }
{
    match r {
        Right::Value(e) => Some((x, e)),
        _ => None,
    }
}

// The variable of `let x = draw` or `x = draw`.
#[inline(always)]
fn drawn<'a>(statement: &'a Stmt) -> Option<&'a Name>
    ensures { IfSome result (λ x. Draws (out-Act (out-Stmt statement.now).act) x.now) }
{
    match &statement.act {
        Act::Let(x, r) => match r {
            Right::Draw(_) => Some(x),
            _ => None,
        },
        Act::Set(x, r) => match r {
            Right::Draw(_) => Some(x),
            _ => None,
        },
        _ => None,
    }
}

// Whether the statement at this index of a block is a draw. Only a hint: the move itself checks again.
#[inline(always)]
fn draws_at(block: &[Stmt], index: usize) -> bool {
    match block.get(index) {
        Some(statement) => drawn(statement).is_some(),
        None => false,
    }
}

impl InstanceParts {
    // Runs the block in place where it is the body of a loop with this condition. Returns the condition where the
    // block has a statement left.
    #[inline(always)]
    pub(crate) fn loop_in_place<'a, S: EventSink>(
        &mut self,
        alloc: Global,
        plan: &Plan,
        block: &[Stmt],
        around: Option<&'a Expr>,
        sink: &mut S,
    ) -> Result<Option<&'a Expr>, Memory>
        requires instance { IsInstance plan.now self.old }
        requires block { block.now ≡ block_of (statements_of plan.now self.old.top) self.old.top.cursor.entered.items }
        requires around { IsAround (statements_of plan.now self.old.top) self.old.top.cursor (option_copied around) }
        ensures moved { IfOk result (λ _. GoesOnInBlock S.after plan.now self.old sink.old self.new sink.new) }
        ensures left { IfOk result (λ left. IsStillIn (statements_of plan.now self.new.top) block.now self.new.top.cursor (option_copied left)) }
    {
        let Some(condition) = around else {
            return Ok(None);
        };
        self.plain_run(alloc, plan, block, condition, sink)?;
        if self.top.cursor.next < block.len() {
            Ok(Some(condition))
        } else {
            Ok(None)
        }
    }

    // Moves in a row in the body of a loop with this condition: those that assign plain numbers or draws, and those by which the loop goes
    // round. The cursor stays in this block, and goes back to its first statement for each iteration.
    #[inline(never)]
    fn plain_run<S: EventSink>(
        &mut self,
        alloc: Global,
        plan: &Plan,
        block: &[Stmt],
        condition: &Expr,
        sink: &mut S,
    ) -> Result<(), Memory>
        requires instance { IsInstance plan.now self.old }
        requires block { block.now ≡ block_of (statements_of plan.now self.old.top) self.old.top.cursor.entered.items }
        requires in_loop { IsInLoop (statements_of plan.now self.old.top) self.old.top.cursor condition.now }
        ensures { IfOk result (λ _. GoesOnInBlock S.after plan.now self.old sink.old self.new sink.new) }
    {
        let slots = plan.slots();
        while self.steps > 0 {
            if self.plain_move(plan, slots, block, condition) {
                continue;
            }
            if !draws_at(block, self.top.cursor.next) {
                return Ok(());
            }
            if !self.drawing_move(alloc, plan, slots, block, sink)? {
                return Ok(());
            }
        }
        Ok(())
    }

    // One such move that shows nothing. Returns whether there was one; otherwise nothing changes.
    #[inline(always)]
    fn plain_move(&mut self, plan: &Plan, slots: &[u16], block: &[Stmt], condition: &Expr) -> bool
        requires instance { IsInstance plan.now self.old }
        requires slots { AreSlots slots.now plan.now }
        requires block { block.now ≡ block_of (statements_of plan.now self.old.top) self.old.top.cursor.entered.items }
        requires in_loop { IsInLoop (statements_of plan.now self.old.top) self.old.top.cursor condition.now }
        requires paid { 0 < self.old.steps }
        ensures { IsMoveInBlock plan.now self.old self.new result }
    {
        match block.get(self.top.cursor.next) {
            Some(statement) => self.plain_statement(slots, statement),
            None => self.iteration(slots, condition),
        }
    }

    // The block's next statement, where it is a draw, whose event goes to the sink. Returns whether it was done; otherwise
    // nothing changes.
    #[inline(never)]
    fn drawing_move<S: EventSink>(
        &mut self,
        alloc: Global,
        plan: &Plan,
        slots: &[u16],
        block: &[Stmt],
        sink: &mut S,
    ) -> Result<bool, Memory>
        requires instance { IsInstance plan.now self.old }
        requires slots { AreSlots slots.now plan.now }
        requires block { block.now ≡ block_of (statements_of plan.now self.old.top) self.old.top.cursor.entered.items }
        requires paid { 0 < self.old.steps }
        ensures { IfOk result (IsSentInBlock S.after plan.now self.old sink.old self.new sink.new) }
    {
        let Some(statement) = block.get(self.top.cursor.next) else {
            return Ok(false);
        };
        let Some(x) = drawn(statement) else {
            return Ok(false);
        };
        self.steps -= 1;
        self.top.cursor.next += 1;
        let rank = self.rank;
        let word = self.draw(plan, slots, x);
        sink.emit_at(alloc, &self.trail.path, rank, EventKind::Draw(word))?;
        Ok(true)
    }

    // The next statement, where it assigns a plain number. Returns whether it was done; otherwise nothing changes.
    #[inline(always)]
    fn plain_statement(&mut self, slots: &[u16], statement: &Stmt) -> bool
        requires paid { 0 < self.old.steps }
        requires within { self.old.top.cursor.next + 1 < 2 ^ 64 }
        requires finds { FindsVariables slots.now self.old.top.env statement.now }
        ensures { (plan : PlanView) → IsInstance plan self.old → slice_get (block_of (statements_of plan self.old.top) self.old.top.cursor.entered.items) self.old.top.cursor.next ≡ Some statement.now → IsMoveInBlock plan self.old self.new result }
    {
        let Some(given) = assignment(statement) else {
            return false;
        };
        match self.top.env.plain_in_place(slots, given.1) {
            Some(number) => {
                self.top.env.set_number(slots, given.0, number);
                self.top.cursor.next += 1;
                self.steps -= 1;
                true
            }
            None => false,
        }
    }

    // The next iteration of a loop whose body has ended, where its condition is a plain number and holds. Returns
    // whether it was begun; otherwise nothing changes.
    #[inline(always)]
    fn iteration(&mut self, slots: &[u16], condition: &Expr) -> bool
        requires paid { 0 < self.old.steps }
        requires finds { FindsExpression slots.now self.old.top.env condition.now }
        ensures { (plan : PlanView) → IsInstance plan self.old → IsInLoop (statements_of plan self.old.top) self.old.top.cursor condition.now →
            length (block_of (statements_of plan self.old.top) self.old.top.cursor.entered.items) ≤ self.old.top.cursor.next → IsMoveInBlock plan self.old self.new result }
    {
        match self.top.env.plain_in_place(slots, condition) {
            Some(number) => {
                if number == 0 {
                    return false;
                }
                self.top.cursor.next = 0;
                self.steps -= 1;
                true
            }
            None => false,
        }
    }
}
