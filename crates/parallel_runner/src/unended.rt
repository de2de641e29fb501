// What a task does before it has ended.
ghost use Rattle.std.specs.Prelude.{◌≡◌, [], ◌∷◌, ◌++◌, Ok, IfOk, IfErr, IfSome, IsErr, OnOk, OnErr, None, true};
ghost use Rattle.std.specs.Arc.{arc_value};
ghost use Rattle.strand_machine.specs.Stops.{Pauses};
ghost use Rattle.strand_machine.specs.declared.stop.Stop.TheVariants as stop;
ghost use Rattle.parallel_runner.specs.Hands.{view_of, RunsOnward, KeepsLate};

use crate::entry::{child_entry, with_known};
use crate::hand_state::HandState;
use crate::memory::Memory;
use crate::stalled::Stalled;
use crate::steps::{put_rest, stall};
use contract_views::KnownTag;
use serial_meaning::{Keep, Known};
use std::alloc::Global;
use std::collections::VecDeque;
use std::marker::Model;
use std::sync::Arc;
use strand_machine::{Paused, Task, TaskPool};

// There was no memory for a task that goes on. Only the calls of this module make one, each of the task that it was given, which hasn't ended. A
// clause sees it as that task.
#[derive(Drop)]
pub(crate) struct Unended<T> {
    memory: Memory,
    task: KnownTag<T>,
}

impl<T> Model for Unended<T> {
    ghost Value = { T };

    ghost view = { λ u. u.task.value };
}

impl<T> Unended<T> {
    pub fn memory(self) -> Memory {
        let Unended { memory, task: _ } = self;
        memory
    }
}

// The same. It is generic, so that it can't look at what was got.
#[inline(always)]
fn before_end<T, X>(task: KnownTag<T>, got: Result<X, Memory>) -> Result<X, Unended<T>>
    ensures ok { IfOk result (λ x. got ≡ Ok x) }
    ensures err { IfErr result (λ unended. (unended ≡ task.value) × IsErr got) }
{
    match got {
        Ok(x) => Ok(x),
        Err(memory) => Err(Unended { memory, task }),
    }
}

// Runs the task to its next stop.
#[inline(always)]
pub(crate) fn run_to_stop<K: Keep>(
    task: Task<K>,
    alloc: Global,
    pool: &mut TaskPool<K>,
) -> Result<Paused<K>, Unended<Task<K>>>
    requires { task.cut ≡ None }
    ensures ok { IfOk result (Pauses task) }
    ensures unended { IfErr result (λ unended. unended ≡ task) }
{
    let of = KnownTag::of(&task);
    before_end(of, task.run(alloc, pool))
}

// The child becomes current, and its parent's rest goes after all others.
#[inline(always)]
pub(crate) fn switch_to_child<K: Keep>(
    state: &mut HandState<K>,
    child: Task<K>,
    rest: Task<K>,
    known: Option<Arc<Known>>,
) -> Result<(), Unended<Task<K>>>
    requires none { state.old.current ≡ None }
    requires goes_on { rest.cut ≡ None }
    requires childs { IfSome known (λ k. (arc_value k).plan ≡ child.task.plan) }
    requires rests { IfSome known (λ k. (arc_value k).plan ≡ rest.task.plan) }
    ensures ok { OnOk result (RunsOnward {K = K} (stop.Spawn child rest) (view_of state.old) (view_of state.new)) }
    ensures unended { IfErr result (λ unended. unended ≡ rest) }
    ensures err { OnErr result (state.new.current ≡ None) }
    ensures answered { state.new.answered ≡ state.old.answered }
    ensures late { KeepsLate (view_of state.old) (view_of state.new) }
{
    let of = KnownTag::of(&rest);
    let child = child_entry(child, &known);
    let rest = with_known(rest, known);
    before_end(of, put_rest(&mut state.deck, &mut state.overflow, rest))?;
    state.current = Some(child);
    Ok(())
}

// The task goes to the end of the stalled tasks.
#[inline(always)]
pub(crate) fn wait<K: Keep>(
    stalled: &mut VecDeque<Stalled<K>>,
    rest: Task<K>,
    known: Option<Arc<Known>>,
) -> Result<(), Unended<Task<K>>>
    requires goes_on { rest.cut ≡ None }
    requires waits { rest.task.waiting ≡ true }
    requires known { IfSome known (λ k. (arc_value k).plan ≡ rest.task.plan) }
    ensures ok { OnOk result (stalled.new.items ≡ stalled.old.items ++ rest ∷ []) }
    ensures unended { IfErr result (λ unended. unended ≡ rest) }
{
    let of = KnownTag::of(&rest);
    before_end(of, stall(stalled, with_known(rest, known)))
}
