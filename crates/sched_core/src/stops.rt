// What a stop of a task does.
ghost use Rattle.std.specs.Prelude.{◌≡◌, ◌<◌, Some, None, OnOk, length, slice_get};
ghost use Rattle.sched_core.specs.Moves.{BeginsTask, CanAnswer, CanStop, DeliversAnswer, PutsAnswer, StopsAt};
ghost use Rattle.sched_core.specs.declared.node.SpawnNode.{SpawnNode};

use crate::job::Job;
use crate::node::{Link, begin_child};
use crate::state::CoreState;
use serial_meaning::Answer;
use std::alloc::Global;
use strand_machine::{Memory, Stop, Task, share_origin};

// The answer goes to the node of the link, or is main's.
fn deliver_answer(state: &mut CoreState, link: Option<Link>, answer: Answer)
    requires { CanAnswer state.old.nodes.items link }
    ensures { DeliversAnswer link answer state.old state.new }
{
    match link {
        Some(link) => state.nodes[link.parent].put_child_answer(link.place, answer),
        None => state.root = Some(answer),
    }
}

// The answer of the origin with this number goes to its parent, or is main's.
fn put_answer(
    state: &mut CoreState,
    alloc: Global,
    number: usize,
    answer: Answer,
) -> Result<(), Memory>
    requires number { number < length state.old.nodes.items }
    requires parent_awaits { (n : SpawnNode) → slice_get state.old.nodes.items number ≡ Some n → CanAnswer state.old.nodes.items n.link }
    ensures { OnOk result (PutsAnswer number answer state.old state.new) }
{
    let origin = share_origin(alloc, &answer.origin)?;
    state.given.0.push(origin)?;
    let link = state.nodes[number].link;
    deliver_answer(state, link, answer);
    Ok(())
}

// The child of the task with this number is begun, and becomes current.
fn begin_task(
    state: &mut CoreState,
    alloc: Global,
    w: usize,
    number: usize,
    child: Task,
    rest: Task,
) -> Result<(), Memory>
    requires { CanStop w number state.old }
    ensures { OnOk result (BeginsTask w number child rest state.old state.new) }
{
    let begun = begin_child(&mut state.nodes, alloc, number, &child)?;
    let child = Job {
        task: child,
        number: begun,
    };
    let rest = Job { task: rest, number };
    state.workers[w].switch_to_child(child, rest)
}

// The task with this number, which was taken from its worker, comes to this stop.
pub(crate) fn stop(
    state: &mut CoreState,
    alloc: Global,
    w: usize,
    number: usize,
    stop: Stop,
) -> Result<(), Memory>
    requires { CanStop w number state.old }
    ensures { OnOk result (StopsAt w number stop state.old state.new) }
{
    match stop {
        Stop::Spawn { child, rest } => begin_task(state, alloc, w, number, child, rest),
        Stop::Wait { rest } => state.workers[w].stall(Job { task: rest, number }),
        Stop::Done { answer, .. } => put_answer(state, alloc, number, answer),
    }
}
