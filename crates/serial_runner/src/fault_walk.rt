// Where an instance stood when it met a fault of its own.
ghost use Rattle.std.specs.Prelude.{◌≡◌, IfOk};
ghost use Rattle.std.specs.Arc.{arc_value};
ghost use Rattle.serial_meaning.specs.Laws.{IsOriginOf};
ghost use Rattle.serial_meaning.specs.Open.{node_of};
ghost use Rattle.strand_meaning.specs.Observation.{IsInstanceOrigin, own_fault_of};
ghost use Rattle.strand_meaning.specs.Sound.{IsTask};
ghost use Rattle.strand_meaning.specs.Task.{start};
ghost use Rattle.strand_machine.specs.Placed.{fault_met, latest};
ghost use Rattle.serial_runner.specs.FaultWalks.{FaultWalksOn, IsFaultWalk, OriginMeets, begun_fault_walk, origin_in};

use crate::walk::answers_of;
use contract_views::Items;
use serial_meaning::{Origin, Plan};
use std::alloc::Global;
use std::sync::Arc;
use strand_machine::{Memory, PlacedFault, PlacedStop, Stop, Task};
use strand_meaning::laws;

// An origin's task, and the fault of its instance's own that it met so far.
#[derive(Drop)]
pub(crate) struct FaultWalk {
    pub task: Task,
    // The children whose answers the task awaits, in order.
    pub awaited: Items<Origin>,
    pub met: Option<PlacedFault>,
}

// The walk after a stop of its task.
#[derive(Drop)]
pub(crate) enum FaultWalked {
    Continues(FaultWalk),
    // The task has ended.
    Ends(Option<PlacedFault>),
}

// The later fault, if there is one.
fn latest(old: Option<PlacedFault>, new: Option<PlacedFault>) -> Option<PlacedFault>
    ensures { result ≡ latest old new }
{
    match new {
        Some(fault) => Some(fault),
        None => old,
    }
}

// A walk that hasn't begun.
fn begin_walk(alloc: Global, plan: &Arc<Plan>, origin: Origin) -> Result<FaultWalk, Memory>
    requires { IsOriginOf (arc_value plan.now) origin }
    ensures walk { IfOk result (λ walk. walk ≡ begun_fault_walk (arc_value plan.now) origin) }
    ensures sound { IfOk result (λ walk. IsTask (start (arc_value plan.now) origin)) }
{
    // Read for the proof: a checked script is valid.
    let _script = plan.checked.script();
    laws::valid_plans_are_clear();
    laws::tasks_begin();
    let task = Task::detached(alloc, plan, origin)?;
    Ok(FaultWalk {
        task,
        awaited: Items(Vec::new(alloc)),
        met: None,
    })
}

// Runs the task to its next stop. Where it waits there, the children that it awaits are run.
fn walk_on(walk: FaultWalk, alloc: Global, plan: &Arc<Plan>) -> Result<FaultWalked, Memory>
    requires { IsFaultWalk (arc_value plan.now) (origin_in walk) walk }
    ensures { IfOk result (FaultWalksOn (arc_value plan.now) (origin_in walk) walk) }
{
    let FaultWalk {
        task,
        mut awaited,
        met,
    } = walk;
    let PlacedStop { stop, met: later } = task.advance_placed(alloc)?;
    let met = latest(met, later);
    match stop {
        Stop::Spawn { child, rest } => {
            awaited.0.push(child.share_origin(alloc)?)?;
            drop(child);
            Ok(FaultWalked::Continues(FaultWalk {
                task: rest,
                awaited,
                met,
            }))
        }
        Stop::Wait { rest } => {
            let answers = answers_of(alloc, plan, awaited.as_slice())?;
            drop(awaited);
            let task = rest.resume_with(alloc, answers)?;
            Ok(FaultWalked::Continues(FaultWalk {
                task,
                awaited: Items(Vec::new(alloc)),
                met,
            }))
        }
        Stop::Done { answer, give } => {
            drop((answer, give, awaited));
            Ok(FaultWalked::Ends(met))
        }
    }
}

/// The fault of its own by which an instance of the plan ends, and where the instance stood then. None where it returns
/// a value, or ends by a fault of a child.
///
/// It runs the instance to its end, and where it waits the children for which it waits.
pub fn meet_fault(
    alloc: Global,
    plan: &Arc<Plan>,
    origin: Origin,
) -> Result<Option<PlacedFault>, Memory>
    requires known { IsOriginOf (arc_value plan.now) origin }
    requires instance { IsInstanceOrigin origin }
    ensures meets { IfOk result (OriginMeets (arc_value plan.now) origin) }

    // It is the fault by which the instance's node of the open tree ends.
    ensures fault { IfOk result (λ met. own_fault_of (node_of (arc_value plan.now) origin).ending ≡ fault_met met) }
{
    laws::observation_begins();
    laws::observation_goes_on();
    laws::answers_show_nothing();
    let mut walk = begin_walk(alloc, plan, origin)?;
    loop {
        match walk_on(walk, alloc, plan)? {
            FaultWalked::Continues(next) => walk = next,
            FaultWalked::Ends(met) => return Ok(met),
        }
    }
}
