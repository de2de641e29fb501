// A core before its first step.
ghost use Rattle.std.specs.Prelude.{◌≡◌, ◌≤◌, IfOk};
ghost use Rattle.std.specs.Arc.{arc_value};
ghost use Rattle.serial_meaning.specs.Eval.{main_origin};
ghost use Rattle.strand_machine.specs.Links.{detached};
ghost use Rattle.strand_machine.specs.Tasks.{fresh};
ghost use Rattle.sched_core.specs.Begun.{IsBegun, first_workers};
ghost use Rattle.sched_core.specs.Consistent.{IsConsistent};

use crate::job::Job;
use crate::node::SpawnNode;
use crate::state::CoreState;
use crate::worker::Worker;
use contract_views::Items;
use serial_meaning::Plan;
use std::alloc::Global;
use std::sync::Arc;
use strand_machine::{Memory, Task};

// Main's task. Nobody waits for its value or for those of the tasks below it: the core keeps their answers.
#[tactic(auto, using(crate::proofs::KnownOfNodes::Mains::main_known))]
fn main_task(alloc: Global, plan: &Arc<Plan>) -> Result<Task, Memory>
    ensures { IfOk result (λ task. task ≡ fresh (arc_value plan.now) (main_origin (arc_value plan.now)) detached) }
{
    Ok(Task::detached(alloc, plan, plan.main_origin(alloc)?)?)
}

// This many workers, of which the first has this task.
fn first_workers(alloc: Global, main: Task, workers: u32) -> Result<Vec<Worker>, Memory>
    requires { 1 ≤ workers }
    ensures { IfOk result (λ all. all.items ≡ first_workers main workers) }
{
    let mut all = Vec::with_capacity(alloc, workers as usize)?;
    let job = Job {
        task: main,
        number: 0,
    };
    all.push(Worker::new(alloc, Some(job)))?;
    for _i in 1..workers {
        all.push(Worker::new(alloc, None))?;
    }
    Ok(all)
}

// The core before its first step, by its fields.
fn first_state(alloc: Global, plan: &Arc<Plan>, workers: u32) -> Result<CoreState, Memory>
    requires { 1 ≤ workers }
    ensures { IfOk result (IsBegun (arc_value plan.now) workers) }
{
    let main = main_task(alloc, plan)?;
    let mut nodes = Vec::with_capacity(alloc, 1)?;
    let origin = main.share_origin(alloc)?;
    nodes.push(SpawnNode::new(alloc, origin, None))?;
    Ok(CoreState {
        plan: Arc::try_clone(plan)?,
        workers: first_workers(alloc, main, workers)?,
        nodes,
        given: Items(Vec::new(alloc)),
        root: None,
        runs: 0,
    })
}

// The core before its first step.
pub(crate) fn new_state(alloc: Global, plan: &Arc<Plan>, workers: u32) -> Result<CoreState, Memory>
    requires { 1 ≤ workers }
    ensures begun { IfOk result (IsBegun (arc_value plan.now) workers) }
    ensures consistent { IfOk result IsConsistent }
{
    // Read for the proof: a checked script is valid.
    let _script = plan.checked.script();
    first_state(alloc, plan, workers)
}
