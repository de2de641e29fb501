// A worker by itself.
ghost use Rattle.std.specs.Prelude.{◌≡◌, IfOk};
ghost use Rattle.std.specs.Arc.{arc_value};
ghost use Rattle.serial_meaning.specs.Laws.{IsOriginOf};
ghost use Rattle.strand_meaning.specs.Laws.{IsFaultOf};
ghost use Rattle.strand_meaning.specs.Task.{start};
ghost use Rattle.serial_runner.specs.Stacks.{IsStack, lowest};

use crate::advance::advance;
use crate::open_tasks::OpenTasks;
use crate::stack::{Advanced, Stack};
use serial_meaning::{Answer, Keep, Origin, Plan};
use std::alloc::Global;
use std::sync::Arc;
use strand_machine::{Memory, Task, TaskPool};
use strand_meaning::laws;

// The stack of this task alone.
pub(crate) fn stack_of<K: Keep>(
    alloc: Global,
    plan: &Arc<Plan>,
    origin: Origin,
) -> Result<Stack<K>, Memory>
    requires { IsOriginOf (arc_value plan.now) origin }
    ensures sound { IfOk result IsStack }
    ensures lowest { IfOk result (λ stack. lowest stack ≡ start (arc_value plan.now) origin) }
{
    // Read for the proof: a checked script is valid.
    let _script = plan.checked.script();
    laws::valid_plans_are_clear();
    laws::tasks_begin();
    let task = Task::detached_keeping(alloc, plan, origin)?;
    let mut below = OpenTasks::new(alloc);
    let top = below.open_task(alloc, task);
    Ok(Stack { top, below })
}

/// Runs an origin of the plan on this thread. A child is run to its end before the rest of its parent, so that all
/// children have answered where a task waits.
///
/// The tasks under way are on the heap and not on the thread's stack, however deep they are nested. The answers of a
/// task's children are moved into its own.
pub fn run_serial(alloc: Global, plan: &Arc<Plan>, origin: Origin) -> Result<Answer, Memory>
    requires { IsOriginOf (arc_value plan.now) origin }
    ensures plan { IfOk result (λ answer. answer.plan ≡ arc_value plan.now) }
    ensures origin { IfOk result (λ answer. answer.origin ≡ origin) }
    ensures fault { IfOk result (λ answer. IsFaultOf (arc_value plan.now) answer.outcome) }
{
    run_serial_keeping(alloc, plan, origin)
}

/// The same, where `K` says which events the answer keeps in memory.
pub fn run_serial_keeping<K: Keep>(
    alloc: Global,
    plan: &Arc<Plan>,
    origin: Origin,
) -> Result<Answer<K>, Memory>
    requires { IsOriginOf (arc_value plan.now) origin }
    ensures plan { IfOk result (λ answer. answer.plan ≡ arc_value plan.now) }
    ensures origin { IfOk result (λ answer. answer.origin ≡ origin) }
    ensures fault { IfOk result (λ answer. IsFaultOf (arc_value plan.now) answer.outcome) }
{
    let mut stack = stack_of(alloc, plan, origin)?;
    let mut pool = TaskPool::new(alloc);
    loop {
        match advance(stack, alloc, &mut pool)? {
            Advanced::Continues(next) => stack = next,
            Advanced::Ends(answer) => return Ok(Box::into_inner(answer.0)),
        }
    }
}
