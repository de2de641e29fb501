// One stop of a worker that runs each child to its end before its parent continues.
ghost use Rattle.std.specs.Prelude.{◌≡◌, List, [], ◌∷◌, true, IfOk};
ghost use Rattle.strand_meaning.specs.Laws.{IsFaultOf};
ghost use Rattle.strand_machine.specs.Faults.{is_fault};
ghost use Rattle.strand_machine.specs.Stops.{HasEnded};
ghost use Rattle.serial_runner.specs.declared.open_tasks.OpenTask.{OpenTask};
ghost use Rattle.serial_runner.specs.declared.stack.Stack.{Stack};
ghost use Rattle.serial_runner.specs.Stacks.{AreBelow, IsAnswerOf, IsEndAbove, IsStack, AdvancesTo, lowest_of, task_of_answer, stack_with_answer};

use crate::open_tasks::{OpenTask, OpenTasks};
use crate::stack::{Advanced, Stack};
use crate::zip::zip;
use contract_views::{Boxed, Items};
use serial_meaning::{Answer, Keep};
use std::alloc::Global;
use strand_machine::{Memory, Paused, Task, TaskPool, is_fault};

fn boxed<K: Keep>(alloc: Global, answer: Answer<K>) -> Result<Boxed<Answer<K>>, Memory>
    ensures { IfOk result (λ b. b ≡ answer) }
{
    Ok(Boxed(Box::new(alloc, answer)?))
}

// Gives the answer of a task that has ended to the one below it. Its list of answers is used again.
fn answer_below<K: Keep>(
    alloc: Global,
    answer: Answer<K>,
    taken: Items<Answer<K>>,
    mut below: OpenTasks<K>,
) -> Result<Advanced<K>, Memory>
    ensures parent { (f : OpenTask K) (fs : List (OpenTask K)) → below ≡ f ∷ fs → IfOk result (λ advanced. advanced ≡ Advanced.Continues (stack_with_answer answer f fs)) }
    ensures last { below ≡ [] → IfOk result (λ advanced. advanced ≡ Advanced.Ends answer) }
{
    below.reuse(taken);
    match below.pop() {
        Some(mut top) => {
            if top.answers.as_slice().is_empty() {
                // most tasks await one or two answers, and a list would begin with room for four
                top.answers.0.try_reserve_exact(2)?;
            } else {
                top.answers.0.try_reserve(1)?;
            }
            top.answers.0.push_reserved(answer);
            Ok(Advanced::Continues(Stack { top, below }))
        }
        None => Ok(Advanced::Ends(boxed(alloc, answer)?)),
    }
}

// The answer of the task at the bottom, where the answer of the one on top is this fault. Each task below ends by the
// same fault, since nothing after it counts.
fn end_all<K: Keep>(
    alloc: Global,
    answer: Answer<K>,
    mut below: OpenTasks<K>,
) -> Result<Answer<K>, Memory>
    requires fault { is_fault answer.outcome ≡ true }
    requires known { IsFaultOf answer.plan answer.outcome }
    requires below { AreBelow (task_of_answer answer) below }
    ensures { IfOk result (IsAnswerOf (lowest_of (task_of_answer answer) below)) }
{
    let mut answer = answer;
    while let Some(open_task) = below.pop() {
        let OpenTask { task, answers } = open_task;
        let (ended, _) = task.end_by(alloc, answers, answer)?;
        answer = ended;
    }
    Ok(answer)
}

// The topmost task has ended. Its answer goes to the task below, and where it is a fault it ends all of them.
//
// It is a function of its own, since the room for answers would else be cleared at each stop.
#[inline(always)]
fn end_top<K: Keep>(
    alloc: Global,
    ended: Task<K>,
    taken: Items<Answer<K>>,
    below: OpenTasks<K>,
    pool: &mut TaskPool<K>,
) -> Result<Advanced<K>, Memory>
    requires { IsEndAbove ended below }
    ensures { (s : Stack K) → IsStack s → s.below ≡ below → HasEnded K s.top.task ended → IfOk result (AdvancesTo s) }
{
    let (answer, give) = ended.into_answer(pool);
    drop(give);
    if is_fault(&answer) {
        let last = end_all(alloc, answer, below)?;
        return Ok(Advanced::Ends(boxed(alloc, last)?));
    }
    answer_below(alloc, answer, taken, below)
}

// Runs the topmost task to its next stop. A child goes on top of it. Where it waits its children have ended, and it takes their
// answers.
#[inline(always)]
pub(crate) fn advance<K: Keep>(
    stack: Stack<K>,
    alloc: Global,
    pool: &mut TaskPool<K>,
) -> Result<Advanced<K>, Memory>
    requires { IsStack stack }
    ensures { IfOk result (AdvancesTo stack) }
{
    let Stack { top, mut below } = stack;
    let OpenTask { task, answers } = top;
    let paused = task.run(alloc, pool)?;
    match paused {
        Paused::Spawn { child, rest } => {
            let parent = OpenTask {
                task: rest,
                answers,
            };
            let (child, ()) = zip(child, below.push(parent))?;
            let top = below.open_task(alloc, child);
            Ok(Advanced::Continues(Stack { top, below }))
        }
        Paused::Wait { rest } => {
            let (task, answers) = rest.resume_by(alloc, answers, pool)?;
            let top = OpenTask { task, answers };
            Ok(Advanced::Continues(Stack { top, below }))
        }
        Paused::Ended { rest } => end_top(alloc, rest, answers, below, pool),
    }
}
