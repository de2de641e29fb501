// Tasks by hand, stop after stop.

ghost use Rattle.std.specs.Prelude.{◌≡◌, ◌∷◌, ◌++◌, [], true, IfOk};
ghost use Rattle.std.specs.Arc.{arc_value};
ghost use Rattle.serial_meaning.specs.Eval.{main_origin};
ghost use Rattle.strand_machine.specs.Links.{tag};
ghost use Rattle.strand_machine.specs.Tasks.{fresh};
ghost use Rattle.test_tasks.specs.Stopping.{IsIdle, StopsAt, awaited};

use super::{plan, plan_within, same};
use contract_views::Items;
use meet_block::{Give, Join};
use serial_meaning::{Answer, AnswerKey, Outcome, Plan, Value};
use std::alloc::Global;
use std::process::Abort;
use std::sync::Arc;
use std::test::Fail;
use strand_machine::{Resumed, Stop, Task};
use strand_meaning::laws;

// Main's task, of which nothing is done.
#[tactic(auto, using(crate::proofs::Stopping::main_known))]
fn fresh_main(alloc: Global, plan: &Arc<Plan>) -> Result<Task, Fail>
    ensures { IfOk result (λ task. task ≡ fresh (arc_value plan.now) (main_origin (arc_value plan.now)) task.joins) }
{
    let key = AnswerKey {
        plan: Arc::try_clone(plan)?,
        origin: plan.main_origin(alloc)?,
    };
    let mut join: Join<Answer> = Join::new(alloc)?;
    let give = join.hand(alloc, &key)?;
    let AnswerKey { plan, origin } = key;
    Ok(Task::start(alloc, plan, origin, give)?)
}

// The same, known to be sound.
#[tactic(auto, using(crate::proofs::Stopping::main_idle, crate::proofs::Stopping::awaits_none_yet))]
fn main_task(alloc: Global, plan: &Arc<Plan>) -> Result<Task, Fail>
    ensures idle { IfOk result IsIdle }
    ensures none { IfOk result (λ task. awaited task ≡ []) }
{
    laws::valid_plans_are_clear();
    // Read for the proof: a checked script is valid.
    let _script = plan.checked.script();
    fresh_main(alloc, plan)
}

// Main's task of the script.
fn main_of(rt: &(impl Abort + AllocGlobal), text: &str) -> Result<Task, Fail>
    ensures idle { IfOk result IsIdle }
    ensures none { IfOk result (λ task. awaited task ≡ []) }
{
    main_task(rt.alloc(), &plan(rt, text)?)
}

// The next stop of a task that stands in no wait.
#[tactic(auto, using(crate::proofs::Stopping::stopped))]
fn stop(alloc: Global, task: Task) -> Result<Stop, Fail>
    requires { IsIdle task }
    ensures { IfOk result (StopsAt task) }
{
    Ok(task.advance(alloc)?)
}

// The child that the task begins next, and the rest, which awaits it too.
fn spawned_child(rt: &impl Abort, alloc: Global, task: Task) -> Result<(Task, Task), Fail>
    requires { IsIdle task }
    ensures child { IfOk result (λ r. IsIdle r.0 × (r.0.task.plan ≡ task.task.plan)) }
    ensures rest { IfOk result (λ r. IsIdle r.1 × (r.1.task.plan ≡ task.task.plan)) }
    ensures awaits { IfOk result (λ r. awaited r.1 ≡ awaited task ++ r.0.task.origin ∷ []) }
{
    match stop(alloc, task)? {
        Stop::Spawn { child, rest } => Ok((child, rest)),
        _ => panic!(rt; "it spawns a child"),
    }
}

// The task at its next stop, a wait.
fn at_wait(rt: &impl Abort, alloc: Global, task: Task) -> Result<Task, Fail>
    requires { IsIdle task }
    ensures waits { IfOk result (λ rest. rest.task.waiting ≡ true) }
    ensures plan { IfOk result (λ rest. rest.task.plan ≡ task.task.plan) }
    ensures awaits { IfOk result (λ rest. awaited rest ≡ awaited task) }
{
    match stop(alloc, task)? {
        Stop::Wait { rest } => Ok(rest),
        _ => panic!(rt; "it waits"),
    }
}

// What the task answers at its next stop, its end, and the give for it.
fn ended(rt: &impl Abort, alloc: Global, task: Task) -> Result<(Answer, Give<Answer>), Fail>
    requires { IsIdle task }
    ensures plan { IfOk result (λ r. r.0.plan ≡ task.task.plan) }
    ensures origin { IfOk result (λ r. r.0.origin ≡ task.task.origin) }
    ensures give { IfOk result (λ r. tag r.0.plan r.0.origin ≡ r.1.tag) }
{
    match stop(alloc, task)? {
        Stop::Done { answer, give } => Ok((answer, give)),
        _ => panic!(rt; "it has ended"),
    }
}

// The task after its wait with these answers, those of the two children that it awaits.
#[tactic(auto, using(crate::proofs::Stopping::tags_of_two, crate::proofs::Stopping::resumes))]
fn with_answers(alloc: Global, rest: Task, first: Answer, second: Answer) -> Result<Task, Fail>
    requires waits { rest.task.waiting ≡ true }
    requires first { first.plan ≡ rest.task.plan }
    requires second { second.plan ≡ rest.task.plan }
    requires awaits { awaited rest ≡ first.origin ∷ second.origin ∷ [] }
    ensures { IfOk result (λ task. awaited task ≡ []) }
{
    let answers = Vec::from_array(alloc, [first, second])?;
    Ok(rest.resume_with(alloc, Items(answers))?)
}

// The task after its wait for two children, which run to their ends first.
fn with_both(
    rt: &impl Abort,
    alloc: Global,
    rest: Task,
    first: Task,
    second: Task,
) -> Result<Task, Fail>
    requires waits { rest.task.waiting ≡ true }
    requires first { IsIdle first × (first.task.plan ≡ rest.task.plan) }
    requires second { IsIdle second × (second.task.plan ≡ rest.task.plan) }
    requires awaits { awaited rest ≡ first.task.origin ∷ second.task.origin ∷ [] }
    ensures { IfOk result (λ task. awaited task ≡ []) }
{
    let (first, _) = ended(rt, alloc, first)?;
    let (second, _) = ended(rt, alloc, second)?;
    with_answers(alloc, rest, first, second)
}

// It is known that the task awaits no child.
fn awaits_none(_task: &Task)
    requires { awaited _task.now ≡ [] }
{}

// It is known that the task awaits this child alone.
fn awaits_only(_task: &Task, _child: &Task)
    requires { awaited _task.now ≡ _child.now.task.origin ∷ [] }
{}

// The number that was answered.
fn number_of(rt: &impl Abort, answer: &Answer) -> i64 {
    match &answer.outcome {
        Outcome::Value(Value::Int(number)) => *number,
        _ => panic!(rt; "it gives a number"),
    }
}

// The number that the task gives at its end.
fn number(rt: &impl Abort, alloc: Global, task: Task) -> Result<i64, Fail> {
    match task.advance(alloc)? {
        Stop::Done { answer, .. } => Ok(number_of(rt, &answer)),
        _ => panic!(rt; "it has ended"),
    }
}

#[tactic(auto, using(crate::proofs::Stopping::two_awaited))]
#[test]
fn a_task_takes_its_childrens_answers_at_a_wait(rt: HostRuntime) -> Result<(), Fail> {
    let alloc = rt.alloc();
    let text = "fn f(n) { return n; }
         fn main() { let a = spawn f(7); let b = spawn f(5); sync; return a * 10 + b; }";
    let (first, rest) = spawned_child(&rt, alloc, main_of(&rt, text)?)?;
    let (second, rest) = spawned_child(&rt, alloc, rest)?;
    let rest = at_wait(&rt, alloc, rest)?;
    let task = with_both(&rt, alloc, rest, first, second)?;
    awaits_none(&task);
    same(&rt, "main", number(&rt, alloc, task)?, 75);
    Ok(())
}

// The task at the same wait, since not all of its children have answered.
fn still_waiting(rt: &impl Abort, alloc: Global, task: Task) -> Result<Task, Fail>
    requires { task.task.waiting ≡ true }
    ensures { IfOk result (λ same. same.task.waiting ≡ true) }
{
    match task.resume(alloc)? {
        Resumed::NotYet(same) => Ok(same),
        Resumed::On(_) => panic!(rt; "its child hasn't answered"),
    }
}

// The task after its wait, since all of its children have answered.
#[tactic(auto, using(crate::proofs::Stopping::resumed_on))]
fn after_wait(rt: &impl Abort, alloc: Global, task: Task) -> Result<Task, Fail>
    requires { task.task.waiting ≡ true }
    ensures { IfOk result (λ next. awaited next ≡ []) }
{
    match task.resume(alloc)? {
        Resumed::On(next) => Ok(next),
        Resumed::NotYet(_) => panic!(rt; "its child has answered"),
    }
}

// The task after its wait, once the child that it awaits has run to its end.
fn with_child(rt: &impl Abort, alloc: Global, rest: Task, child: Task) -> Result<Task, Fail>
    requires waits { rest.task.waiting ≡ true }
    requires child { IsIdle child }
    ensures { IfOk result (λ task. awaited task ≡ []) }
{
    let (answer, give) = ended(rt, alloc, child)?;
    give.put(answer);
    after_wait(rt, alloc, rest)
}

#[tactic(auto, using(crate::proofs::Stopping::one_awaited))]
#[test]
fn a_task_goes_on_once_its_child_has_answered(rt: HostRuntime) -> Result<(), Fail> {
    let alloc = rt.alloc();
    let text = "fn f() { return 7; } fn main() { let a = spawn f(); sync; print a; return 0; }";
    let main = main_of(&rt, text)?;
    assert!(rt; main.is_fresh());
    let (child, rest) = spawned_child(&rt, alloc, main)?;
    assert!(rt; child.is_fresh() && !rest.is_fresh());
    awaits_only(&rest, &child);
    let rest = at_wait(&rt, alloc, rest)?;
    let rest = still_waiting(&rt, alloc, rest)?;
    let rest = with_child(&rt, alloc, rest, child)?;
    awaits_none(&rest);
    same(&rt, "main", number(&rt, alloc, rest)?, 0);
    Ok(())
}

// The end of a scope waits for the child that was spawned in it, and main's return for none, since it spawned nothing after that.
#[tactic(auto, using(crate::proofs::Stopping::one_awaited))]
#[test]
fn a_task_waits_at_the_end_of_a_scope(rt: HostRuntime) -> Result<(), Fail> {
    let alloc = rt.alloc();
    let text =
        "version 2\nfn f() { return 7; } fn main() { let a = 0; scope { a = spawn f(); } return a; }";
    let main = main_task(alloc, &plan_within(&rt, text, 3)?)?;
    let (child, rest) = spawned_child(&rt, alloc, main)?;
    awaits_only(&rest, &child);
    let rest = at_wait(&rt, alloc, rest)?;
    let rest = with_child(&rt, alloc, rest, child)?;
    same(&rt, "main", number(&rt, alloc, rest)?, 7);
    Ok(())
}
