// An instance that is run with a probe for the strand of one pedigree.
ghost use Rattle.std.specs.Prelude.{◌≡◌, ◌++◌, ◌∷◌, [], IfOk, OnOk, None, false};
ghost use Rattle.std.specs.Arc.{arc_value};
ghost use Rattle.serial_meaning.specs.Eval.{path_of};
ghost use Rattle.serial_meaning.specs.Laws.{IsOriginOf};
ghost use Rattle.strand_meaning.specs.Observation.{IsInstanceOrigin};
ghost use Rattle.strand_meaning.specs.Sound.{IsTask};
ghost use Rattle.strand_meaning.specs.Task.{start};
ghost use Rattle.strand_machine.specs.Links.{tags};
ghost use Rattle.strand_machine.specs.Stops.{answer_tags, any_cut};
ghost use Rattle.serial_runner.specs.Nodes.{IsBelow};
ghost use Rattle.serial_runner.specs.Observed.{AreOriginsOf, IsSeen, ObservesStop, IsWalk, WalksOn, begun_walk, origin_of, with_child};

use crate::observed::ObservedInstance;
use crate::serial::run_serial;
use crate::zip::zip;
use contract_views::Items;
use ped_path::Pedigree;
use serial_meaning::{Answer, Origin, Plan};
use std::alloc::Global;
use std::sync::Arc;
use strand_family::path;
use strand_machine::{Memory, ObservedStop, Stop, StrandProbe, Task, share_origin};
use strand_meaning::laws;

// An instance's task, and what is seen of it so far.
#[derive(Drop)]
pub(crate) struct NodeWalk {
    pub task: Task,
    // The children whose answers the task awaits, in order.
    pub awaited: Items<Origin>,
    pub observed: ObservedInstance,
}

// The walk after a stop of its task.
#[derive(Drop)]
pub(crate) enum Walked {
    Continues(NodeWalk),
    // The instance has ended, or nothing that it does later counts.
    Ends(ObservedInstance),
}

// The answers of these origins of the plan, in order.
pub(crate) fn answers_of(
    alloc: Global,
    plan: &Arc<Plan>,
    origins: &[Origin],
) -> Result<Items<Answer>, Memory>
    requires { AreOriginsOf (arc_value plan.now) origins.now }
    ensures tags { IfOk result (λ answers. answer_tags answers ≡ tags (arc_value plan.now) origins.now) }
    ensures whole { IfOk result (λ answers. any_cut answers ≡ false) }
{
    let mut answers = Vec::with_capacity(alloc, origins.len())?;
    for origin in origins {
        answers.push(run_serial(alloc, plan, share_origin(alloc, origin)?)?)?;
    }
    Ok(Items(answers))
}

// Runs the task to its next stop and observes what it shows. The children that it awaits come back.
fn run_to_stop(
    walk: NodeWalk,
    alloc: Global,
    at: &Pedigree,
) -> Result<(Stop, Items<Origin>, ObservedInstance), Memory>
    requires instance { IsInstanceOrigin (origin_of walk) }
    requires goes_on { walk.task.cut ≡ None }
    ensures stop { IfOk result (λ p. ObservesStop at.now walk p.0 p.2) }
    ensures awaited { IfOk result (λ p. p.1 ≡ walk.awaited) }
{
    let NodeWalk {
        task,
        awaited,
        observed,
    } = walk;
    let seen = observed.probe;
    let ((awaited, observed), observed_stop) = zip(
        (awaited, observed),
        task.advance_observed(alloc, at, seen),
    )?;
    let ObservedStop {
        stop,
        probe,
        events,
        fault,
        child_fault,
    } = observed_stop;
    let observed = observed.observe(probe, events, fault, child_fault);
    let ((stop, awaited), observed) = zip((stop, awaited), observed)?;
    Ok((stop, awaited, observed))
}

// Observes a child that was begun, and awaits it.
fn await_child(
    alloc: Global,
    child: &Task,
    at: &Pedigree,
    awaited: &mut Items<Origin>,
    observed: &mut ObservedInstance,
) -> Result<(), Memory>
    ensures awaited { OnOk result (awaited.new ≡ awaited.old ++ child.now.task.origin ∷ []) }
    ensures observed { OnOk result (observed.new ≡ with_child at.now child.now.task.origin observed.old) }
{
    observed.observe_child(alloc, child, at)?;
    awaited.0.push(child.share_origin(alloc)?)?;
    Ok(())
}

// Runs the task to its next stop. Where it waits there, the children that it awaits are run, unless nothing that it does later counts.
fn walk_on(walk: NodeWalk, alloc: Global, plan: &Arc<Plan>, at: &Pedigree) -> Result<Walked, Memory>
    requires below { IsBelow (path_of (origin_of walk)) at.now }
    requires walk { IsWalk (arc_value plan.now) (origin_of walk) at.now walk }
    ensures { IfOk result (WalksOn (arc_value plan.now) (origin_of walk) at.now walk) }
{
    laws::observation_goes_on();
    laws::answers_show_nothing();
    let (stop, mut awaited, mut observed) = run_to_stop(walk, alloc, at)?;
    match stop {
        Stop::Spawn { child, rest } => {
            let unmerged = await_child(alloc, &child, at, &mut awaited, &mut observed);
            drop(child);
            let ((task, awaited, observed), ()) = zip((rest, awaited, observed), unmerged)?;
            if observed.is_over() {
                drop((task, awaited));
                return Ok(Walked::Ends(observed));
            }
            Ok(Walked::Continues(NodeWalk {
                task,
                awaited,
                observed,
            }))
        }
        Stop::Wait { rest } => {
            if observed.is_over() {
                drop((rest, awaited));
                return Ok(Walked::Ends(observed));
            }
            let answers = answers_of(alloc, plan, awaited.as_slice());
            drop(awaited);
            let ((rest, observed), answers) = zip((rest, observed), answers)?;
            let (observed, task) = zip(observed, rest.resume_with(alloc, answers))?;
            Ok(Walked::Continues(NodeWalk {
                task,
                awaited: Items(Vec::new(alloc)),
                observed,
            }))
        }
        Stop::Done { answer, give } => {
            drop((answer, give, awaited));
            Ok(Walked::Ends(observed))
        }
    }
}

// A walk that hasn't begun.
fn begin_walk(
    alloc: Global,
    plan: &Arc<Plan>,
    origin: Origin,
    at: &Pedigree,
) -> Result<NodeWalk, Memory>
    requires { IsOriginOf (arc_value plan.now) origin }
    ensures walk { IfOk result (λ walk. walk ≡ begun_walk (arc_value plan.now) origin at.now) }
    ensures sound { IfOk result (λ walk. IsTask (start (arc_value plan.now) origin)) }
{
    // Read for the proof: a checked script is valid.
    let _script = plan.checked.script();
    laws::valid_plans_are_clear();
    laws::tasks_begin();
    let probe = StrandProbe::new(path(&origin), at);
    let task = Task::detached(alloc, plan, origin)?;
    Ok(NodeWalk {
        task,
        awaited: Items(Vec::new(alloc)),
        observed: ObservedInstance::new(probe),
    })
}

// Runs an instance of the plan until nothing that it does later counts for the pedigree, or to its end. Its children are run where it waits
// for them.
pub(crate) fn observe_instance(
    alloc: Global,
    plan: &Arc<Plan>,
    origin: Origin,
    at: &Pedigree,
) -> Result<ObservedInstance, Memory>
    requires known { IsOriginOf (arc_value plan.now) origin }
    requires instance { IsInstanceOrigin origin }
    requires below { IsBelow (path_of origin) at.now }
    ensures { IfOk result (IsSeen (arc_value plan.now) origin at.now) }
{
    laws::observation_begins();
    let mut walk = begin_walk(alloc, plan, origin, at)?;
    loop {
        match walk_on(walk, alloc, plan, at)? {
            Walked::Continues(next) => walk = next,
            Walked::Ends(observed) => return Ok(observed),
        }
    }
}
