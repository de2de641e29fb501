ghost use Rattle.std.specs.Prelude.{◌≡◌, ◌<◌, IfOk, not};
ghost use Rattle.std.specs.Arc.{arc_value};
ghost use Rattle.serial_meaning.specs.Laws.{IsOriginOf};
ghost use Rattle.strand_moves.specs.Moves.{IsTrailOf};
ghost use Rattle.strand_machine.specs.Links.{AreJoinNames, detached, task_give, tag};
ghost use Rattle.strand_machine.specs.AwaitedChildren.{awaited};

use crate::memory::Memory;
use crate::origin::{share_origin, trail_of};
use crate::parts::Parts;
use crate::remaining::begun_remaining;
use crate::task_pool::TaskPool;
use crate::task_state::TaskState;
use meet_block::Give;
use serial_meaning::{All, Answer, AnswerKey, Fault, Keep, Origin, Out, Outcome, Plan};
use std::alloc::Global;
use std::marker::Model;
use std::sync::Arc;
use strand_family::Links;
use strand_meaning::laws;
use strand_moves::Child;

/// An instance or a loop that can stop, begin children and continue. Contracts see its meaning (docs/LANGUAGE.md,
/// "Tasks"): finishing it gives the serial meaning of its origin, whoever runs its children.
#[derive(Drop)]
pub struct Task<K: Keep = All> {
    pub(crate) parts: Box<Parts<K>>,
}

impl<K: Keep> Model for Task<K> {
    ghost use Rattle.std.specs.Coded.{codes};
    ghost use Rattle.script_grammar.specs.contracts.tree.Stmt as statement_type;
    ghost use Rattle.serial_meaning.specs.contracts.plan.Plan as plan_type;
    ghost use Rattle.strand_machine.specs.Tasks.{TaskView, view_of, HoldsOfTask};

    ghost Value = { TaskView };

    ghost coded = { Prim.hlevel (codes, statement_type.the_row.coded, plan_type.the_row.coded) };

    ghost view = { λ t. view_of t.parts.value.state t.parts.value.remaining };

    ghost invariant = { λ t. HoldsOfTask t.parts.value.state t.parts.value.remaining };
}

impl<K: Keep> Task<K> {
    ghost use Rattle.std.specs.Prelude.{◌↔◌, IsTrue, [], false};
    ghost use Rattle.ped_path.specs.Path.{IsBefore};
    ghost use Rattle.serial_meaning.specs.Answer.{IsCut, start_of};
    ghost use Rattle.strand_machine.specs.Tasks.{fresh};

    /// A task of an origin that hasn't begun.
    pub fn start(
        alloc: Global,
        plan: Arc<Plan>,
        origin: Origin,
        give: Give<Answer<K>>,
    ) -> Result<Task<K>, Memory>
        requires give { give.tag ≡ tag (arc_value plan) origin }
        requires known { IsOriginOf (arc_value plan) origin }
        ensures fresh { IfOk result (λ task. task ≡ fresh (arc_value plan) origin task.joins) }
        ensures joins { IfOk result (λ task. AreJoinNames give.join task.joins) }
    {
        let trail = trail_of(&plan, &origin)?;
        Task::begin(
            alloc,
            plan,
            Child { origin, trail },
            give,
            &mut TaskPool::new(alloc),
        )
    }

    /// The same for a detached task: nobody looks for its answer, nor for those of the tasks below it, which are taken as they come.
    #[tactic(auto, using(crate::proofs::Moves::Starting::detached_fresh, crate::proofs::Moves::Starting::tag_given))]
    pub fn detached_keeping(
        alloc: Global,
        plan: &Arc<Plan>,
        origin: Origin,
    ) -> Result<Task<K>, Memory>
        requires { IsOriginOf (arc_value plan.now) origin }
        ensures { IfOk result (λ task. task ≡ fresh (arc_value plan.now) origin detached) }
    {
        let key = AnswerKey {
            plan: Arc::try_clone(plan)?,
            origin,
        };
        let give = Give::detached(&key);
        let AnswerKey { plan, origin } = key;
        Task::start(alloc, plan, origin, give)
    }

    // The same as `start`, where the caller has the trail of the origin's path.
    #[inline(always)]
    pub(crate) fn begin(
        alloc: Global,
        plan: Arc<Plan>,
        child: Child,
        give: Give<Answer<K>>,
        pool: &mut TaskPool<K>,
    ) -> Result<Task<K>, Memory>
        requires give { give.tag ≡ tag (arc_value plan) child.origin }
        requires known { IsOriginOf (arc_value plan) child.origin }
        requires trail { IsTrailOf (arc_value plan) child.origin child.trail }
        ensures fresh { IfOk result (λ task. task ≡ fresh (arc_value plan) child.origin task.joins) }
        ensures joins { IfOk result (λ task. AreJoinNames give.join task.joins) }
    {
        laws::valid_plans_are_clear();
        laws::tasks_begin();
        // Read for the proof: a checked script is valid.
        let _script = plan.checked.script();
        let Child { origin, trail } = child;
        let remaining = match begun_remaining(alloc, &plan, &origin, trail, &mut pool.instances) {
            Ok(remaining) => remaining,
            Err(memory) => {
                drop((plan, origin, give));
                return Err(memory);
            }
        };
        let links = match Links::new(alloc, plan, origin, give) {
            Ok(links) => links,
            Err(memory) => {
                drop(remaining);
                return Err(memory.into());
            }
        };
        let state = TaskState::new(alloc, links, pool.children(alloc));
        Parts::boxed(alloc, Parts { state, remaining }, pool)
    }

    /// The origin that the task answers.
    pub fn origin(&self) -> &Origin
        ensures { result.now ≡ self.now.task.origin }
    {
        self.parts.state.links.origin()
    }

    /// The task's plan.
    pub fn plan(&self) -> &Arc<Plan>
        ensures { arc_value result.now ≡ self.now.task.plan }
    {
        self.parts.state.links.shared_plan()
    }

    /// Replaces the handle of the task's plan. The children that it begins from now on share the new one.
    pub fn set_plan(&mut self, plan: Arc<Plan>)
        requires { arc_value plan ≡ self.old.task.plan }
        ensures { self.new ≡ self.old }
    {
        self.parts.state.links.set_plan(plan);
    }

    /// Moves the paths from which its further children get theirs to memory of its own, where there is some. Then those children count no owners
    /// of a path that the earlier ones count.
    pub fn unshare_path(&mut self, alloc: Global)
        ensures { self.new ≡ self.old }
    {
        self.parts.unshare_path(alloc);
    }

    /// A copy of the task's origin. Its path shares its memory.
    pub fn share_origin(&self, alloc: Global) -> Result<Origin, Memory>
        ensures { IfOk result (λ origin. origin ≡ self.now.task.origin) }
    {
        share_origin(alloc, self.origin())
    }

    /// Whether it hasn't been advanced yet.
    pub fn is_fresh(&self) -> bool
        ensures { result ≡ not self.now.task.advanced }
    {
        !self.parts.state.advanced
    }

    /// Whether the fault precedes all that the task could do: an instance's path, or the path of a loop's first
    /// iteration.
    pub fn may_cut(&self, by: &Fault) -> bool
        ensures { IsTrue result ↔ IsBefore by.now.at (start_of self.now.task.origin) }
    {
        self.parts.state.links.stands_after(by)
    }

    /// Answers without running: a fault of the plan precedes all that the task could do.
    pub fn cut(self, by: Fault) -> (Answer<K>, Give<Answer<K>>)
        requires fresh { self.task.advanced ≡ false }
        requires stands { IsCut self.task.plan self.task.origin by }
        ensures answer { result.0 ≡ record { plan = self.task.plan; origin = self.task.origin; out = []; outcome = Outcome.Cut by } }
        ensures give { result.1 ≡ task_give self.task.plan self.task.origin self.joins }
    {
        let Task { parts } = self;
        let (links, prefix, fault) = Parts::end(parts);
        drop((prefix, fault));
        links.answer(Out::none(), Outcome::Cut { by })
    }
}

impl Task<All> {
    ghost use Rattle.strand_machine.specs.Tasks.{fresh};

    /// The same as `detached_keeping`, of a task that keeps all events.
    pub fn detached(alloc: Global, plan: &Arc<Plan>, origin: Origin) -> Result<Task, Memory>
        requires { IsOriginOf (arc_value plan.now) origin }
        ensures { IfOk result (λ task. task ≡ fresh (arc_value plan.now) origin detached) }
    {
        Task::detached_keeping(alloc, plan, origin)
    }
}
