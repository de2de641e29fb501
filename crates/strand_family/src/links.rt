ghost use Rattle.std.specs.Prelude.{◌≡◌, ℕ, [], ◌∷◌, ◌++◌, IfOk, OnOk, OnErr, Some, None, true, false, length, slice_get, slice_set};
ghost use Rattle.std.specs.Arc.{arc_value};
ghost use Rattle.meet_block.specs.Gives.{give_of};
ghost use Rattle.serial_meaning.specs.Answer.{IsAnswer};
ghost use Rattle.strand_family.specs.Links.{tag, links_with_child, task_give, LooksAtChildren};

use crate::memory::Memory;
use crate::start::stands_before;
use meet_block::{Give, Join, JoinPool, Look, Taken};
use serial_meaning::{All, Answer, AnswerKey, Fault, Keep, Origin, Out, Outcome, Plan};
use std::alloc::Global;
use std::marker::Model;
use std::sync::Arc;

/// A task's links to others: its plan and origin, the give by which it answers its parent, and the join of its children.
#[derive(Drop)]
pub struct Links<K: Keep = All> {
    plan: Arc<Plan>,
    origin: Origin,
    give: Give<Answer<K>>,
    join: Join<Answer<K>>,
}

impl<K: Keep> Model for Links<K> {
    ghost use Rattle.std.specs.Prelude.{◌≡◌, map};
    ghost use Rattle.std.specs.Arc.{arc_value};
    ghost use Rattle.std.specs.Coded.{codes};
    ghost use Rattle.serial_meaning.specs.contracts.plan.Plan as plan_type;
    ghost use Rattle.strand_family.specs.Links.{LinksView, tag, tags, origins};

    ghost Value = { LinksView };

    ghost coded = { Prim.hlevel (codes, plan_type.the_row.coded) };

    ghost view = { λ f. record {
      plan = arc_value f.plan;
      origin = f.origin;
      children = origins f.join.children.tags;
      taken = f.join.children.taken;
      ready = f.join.children.ready;
      loads = f.join.children.loads;
      joins = record { parents = f.give.join; own = f.join.name };
    } };

    ghost invariant = { λ f. (f.give.tag ≡ tag (arc_value f.plan) f.origin)
        × (f.join.children.tags ≡ tags (arc_value f.plan) (origins f.join.children.tags)) };
}

impl<K: Keep> Links<K> {
    ghost use Rattle.std.specs.Prelude.{◌↔◌, IsTrue};
    ghost use Rattle.ped_path.specs.Path.{IsBefore};
    ghost use Rattle.serial_meaning.specs.Answer.{start_of};
    ghost use Rattle.strand_family.specs.Links.{AreJoinNames, LinksView, childless};

    /// The links of a task without children. It takes no memory yet.
    pub fn new(
        alloc: Global,
        plan: Arc<Plan>,
        origin: Origin,
        give: Give<Answer<K>>,
    ) -> Result<Links<K>, Memory>
        requires { give.tag ≡ tag (arc_value plan) origin }
        ensures childless { IfOk result (λ links. links ≡ childless (arc_value plan) origin links.joins) }
        ensures joins { IfOk result (λ links. AreJoinNames give.join links.joins) }
    {
        // Where nobody waits for a task's value, its runner takes the children's values itself too.
        let join = if give.is_detached() {
            Join::detached()
        } else {
            Join::new(alloc)?
        };
        Ok(Links {
            plan,
            origin,
            give,
            join,
        })
    }

    /// The task's plan.
    pub fn plan(&self) -> &Plan
        ensures { result.now ≡ self.now.plan }
    {
        &self.plan
    }

    /// The task's own handle of its plan.
    pub fn shared_plan(&self) -> &Arc<Plan>
        ensures { arc_value result.now ≡ self.now.plan }
    {
        &self.plan
    }

    /// Another handle of the task's plan.
    pub fn share_plan(&self) -> Result<Arc<Plan>, Memory>
        ensures { IfOk result (λ plan. arc_value plan ≡ self.now.plan) }
    {
        Ok(Arc::try_clone(&self.plan)?)
    }

    /// Replaces the handle of the task's plan.
    pub fn set_plan(&mut self, plan: Arc<Plan>)
        requires { arc_value plan ≡ self.old.plan }
        ensures { self.new ≡ self.old }
    {
        self.plan = plan;
    }

    /// Copies the path of a loop's task, which the loop's parts share, to memory of its own, where there is some.
    pub fn unshare_path(&mut self, alloc: Global)
        ensures { self.new ≡ self.old }
    {
        if let Origin::Loop { path, .. } = &mut self.origin {
            path.unshare(alloc);
        }
    }

    /// Whether the fault precedes all that the origin answers for.
    pub fn stands_after(&self, by: &Fault) -> bool
        ensures { IsTrue result ↔ IsBefore by.now.at (start_of self.now.origin) }
    {
        stands_before(&by.at, &self.origin)
    }

    /// The origin that the task answers.
    pub fn origin(&self) -> &Origin
        ensures { result.now ≡ self.now.origin }
    {
        &self.origin
    }

    /// The give for one more child, whose key has the task's plan. Its memory is of the pool, where that has some.
    #[tactic(auto, using(crate::proofs::Tags::origins_append, crate::proofs::Tags::give_keeps))]
    pub fn give_for_child(
        &mut self,
        alloc: Global,
        child: &AnswerKey,
        pool: &mut JoinPool<Answer<K>>,
    ) -> Result<Give<Answer<K>>, Memory>
        requires { child.now.plan ≡ self.old.plan }
        ensures give { IfOk result (λ give. give ≡ give_of child.now self.old.joins.own) }
        ensures added { OnOk result (self.new ≡ links_with_child self.old child.now.origin) }
    {
        Ok(self.join.hand_in(alloc, child, pool)?)
    }

    /// How many children were begun.
    #[tactic(auto, using(crate::proofs::Tags::length_origins))]
    pub fn count(&self) -> u64
        ensures { result ≡ length self.now.children }
    {
        self.join.count()
    }

    /// Whether all children have answered.
    pub fn look(&mut self) -> Look
        ensures { LooksAtChildren self.old self.new result }
    {
        self.join.look()
    }

    /// The answer of a child, by its number: the first child has 0. It stays in its memory.
    #[tactic(auto, using(crate::proofs::Tags::origin_at, crate::proofs::Tags::plan_at))]
    #[inline(always)]
    pub fn take(&mut self, i: u64) -> Taken<Answer<K>>
        requires ready { self.old.ready ≡ true }
        requires left { slice_get self.old.taken i ≡ Some false }
        ensures plan { result.plan ≡ self.old.plan }
        ensures origin { slice_get self.old.children i ≡ Some result.origin }
        ensures taken { self.new ≡ record self.old { taken = slice_set self.old.taken i true } }
    {
        self.join.take_boxed(i)
    }

    /// The task's answer, and the give for it.
    #[inline(always)]
    pub fn answer(self, out: Out<K>, outcome: Outcome) -> (Answer<K>, Give<Answer<K>>)
        requires { IsAnswer self.plan self.origin out outcome }
        ensures answer { result.0 ≡ record { plan = self.plan; origin = self.origin; out = out; outcome = outcome } }
        ensures give { result.1 ≡ task_give self.plan self.origin self.joins }
    {
        let Links {
            plan,
            origin,
            give,
            ..
        } = self;
        (Answer::new(plan, origin, out, outcome), give)
    }
}
