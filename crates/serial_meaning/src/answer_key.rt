use crate::answer::Answer;
use crate::keep::Keep;
use crate::origin::Origin;
use crate::plan::Plan;
use contract_views::Tagged;
use std::marker::Model;
use std::sync::Arc;

/// What an answer is the answer to: an origin of a plan. A parent begins its children by these keys, and each answer
/// comes back with its own. Contracts see the plan and the origin, and not where the plan is in memory.
#[derive(Drop)]
pub struct AnswerKey {
    pub plan: Arc<Plan>,
    pub origin: Origin,
}

impl Model for AnswerKey {
    ghost use Rattle.std.specs.Arc.{arc_value};
    ghost use Rattle.std.specs.Coded.{codes};
    ghost use Rattle.serial_meaning.specs.contracts.plan.Plan as plan_type;
    ghost use Rattle.serial_meaning.specs.Answer.{AnswerTag};

    ghost Value = { AnswerTag };

    ghost coded = { Prim.hlevel (codes, plan_type.the_row.coded) };

    ghost view = { λ k. record { plan = arc_value k.plan; origin = k.origin } };
}

impl<K: Keep> Tagged for Answer<K> {
    type Key = AnswerKey;

    ghost tag = { λ a. record { plan = a.plan; origin = a.origin } };
}
