ghost use Rattle.std.specs.Prelude.{◌≡◌};
ghost use Rattle.std.specs.Arc.{arc_value};

use crate::event::Fault;
use crate::keep::{All, Keep};
use crate::origin::Origin;
use crate::out::Out;
use crate::plan::Plan;
use crate::value::Value;
use contract_views::Items;
use std::marker::Model;
use std::sync::Arc;

/// How an origin ended.
#[derive(Drop)]
pub enum Outcome {
    /// The value of an instance.
    Value(Value),
    /// The values of a loop's iterations, in order.
    Values(Items<Value>),
    Fault(Fault),
    /// The origin wasn't run to its end, because a fault of the plan precedes the first pedigree that it answers for:
    /// an instance's path, or the path of a loop's first iteration. The serial elision ends at that fault and never
    /// gets to this origin.
    Cut { by: Fault },
}

/// What an origin gave under a plan. It is the serial meaning of the origin, or a cut: no value of this type has any
/// other events or outcome. The events of a cut mean nothing.
#[derive(Drop)]
pub struct Answer<K: Keep = All> {
    pub plan: Arc<Plan>,
    pub origin: Origin,
    pub out: Out<K>,
    pub outcome: Outcome,
}

impl<K: Keep> Model for Answer<K> {
    ghost use Rattle.std.specs.Arc.{arc_value};
    ghost use Rattle.std.specs.Coded.{codes};
    ghost use Rattle.serial_meaning.specs.contracts.plan.Plan as plan_type;
    ghost use Rattle.serial_meaning.specs.Answer.{AnswerView, IsAnswer};

    ghost Value = { AnswerView };

    ghost coded = { Prim.hlevel (codes, plan_type.the_row.coded) };

    ghost view = { λ a. record { plan = arc_value a.plan; origin = a.origin; out = a.out; outcome = a.outcome } };

    ghost invariant = { λ a. IsAnswer (arc_value a.plan) a.origin a.out a.outcome };
}

impl<K: Keep> Answer<K> {
    ghost use Rattle.serial_meaning.specs.Answer.{IsAnswer};

    pub fn new(plan: Arc<Plan>, origin: Origin, out: Out<K>, outcome: Outcome) -> Answer<K>
        requires { IsAnswer (arc_value plan) origin out outcome }
        ensures { result ≡ record { plan = arc_value plan; origin = origin; out = out; outcome = outcome } }
    {
        Answer {
            plan,
            origin,
            out,
            outcome,
        }
    }
}

/// What one strand did, with the fault of its own by which its instance ended there, if it did.
#[derive(Drop)]
pub struct Strand {
    pub events: Out,
    pub fault: Option<Fault>,
}
