ghost use Rattle.std.specs.Prelude.{◌≡◌, Contains};
ghost use Rattle.std.specs.Arc.{arc_value};
ghost use Rattle.serial_meaning.specs.Open.{faults};

use crate::event::Fault;
use crate::plan::Plan;
use std::marker::Model;
use std::sync::Arc;

/// A fault that is known to be one of the plan's, so that tasks after it may be cut. No value of this type holds any
/// other fault. Several threads may read it.
#[derive(Drop)]
pub struct Known {
    pub plan: Arc<Plan>,
    pub fault: Fault,
}

impl Model for Known {
    ghost use Rattle.std.specs.Prelude.{Contains};
    ghost use Rattle.std.specs.Arc.{arc_value};
    ghost use Rattle.std.specs.Coded.{codes};
    ghost use Rattle.serial_meaning.specs.contracts.plan.Plan as plan_type;
    ghost use Rattle.serial_meaning.specs.Answer.{KnownView};
    ghost use Rattle.serial_meaning.specs.Open.{faults};

    ghost Value = { KnownView };

    ghost coded = { Prim.hlevel (codes, plan_type.the_row.coded) };

    ghost view = { λ k. record { plan = arc_value k.plan; fault = k.fault } };

    ghost invariant = { λ k. Contains (faults (arc_value k.plan)) k.fault };
}

impl Known {
    /// Pairs a plan with one of its faults, by which a task of that plan ended. It takes no memory.
    pub fn new(plan: Arc<Plan>, fault: Fault) -> Known
        requires { Contains (faults (arc_value plan)) fault }
        ensures { result ≡ record { plan = arc_value plan; fault = fault } }
    {
        Known { plan, fault }
    }
}
