// What the answers of children change in an instance.

ghost use Rattle.std.specs.Prelude.{◌≡◌, [], ◌∷◌, Some, Ok, Err};
ghost use Rattle.std.specs.Option.{option_copied};
ghost use Rattle.serial_meaning.specs.Open.{least};
ghost use Rattle.serial_meaning.specs.Plan.{PlanView};
ghost use Rattle.strand_meaning.specs.Found.{FindsAt, FindsInnermost, functions_in};
ghost use Rattle.strand_meaning.specs.Task.{frame_with_answer, changed, with_answer, with_values};
ghost use Rattle.strand_values.specs.Environments.{with_variables};
ghost use Rattle.strand_moves.specs.Found.{FindsTarget};
ghost use Rattle.strand_moves.specs.InstanceParts.{IsInstance, machine_of, path_of};

use crate::frame::Frame;
use crate::instance_parts::InstanceParts;
use serial_meaning::{Fault, Plan, Value};
use std::alloc::Global;
use strand_values::Target;

impl InstanceParts {
    // Takes the fault of a child of the frame with `height` others below it.
    pub fn receive_fault(&mut self, height: usize, fault: Fault)
        ensures machine { (plan : PlanView) (target : _) → machine_of plan self.new ≡ changed height (frame_with_answer target (Err fault)) (machine_of plan self.old) }
        ensures path { path_of self.new ≡ path_of self.old }
        ensures sound { (plan : PlanView) → IsInstance plan self.old → IsInstance plan self.new }
    {
        if height == self.below.len() {
            take_least(&mut self.top.faulted, fault);
        } else if height < self.below.len() {
            take_least(&mut self.below[height].faulted, fault);
        }
    }

    // Takes the value of a child of the frame with `height` others below it. Where that frame has no such variable,
    // nothing changes.
    pub fn receive_value(
        &mut self,
        plan: &Plan,
        height: usize,
        target: Option<&Target>,
        value: Value,
    )
        requires sound { IsInstance plan.now self.old }
        requires found { FindsAt plan.now height (option_copied target) (functions_in (machine_of plan.now self.old)) }
        ensures machine { (p : PlanView) → machine_of p self.new ≡ changed height (frame_with_answer (option_copied target.entry) (Ok (value ∷ []))) (machine_of p self.old) }
        ensures path { path_of self.new ≡ path_of self.old }
        ensures sound { (p : PlanView) → IsInstance p self.old → IsInstance p self.new }
    {
        if height == self.below.len() {
            set_answer(plan.slots(), &mut self.top, target, value);
        } else if height < self.below.len() {
            set_answer(plan.slots(), &mut self.below[height], target, value);
        }
    }

    // Takes the values of a loop of the innermost frame.
    pub fn receive_values(
        &mut self,
        alloc: Global,
        plan: &Plan,
        target: Option<&Target>,
        values: &[Value],
    )
        requires sound { IsInstance plan.now self.old }
        requires found { FindsInnermost plan.now (option_copied target) (functions_in (machine_of plan.now self.old)) }
        ensures machine { (p : PlanView) → machine_of p self.new ≡ with_values (option_copied target.entry) values.now (machine_of p self.old) }
        ensures path { path_of self.new ≡ path_of self.old }
        ensures sound { (p : PlanView) → IsInstance p self.old → IsInstance p self.new }
    {
        self.top.env.fill(alloc, plan.slots(), target, values);
    }

    // The least fault among the answers that the innermost frame took since its last sync.
    pub fn childs_fault(&self) -> Option<&Fault>
        ensures { (plan : PlanView) → option_copied result ≡ (machine_of plan self.now).top.faulted }
    {
        self.top.faulted.as_ref()
    }
}

// Assigns a value to a variable that is there.
#[inline(always)]
fn set_answer(slots: &[u16], frame: &mut Frame, target: Option<&Target>, value: Value)
    requires { FindsTarget slots.now frame.old.env (option_copied target) }
    ensures { frame.new ≡ record frame.old { env = with_variables frame.old.env (with_answer (option_copied target.entry) value frame.old.env.variables) } }
{
    if let Some(x) = target {
        frame.env.replace_scalar(slots, x, value);
    }
}

// Keeps the lesser of two faults.
fn take_least(faulted: &mut Option<Fault>, fault: Fault)
    ensures { faulted.new ≡ Some (least faulted.old fault) }
{
    match faulted {
        Some(known) if !fault.at.before(&known.at) => {}
        _ => *faulted = Some(fault),
    }
}
