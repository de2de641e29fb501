// What remains of a task.
ghost use Rattle.std.specs.Prelude.{◌≡◌, ◌∷◌, ◌++◌, ◌<◌, ◌-◌, [], IfNone, IfOk, IfSome, length, pos, ◌+ℤ◌};
ghost use Rattle.dotmix.specs.Trails.{FitsGamma};
ghost use Rattle.serial_meaning.specs.declared.origin.Origin.{Origin};
ghost use Rattle.serial_meaning.specs.declared.value.Value.TheVariants.{Int};
ghost use Rattle.serial_meaning.specs.Laws.{IsOriginOf};
ghost use Rattle.serial_meaning.specs.Plan.{functions_of};
ghost use Rattle.strand_meaning.specs.Machine.{function_begun};
ghost use Rattle.strand_meaning.specs.Task.{begun_stage, begun_remaining, begins_last};
ghost use Rattle.strand_moves.specs.Moves.{IsTrailOf};
ghost use Rattle.strand_machine.specs.Made.{IsHalved};
ghost use Rattle.strand_machine.specs.Tasks.{stage_of, remaining_of, StandsAt, RemainsAt};
ghost use Rattle.strand_machine.specs.declared.remaining.Stage.TheVariants as stage;
ghost use Rattle.strand_machine.specs.declared.remaining.Remaining.TheVariants as remaining;

use crate::memory::Memory;
use dotmix::Trail;
use loop_range::IterRange;
use serial_meaning::{Fault, Origin, Outcome, Plan, Value};
use std::alloc::Global;
use std::mem;
use strand_family::iteration_args_in;
use strand_meaning::laws;
use strand_moves::{Instance, InstancePool};

// The state of an instance.
#[derive(Drop)]
pub(crate) enum Stage {
    // It can continue.
    Running(Instance),
    // It waits after a sync.
    AtSync(Instance),
    // It waits after a loop.
    AtLoop(Instance),
    // It has ended by a value.
    Returned(Value),
    // It has ended by a fault of its own.
    Faulted(Fault),
    // It has ended by the fault of a child for which it waited.
    ChildFaulted(Fault),
}

// The iterations of a loop that haven't begun, and the trail of the loop's strand.
#[derive(Drop)]
pub(crate) struct Left {
    pub range: IterRange,
    pub trail: Trail,
}

// What remains of a task.
#[derive(Drop)]
pub(crate) enum Remaining {
    // Iterations of a loop that haven't begun.
    Splits(Left),
    // An instance: the task's own, or the loop's last iteration.
    Runs(Stage),
    // Nothing of a loop whose last iteration gave this value. The flag says whether the wait at its end is over.
    Finished(Value, bool),
    // Nothing of a task that has ended or took a cut. This is its outcome.
    Ends(Outcome),
}

impl Remaining {
    /// A stand-in while what remains is taken out of a task's parts.
    pub fn nothing() -> Remaining {
        Remaining::Finished(Value::Int(0), true)
    }

    /// Moves the path from which further children get theirs to memory of its own, where there is some.
    pub fn unshare_path(&mut self, alloc: Global)
        ensures { self.new ≡ self.old }
    {
        match self {
            Remaining::Splits(left) => left.trail.path.unshare(alloc),
            Remaining::Runs(Stage::Running(instance)) => instance.unshare_path(alloc),
            _ => {}
        }
    }

    /// Takes out the lower half of a loop's iterations, where two or more are left, with a copy of the trail.
    #[inline(always)]
    pub fn take_half(&mut self) -> Result<Option<(IterRange, Trail)>, Memory>
        ensures some { IfOk result (λ half. IfSome half (λ h. IsHalved self.old self.new h.0 h.1)) }
        ensures none { IfOk result (λ half. IfNone half (self.new ≡ self.old)) }
    {
        let Remaining::Splits(left) = self else {
            return Ok(None);
        };
        let Some(halves) = left.range.split() else {
            return Ok(None);
        };
        let trail = left.trail.share()?;
        left.range = halves.1;
        Ok(Some((halves.0, trail)))
    }

    /// Takes out a loop's last iteration, where it alone is left.
    #[inline(always)]
    pub fn take_last(&mut self) -> Option<Left>
        ensures some { IfSome result (λ left. (self.old ≡ remaining.Splits left) × (left.range.hi - left.range.lo ≡ 1)) }
        ensures none { IfNone result (self.new ≡ self.old) }
    {
        match self {
            Remaining::Splits(left) if left.range.len() == 1 => {}
            _ => return None,
        }
        match mem::replace(self, Remaining::nothing()) {
            Remaining::Splits(left) => Some(left),
            _ => unreachable!(),
        }
    }

    /// Takes out an instance that can continue, where one remains.
    #[inline(always)]
    pub fn take_running(&mut self) -> Option<Instance>
        ensures some { IfSome result (λ i. self.old ≡ remaining.Runs (stage.Running i)) }
        ensures none { IfNone result (self.new ≡ self.old) }
    {
        if !matches!(self, Remaining::Runs(Stage::Running(_))) {
            return None;
        }
        match mem::replace(self, Remaining::nothing()) {
            Remaining::Runs(Stage::Running(instance)) => Some(instance),
            _ => unreachable!(),
        }
    }
}

// What remains of an origin that hasn't begun.
#[inline(always)]
pub(crate) fn begun_remaining(
    alloc: Global,
    plan: &Plan,
    origin: &Origin,
    trail: Trail,
    pool: &mut InstancePool,
) -> Result<Remaining, Memory>
    requires known { IsOriginOf plan.now origin.now }
    requires trail { IsTrailOf plan.now origin.now trail }
    ensures begun { IfOk result (λ remaining. remaining_of plan.now remaining ≡ begun_remaining plan.now origin.now) }
    ensures of_plan { IfOk result (RemainsAt plan.now origin.now) }
{
    laws::origins_fit();
    // Read for the proof: a plan has as many coefficients as its depth.
    let _depth = plan.limits.depth;
    Ok(match origin {
        Origin::Instance { function, args, .. } => {
            Remaining::Runs(begun_instance(alloc, plan, *function, args.as_slice(), trail, pool)?)
        }
        Origin::Loop { range, .. } => Remaining::Splits(Left {
            range: *range,
            trail,
        }),
    })
}

// What remains of a loop whose last iteration alone is left.
pub(crate) fn begun_last(
    alloc: Global,
    plan: &Plan,
    origin: &Origin,
    trail: Trail,
    pool: &mut InstancePool,
) -> Result<Remaining, Memory>
    requires known { IsOriginOf plan.now origin.now }
    requires trail { IsTrailOf plan.now origin.now trail }
    ensures begun { IfOk result (λ remaining. remaining_of plan.now remaining ≡ begins_last plan.now origin.now) }
    ensures of_plan { IfOk result (RemainsAt plan.now origin.now) }
{
    laws::origins_fit();
    // Read for the proof: a plan has as many coefficients as its depth.
    let _depth = plan.limits.depth;
    match origin {
        Origin::Instance { .. } => begun_remaining(alloc, plan, origin, trail, pool),
        Origin::Loop {
            function,
            rest,
            first,
            range,
            ..
        } => {
            let k = range.hi.saturating_sub(1);
            let trail = trail.child(alloc, &plan.gamma, k)?;
            if rest.as_slice().is_empty() {
                // most loops hand on the iteration's number alone, which needs no list
                let args = [Value::Int(first.wrapping_add_unsigned(k))];
                let stage = begun_instance(alloc, plan, *function, &args, trail, pool)?;
                return Ok(Remaining::Runs(stage));
            }
            let args = iteration_args_in(*first, rest.as_slice(), k, pool.values(alloc))?;
            let stage = begun_instance(alloc, plan, *function, args.as_slice(), trail, pool)?;
            pool.keep_values(args);
            Ok(Remaining::Runs(stage))
        }
    }
}

// An instance before its first move. Where there is no such function its value is 0.
#[inline(always)]
fn begun_instance(
    alloc: Global,
    plan: &Plan,
    function: u32,
    args: &[Value],
    trail: Trail,
    pool: &mut InstancePool,
) -> Result<Stage, Memory>
    requires fits { FitsGamma plan.now.gamma trail }
    requires within { length trail.path < plan.now.limits.depth }
    ensures begun { IfOk result (λ stage. stage_of plan.now stage ≡ begun_stage (function_begun plan.now function args.now)) }
    ensures stands { IfOk result (StandsAt plan.now trail.path) }
{
    if function as usize >= plan.functions().len() {
        return Ok(Stage::Returned(Value::Int(0)));
    }
    Ok(Stage::Running(Instance::new(alloc, plan, function, args, trail, pool)?))
}
