// Where an instance stood when a fault of its own ended it.

ghost use Rattle.std.specs.Prelude.{◌≡◌};
ghost use Rattle.std.specs.Arc.{arc_value};
ghost use Rattle.replay.specs.FaultPlaces.{AnswersFaultPlace, has_fault};

use crate::descent::{Way, descend};
use crate::error::ReplayError;
use ped_path::Pedigree;
use serial_meaning::{Plan, Strand};
use serial_runner::{PlacedFault, meet_fault};
use std::alloc::Global;
use std::sync::Arc;
use strand_family::share_origin;

// Whether a strand ended by a fault of its own.
fn has_fault(strand: &Strand) -> bool
    ensures { result ≡ has_fault strand.now.fault }
{
    strand.fault.is_some()
}

/// The fault by which an instance ended itself in the strand of this pedigree, and where in its function it stood then.
/// `None` where the strand has no such fault. The errors are those of `replay`.
///
/// It walks down to the strand as `replay` does, and then runs the strand's instance once more, with the children for
/// which it waits.
pub fn fault_place(
    alloc: Global,
    plan: &Arc<Plan>,
    at: &Pedigree,
) -> Result<Option<PlacedFault>, ReplayError>
    ensures { AnswersFaultPlace (arc_value plan.now) at.now result }
{
    // For the proof: a pedigree has a last rank.
    let _rank = at.rank;
    let mut origin = plan.main_origin(alloc)?;
    loop {
        let here = share_origin(alloc, &origin)?;
        match descend(alloc, plan, origin, at)? {
            Way::Found(strand) => {
                if has_fault(&strand) {
                    return Ok(meet_fault(alloc, plan, here)?);
                }
                return Ok(None);
            }
            Way::Down(next) => origin = next,
        }
    }
}
