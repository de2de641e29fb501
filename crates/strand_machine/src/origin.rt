// Origins: copies of them, and their trails.
ghost use Rattle.std.specs.Prelude.{◌≡◌, IfOk};
ghost use Rattle.serial_meaning.specs.Laws.{IsOriginOf};
ghost use Rattle.strand_moves.specs.Moves.{IsTrailOf};

use crate::memory::Memory;
use dotmix::Trail;
use serial_meaning::{Origin, Plan};
use std::alloc::Global;
use strand_family::path;
use strand_meaning::laws;

/// The same origin. Its path shares its memory.
#[inline(always)]
pub fn share_origin(alloc: Global, origin: &Origin) -> Result<Origin, Memory>
    ensures { IfOk result (λ shared. shared ≡ origin.now) }
{
    Ok(strand_family::share_origin(alloc, origin)?)
}

// The trail of an origin's path. It adds up the path's terms.
pub(crate) fn trail_of(plan: &Plan, origin: &Origin) -> Result<Trail, Memory>
    requires { IsOriginOf plan.now origin.now }
    ensures { IfOk result (IsTrailOf plan.now origin.now) }
{
    laws::origins_fit();
    // Read for the proof: a plan has as many coefficients as its depth.
    let _depth = plan.limits.depth;
    Ok(Trail::of(&plan.gamma, path(origin).share()?))
}
