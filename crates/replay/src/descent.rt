// The walk down to a strand.

ghost use Rattle.std.specs.Prelude.{◌≡◌, IfOk, IfErr};
ghost use Rattle.std.specs.Arc.{arc_value};
ghost use Rattle.serial_meaning.specs.Eval.{elision};
ghost use Rattle.strand_meaning.specs.StrandLaws.{IsWholeUpTo, strand_in};
ghost use Rattle.strand_meaning.specs.Strands.{entered_child, strand_at};
ghost use Rattle.replay.specs.Descents.{IsOnWayTo, LeadsDown};
ghost use Rattle.replay.specs.Replays.{IsReplayOf};

use crate::error::ReplayError;
use loop_range::iteration_path;
use ped_path::Pedigree;
use serial_meaning::{Origin, Plan, Strand};
use serial_runner::{Node, walk_node};
use std::alloc::Global;
use std::sync::Arc;
use strand_family::iteration_args;
use strand_meaning::laws;

// What comes after an instance on the way to the strand.
#[derive(Drop)]
pub(crate) enum Way {
    // The strand, which is one of this instance's own.
    Found(Strand),
    // The next instance down. The strand, if there is one, is its own or below it.
    Down(Origin),
}

// The instance to go on with at a child: a spawned child itself, of a loop the iteration that the pedigree names next.
// `None` where the loop has no such iteration, or the pedigree ends with its number.
fn enter(alloc: Global, child: Origin, at: &Pedigree) -> Result<Option<Origin>, ReplayError>
    ensures ok { IfOk result (λ next. next ≡ entered_child at.now child) }
    ensures err { IfErr result (λ e. e ≡ ReplayError.Memory) }
{
    let Origin::Loop {
        function,
        rest,
        first,
        path,
        range,
    } = child
    else {
        return Ok(Some(child));
    };
    let Some(k) = at.rank_at(path.len()) else {
        return Ok(None);
    };
    if !(k < range.len() && path.len() + 1 < at.len()) {
        return Ok(None);
    }
    let args = iteration_args(alloc, first, rest.as_slice(), k)?;
    let path = iteration_path(&path, alloc, k)?;
    Ok(Some(Origin::Instance {
        function,
        args,
        path,
    }))
}

// One step of the walk: from an instance to the strand, to the next instance down, or to why there is no strand.
pub(crate) fn descend(
    alloc: Global,
    plan: &Arc<Plan>,
    origin: Origin,
    at: &Pedigree,
) -> Result<Way, ReplayError>
    requires { IsOnWayTo (arc_value plan.now) at.now origin }
    ensures { LeadsDown (arc_value plan.now) origin at.now result }
{
    let Node {
        strand,
        child,
        child_fault,
    } = walk_node(alloc, plan, origin, at)?;
    if let Some(child) = child {
        drop(strand);
        drop(child_fault);
        let Some(next) = enter(alloc, child, at)? else {
            return Err(ReplayError::NoStrand);
        };
        return Ok(Way::Down(next));
    }
    if let Some(fault) = child_fault {
        drop(strand);
        return Err(ReplayError::Blocked(fault));
    }
    match strand {
        Some(strand) => Ok(Way::Found(strand)),
        None => Err(ReplayError::NoStrand),
    }
}

/// Replays one strand, also one that the serial elision doesn't reach: what it did, and the fault of its own by which
/// its instance ended there, if it did.
///
/// Each instance on the way down is run once, with those of its children that come before the strand. Errors:
/// `NoStrand` where no strand has the pedigree, `Blocked` where a child's fault ends the way down before it, `Memory`
/// where memory runs out.
pub fn replay(alloc: Global, plan: &Arc<Plan>, at: &Pedigree) -> Result<Strand, ReplayError>
    ensures strand { IsReplayOf (strand_at (arc_value plan.now) at.now) result }

    // Where no fault ends the serial elision before the pedigree, the strand is as in the elision.
    ensures elision { IsWholeUpTo at.now (elision (arc_value plan.now)).ending → IfOk result (λ strand. strand ≡ strand_in at.now (elision (arc_value plan.now))) }
{
    laws::strands_are_the_elisions();
    // For the proof: a pedigree has a last rank.
    let _rank = at.rank;
    let mut origin = plan.main_origin(alloc)?;
    loop {
        match descend(alloc, plan, origin, at)? {
            Way::Found(strand) => return Ok(strand),
            Way::Down(next) => origin = next,
        }
    }
}
