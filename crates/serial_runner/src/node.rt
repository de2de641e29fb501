// A node of the open tree on the way down to a strand.
ghost use Rattle.std.specs.Prelude.{◌≡◌, if◌then◌else◌, Some, None, IfOk};
ghost use Rattle.std.specs.Arc.{arc_value};
ghost use Rattle.serial_meaning.specs.Eval.{path_of};
ghost use Rattle.serial_meaning.specs.Laws.{IsOriginOf};
ghost use Rattle.strand_meaning.specs.Observation.{IsInstanceOrigin};
ghost use Rattle.serial_runner.specs.Nodes.{IsBelow, fault_at, node_seen, node_toward};

use crate::observed::ObservedInstance;
use crate::walk::observe_instance;
use ped_path::Pedigree;
use serial_meaning::{Fault, Origin, Out, Plan, Strand};
use std::alloc::Global;
use std::sync::Arc;
use strand_machine::Memory;

/// What an instance shows on the way down to a pedigree.
#[derive(Drop)]
pub struct Node {
    /// The strand of the pedigree, where no child is on the way there: exactly where the instance had it.
    pub strand: Option<Strand>,
    /// The child on the way: an instance or a whole loop whose path is a proper prefix of the pedigree.
    pub child: Option<Origin>,
    /// The fault of a child by which the instance ended before the pedigree, where no child is on the way there.
    pub child_fault: Option<Fault>,
}

// The fault, where it came in the strand with this pedigree.
fn fault_at(fault: Option<Fault>, at: &Pedigree) -> Option<Fault>
    ensures { result ≡ fault_at at.now fault }
{
    let fault = fault?;
    if fault.at.same(at) { Some(fault) } else { None }
}

// The strand with these events and this fault, if the instance came to it.
fn strand_if(came: bool, events: Out, fault: Option<Fault>) -> Option<Strand>
    ensures { result ≡ (if came then Some (record { events = events; fault = fault }) else None) }
{
    if came {
        Some(Strand { events, fault })
    } else {
        None
    }
}

// A node, from what was seen of its instance.
fn node_seen(observed: ObservedInstance, at: &Pedigree) -> Node
    ensures { result ≡ node_seen at.now observed }
{
    let ObservedInstance {
        probe,
        events,
        fault,
        child,
        child_fault,
    } = observed;
    if child.is_some() {
        return Node {
            strand: None,
            child,
            child_fault: None,
        };
    }
    let came = probe.came || (probe.is_here() && child_fault.is_none());
    Node {
        strand: strand_if(came, events, fault_at(fault, at)),
        child: None,
        child_fault: if probe.past { child_fault } else { None },
    }
}

/// What an instance of the plan shows on the way down to a pedigree that is longer than its path and begins with it.
///
/// It runs the instance up to the first stop at which a child on the way is known or the strand is over, since nothing that the instance
/// does later counts. Where it waits before that, the children for which it waits are run.
pub fn walk_node(
    alloc: Global,
    plan: &Arc<Plan>,
    origin: Origin,
    at: &Pedigree,
) -> Result<Node, Memory>
    requires known { IsOriginOf (arc_value plan.now) origin }
    requires instance { IsInstanceOrigin origin }
    requires below { IsBelow (path_of origin) at.now }
    ensures { IfOk result (λ node. node ≡ node_toward (arc_value plan.now) origin at.now) }
{
    let observed = observe_instance(alloc, plan, origin, at)?;
    Ok(node_seen(observed, at))
}
