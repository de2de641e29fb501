// What is seen of a running instance.
ghost use Rattle.std.specs.Prelude.{◌≡◌, IfOk, OnOk};
ghost use Rattle.strand_meaning.specs.Observation.{newest};
ghost use Rattle.strand_meaning.specs.Strands.{is_below};
ghost use Rattle.serial_runner.specs.Observed.{is_over, nothing_seen, with_observation, with_child};

use ped_path::{Ped, Pedigree};
use serial_meaning::{Fault, Origin, Out};
use std::alloc::Global;
use strand_family::path;
use strand_machine::{Memory, StrandProbe, Task};

// What was seen of an instance so far, by a probe for one pedigree.
#[derive(Drop)]
pub(crate) struct ObservedInstance {
    pub probe: StrandProbe,
    // What the strand with the pedigree did.
    pub events: Out,
    // The instance's own fault, wherever it came.
    pub fault: Option<Fault>,
    // The child on the way to the pedigree.
    pub child: Option<Origin>,
    // The fault of a child by which the instance ended, wherever it did.
    pub child_fault: Option<Fault>,
}

// Whether a pedigree is longer than this path and begins with it.
fn is_below(path: &Ped, at: &Pedigree) -> bool
    ensures { result ≡ is_below path.now at.now }
{
    path.len() < at.len() && at.begins_with(path)
}

// The later fault, if there is one.
fn newest(old: Option<Fault>, new: Option<Fault>) -> Option<Fault>
    ensures { result ≡ newest old new }
{
    match new {
        Some(fault) => Some(fault),
        None => old,
    }
}

impl ObservedInstance {
    // Nothing yet.
    pub fn new(probe: StrandProbe) -> ObservedInstance
        ensures { result ≡ nothing_seen probe }
    {
        ObservedInstance {
            probe,
            events: Out::new(),
            fault: None,
            child: None,
            child_fault: None,
        }
    }

    // Adds what was observed of the instance up to its next stop. The probe has all that it has seen so far.
    pub fn observe(
        self,
        probe: StrandProbe,
        events: Out,
        fault: Option<Fault>,
        child_fault: Option<Fault>,
    ) -> Result<ObservedInstance, Memory>
        ensures { IfOk result (λ observed. observed ≡ with_observation probe events fault child_fault self) }
    {
        let mut so_far = self.events;
        so_far.append(events)?;
        Ok(ObservedInstance {
            probe,
            events: so_far,
            fault: newest(self.fault, fault),
            child: self.child,
            child_fault: newest(self.child_fault, child_fault),
        })
    }

    // Adds a child that was begun.
    pub fn observe_child(
        &mut self,
        alloc: Global,
        child: &Task,
        at: &Pedigree,
    ) -> Result<(), Memory>
        ensures { OnOk result (self.new ≡ with_child at.now child.now.task.origin self.old) }
    {
        if self.child.is_none() && is_below(path(child.origin()), at) {
            self.child = Some(child.share_origin(alloc)?);
        }
        Ok(())
    }

    // Whether nothing that the instance does later matters for the pedigree: the child on the way there is known, or
    // the strand is over.
    pub fn is_over(&self) -> bool
        ensures { result ≡ is_over self.now }
    {
        self.child.is_some() || (self.probe.came && self.fault.is_none())
    }
}
