ghost use Rattle.std.specs.Prelude.{◌≡◌, IfOk, OnOk, reverse};
ghost use Rattle.span_report.specs.Series.{pedigree_of};
ghost use Rattle.span_report.specs.Opens.{after_child_end};
ghost use Rattle.span_report.specs.Walks.{after_ends, opened_to, closed_to, open_instances, path_of, pushed, main_alone, walked};

use crate::instance::{Begun, OpenInstance};
use ped_path::{Ped, Pedigree};
use serial_meaning::{Event, Memory};
use std::alloc::Global;
use std::mem;

// A walk along a run's events. It keeps only the open instances: the one that the last event belongs to, or that it spawned, and its
// ancestors.
#[derive(Drop)]
pub(crate) struct Walk {
    top: OpenInstance,
    // From main's on.
    below: Vec<OpenInstance>,
}

impl Walk {
    pub(crate) fn new(alloc: Global) -> Result<Walk, Memory>
        ensures { IfOk result (λ walk. open_instances walk ≡ main_alone) }
    {
        Ok(Walk {
            top: OpenInstance::begin(Ped::root(alloc)?, Begun::Spawned, 0),
            below: Vec::new(alloc),
        })
    }

    // Moves on by the run's next event.
    pub(crate) fn add_event(&mut self, alloc: Global, event: &Event) -> Result<(), Memory>
        ensures { OnOk result (open_instances self.new ≡ walked (open_instances self.old) event.now) }
    {
        let path = &pedigree_of(event).path;
        self.leave(path);
        self.enter(alloc, path)?;
        self.top.add_event(alloc, event)?;
        if let Event::Spawn(at) = event {
            let path = at.path.child(alloc, at.rank)?;
            let child = OpenInstance::begin(path, Begun::Spawned, self.top.before);
            self.push(child)?;
        }
        Ok(())
    }

    // Ends the instances that don't lead to this path.
    fn leave(&mut self, path: &Ped)
        ensures { open_instances self.new ≡ closed_to path.now self.old.top (reverse self.old.below.items) }
    {
        while !self.top.leads_to(path) {
            match self.below.pop() {
                Some(parent) => self.end_in(parent),
                None => return,
            }
        }
    }

    // Moves to the instance of this path: the current one, or the next iteration of its current loop.
    fn enter(&mut self, alloc: Global, path: &Ped) -> Result<(), Memory>
        ensures { OnOk result (open_instances self.new ≡ opened_to path.now (open_instances self.old)) }
    {
        if let Some(iteration) = self.top.iteration_on(alloc, path)? {
            let child = OpenInstance::begin(iteration, Begun::Iterated, self.top.before);
            self.push(child)?;
        }
        Ok(())
    }

    // Ends the current instance, whose parent this is.
    fn end_in(&mut self, parent: OpenInstance)
        ensures top { self.new.top ≡ after_child_end parent self.old.top.begun self.old.top.within }
        ensures below { self.new.below ≡ self.old.below }
    {
        let child = mem::replace(&mut self.top, parent);
        self.top.take_in(&child);
    }

    fn push(&mut self, child: OpenInstance) -> Result<(), Memory>
        ensures { OnOk result (open_instances self.new ≡ pushed (open_instances self.old) child) }
    {
        let parent = mem::replace(&mut self.top, child);
        self.below.push(parent)?;
        Ok(())
    }

    // Ends all instances, and returns the length of the longest chain.
    pub(crate) fn longest(mut self) -> u64
        ensures { result ≡ (after_ends self.top (reverse self.below.items)).within }
    {
        while let Some(parent) = self.below.pop() {
            self.end_in(parent);
        }
        self.top.within
    }
}

fn pedigree_of(event: &Event) -> &Pedigree
    ensures { result.now ≡ pedigree_of event.now }
{
    match event {
        Event::Print(at, _)
        | Event::Draw(at, _)
        | Event::New(at)
        | Event::Spawn(at)
        | Event::Sync(at)
        | Event::Loop(at) => at,
    }
}
