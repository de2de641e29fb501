ghost use Rattle.std.specs.Prelude.{◌≡◌, IfOk, OnOk};
ghost use Rattle.span_report.specs.Opens.{new_open_instance, after_child_end, is_path_below, after_event, iteration_on};

use ped_path::Ped;
use serial_meaning::{Event, Memory};
use std::alloc::Global;

// How an instance began.
#[derive(Clone, Copy, Debug, PartialEq, Eq)]
pub(crate) enum Begun {
    // By the program's start or a spawn.
    Spawned,
    // As an iteration of a loop.
    Iterated,
}

// An instance that has begun and not ended. All fields but its path are lengths of chains: of the longest that ends in such an
// event, 0 where there is none. What belongs to a child that is still open isn't counted yet.
#[derive(Drop)]
pub(crate) struct OpenInstance {
    pub path: Ped,
    pub begun: Begun,
    // Before what the instance does next, or before each iteration where it is in a loop.
    pub before: u64,
    // The pedigree of its current loop, from the loop's event to the instance's next one.
    pub looping: Option<Ped>,
    // In its current loop.
    pub looped: u64,
    // In the children that it spawned since its last sync.
    pub spawned: u64,
    // In the instance and all below it.
    pub within: u64,
}

impl OpenInstance {
    // An instance that has just begun, with a chain of this length before its first event.
    pub(crate) fn begin(path: Ped, how: Begun, before: u64) -> OpenInstance
        ensures { result ≡ new_open_instance path how before }
    {
        OpenInstance {
            path,
            begun: how,
            before,
            looping: None,
            looped: 0,
            spawned: 0,
            within: 0,
        }
    }

    // Whether a path is that of this instance, also in its open scopes, or of one below it.
    pub(crate) fn leads_to(&self, path: &Ped) -> bool
        ensures { result ≡ is_path_below self.now path.now }
    {
        path.begins_with(&self.path)
    }

    // Where the instance is in a loop: the path of the iteration that this path belongs to. A path in an open scope belongs to
    // none.
    pub(crate) fn iteration_on(&self, alloc: Global, path: &Ped) -> Result<Option<Ped>, Memory>
        ensures { IfOk result (λ found. found ≡ iteration_on self.now.looping path.now) }
    {
        let Some(by) = &self.looping else {
            return Ok(None);
        };
        if !path.begins_with(by) {
            return Ok(None);
        }
        match path.rank_at(by.len()) {
            Some(number) => Ok(Some(by.child(alloc, number)?)),
            None => Ok(None),
        }
    }

    // Adds an event of this instance. It is `Memory` where a chain of 2^64 - 1 events precedes it.
    pub(crate) fn add_event(&mut self, alloc: Global, event: &Event) -> Result<(), Memory>
        ensures { OnOk result (self.new ≡ after_event self.old event.now) }
    {
        let before = self.before.max(self.looped);
        let length = before.checked_add(1).ok_or(Memory)?;
        self.before = length;
        self.looping = None;
        self.looped = 0;
        self.within = self.within.max(length);
        match event {
            Event::Print(_, _) | Event::Draw(_, _) | Event::New(_) | Event::Spawn(_) => {}
            // What the sync waits for precedes what follows, but not the sync itself.
            Event::Sync(_) => {
                self.before = length.max(self.spawned);
                self.spawned = 0;
            }
            Event::Loop(at) => self.looping = Some(at.path.child(alloc, at.rank)?),
        }
        Ok(())
    }

    // Adds what a child did that has ended.
    pub(crate) fn take_in(&mut self, child: &OpenInstance)
        ensures { self.new ≡ after_child_end self.old child.now.begun child.now.within }
    {
        match child.begun {
            Begun::Spawned => self.spawned = self.spawned.max(child.within),
            Begun::Iterated => self.looped = self.looped.max(child.within),
        }
        self.within = self.within.max(child.within);
    }
}
