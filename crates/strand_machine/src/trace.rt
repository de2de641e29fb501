ghost use Rattle.std.specs.Prelude.{◌≡◌, ◌<◌, ◌^◌, ◌∷◌, ◌++◌, [], None, IfOk, OnOk, IsTrue, ◌↔◌, length};
ghost use Rattle.serial_meaning.specs.EventKinds.{event_at};
ghost use Rattle.strand_meaning.specs.Trace.{emit, add_child, no_trace};

use crate::destination::Destination;
use crate::memory::Memory;
use contract_views::KnownList;
use ped_path::Ped;
use serial_meaning::{Event, EventKind, Fault, Keep, Origin, Out, Outcome};
use std::alloc::Global;
use std::marker::Model;
use std::mem;
use strand_moves::EventSink;

// Where a child's value goes, and the task's own events after it, up to the next child.
#[derive(Drop)]
pub(crate) struct AfterChild<K: Keep> {
    pub destination: Destination,
    pub events: Out<K>,
}

// What a task gave so far, in the order of the serial elision: the events before the first child whose answer isn't taken, the
// fault that ends these, if there is one, and then the children with the events after each.
#[derive(Drop)]
pub(crate) struct Trace<K: Keep> {
    pub prefix: Out<K>,
    pub fault: Option<Fault>,
    pub awaited: KnownList<Origin>,
    pub after: Vec<AfterChild<K>>,
}

impl<K: Keep> Model for Trace<K> {
    ghost use Rattle.std.specs.Prelude.{◌≡◌, length};
    ghost use Rattle.strand_meaning.specs.Trace.{Trace as TraceView};
    ghost use Rattle.strand_machine.specs.AwaitedChildren.{awaited_children};

    ghost Value = { TraceView };

    ghost view = { λ p. record { prefix = p.prefix; fault = p.fault; unmerged = awaited_children p.awaited.items p.after.items } };

    ghost invariant = { λ p. length p.awaited.items ≡ length p.after.items };
}

impl<K: Keep> Trace<K> {
    ghost use Rattle.strand_machine.specs.AwaitedChildren.{IsParted, awaited, destination_of};
    ghost use Rattle.strand_machine.specs.Tasks.{ended_by};

    // Nothing yet. The list of its children will be this one.
    pub fn new(room: Vec<AfterChild<K>>) -> Trace<K>
        requires { room.items ≡ [] }
        ensures { result ≡ no_trace }
    {
        Trace {
            prefix: Out::none(),
            fault: None,
            awaited: KnownList::none(),
            after: room,
        }
    }

    // How many children's answers aren't taken.
    pub fn awaited_count(&self) -> u64
        ensures { result ≡ length (awaited self.now.unmerged) }
    {
        self.after.len() as u64
    }

    // One more event of the task's own.
    #[inline(always)]
    pub fn emit(&mut self, alloc: Global, event: Event) -> Result<(), Memory>
        ensures { OnOk result (self.new ≡ emit event self.old) }
    {
        match self.after.last_mut() {
            Some(last) => last.events.push(alloc, event)?,
            None => {
                if self.fault.is_none() {
                    self.prefix.push(alloc, event)?;
                } else {
                    drop(event);
                }
            }
        }
        Ok(())
    }

    // One more event of the task's own: of this kind, with this path and rank as its pedigree. It is made only where
    // it is kept.
    #[inline(always)]
    pub fn emit_at(
        &mut self,
        alloc: Global,
        path: &Ped,
        rank: u64,
        kind: EventKind,
    ) -> Result<(), Memory>
        requires { rank < 2 ^ 32 }
        ensures { OnOk result (self.new ≡ emit (event_at (path.now ++ rank ∷ []) kind) self.old) }
    {
        match self.after.last_mut() {
            Some(last) => last.events.push_at(alloc, path, rank, kind)?,
            None => {
                if self.fault.is_none() {
                    self.prefix.push_at(alloc, path, rank, kind)?;
                }
            }
        }
        Ok(())
    }

    // One more child.
    #[tactic(auto, using(crate::proofs::Moves::Starts::parts_more))]
    pub fn add_child(&mut self, child: &Origin, destination: Destination) -> Result<(), Memory>
        ensures { OnOk result (self.new ≡ add_child child.now (destination_of destination) self.old) }
    {
        let room = if self.after.is_empty() {
            // most tasks begin one or two children before they wait, and a list would begin with room for four
            self.after.try_reserve_exact(2)
        } else {
            self.after.try_reserve(1)
        };
        match room {
            Ok(()) => {}
            Err(error) => {
                drop(destination);
                return Err(error.into());
            }
        }
        self.awaited = mem::replace(&mut self.awaited, KnownList::none()).with(child);
        self.after.push_reserved(AfterChild {
            destination,
            events: Out::none(),
        });
        Ok(())
    }

    // The outcome of a task with this trace: the fault in it, or else this one.
    pub fn end(&mut self, outcome: Outcome) -> Outcome
        ensures ended { result ≡ ended_by self.old.fault outcome }
        ensures prefix { self.new.prefix ≡ self.old.prefix }
    {
        match self.fault.take() {
            None => outcome,
            Some(fault) => {
                drop(outcome);
                Outcome::Fault(fault)
            }
        }
    }

    // Whether no answer is awaited.
    pub fn awaits_none(&self) -> bool
        ensures { IsTrue result ↔ (self.now.unmerged ≡ []) }
    {
        self.after.is_empty()
    }

    // Takes the children out, with the events after each, and leaves this list for further ones.
    #[inline(always)]
    pub fn take_children(&mut self, room: Vec<AfterChild<K>>) -> Vec<AfterChild<K>>
        requires { room.items ≡ [] }
        ensures parted { IsParted self.old self.old.prefix self.old.fault result.items }
        ensures rest { self.new ≡ record self.old { unmerged = [] } }
    {
        self.awaited = KnownList::none();
        mem::replace(&mut self.after, room)
    }

    // Takes the fault out, if there is one.
    #[inline(always)]
    pub fn take_fault(&mut self) -> Option<Fault>
        ensures fault { result ≡ self.old.fault }
        ensures rest { self.new ≡ record self.old { fault = None } }
    {
        self.fault.take()
    }

    // The events before the first child, and the list of the children.
    #[inline(always)]
    pub fn into_prefix(self) -> (Out<K>, Vec<AfterChild<K>>)
        ensures { result.0 ≡ self.prefix }
    {
        let Trace { prefix, after, .. } = self;
        (prefix, after)
    }

    // The events before the first child, and the fault that ends them, if there is one.
    #[inline(always)]
    pub fn prefix(self) -> (Out<K>, Option<Fault>)
        ensures prefix { result.0 ≡ self.prefix }
        ensures fault { result.1 ≡ self.fault }
    {
        let Trace { prefix, fault, .. } = self;
        (prefix, fault)
    }
}

impl<K: Keep> EventSink for Trace<K> {
    ghost after = { emit };

    #[inline(always)]
    fn emit(&mut self, alloc: Global, event: Event) -> Result<(), strand_moves::Memory> {
        match self.emit(alloc, event) {
            Ok(()) => Ok(()),
            Err(_) => Err(strand_moves::Memory),
        }
    }

    #[inline(always)]
    fn emit_at(
        &mut self,
        alloc: Global,
        path: &Ped,
        rank: u64,
        kind: EventKind,
    ) -> Result<(), strand_moves::Memory> {
        match self.emit_at(alloc, path, rank, kind) {
            Ok(()) => Ok(()),
            Err(_) => Err(strand_moves::Memory),
        }
    }
}
