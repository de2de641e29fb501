ghost use Rattle.std.specs.Prelude.{◌≡◌, IfOk};

use crate::memory::Memory;
use crate::value::Value;
use ped_path::Pedigree;

/// What a strand did, with its pedigree at that moment.
#[derive(Drop)]
pub enum Event {
    Print(Pedigree, Value),
    /// A random number and the pedigree that it is DotMix of.
    Draw(Pedigree, u64),
    /// An object, whose id is this pedigree.
    New(Pedigree),
    /// A child was spawned. Its instance has this pedigree as its path.
    Spawn(Pedigree),
    /// A sync, written or implied by a `return` or a scope's end.
    Sync(Pedigree),
    /// A parallel loop began. Its iterations have this pedigree and their number as their paths.
    Loop(Pedigree),
}

/// An event that isn't a print, without its pedigree: enough to make the event where it is kept.
#[derive(Clone, Copy, Debug, PartialEq, Eq)]
pub enum EventKind {
    /// A random number.
    Draw(u64),
    New,
    Spawn,
    Sync,
    Loop,
}

impl EventKind {
    ghost use Rattle.serial_meaning.specs.EventKinds.{event_at};

    /// The event of this kind at a pedigree.
    pub fn at(self, pedigree: Pedigree) -> Event
        ensures { result ≡ event_at pedigree self }
    {
        match self {
            EventKind::Draw(word) => Event::Draw(pedigree, word),
            EventKind::New => Event::New(pedigree),
            EventKind::Spawn => Event::Spawn(pedigree),
            EventKind::Sync => Event::Sync(pedigree),
            EventKind::Loop => Event::Loop(pedigree),
        }
    }
}

/// Why a strand can't go on.
#[derive(Clone, Copy, Debug, PartialEq, Eq)]
pub enum FaultKind {
    /// A divisor was 0.
    Divide,
    /// An array has no item at this index, or too few for the loop that fills it.
    Index,
    /// A spawn, a scope or a loop whose pedigrees would be longer than the plan allows.
    Depth,
    /// A call in an instance that already has 256 open calls.
    Calls,
    /// A statement that costs a step where none is left.
    Budget,
}

/// A fault, with the pedigree of its strand.
#[derive(Drop)]
pub struct Fault {
    pub kind: FaultKind,
    pub at: Pedigree,
}

impl Fault {
    /// The same fault; its pedigree shares its memory.
    pub fn share(&self) -> Result<Fault, Memory>
        ensures { IfOk result (λ fault. fault ≡ self.now) }
    {
        Ok(Fault {
            kind: self.kind,
            at: self.at.share()?,
        })
    }
}
