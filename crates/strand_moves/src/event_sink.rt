// Where events go.

ghost use Rattle.std.specs.Prelude.{◌≡◌, ◌<◌, ◌^◌, ◌++◌, ◌∷◌, [], OnOk};
ghost use Rattle.serial_meaning.specs.declared.event.Event.{Event};
ghost use Rattle.serial_meaning.specs.EventKinds.{event_at};

use crate::memory::Memory;
use ped_path::Ped;
use serial_meaning::{Event, EventKind};
use std::alloc::Global;

/// Where the events of moves go, one by one.
pub trait EventSink {
    /// The sink after one more event.
    ghost after: { Event → Self → Self };

    /// Takes one more event.
    fn emit(&mut self, alloc: Global, event: Event) -> Result<(), Memory>
        ensures { OnOk result (self.new ≡ after event self.old) };

    /// Takes the event of this kind whose pedigree is this path and rank. A sink that doesn't keep it never makes it.
    fn emit_at(
        &mut self,
        alloc: Global,
        path: &Ped,
        rank: u64,
        kind: EventKind,
    ) -> Result<(), Memory>
        requires { rank < 2 ^ 32 }
        ensures { OnOk result (self.new ≡ after (event_at (path.now ++ rank ∷ []) kind) self.old) };
}
