ghost use Rattle.std.specs.Prelude.{◌≡◌, ℕ, List, Bool, true};
ghost use Rattle.serial_meaning.specs.declared.event.Event.{Event};
ghost use Rattle.serial_meaning.specs.EventKinds.{event_at};
ghost use Rattle.serial_meaning.specs.Lined.{has_line};
ghost use Rattle.serial_meaning.specs.Prints.{is_print};

use crate::event::{Event, EventKind};

/// Which events a list keeps in memory. Contracts see all of them.
pub trait Keep {
    /// Whether an event is kept.
    ghost kept: { Event → Bool };

    fn keeps(event: &Event) -> bool
        ensures { result ≡ kept event.now };

    /// Whether events of this kind are kept, wherever they are.
    fn keeps_kind(kind: EventKind) -> bool
        ensures { (j : List ℕ) → result ≡ kept (event_at j kind) };
}

/// All events.
pub struct All;

/// Prints only: all that is printed of a run whose plan shows values only.
pub struct Prints;

/// The events that have a line in some form of a run: prints, draws and objects. All that is printed of a run, whatever
/// its plan shows.
pub struct Lined;

impl Keep for All {
    ghost kept = { λ _. true };

    #[inline(always)]
    fn keeps(event: &Event) -> bool {
        let _ = event;
        true
    }

    #[inline(always)]
    fn keeps_kind(kind: EventKind) -> bool {
        let _any = kind;
        true
    }
}

impl Keep for Prints {
    ghost kept = { is_print };

    #[inline(always)]
    fn keeps(event: &Event) -> bool {
        matches!(event, Event::Print(_, _))
    }

    #[inline(always)]
    fn keeps_kind(kind: EventKind) -> bool {
        let _ = kind;
        false
    }
}

impl Keep for Lined {
    ghost kept = { has_line };

    #[inline(always)]
    fn keeps(event: &Event) -> bool {
        match event {
            Event::Print(_, _) | Event::Draw(_, _) | Event::New(_) => true,
            Event::Spawn(_) | Event::Sync(_) | Event::Loop(_) => false,
        }
    }

    #[inline(always)]
    fn keeps_kind(kind: EventKind) -> bool {
        match kind {
            EventKind::Draw(_) | EventKind::New => true,
            EventKind::Spawn | EventKind::Sync | EventKind::Loop => false,
        }
    }
}
