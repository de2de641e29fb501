ghost use Rattle.std.specs.Prelude.{◌≡◌, ◌∷◌, OnOk, IfErr};
ghost use Rattle.serial_meaning.specs.Prints.{is_print, has_print};

use crate::event::Event;
use std::marker::Model;

/// A closed list of events: none is added at its end. It knows whether one of them is a print, so that a reader of
/// prints can skip it. Contracts see the list.
#[derive(Drop)]
pub struct Chunk {
    events: Vec<Event>,
    prints: bool,
}

impl Model for Chunk {
    ghost use Rattle.std.specs.Prelude.{◌≡◌, List};
    ghost use Rattle.serial_meaning.specs.declared.event.Event.{Event};
    ghost use Rattle.serial_meaning.specs.Prints.{has_print};

    ghost Value = { List Event };

    ghost view = { λ c. c.events.items };

    ghost invariant = { λ c. c.prints ≡ has_print c.events.items };
}

impl Chunk {
    pub(crate) fn of(events: Vec<Event>) -> Chunk
        ensures { result ≡ events.items }
    {
        let prints = has_print(&events);
        Chunk { events, prints }
    }

    /// Its events in order.
    pub fn events(&self) -> &[Event]
        ensures { result.now ≡ self.now }
    {
        self.events.as_slice()
    }

    /// Whether one of its events is a print.
    pub fn prints(&self) -> bool
        ensures { result ≡ has_print self.now }
    {
        self.prints
    }

    // Puts an event in front, or returns it where there is no memory.
    pub(crate) fn put_first(&mut self, event: Event) -> Result<(), Event>
        ensures ok { OnOk result (self.new ≡ event ∷ self.old) }
        ensures err { IfErr result (λ back. (back ≡ event) × (self.new ≡ self.old)) }
    {
        let print = is_print(&event);
        put_first(&mut self.events, event)?;
        self.prints = print || self.prints;
        Ok(())
    }
}

// Puts an event in front of all others, or returns it where there is no memory.
pub(crate) fn put_first(events: &mut Vec<Event>, event: Event) -> Result<(), Event>
    ensures ok { OnOk result (events.new.items ≡ event ∷ events.old.items) }
    ensures err { IfErr result (λ back. (back ≡ event) × (events.new.items ≡ events.old.items)) }
{
    match events.insert(0, event) {
        Ok(()) => Ok(()),
        Err(failed) => Err(failed.value),
    }
}

fn has_print(events: &[Event]) -> bool
    ensures { result ≡ has_print events.now }
{
    events.iter().any(|event| is_print(event))
}

fn is_print(event: &Event) -> bool
    ensures { result ≡ is_print event.now }
{
    matches!(event, Event::Print(_, _))
}
