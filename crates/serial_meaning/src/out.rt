ghost use Rattle.std.specs.Prelude.{◌≡◌, ◌<◌, ◌^◌, [], ◌∷◌, ◌++◌, length, OnOk, OnErr, slice_get, option_copied, IfSome, IfNone, IfErr};
ghost use Rattle.serial_meaning.specs.declared.event.Event.{Event};
ghost use Rattle.serial_meaning.specs.Chunks.{joined};
ghost use Rattle.serial_meaning.specs.EventKinds.{event_at};
ghost use Rattle.serial_meaning.specs.Keeping.{keep_if, kept_of};

use crate::chunk::{Chunk, put_first};
use crate::event::{Event, EventKind};
use crate::keep::{All, Keep};
use crate::memory::Memory;
use contract_views::KnownList;
use ped_path::{Ped, Pedigree};
use std::alloc::Global;
use std::marker::{Model, PhantomData};
use std::{mem, slice};

// The most events that are moved when a list is appended to another.
const MOST_MOVED: usize = 8;

// The capacity that a list takes with its second event. Most lists need no more.
const FIRST_ROOM: usize = 5;

// The most events that a chunk has room for, apart from those put in front of its first one.
const MOST_ROOM: usize = 12;

/// A list of events. A single event is stored inline. More are stored in chunks, which are moved and not copied when a
/// list of more than a few events is appended to another.
///
/// Only the events that `K` keeps are in memory, by default all. Contracts see all of them.
#[derive(Drop)]
pub struct Out<K: Keep = All> {
    count: u64,
    kept: Kept,
    whole: KnownList<Event>,
    marker: PhantomData<K>,
}

// How the events are stored.
#[derive(Drop)]
enum Kept {
    Nothing,
    // A single event, and the allocator for when more come.
    One(Global, Event),
    Listed(Chunks),
}

// Full chunks, and the last one, which grows.
#[derive(Drop)]
struct Chunks {
    alloc: Global,
    full: Vec<Chunk>,
    last: Vec<Event>,
}

impl<K: Keep> Model for Out<K> {
    ghost use Rattle.std.specs.Prelude.{◌≡◌, List, length};
    ghost use Rattle.serial_meaning.specs.declared.event.Event.{Event};
    ghost use Rattle.serial_meaning.specs.Chunks.{kept_events};
    ghost use Rattle.serial_meaning.specs.Keeping.{kept_of};

    ghost Value = { List Event };

    ghost view = { λ o. o.whole.items };

    ghost invariant = { λ o. (o.count ≡ length o.whole.items) × (kept_events o.kept ≡ kept_of K.kept o.whole.items) };
}

// Takes the known list out and leaves an empty one.
fn taken(whole: &mut KnownList<Event>) -> KnownList<Event>
    ensures { result ≡ whole.old }
{
    mem::replace(whole, KnownList::none())
}

// An event that exists in contracts only.
#[inline(always)]
fn unmade(path: &Ped, rank: u64, kind: EventKind) -> KnownList<Event>
    ghost event: { Event }
    ensures { result.items ≡ event ∷ [] }
{
    let _ = path;
    let _ = (rank, kind);
    KnownList::of()
}

impl<K: Keep> Out<K> {
    /// No event.
    pub fn none() -> Out<K>
        ensures { result ≡ [] }
    {
        Out {
            count: 0,
            kept: Kept::Nothing,
            whole: KnownList::none(),
            marker: PhantomData,
        }
    }

    /// Appends an event. Also `Memory` where the list has 2^64 - 1 events already.
    #[inline(always)]
    pub fn push(&mut self, alloc: Global, event: Event) -> Result<(), Memory>
        ensures ok { OnOk result (self.new ≡ self.old ++ event ∷ []) }
        ensures err { OnErr result (self.new ≡ self.old) }
    {
        let count = self.count.checked_add(1).ok_or(Memory)?;
        let keeps = K::keeps(&event);
        let more = KnownList::none().with(&event);
        self.kept.push_if(keeps, alloc, event)?;
        self.count = count;
        self.whole = taken(&mut self.whole).followed_by(more);
        Ok(())
    }

    /// Appends the event of this kind whose pedigree is this path and rank. It is made only where it is kept. Also
    /// `Memory` where the list has 2^64 - 1 events already.
    #[inline(always)]
    pub fn push_at(
        &mut self,
        alloc: Global,
        path: &Ped,
        rank: u64,
        kind: EventKind,
    ) -> Result<(), Memory>
        requires { rank < 2 ^ 32 }
        ensures ok { OnOk result (self.new ≡ self.old ++ event_at (path.now ++ rank ∷ []) kind ∷ []) }
        ensures err { OnErr result (self.new ≡ self.old) }
    {
        if K::keeps_kind(kind) {
            let path = path.share()?;
            return self.push(alloc, kind.at(Pedigree { path, rank }));
        }
        let count = self.count.checked_add(1).ok_or(Memory)?;
        let more = unmade(path, rank, kind);
        self.count = count;
        self.whole = taken(&mut self.whole).followed_by(more);
        Ok(())
    }

    /// Appends the other list's events. On `Memory` they are dropped. Also `Memory` where there would be more than
    /// 2^64 - 1 events.
    #[inline(always)]
    pub fn append(&mut self, other: Out<K>) -> Result<(), Memory>
        ensures ok { OnOk result (self.new ≡ self.old ++ other) }
        ensures err { OnErr result (self.new ≡ self.old) }
    {
        let Out {
            count: more,
            kept,
            whole,
            marker: _,
        } = other;
        let count = self.count.checked_add(more).ok_or(Memory)?;
        self.kept.append(kept)?;
        self.count = count;
        self.whole = taken(&mut self.whole).followed_by(whole);
        Ok(())
    }

    /// How many events there are.
    pub fn len(&self) -> u64
        ensures { result ≡ length self.now }
    {
        self.count
    }

    /// The full chunks of the events that are kept, and the one that grows, if any event is kept.
    pub fn kept_chunks(&self) -> Option<(&[Chunk], &[Event])>
        ensures some { IfSome result (λ parts. joined parts.0.now ++ parts.1.now ≡ kept_of K.kept self.now) }
        ensures none { IfNone result (kept_of K.kept self.now ≡ []) }
    {
        self.kept.chunks()
    }
}

impl Out<All> {
    /// No event.
    pub fn new() -> Out
        ensures { result ≡ [] }
    {
        Out::none()
    }

    /// The event at this index, from 0. None exactly where the index isn't below the length.
    ///
    /// For reading single events: of a run of `fn main() { print 1; print 2; return 0; }` `get(1)` is the second print,
    /// and `get(2)` none.
    pub fn get(&self, i: u64) -> Option<&Event>
        ensures { option_copied result ≡ slice_get self.now i }
    {
        self.kept.get(i)
    }

    /// The full chunks and the one that grows, if there is any event.
    pub fn chunks(&self) -> Option<(&[Chunk], &[Event])>
        ensures some { IfSome result (λ parts. joined parts.0.now ++ parts.1.now ≡ self.now) }
        ensures none { IfNone result (self.now ≡ []) }
    {
        self.kept.chunks()
    }
}

impl Kept {
    ghost use Rattle.std.specs.Prelude.{true};
    ghost use Rattle.serial_meaning.specs.Chunks.{kept_events, chunks_events, has_one};

    // Appends an event, or drops it where it isn't kept.
    #[inline(always)]
    fn push_if(&mut self, keeps: bool, alloc: Global, event: Event) -> Result<(), Memory>
        ensures ok { OnOk result (kept_events self.new ≡ kept_events self.old ++ keep_if keeps event []) }
        ensures err { OnErr result (kept_events self.new ≡ kept_events self.old) }
    {
        if keeps {
            self.push(alloc, event)
        } else {
            drop(event);
            Ok(())
        }
    }

    fn get(&self, i: u64) -> Option<&Event>
        ensures { option_copied result ≡ slice_get (kept_events self.now) i }
    {
        match self {
            Kept::Nothing => None,
            Kept::One(_, event) => event_at(slice::from_ref(event), i),
            Kept::Listed(chunks) => chunks.get(i),
        }
    }

    fn chunks(&self) -> Option<(&[Chunk], &[Event])>
        ensures some { IfSome result (λ parts. joined parts.0.now ++ parts.1.now ≡ kept_events self.now) }
        ensures none { IfNone result (kept_events self.now ≡ []) }
    {
        match self {
            Kept::Nothing => None,
            Kept::One(_, event) => Some((&[], slice::from_ref(event))),
            Kept::Listed(chunks) => Some((chunks.full.as_slice(), chunks.last.as_slice())),
        }
    }

    #[inline(always)]
    fn push(&mut self, alloc: Global, event: Event) -> Result<(), Memory>
        ensures ok { OnOk result (kept_events self.new ≡ kept_events self.old ++ event ∷ []) }
        ensures err { OnErr result (kept_events self.new ≡ kept_events self.old) }
    {
        match self {
            Kept::Nothing => {
                *self = Kept::One(alloc, event);
                Ok(())
            }
            Kept::One(_, _) => self.push_second(alloc, event),
            Kept::Listed(chunks) => chunks.push(event),
        }
    }

    // Appends to a single event. It is a function of its own so that its callers reserve no stack for its locals.
    #[inline(never)]
    fn push_second(&mut self, alloc: Global, event: Event) -> Result<(), Memory>
        requires { has_one self.old ≡ true }
        ensures ok { OnOk result (kept_events self.new ≡ kept_events self.old ++ event ∷ []) }
        ensures err { OnErr result (kept_events self.new ≡ kept_events self.old) }
    {
        let both = Chunks {
            alloc,
            full: Vec::new(alloc),
            last: Vec::with_capacity(alloc, FIRST_ROOM)?,
        };
        let Kept::One(_, first) = mem::replace(self, Kept::Listed(both)) else {
            unreachable!()
        };
        let Kept::Listed(both) = self else {
            unreachable!()
        };
        both.last.push_reserved(first);
        both.last.push_reserved(event);
        Ok(())
    }

    #[inline(always)]
    fn append(&mut self, others: Kept) -> Result<(), Memory>
        ensures ok { OnOk result (kept_events self.new ≡ kept_events self.old ++ kept_events others) }
        ensures err { OnErr result (kept_events self.new ≡ kept_events self.old) }
    {
        match others {
            Kept::Nothing => Ok(()),
            Kept::One(alloc, event) => self.push(alloc, event),
            Kept::Listed(chunks) => self.append_list(chunks),
        }
    }

    // Appends these events.
    fn append_list(&mut self, others: Chunks) -> Result<(), Memory>
        ensures ok { OnOk result (kept_events self.new ≡ kept_events self.old ++ chunks_events others) }
        ensures err { OnErr result (kept_events self.new ≡ kept_events self.old) }
    {
        match self {
            Kept::Nothing => {
                *self = Kept::Listed(others);
                Ok(())
            }
            Kept::One(_, _) => self.append_to_one(others),
            Kept::Listed(chunks) => chunks.append(others),
        }
    }

    // Appends these events to a single one, which goes to their front so that they stay where they are.
    #[inline(never)]
    fn append_to_one(&mut self, mut others: Chunks) -> Result<(), Memory>
        requires { has_one self.old ≡ true }
        ensures ok { OnOk result (kept_events self.new ≡ kept_events self.old ++ chunks_events others) }
        ensures err { OnErr result (kept_events self.new ≡ kept_events self.old) }
    {
        let Kept::One(alloc, event) = mem::replace(self, Kept::Nothing) else {
            unreachable!()
        };
        match others.put_first(event) {
            Ok(()) => {
                *self = Kept::Listed(others);
                Ok(())
            }
            Err(event) => {
                *self = Kept::One(alloc, event);
                Err(Memory)
            }
        }
    }
}

impl Chunks {
    ghost use Rattle.serial_meaning.specs.Chunks.{chunks_events};

    // Makes room for this many more events: in the last chunk, or in a new one where that is full.
    #[tactic(auto, using(crate::proofs::ChunkLemmas::joined_next))]
    #[inline(always)]
    fn make_room(&mut self, more: usize) -> Result<(), Memory>
        ensures { chunks_events self.new ≡ chunks_events self.old }
    {
        if more <= self.last.capacity().saturating_sub(self.last.len()) {
            return Ok(());
        }
        if self.last.capacity() <= MOST_ROOM / 2 {
            self.last.try_reserve(more)?;
            return Ok(());
        }
        self.full.try_reserve(1)?;
        let next = Vec::with_capacity(self.alloc, MOST_ROOM)?;
        let front = mem::replace(&mut self.last, next);
        self.full.push_reserved(Chunk::of(front));
        Ok(())
    }

    // Appends an event, without a further call where the last chunk has room.
    #[inline(always)]
    fn push(&mut self, event: Event) -> Result<(), Memory>
        ensures ok { OnOk result (chunks_events self.new ≡ chunks_events self.old ++ event ∷ []) }
        ensures err { OnErr result (chunks_events self.new ≡ chunks_events self.old) }
    {
        if self.last.len() < self.last.capacity() {
            self.last.push_reserved(event);
            return Ok(());
        }
        self.push_growing(event)
    }

    // The same, making room for it first.
    #[inline(never)]
    fn push_growing(&mut self, event: Event) -> Result<(), Memory>
        ensures ok { OnOk result (chunks_events self.new ≡ chunks_events self.old ++ event ∷ []) }
        ensures err { OnErr result (chunks_events self.new ≡ chunks_events self.old) }
    {
        self.make_room(1)?;
        self.last.push(event)?;
        Ok(())
    }

    // Puts an event in front of all others, or returns it where there is no memory.
    fn put_first(&mut self, event: Event) -> Result<(), Event>
        ensures ok { OnOk result (chunks_events self.new ≡ event ∷ chunks_events self.old) }
        ensures err { IfErr result (λ back. back ≡ event) }
    {
        if self.full.is_empty() {
            put_first(&mut self.last, event)
        } else {
            self.full[0].put_first(event)
        }
    }

    // Appends the other chunks; the last one of these then grows no more. Where the others are a few events, these are
    // moved into it, so that there are fewer chunks.
    fn append(&mut self, others: Chunks) -> Result<(), Memory>
        ensures ok { OnOk result (chunks_events self.new ≡ chunks_events self.old ++ chunks_events others) }
        ensures err { OnErr result (chunks_events self.new ≡ chunks_events self.old) }
    {
        if others.full.is_empty() && others.last.len() <= MOST_MOVED {
            self.take_in(others.last)
        } else {
            self.follow(others)
        }
    }

    // Moves events to the end of the last chunk.
    fn take_in(&mut self, mut events: Vec<Event>) -> Result<(), Memory>
        ensures ok { OnOk result (chunks_events self.new ≡ chunks_events self.old ++ events.items) }
        ensures err { OnErr result (chunks_events self.new ≡ chunks_events self.old) }
    {
        self.make_room(events.len())?;
        self.last.append(&mut events)?;
        Ok(())
    }

    // Appends the other chunks as they are.
    #[tactic(auto, using(crate::proofs::ChunkLemmas::joined_after))]
    fn follow(&mut self, others: Chunks) -> Result<(), Memory>
        ensures ok { OnOk result (chunks_events self.new ≡ chunks_events self.old ++ chunks_events others) }
        ensures err { OnErr result (chunks_events self.new ≡ chunks_events self.old) }
    {
        let Chunks { mut full, last, .. } = others;
        self.full.try_reserve(full.len().saturating_add(1))?;
        let front = mem::replace(&mut self.last, last);
        self.full.push(Chunk::of(front)).unwrap();
        self.full.append(&mut full).unwrap();
        Ok(())
    }

    fn get(&self, i: u64) -> Option<&Event>
        ensures { option_copied result ≡ slice_get (chunks_events self.now) i }
    {
        let mut left = i;
        for chunk in &self.full {
            let events = chunk.events();
            let count = events.len() as u64;
            if left < count {
                return event_at(events, left);
            }
            left -= count;
        }
        event_at(&self.last, left)
    }
}

fn event_at(events: &[Event], i: u64) -> Option<&Event>
    ensures { option_copied result ≡ slice_get events.now i }
{
    if i < events.len() as u64 {
        Some(&events[i as usize])
    } else {
        None
    }
}
