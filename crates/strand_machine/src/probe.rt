// What an instance's events say of one pedigree.
ghost use Rattle.std.specs.Prelude.{◌≡◌, [], ◌∷◌, ◌++◌};
ghost use Rattle.serial_meaning.specs.Open.{Happened, Opened, Closed, raised};
ghost use Rattle.strand_meaning.specs.Strands.{ended_before, pedigree_of};
ghost use Rattle.strand_machine.specs.Probes.{ahead_of, new_probe, goes_to, is_none_ahead, less, probe_after};

use ped_path::{Ped, Pedigree};
use serial_meaning::Event;

/// What an instance has shown so far of one pedigree.
#[derive(Clone, Copy, Debug, PartialEq, Eq)]
pub struct StrandProbe {
    /// Whether an earlier strand of the instance had the pedigree.
    pub came: bool,
    /// How many ranks the pedigree is ahead of the instance's present strand on the same path, if it is. An instance
    /// that waits is already at the strand after the wait.
    pub ahead: Option<u64>,
    /// Whether the pedigree comes after the instance's last event, and isn't below that event's strand.
    pub past: bool,
}

// The pedigree of an event's strand.
pub(crate) fn pedigree(event: &Event) -> &Pedigree
    ensures { result.now ≡ pedigree_of event.now }
{
    match event {
        Event::Print(at, _) => at,
        Event::Draw(at, _) => at,
        Event::New(at) => at,
        Event::Spawn(at) => at,
        Event::Sync(at) => at,
        Event::Loop(at) => at,
    }
}

// Whether a pedigree comes after this strand and isn't below it.
fn is_past(strand: &Pedigree, at: &Pedigree) -> bool
    ensures { result ≡ ended_before strand.now at.now }
{
    strand.before(at) && !at.goes_on_from(strand)
}

impl StrandProbe {
    /// A probe of an instance with this path, before its first event.
    pub fn new(path: &Ped, at: &Pedigree) -> StrandProbe
        ensures { result ≡ new_probe path.now at.now }
    {
        StrandProbe {
            came: false,
            ahead: rises_to_first(path, at),
            past: false,
        }
    }

    /// Whether the instance's present strand has the pedigree.
    pub fn is_here(&self) -> bool
        ensures { result ≡ is_none_ahead self.now.ahead }
    {
        self.ahead == Some(0)
    }

    // The instance comes to its next strand.
    fn go_to(&mut self, ahead: Option<u64>)
        ensures { self.new ≡ goes_to ahead self.old }
    {
        self.came |= self.is_here();
        self.ahead = ahead;
    }

    // The instance comes to the next rank.
    fn rise(&mut self)
        ensures { self.new ≡ goes_to (less self.old.ahead) self.old }
    {
        let ahead = match self.ahead {
            Some(0) | None => None,
            Some(n) => Some(n - 1),
        };
        self.go_to(ahead);
    }

    // An event of the instance's own.
    pub(crate) fn emit(&mut self, at: &Pedigree, event: &Event)
        ensures { self.new ≡ probe_after at.now self.old (Happened event.now ∷ []) }
    {
        self.past = is_past(pedigree(event), at);
        match event {
            Event::Print(_, _) => {}
            Event::Draw(_, _) => self.rise(),
            Event::New(_) => self.rise(),
            Event::Spawn(_) => self.rise(),
            Event::Sync(_) => self.rise(),
            Event::Loop(_) => self.rise(),
        }
    }

    // A scope with this path begins.
    pub(crate) fn enter_scope(&mut self, at: &Pedigree, path: &Ped)
        ensures { self.new ≡ probe_after at.now self.old (Opened path.now ∷ []) }
    {
        self.go_to(rises_to_first(path, at));
    }

    // The scope that this strand began has ended.
    pub(crate) fn leave_scope(&mut self, at: &Pedigree, scope: &Pedigree)
        ensures { self.new ≡ probe_after at.now self.old (Closed scope.now ∷ []) }
    {
        self.go_to(is_next(scope, at));
    }
}

// How many ranks a pedigree is ahead of the first strand on a path.
fn rises_to_first(path: &Ped, at: &Pedigree) -> Option<u64>
    ensures { result ≡ ahead_of (path.now ++ 0 ∷ []) at.now }
{
    if at.path.same(path) {
        Some(at.rank)
    } else {
        None
    }
}

// How many ranks a pedigree is ahead of the strand after this one.
fn is_next(strand: &Pedigree, at: &Pedigree) -> Option<u64>
    ensures { result ≡ ahead_of (raised strand.now) at.now }
{
    if strand.rank < at.rank && at.path.same(&strand.path) {
        Some(at.rank - strand.rank - 1)
    } else {
        None
    }
}
