use contract_views::Boxed;
use dotmix::Trail;
use ped_path::{Ped, Pedigree};
use serial_meaning::{Event, Fault, Origin, Value};
use strand_values::Target;

/// A child to begin: its origin, and the trail of its path.
#[derive(Drop)]
pub struct Child {
    /// An instance, or the iterations of a loop.
    pub origin: Origin,
    /// The trail of the origin's path, by the plan's coefficients.
    pub trail: Trail,
}

/// A child that was spawned. Its value goes to the variable `target`, if any, of the frame with `height` others below it.
#[derive(Drop)]
pub struct SpawnedChild {
    pub child: Child,
    pub height: u32,
    pub target: Option<Target>,
}

/// A loop to begin. Its values go to the array `target`, if any, of the innermost frame.
#[derive(Drop)]
pub struct LoopedChild {
    pub child: Child,
    pub target: Option<Target>,
}

/// What an instance waits for after the event of a sync or of a parallel loop.
#[derive(Drop)]
pub enum Waits {
    /// It goes on.
    Nothing,
    /// A sync, for its children.
    ForChildren,
    /// A loop of one iteration or more. It is boxed, so that this type stays small.
    ForLoop(Boxed<LoopedChild>),
}

/// What a move shows, in order: an event, if any, and then a child or a wait; or where a scope begins or has ended.
#[derive(Drop)]
pub enum Effects {
    Nothing,
    /// An event, and nothing after it.
    Emitted(Event),
    /// A scope with this path was begun; the strand that began it has the same ranks as its pedigree.
    Opened(Ped),
    /// The scope that this strand began has ended.
    Closed(Pedigree),
    /// A child was spawned. It is boxed with where its value goes, so that this type stays small.
    Spawned {
        event: Event,
        spawned: Boxed<SpawnedChild>,
    },
    /// A sync, at which the instance waits for its children.
    Synced(Event),
    /// A loop of one iteration or more, for which the instance waits.
    Looped {
        event: Event,
        looped: Boxed<LoopedChild>,
    },
}

/// How a move ended.
#[derive(Drop)]
pub enum MoveResult {
    /// The instance goes on, or waits where that is the effect.
    Moved(Effects),
    /// The instance ended with this value, without an effect.
    Returned(Value),
    /// The instance ended by a fault of its own, without an effect.
    Faulted(Fault),
}
