// What a thread of a crew gets. It has no type parameter, so that the proofs of the threads' closures are of one type.
use parallel_runner::{Hand, Hands, Memory};
use serial_meaning::{Lined, Prints};
use std::alloc::Global;

// A hand, whatever its tasks keep.
#[derive(Drop)]
pub(crate) enum AnyHand {
    All(Hand),
    Lined(Hand<Lined>),
    Prints(Hand<Prints>),
}

// These items, each wrapped so. It is generic, so that its proof doesn't speak of all that a hand has.
fn wrapped<T: Drop, U: Drop, F: Fn(T) -> U>(
    alloc: Global,
    items: Vec<T>,
    wrap: &F,
) -> Result<Vec<U>, Memory>
    requires { F.IsAlwaysCallable wrap.now }
{
    let mut all = Vec::with_capacity(alloc, items.len())?;
    for item in items {
        all.push(wrap(item))?;
    }
    Ok(all)
}

impl AnyHand {
    /// These hands, in order.
    pub fn of_all(alloc: Global, hands: Hands) -> Result<Vec<AnyHand>, Memory> {
        wrapped(alloc, hands.0.0, &|hand| AnyHand::All(hand))
    }

    /// The same for those of events that have a line.
    pub fn of_lines(alloc: Global, hands: Hands<Lined>) -> Result<Vec<AnyHand>, Memory> {
        wrapped(alloc, hands.0.0, &|hand| AnyHand::Lined(hand))
    }

    /// The same for those of prints.
    pub fn of_prints(alloc: Global, hands: Hands<Prints>) -> Result<Vec<AnyHand>, Memory> {
        wrapped(alloc, hands.0.0, &|hand| AnyHand::Prints(hand))
    }
}
