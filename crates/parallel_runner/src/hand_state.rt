use crate::answered::Answered;
use crate::entry::Entry;
use crate::faults::Faults;
use crate::overflow::Overflow;
use crate::stalled::Stalled;
use contract_views::Items;
use serial_meaning::{Answer, Keep};
use std::collections::VecDeque;
use steal_deck::{Deck, Thief};
use strand_machine::TaskPool;

// What a hand has.
#[derive(Drop)]
pub(crate) struct HandState<K: Keep> {
    pub current: Option<Entry<K>>,
    // What the deck refused, and what came after it. It is the back part of the deck.
    pub overflow: Overflow<K>,
    pub deck: Deck<Entry<K>>,
    pub stalled: VecDeque<Stalled<K>>,
    // Those of the other hands' decks, from the next number upwards and round.
    pub thieves: Vec<Thief<Entry<K>>>,
    // Room for the answers that a task takes, if it was made.
    pub answers: Option<Items<Answer<K>>>,
    // What it knows of the faults that the hands of its crew met.
    pub faults: Faults,
    pub answered: Answered<Answer<K>>,
    // The memory of tasks that have ended.
    pub pool: TaskPool<K>,
}
