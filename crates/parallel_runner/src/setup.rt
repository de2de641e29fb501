// How a crew begins.
ghost use Rattle.std.specs.Prelude.{◌≡◌, ◌≤◌, IfOk, OnOk, ◌++◌, length, map};
ghost use Rattle.std.specs.Arc.{arc_value};
ghost use Rattle.parallel_runner.specs.Crews.{AreIdle, AreNew, HaveMet, IsCrewOf, IsNewCrew, IsNewRoot, AreNewRoots, new_hand, thief_of, with_thief};

use crate::entry::Entry;
use crate::faults::Faults;
use crate::hand::{Hand, Hands};
use crate::memory::Memory;
use crate::root::{Root, Roots};
use contract_views::Items;
use meet_block::Join;
use serial_meaning::{Answer, AnswerKey, Keep, Plan};
use std::alloc::Global;
use std::sync::Arc;
use steal_deck::Thief;
use strand_machine::Task;

/// The hands of a run.
pub struct Crew;

// The root's task, and the end at which its answer comes.
#[tactic(auto, using(crate::proofs::Mains::main_known, crate::proofs::Meeting::begins_root, crate::proofs::Meeting::tag_given))]
fn begin_root<K: Keep>(alloc: Global, plan: &Arc<Plan>) -> Result<(Root<K>, Task<K>), Memory>
    ensures { IfOk result (λ begun. IsNewRoot (arc_value plan.now) begun.0 begun.1) }
{
    let key = AnswerKey {
        plan: Arc::try_clone(plan)?,
        origin: plan.main_origin(alloc)?,
    };
    let mut join: Join<Answer<K>> = Join::new(alloc)?;
    let give = join.hand(alloc, &key)?;
    let AnswerKey { plan, origin } = key;
    let task = Task::start(alloc, plan, origin, give)?;
    Ok((Root { join }, task))
}

// The roots of these plans and their tasks, in order.
fn begin_roots<K: Keep>(
    alloc: Global,
    plans: &[Arc<Plan>],
) -> Result<(Vec<Root<K>>, Vec<Task<K>>), Memory>
    ensures { IfOk result (λ begun. AreNewRoots (map arc_value plans.now) begun.0.items begun.1.items) }
{
    let mut roots = Vec::new(alloc);
    let mut tasks = Vec::new(alloc);
    for plan in plans {
        let (root, task) = begin_root(alloc, plan)?;
        roots.push(root)?;
        tasks.push(task)?;
    }
    Ok((roots, tasks))
}

// One more hand without a task. It shares these faults.
fn one_more<K: Keep>(alloc: Global, faults: &Faults) -> Result<Hand<K>, Memory>
    ensures { IfOk result (λ hand. hand ≡ new_hand hand.deck.deck) }
{
    Hand::new(alloc, faults.share(alloc)?)
}

// This many hands without a task, which share these faults.
fn hands_with<K: Keep>(alloc: Global, faults: &Faults, workers: u32) -> Result<Vec<Hand<K>>, Memory>
    ensures { IfOk result (λ hands. AreNew workers hands.items) }
{
    let mut hands = Vec::new(alloc);
    for _ in 0..workers {
        hands.push(one_more(alloc, faults)?)?;
    }
    Ok(hands)
}

// This many hands without a task.
fn new_hands<K: Keep>(alloc: Global, workers: u32) -> Result<Vec<Hand<K>>, Memory>
    ensures { IfOk result (λ hands. AreNew workers hands.items) }
{
    let faults = Faults::new(alloc)?;
    let hands = hands_with(alloc, &faults, workers);
    drop(faults);
    hands
}

// One more thief of each of these hands' decks.
fn add_thieves<K: Keep>(
    thieves: &mut Vec<Thief<Entry<K>>>,
    hands: &mut [Hand<K>],
) -> Result<(), Memory>
    ensures thieves { OnOk result (thieves.new.items ≡ thieves.old.items ++ map thief_of hands.old) }
    ensures hands { OnOk result (hands.new ≡ map with_thief hands.old) }
{
    for hand in hands.iter_mut() {
        thieves.push(hand.thief()?)?;
    }
    Ok(())
}

// Gives a hand its thieves of the others' decks: those after it first, and then those before it.
fn introduce<K: Keep>(
    alloc: Global,
    front: &mut [Hand<K>],
    hand: &mut Hand<K>,
    back: &mut [Hand<K>],
) -> Result<(), Memory>
    ensures front { OnOk result (front.new ≡ map with_thief front.old) }
    ensures hand { OnOk result (hand.new ≡ record hand.old { thieves = map thief_of back.old ++ map thief_of front.old }) }
    ensures back { OnOk result (back.new ≡ map with_thief back.old) }
{
    let mut thieves = Vec::new(alloc);
    add_thieves(&mut thieves, back)?;
    add_thieves(&mut thieves, front)?;
    hand.set_thieves(thieves);
    Ok(())
}

// Gives each hand its thieves of the others' decks.
fn exchange_thieves<K: Keep>(alloc: Global, hands: &mut [Hand<K>]) -> Result<(), Memory>
    ensures count { length hands.new ≡ length hands.old }
    ensures met { OnOk result (HaveMet hands.old hands.new) }
{
    for own in 0..hands.len() {
        let (front, rest) = hands.split_at_mut(own);
        let (one, back) = rest.split_at_mut(1);
        introduce(alloc, front, &mut one[0], back)?;
    }
    Ok(())
}

// This many hands without a task, each with one thief of each other hand's deck.
fn make_hands<K: Keep>(alloc: Global, workers: u32) -> Result<Vec<Hand<K>>, Memory>
    ensures idle { IfOk result (λ hands. AreIdle workers hands.items) }
    ensures count { IfOk result (λ hands. length hands.items ≡ workers) }
{
    let mut hands = new_hands(alloc, workers)?;
    exchange_thieves(alloc, hands.as_mut_slice())?;
    Ok(hands)
}

impl Crew {
    /// A crew of this many hands. Main's task is current at hand 0, and there is no other task. Each hand has one thief
    /// of each other hand's deck, from its own number upwards and round, and no other thief was made.
    pub fn new(alloc: Global, plan: &Arc<Plan>, workers: u32) -> Result<(Root, Hands), Memory>
        requires { (1 ≤ workers) × (workers ≤ 64) }
        ensures { IfOk result (λ crew. IsNewCrew (arc_value plan.now) workers crew.0 crew.1.0) }
    {
        Crew::new_keeping(alloc, plan, workers)
    }

    /// The same, whatever the tasks keep.
    pub fn new_keeping<K: Keep>(
        alloc: Global,
        plan: &Arc<Plan>,
        workers: u32,
    ) -> Result<(Root<K>, Hands<K>), Memory>
        requires { (1 ≤ workers) × (workers ≤ 64) }
        ensures { IfOk result (λ crew. IsNewCrew (arc_value plan.now) workers crew.0 crew.1.0) }
    {
        let (root, task) = begin_root(alloc, plan)?;
        let mut hands = make_hands(alloc, workers)?;
        hands[0].set_current(task);
        Ok((root, Hands(Items(hands))))
    }

    /// A crew of this many hands, like that of `new`, for the mains of several plans. No task is current: all are ready
    /// at hand 0, which takes the first plan's first, and the other hands steal from the last plan on. Two plans may be
    /// equal. The roots are in the order of the plans.
    ///
    /// Tasks that the deck refuses are in hand 0's private list, so hand 0 comes to all roots even where no other hand
    /// works.
    pub fn many(
        alloc: Global,
        plans: &Items<Arc<Plan>>,
        workers: u32,
    ) -> Result<(Roots, Hands), Memory>
        requires plans { (1 ≤ length plans.now) × (length plans.now ≤ 256) }
        requires workers { (1 ≤ workers) × (workers ≤ 64) }
        ensures { IfOk result (λ crew. IsCrewOf (map arc_value plans.now) workers crew.0.0 crew.1.0) }
    {
        Crew::many_keeping(alloc, plans, workers)
    }

    /// The same, whatever the tasks keep.
    pub fn many_keeping<K: Keep>(
        alloc: Global,
        plans: &Items<Arc<Plan>>,
        workers: u32,
    ) -> Result<(Roots<K>, Hands<K>), Memory>
        requires plans { (1 ≤ length plans.now) × (length plans.now ≤ 256) }
        requires workers { (1 ≤ workers) × (workers ≤ 64) }
        ensures { IfOk result (λ crew. IsCrewOf (map arc_value plans.now) workers crew.0.0 crew.1.0) }
    {
        let (roots, tasks) = begin_roots(alloc, plans.as_slice())?;
        let mut hands = make_hands(alloc, workers)?;
        hands[0].take_on(tasks)?;
        Ok((Roots(Items(roots)), Hands(Items(hands))))
    }
}
