ghost use Rattle.std.specs.Prelude.{◌≡◌, IfOk};

use super::same;
use std::alloc::Global;
use std::thread;
use steal_deck::{Deck, Memory, Remains, Steal, Thief};

fn needs_send<T: Send>(_: &T) {}

// Both ends may go to another thread where the tasks may.
fn ends_are_send<T: Send>(deck: &Deck<T>, thief: &Thief<T>) {
    needs_send(deck);
    needs_send(thief);
}

#[test]
fn owner_takes_the_newest_and_thief_the_oldest(rt: HostRuntime) -> Result<(), Memory> {
    let mut deck = Deck::new(rt.alloc())?;
    let mut thief = deck.thief()?;
    ends_are_send(&deck, &thief);
    for task in ['a', 'b', 'c'] {
        assert!(rt; deck.push(task).is_ok(), "a push among the first 64");
    }
    same(&rt, "the oldest", thief.steal(), Steal::Took('a'));
    same(&rt, "the newest", deck.pop(), Some('c'));
    same(&rt, "the newest but one", deck.pop(), Some('b'));
    same(&rt, "none is left", deck.pop(), None);
    same(&rt, "nothing is left", thief.steal(), Steal::Nothing);
    Ok(())
}

#[test]
fn closed_deck_gives_what_is_left(rt: HostRuntime) -> Result<(), Memory> {
    let mut deck = Deck::new(rt.alloc())?;
    let mut thief = deck.thief()?;
    assert!(rt; deck.push('a').is_ok(), "a push among the first 64");
    assert!(rt; deck.push('b').is_ok(), "a push among the first 64");
    assert!(rt; deck.push('c').is_ok(), "a push among the first 64");
    same(&rt, "the oldest", thief.steal(), Steal::Took('a'));
    deck.rejoin(thief);
    let mut left = deck.close();
    same(&rt, "the last", left.pop(), Some('c'));
    same(&rt, "the first", left.pop(), Some('b'));
    same(&rt, "none is left", left.pop(), None);
    Ok(())
}

// A thief that has stolen until it met `Nothing` 1000 times, and what it stole.
fn stolen(alloc: Global, mut thief: Thief<u32>) -> Result<(Thief<u32>, Vec<u32>), Memory>
    ensures { IfOk result (λ done. done.0.deck ≡ thief.deck) }
{
    let mut numbers = Vec::new(alloc);
    let mut idle = 0u32;
    for _ in 0..50000000 {
        match thief.steal() {
            Steal::Took(number) => numbers.push(number).map_err(|_| Memory)?,
            Steal::Nothing => idle += 1,
            Steal::Lost => {}
        }
        if idle == 1000 {
            break;
        }
    }
    Ok((thief, numbers))
}

// The owner that has pushed 0 to 999 and popped after each third, and what it popped.
fn pushed(alloc: Global, mut deck: Deck<u32>) -> Result<(Deck<u32>, Vec<u32>), Memory>
    ensures deck { IfOk result (λ done. done.0.deck ≡ deck.deck) }
    ensures thieves { IfOk result (λ done. (done.0.made ≡ deck.made) × (done.0.came ≡ deck.came)) }
{
    let mut numbers = Vec::new(alloc);
    for number in 0..1000 {
        deck.push(number).map_err(|_| Memory)?;
        if number % 3 == 2 {
            if let Some(newest) = deck.pop() {
                numbers.push(newest).map_err(|_| Memory)?;
            }
        }
    }
    Ok((deck, numbers))
}

// Adds what is left in a deck that was closed.
fn add_left(numbers: &mut Vec<u32>, mut left: Remains<u32>) -> Result<(), Memory> {
    while let Some(number) = left.pop() {
        numbers.push(number).map_err(|_| Memory)?;
    }
    Ok(())
}

#[test]
fn three_threads_take_each_number_once(rt: HostRuntime) -> Result<(), Memory> {
    let alloc = rt.alloc();
    let mut deck = Deck::new(alloc)?;
    let first = deck.thief()?;
    let second = deck.thief()?;
    let (owner, (first, second)) = thread::join(
        &rt,
        move || pushed(alloc, deck),
        || thread::join(
            &rt,
            move || stolen(alloc, first),
            move || stolen(alloc, second),
        ),
    );
    let (mut deck, mut numbers) = owner?;
    let (first, by_first) = first?;
    let (second, by_second) = second?;
    deck.rejoin(first);
    deck.rejoin(second);
    numbers.extend_from_slice(&by_first)?;
    numbers.extend_from_slice(&by_second)?;
    add_left(&mut numbers, deck.close())?;
    numbers.sort_unstable();
    assert!(rt; numbers.iter().copied().eq(0..1000), "each number once");
    Ok(())
}
