// A crew in threads.
ghost use Rattle.std.specs.Prelude.{◌≡◌, ◌≤◌, ◌∷◌, [], IfOk, true};
ghost use Rattle.std.specs.Arc.{arc_value};
ghost use Rattle.serial_meaning.specs.Answer.{IsEval};
ghost use Rattle.serial_meaning.specs.Eval.{main_origin};
ghost use Rattle.serial_meaning.specs.Laws.{IsOriginOf};
ghost use Rattle.serial_meaning.specs.Render.{IsWhole};
ghost use Rattle.strand_meaning.specs.Laws.{IsFaultOf};
ghost use Rattle.strand_machine.specs.Links.{tag};
ghost use Rattle.parallel_runner.specs.Crews.{AreRootAnswers, new_root};
ghost use Rattle.parallel_runner.specs.Hands.{has_task};

use crate::any_hand::AnyHand;
use crate::heap::Heap;
use crate::parents::Parents;
use crate::parking::Parking;
use crate::signals::Signals;
use crate::threads::{Until, at_each};
use contract_views::Items;
use crossbeam_utils::Backoff;
use meet_block::Look;
use parallel_runner::{Crew, Gate, Hand, Hands, Looked, Memory, Root, Roots, Turn};
use serial_meaning::{Answer, Keep, Lined, Plan, Prints, laws};
use std::alloc::Global;
use std::sync::{Arc, Wait};
use std::thread::Threads;

// Looks at the newest stalled task, since its last child may have answered in the turn before.
#[inline(always)]
fn look_newest_on<K: Keep>(alloc: Global, signals: &Signals, hand: &mut Hand<K>) -> Option<Looked> {
    match hand.look_newest(alloc) {
        Ok(looked) => Some(looked),
        Err(_) => {
            signals.end_turns();
            None
        }
    }
}

// After a turn in which the current task came to a stop: where it began a child, its rest can be stolen. Else it waits, and a hand
// that cuts all that it begins is parked for a while.
#[inline(always)]
fn keep_turning<R: Wait, K: Keep>(
    rt: &R,
    alloc: Global,
    parking: &mut Parking,
    parents: &mut Parents,
    signals: &Signals,
    hand: &mut Hand<K>,
    cuts: bool,
) {
    match look_newest_on(alloc, signals, hand) {
        Some(Looked::Waits) if cuts => parking.park_cutting(rt, signals),
        Some(Looked::Nothing) => {
            parents.pushed();
            if !cuts {
                signals.wake_one();
            }
        }
        _ => {}
    }
}

// After a turn that put an answer.
#[inline(always)]
fn after_put<K: Keep>(alloc: Global, parents: &mut Parents, signals: &Signals, hand: &mut Hand<K>) {
    if let Some(Looked::Resumes) = look_newest_on(alloc, signals, hand) {
        parents.took(signals);
    } else {
        parents.ended(signals);
    }
}

// Looks at each stalled task that the turn didn't look at, up to one that goes on, and says whether one does. As many more turns would also steal
// from all other hands each.
fn look_at_all<K: Keep>(alloc: Global, signals: &Signals, hand: &mut Hand<K>) -> bool {
    for _ in 1..hand.stalled_count() {
        match hand.look_oldest(alloc) {
            Ok(Looked::Waits) => {}
            Ok(Looked::Resumes) => return true,
            Ok(Looked::Nothing) => return false,
            Err(_) => {
                signals.end_turns();
                return false;
            }
        }
    }
    false
}

// After a turn that found nothing, in a hand whose tasks wait.
fn wait_stalled<R: Wait, K: Keep>(
    rt: &R,
    alloc: Global,
    parking: &mut Parking,
    parents: &mut Parents,
    signals: &Signals,
    hand: &mut Hand<K>,
) {
    parents.found_none(signals);
    if look_at_all(alloc, signals, hand) {
        parking.end(signals);
        parents.took(signals);
    } else {
        parking.park_stalled(rt, signals);
    }
}

// Whether the turn stole a task, or may have left one for others to steal.
#[inline(always)]
fn has_task<K: Keep>(turn: &Result<Turn<K>, Memory>) -> bool
    ensures { result ≡ has_task turn.now }
{
    matches!(turn, Ok(Turn::Ran | Turn::Popped | Turn::Stole))
}

// The hand found something to do in its turn. One that cuts all that it begins goes on to count as one that looks, if it did.
#[inline(always)]
fn end_parking(parking: &mut Parking, signals: &Signals, cuts: bool) {
    if cuts {
        parking.cut(signals);
    } else {
        parking.end(signals);
    }
}

// After another turn than those of `after_turn`.
#[inline(never)]
fn after_rare_turn<R: Wait, K: Keep>(
    rt: &R,
    alloc: Global,
    parking: &mut Parking,
    parents: &mut Parents,
    signals: &Signals,
    hand: &mut Hand<K>,
    turn: Result<Turn<K>, Memory>,
) -> bool
    ensures { result ≡ has_task turn }
{
    match turn {
        Ok(Turn::Waiting) => {
            wait_stalled(rt, alloc, parking, parents, signals, hand);
            return false;
        }
        Ok(Turn::Idle) => {
            parents.found_none(signals);
            parking.park_idle(rt, signals);
            return false;
        }
        _ => {}
    }
    end_parking(parking, signals, hand.cuts());
    match turn {
        Ok(Turn::Resumed | Turn::Stole) => parents.took(signals),
        Ok(Turn::Ended(_)) => signals.root_ended(),
        Ok(_) => {}
        Err(_) => signals.end_turns(),
    }
    has_task(&turn)
}

// After a turn. Says whether the turn stole a task, or may have left one for others to steal.
#[inline(always)]
fn after_turn<R: Wait, K: Keep>(
    rt: &R,
    alloc: Global,
    heap: &mut Heap,
    parking: &mut Parking,
    parents: &mut Parents,
    signals: &Signals,
    hand: &mut Hand<K>,
    turn: Result<Turn<K>, Memory>,
) -> bool
    ensures { result ≡ has_task turn }
{
    match turn {
        Ok(Turn::Ran) => {
            let cuts = hand.cuts();
            end_parking(parking, signals, cuts);
            heap.count_turn();
            keep_turning(rt, alloc, parking, parents, signals, hand, cuts);
            true
        }
        Ok(Turn::Answered(_)) => {
            end_parking(parking, signals, hand.cuts());
            after_put(alloc, parents, signals, hand);
            false
        }
        Ok(Turn::Popped) => {
            end_parking(parking, signals, hand.cuts());
            parents.popped();
            true
        }
        turn => after_rare_turn(rt, alloc, parking, parents, signals, hand, turn),
    }
}

// Makes turns until then, and says whether the run goes on. After a turn that left a task waiting or answered one, all
// children of the newest stalled task may have answered: then it is the next one, and else it stays stalled.
//
// Where all tasks that a hand begins are cut, it is parked after each that it leaves waiting, and neither its pushes nor its steals wake
// anyone: the hands from which it steals come to the ends of their tasks faster by themselves.
fn take_turns<R: Wait, G: Gate, K: Keep>(
    rt: &R,
    alloc: Global,
    signals: &Signals,
    hand: &mut Hand<K>,
    gate: &G,
    until: Until,
) -> bool {
    let mut heap = Heap::new(alloc);
    let mut parking = Parking::new();
    let mut parents = Parents::new();
    for _ in rt.forever() {
        if signals.is_stopped() {
            break;
        }
        let turn = hand.turn(alloc, gate);
        let has_task = after_turn(
            rt,
            alloc,
            &mut heap,
            &mut parking,
            &mut parents,
            signals,
            hand,
            turn,
        );
        if has_task && matches!(until, Until::Task) {
            return true;
        }
    }
    false
}

// The same, whatever the hand's tasks keep.
fn take_any_turns<R: Wait, G: Gate>(
    rt: &R,
    alloc: Global,
    signals: &Signals,
    hand: &mut AnyHand,
    gate: &G,
    until: Until,
) -> bool {
    match hand {
        AnyHand::All(hand) => take_turns(rt, alloc, signals, hand, gate, until),
        AnyHand::Lined(hand) => take_turns(rt, alloc, signals, hand, gate, until),
        AnyHand::Prints(hand) => take_turns(rt, alloc, signals, hand, gate, until),
    }
}

// Looks until the answer is there.
fn wait_ready<R: Wait, K: Keep>(rt: &R, root: &mut Root<K>)
    ensures ready { root.new.children.ready ≡ true }
    ensures tags { root.new.children.tags ≡ root.old.children.tags }
{
    let backoff = Backoff::new();
    for _ in rt.forever() {
        if let Look::Ready = root.look() {
            return;
        }
        backoff.snooze();
    }
    unreachable!()
}

// An answer that is no cut is the serial meaning.
fn is_meant<K: Keep>(answer: &Answer<K>)
    requires { IsWhole answer.now.outcome }
    ensures { IsEval answer.now.plan answer.now.origin answer.now.out answer.now.outcome }
{
    laws::whole_answers_are_evals();
    // Read for the proof: an answer keeps by its type how an origin of the plan may end.
    let _outcome = &answer.outcome;
}

// Looks until the root's answer is there, and takes it.
fn roots_answer<R: Wait, K: Keep>(rt: &R, mut root: Root<K>) -> Answer<K>
    ensures tag { root.children.tags ≡ tag result.plan result.origin ∷ [] }
    ensures whole { IsWhole result.outcome }
    ensures meant { IsEval result.plan result.origin result.out result.outcome }
{
    wait_ready(rt, &mut root);
    let answer = root.take();
    is_meant(&answer);
    answer
}

// Where it is the answer of an origin of the plan and no cut, no fault but one of the plan's ends it.
fn ends_within_faults<K: Keep>(answer: &Answer<K>)
    requires known { IsOriginOf answer.now.plan answer.now.origin }
    requires whole { IsWhole answer.now.outcome }
    ensures { IsFaultOf answer.now.plan answer.now.outcome }
{
    laws::origins_end_within_faults();
    laws::whole_answers_are_evals();
    // Read for the proof: an answer keeps by its type how an origin of the plan may end.
    let _outcome = &answer.outcome;
}

// Makes the turns of all hands, until as many roots have ended as this. Hand 0 works in this thread and each other one in a thread of its
// own, or not at all where none can be made or there is nothing for it to do. On `Memory` a hand had no memory.
fn run_hands<R: Threads + Wait + Sync, G: Gate + Sync>(
    rt: &R,
    alloc: Global,
    hands: Vec<AnyHand>,
    roots: u64,
    gate: &G,
) -> Result<(), Memory> {
    let signals = Signals::new(roots);
    let shared = &signals;
    at_each(
        rt,
        alloc,
        hands,
        &|hand, until| { take_any_turns(rt, alloc, shared, hand, gate, until) },
    );
    let is_ended = signals.is_ended();
    drop(signals);
    if is_ended { Ok(()) } else { Err(Memory) }
}

// Makes the turns of these hands until main has answered at the root.
#[tactic(auto, using(crate::proofs::Rooted::root_is))]
fn run_main<R: Threads + Wait + Sync, G: Gate + Sync, K: Keep>(
    rt: &R,
    alloc: Global,
    plan: &Arc<Plan>,
    root: Root<K>,
    hands: Vec<AnyHand>,
    gate: &G,
) -> Result<Answer<K>, Memory>
    requires { root.children ≡ new_root (arc_value plan.now) }
    ensures plan { IfOk result (λ answer. answer.plan ≡ arc_value plan.now) }
    ensures origin { IfOk result (λ answer. answer.origin ≡ main_origin (arc_value plan.now)) }
    ensures fault { IfOk result (λ answer. IsFaultOf (arc_value plan.now) answer.outcome) }
{
    // For the clauses alone.
    let _plan = plan;
    run_hands(rt, alloc, hands, 1, gate)?;
    let answer = roots_answer(rt, root);
    ends_within_faults(&answer);
    Ok(answer)
}

/// Runs main on this many workers, hand 0 in this thread and each other one in a thread of its own. The hands steal
/// tasks from one another.
///
/// A hand for which no thread can be made is left out. It has no task, and the others finish without it.
pub fn run_crew<R: Threads + Wait + Sync, G: Gate + Sync>(
    rt: &R,
    alloc: Global,
    plan: &Arc<Plan>,
    workers: u32,
    gate: &G,
) -> Result<Answer, Memory>
    requires { (1 ≤ workers) × (workers ≤ 64) }
    ensures plan { IfOk result (λ answer. answer.plan ≡ arc_value plan.now) }
    ensures origin { IfOk result (λ answer. answer.origin ≡ main_origin (arc_value plan.now)) }
    ensures fault { IfOk result (λ answer. IsFaultOf (arc_value plan.now) answer.outcome) }
{
    let (root, hands) = Crew::new(alloc, plan, workers)?;
    let hands = AnyHand::of_all(alloc, hands)?;
    run_main(rt, alloc, plan, root, hands, gate)
}

/// The same, with an answer that keeps the events that have a line.
pub fn run_crew_of_lines<R: Threads + Wait + Sync, G: Gate + Sync>(
    rt: &R,
    alloc: Global,
    plan: &Arc<Plan>,
    workers: u32,
    gate: &G,
) -> Result<Answer<Lined>, Memory>
    requires { (1 ≤ workers) × (workers ≤ 64) }
    ensures plan { IfOk result (λ answer. answer.plan ≡ arc_value plan.now) }
    ensures origin { IfOk result (λ answer. answer.origin ≡ main_origin (arc_value plan.now)) }
    ensures fault { IfOk result (λ answer. IsFaultOf (arc_value plan.now) answer.outcome) }
{
    let (root, hands) = Crew::new_keeping(alloc, plan, workers)?;
    let hands = AnyHand::of_lines(alloc, hands)?;
    run_main(rt, alloc, plan, root, hands, gate)
}

/// The same, with an answer that keeps prints only.
pub fn run_crew_of_prints<R: Threads + Wait + Sync, G: Gate + Sync>(
    rt: &R,
    alloc: Global,
    plan: &Arc<Plan>,
    workers: u32,
    gate: &G,
) -> Result<Answer<Prints>, Memory>
    requires { (1 ≤ workers) × (workers ≤ 64) }
    ensures plan { IfOk result (λ answer. answer.plan ≡ arc_value plan.now) }
    ensures origin { IfOk result (λ answer. answer.origin ≡ main_origin (arc_value plan.now)) }
    ensures fault { IfOk result (λ answer. IsFaultOf (arc_value plan.now) answer.outcome) }
{
    let (root, hands) = Crew::new_keeping(alloc, plan, workers)?;
    let hands = AnyHand::of_prints(alloc, hands)?;
    run_main(rt, alloc, plan, root, hands, gate)
}

// Takes the answers of these roots, each once it is there.
fn answers_of<R: Wait, K: Keep>(
    rt: &R,
    alloc: Global,
    roots: Vec<Root<K>>,
) -> Result<Items<Answer<K>>, Memory>
    ensures { IfOk result (λ answers. AreRootAnswers roots.items answers) }
{
    let mut answers = Vec::new(alloc);
    for root in roots {
        answers.push(roots_answer(rt, root))?;
    }
    Ok(Items(answers))
}

// Makes the turns of these hands until all of these roots have answered.
fn run_all<R: Threads + Wait + Sync, G: Gate + Sync, K: Keep>(
    rt: &R,
    alloc: Global,
    roots: Vec<Root<K>>,
    hands: Vec<AnyHand>,
    gate: &G,
) -> Result<Items<Answer<K>>, Memory>
    ensures { IfOk result (λ answers. AreRootAnswers roots.items answers) }
{
    run_hands(rt, alloc, hands, roots.len() as u64, gate)?;
    answers_of(rt, alloc, roots)
}

/// Runs the crew of these roots, which `Crew::many` made, until all have answered, as `run_crew` does. The answers are
/// in the order of the roots. On `Memory` there are no answers.
pub fn run_roots<R: Threads + Wait + Sync, G: Gate + Sync>(
    rt: &R,
    alloc: Global,
    roots: Roots,
    hands: Hands,
    gate: &G,
) -> Result<Items<Answer>, Memory>
    ensures { IfOk result (λ answers. AreRootAnswers roots.0 answers) }
{
    let hands = AnyHand::of_all(alloc, hands)?;
    run_all(rt, alloc, roots.0.0, hands, gate)
}

/// The same for roots whose answers keep the events that have a line, which `Crew::many_keeping` made.
pub fn run_roots_of_lines<R: Threads + Wait + Sync, G: Gate + Sync>(
    rt: &R,
    alloc: Global,
    roots: Roots<Lined>,
    hands: Hands<Lined>,
    gate: &G,
) -> Result<Items<Answer<Lined>>, Memory>
    ensures { IfOk result (λ answers. AreRootAnswers roots.0 answers) }
{
    let hands = AnyHand::of_lines(alloc, hands)?;
    run_all(rt, alloc, roots.0.0, hands, gate)
}

/// The same for roots whose answers keep prints only, which `Crew::many_keeping` made.
pub fn run_roots_of_prints<R: Threads + Wait + Sync, G: Gate + Sync>(
    rt: &R,
    alloc: Global,
    roots: Roots<Prints>,
    hands: Hands<Prints>,
    gate: &G,
) -> Result<Items<Answer<Prints>>, Memory>
    ensures { IfOk result (λ answers. AreRootAnswers roots.0 answers) }
{
    let hands = AnyHand::of_prints(alloc, hands)?;
    run_all(rt, alloc, roots.0.0, hands, gate)
}
