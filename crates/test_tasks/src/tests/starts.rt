// The turns of hands. That crews answer as one worker does, on any number of workers, is shown by `test_runs`.

use super::{plan, plan_within, same};
use crew::{Crew, Gate, Hand, Looked, OpenGate, Root, Turn};
use meet_block::Look;
use serial_meaning::{FaultKind, Origin, Outcome};
use std::alloc::Global;
use std::process::Abort;
use std::sync::atomic::{AtomicU64, Ordering};
use std::test::Fail;

// The first child ends by a fault, and nothing of the second one counts.
const FAULT_BEFORE_ANOTHER: &str =
    "fn bad() { let z = 0; return 1 / z; } fn ok() { return 1; } fn main() { spawn bad(); spawn ok(); sync; return 0; }";

#[test]
fn a_new_crew_has_one_task_at_hand_0(rt: HostRuntime) -> Result<(), Fail> {
    let alloc = rt.alloc();
    let plan = plan(&rt, "fn main() { print 1; return 0; }")?;
    let (root, starts) = Crew::new(alloc, &plan, 2)?;
    let mut starts = starts.0.0;
    assert!(rt; starts.len() == 2);
    assert!(rt; matches!(starts[1].turn(alloc, &OpenGate)?, Turn::Idle));
    assert!(rt; matches!(starts[0].turn(alloc, &OpenGate)?, Turn::Ended(_)));
    drop(root);
    Ok(())
}

// What a turn did.
fn word(turn: &Turn) -> &'static str {
    match turn {
        Turn::Ran => "ran",
        Turn::Answered(_) => "answered",
        Turn::Ended(_) => "ended",
        Turn::Popped => "popped",
        Turn::Resumed => "resumed",
        Turn::Waiting => "waiting",
        Turn::Stole => "stole",
        Turn::Idle => "idle",
    }
}

// The hand's next turns did this.
fn turns<G: Gate>(
    rt: &impl Abort,
    alloc: Global,
    hand: &mut Hand,
    gate: &G,
    words: &[&str],
) -> Result<(), Fail> {
    for &wanted in words {
        let turn = hand.turn(alloc, gate)?;
        same(rt, "turn", word(&turn), wanted);
    }
    Ok(())
}

// Its newest task is looked at before and after its child has answered.
fn looks(rt: &impl Abort, alloc: Global, hand: &mut Hand) -> Result<(), Fail> {
    turns(rt, alloc, hand, &OpenGate, &["ran"])?;
    assert!(rt; matches!(hand.look_newest(alloc)?, Looked::Nothing));
    turns(rt, alloc, hand, &OpenGate, &["answered", "popped", "ran"])?;
    assert!(rt; matches!(hand.look_newest(alloc)?, Looked::Resumes));
    turns(rt, alloc, hand, &OpenGate, &["ended"])
}

#[test]
fn a_hand_looks_at_its_newest_task_between_turns(rt: HostRuntime) -> Result<(), Fail> {
    let script = "fn f() { return 1; } fn main() { let a = spawn f(); sync; print a; return 0; }";
    let plan = plan(&rt, script)?;
    let (_root, starts) = Crew::new(rt.alloc(), &plan, 1)?;
    let mut starts = starts.0.0;
    assert!(rt; starts.len() == 1);
    looks(&rt, rt.alloc(), &mut starts[0])
}

// Of which tasks a gate was told, in order: of each a digit, 1 for main, 2 and 3 for its first two children, 5 for a loop or a part of it
// from iteration 0 on, 6 and 7 for a part from iteration 1 or 2 on, and 9 for any other.
#[derive(Drop)]
struct Record {
    entered: AtomicU64,
    left: AtomicU64,
}

impl Record {
    fn new() -> Record {
        Record {
            entered: AtomicU64::new(0),
            left: AtomicU64::new(0),
        }
    }
}

fn digit(origin: &Origin) -> u64 {
    match origin {
        Origin::Instance { path, .. } => match (path.len(), path.rank_at(0)) {
            (0, _) => 1,
            (1, Some(0)) => 2,
            (1, Some(1)) => 3,
            _ => 9,
        },
        Origin::Loop { range, .. } => range.lo.wrapping_add(5),
    }
}

// No two threads tell it at once.
fn write(list: &AtomicU64, origin: &Origin) {
    let before = list.load(Ordering::SeqCst);
    let after = before.wrapping_mul(10).wrapping_add(digit(origin));
    list.store(after, Ordering::SeqCst);
}

impl Gate for Record {
    fn enter(&self, origin: &Origin) {
        write(&self.entered, origin);
    }

    fn leave(&self, origin: &Origin) {
        write(&self.left, origin);
    }
}

// One hand's turns do this, tell a gate of these tasks as they begin and as they end, and end main by a division by zero.
fn cuts(
    rt: &(impl Abort + AllocGlobal),
    script: &str,
    words: &[&str],
    entered: u64,
    left: u64,
) -> Result<(), Fail> {
    let plan = plan_within(rt, script, 4)?;
    let (root, starts) = Crew::new(rt.alloc(), &plan, 1)?;
    let mut starts = starts.0.0;
    assert!(rt; starts.len() == 1);
    let gate = Record::new();
    turns(rt, rt.alloc(), &mut starts[0], &gate, words)?;
    same(rt, "entered", gate.entered.load(Ordering::SeqCst), entered);
    same(rt, "left", gate.left.load(Ordering::SeqCst), left);
    ends_by_child(rt, root);
    Ok(())
}

// Main has ended by the division by zero of what runs first below it.
fn ends_by_child(rt: &impl Abort, mut root: Root) {
    let Look::Ready = root.look() else {
        panic!(rt; "main has answered");
    };
    let answer = root.take();
    let Outcome::Fault(fault) = &answer.outcome else {
        panic!(rt; "main ends by its child's fault");
    };
    assert!(rt; fault.kind == FaultKind::Divide);
    assert!(rt; fault.at.path.rank_at(0) == Some(0) && fault.at.rank == 0);
}

const CUT_TURNS: [&str; 9] = [
    "ran", "answered", "popped", "ran", "answered", "popped", "ran", "resumed", "ended",
];

#[test]
fn a_task_after_a_known_fault_is_cut(rt: HostRuntime) -> Result<(), Fail> {
    cuts(&rt, FAULT_BEFORE_ANOTHER, &CUT_TURNS, 12, 21)
}

// Iteration 0 faults. Iteration 1 is then begun as a part of its own. Iteration 2 is run by the task that kept the upper half, which
// has begun, and spawns a child.
const FAULT_IN_A_LOOP: &str =
    "fn ok() { return 1; } fn f(n) { let q = 1 / n; spawn ok(); sync; return q; } fn main() { pfor i in 0..3 call f(i); return 0; }";

// That part is cut in the sixth turn, and that child in the ninth.
const LOOP_TURNS: [&str; 17] = [
    "ran", "ran", "answered", "popped", "ran", "answered", "popped", "ran", "answered", "popped",
    "ran", "popped", "ran", "resumed", "answered", "resumed", "ended",
];

#[test]
fn what_stands_after_a_fault_in_its_own_loop_is_cut(rt: HostRuntime) -> Result<(), Fail> {
    cuts(&rt, FAULT_IN_A_LOOP, &LOOP_TURNS, 155, 551)
}
