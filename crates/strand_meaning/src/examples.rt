//! Where the tasks of small scripts stop. Each function does nothing; its contract is the example. A wait ends with the answers of
//! the children.

ghost use Rattle.strand_meaning.specs.Examples.{FaultWaitsForAChild, LoopTasksBeginHalves, LoopsBeginWhole, ReturnWaitsForAChild, SyncAloneIsPassed};

// `fn f() { return 0; } fn main() { spawn f(); return 0; }`: a child, a wait at the return, the end.
#[tactic(auto, using(crate::proofs::Computed::TaskRuns::return_waits_for_a_child))]
fn return_waits_for_a_child()
    ensures { ReturnWaitsForAChild }
{}

// `fn main() { sync; return 0; }`: the end.
#[tactic(auto, using(crate::proofs::Computed::TaskRuns::sync_alone_is_passed))]
fn sync_alone_is_passed()
    ensures { SyncAloneIsPassed }
{}

// The same with a budget of 1, so that the return of `main` has no step left: a child, a wait at the fault, the end.
#[tactic(auto, using(crate::proofs::Computed::TaskRuns::fault_waits_for_a_child))]
fn fault_waits_for_a_child()
    ensures { FaultWaitsForAChild }
{}

// `fn f(i) { return 0; } fn main() { pfor i in 0..3 call f(i); return 0; }`: the loop as one child, a wait, the end.
#[tactic(auto, using(crate::proofs::Computed::TaskRuns::loops_begin_whole))]
fn loops_begin_whole()
    ensures { LoopsBeginWhole }
{}

// The loop's own task: its first iteration as a child, the second as another, the third itself, a wait, the end.
#[tactic(auto, using(crate::proofs::Computed::TaskRuns::loop_tasks_begin_halves))]
fn loop_tasks_begin_halves()
    ensures { LoopTasksBeginHalves }
{}
