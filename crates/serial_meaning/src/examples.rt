//! What the definitions say of small scripts. Each function does nothing; its contract is the example. The coefficients are 1, 0
//! and 0, so that a draw at rank r of main is `mix` of r + 1. Where no budget is named the example holds with any from 20 on.

ghost use Rattle.serial_meaning.specs.Examples.{CallsEndAt256, CallsShareTheRank, DepthTwoIsEnoughForASpawn, ElisionEndsAtTheChildsFault, EmptyLoopRaisesTheRank, FourStepsAreEnough, ImpliedSyncRaisesTheRank, OpenTreeHasBothFaults, ScopeHasStrands, ScopeIsALevel, ScopeNeedsDepthTwo, SpawnNeedsDepthTwo, TargetMustHaveRoom, ThreeStepsAreTooFew, ScopeRaisesTheRank, ChildStandsInItsScope};

// `fn main() { print 1; print 2; print 3; return 0; }` with a budget of 3 prints 1, 2 and 3 and ends by the fault Budget at 0.
#[tactic(auto, using(crate::proofs::Equations::ScriptRuns::three_steps_are_too_few))]
fn three_steps_are_too_few()
    ensures { ThreeStepsAreTooFew }
{}

// The same with a budget of 4 ends well.
#[tactic(auto, using(crate::proofs::Equations::ScriptRuns::four_steps_are_enough))]
fn four_steps_are_enough()
    ensures { FourStepsAreEnough }
{}

// `fn f() { return 0; } fn main() { spawn f(); return 0; }` at depth 1 ends by the fault Depth at 0.
fn spawn_needs_depth_two()
    ensures { SpawnNeedsDepthTwo }
{}

// The same at depth 2 ends well, with the events Spawn at 0 and Sync at 1.
fn depth_two_is_enough_for_a_spawn()
    ensures { DepthTwoIsEnoughForASpawn }
{}

// `fn f(i) { return i; } fn main() { pfor i in 3..3 call f(i); let x = draw; print x; return 0; }` prints 210.
fn empty_loop_raises_the_rank()
    ensures { EmptyLoopRaisesTheRank }
{}

// `fn sq(i) { return i * i; } fn main() { let a[5]; pfor i in 0..6 into a call sq(i); let k = 0; while k < 5 { print a[k]; k = k + 1; }
// return 0; }` ends by the fault Index at 0.
fn target_must_have_room()
    ensures { TargetMustHaveRoom }
{}

// `fn f() { let x = draw; return x; } fn main() { let a = call f(); let b = call f(); print a; print b; return 0; }` prints 21 and
// 210.
fn calls_share_the_rank()
    ensures { CallsShareTheRank }
{}

// `fn h() { return 0; } fn g() { spawn h(); return 0; } fn main() { call g(); let x = draw; print x; return 0; }` prints 903.
fn implied_sync_raises_the_rank()
    ensures { ImpliedSyncRaisesTheRank }
{}

// `fn f() { call f(); return 0; } fn main() { call f(); return 0; }` ends by the fault Calls at 0, with a budget of 300.
#[tactic(auto, using(crate::proofs::Equations::ScriptRuns::calls_end_at_256))]
fn calls_end_at_256()
    ensures { CallsEndAt256 }
{}

// `fn bad() { let z = 0; return 1 / z; } fn main() { print 7; let a = spawn bad(); let i = 0; while i == 0 { i = 0; } sync; print a;
// return 0; }` prints 7 and ends by the fault Divide at 0.0, with any budget from 3 on.
fn elision_ends_at_the_childs_fault()
    ensures { ElisionEndsAtTheChildsFault }
{}

// The faults of that plan are Divide at 0.0 and Budget at 1.
fn open_tree_has_both_faults()
    ensures { OpenTreeHasBothFaults }
{}

// `fn main() { scope { print 1; } return 0; }` of version 2 prints 1 in the strand 0.0, and has a sync there.
fn scope_is_a_level()
    ensures { ScopeIsALevel }
{}

// The same ends by the fault Depth at 0 where pedigrees have one rank.
fn scope_needs_depth_two()
    ensures { ScopeNeedsDepthTwo }
{}

// The strands of its main are 0, 0.0, 0.1 and 1.
fn scope_has_strands()
    ensures { ScopeHasStrands }
{}

// `fn main() { scope { print 1; } let x = draw; print x; return 0; }` of version 2 prints 1 and 210.
fn scope_raises_the_rank()
    ensures { ScopeRaisesTheRank }
{}

// `fn f() { let x = draw; return x; } fn main() { let a = 0; scope { a = spawn f(); } print a; return 0; }` of version 2, with the
// coefficients 0, 0 and 1: the child draws 21 in the strand 0.0.0, which is printed after the scope.
fn child_stands_in_its_scope()
    ensures { ChildStandsInItsScope }
{}
