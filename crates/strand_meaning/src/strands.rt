//! The strands of small scripts. Each function does nothing; its contract is the example.

ghost use Rattle.strand_meaning.specs.StrandExamples.{ChildsFaultBlocks, ChildsStrandHasItsFault, FirstStrandPrintsAndSpawns, IterationsHaveStrands, IterationsPathIsNoStrand, LoopIsAStrandsEvent, NoStrandAfterAFault, NoStrandBelowAMissingIteration, ParentGoesOnToItsFault, SyncStandsWhereAChildFaulted, ScopesFirstStrandSpawns, ScopesSecondStrandSyncs, ScopesLastStrandIsThere, NoStrandAfterAScopesLast, StrandAfterAScopePrints};

// `fn bad() { let z = 0; return 1 / z; } fn main() { print 7; spawn bad(); return 0; }` with a budget of 2: the strand 0 prints 7 and
// spawns.
#[tactic(auto, using(crate::proofs::Computed::StrandRuns::first_strand_prints_and_spawns))]
fn first_strand_prints_and_spawns()
    ensures { FirstStrandPrintsAndSpawns }
{}

// The strand 0.0 of the same has only the fault Divide.
#[tactic(auto, using(crate::proofs::Computed::StrandRuns::childs_strand_has_its_fault))]
fn childs_strand_has_its_fault()
    ensures { ChildsStrandHasItsFault }
{}

// Its strand 1, which the elision doesn't reach, has only the fault Budget.
#[tactic(auto, using(crate::proofs::Computed::StrandRuns::parent_goes_on_to_its_fault))]
fn parent_goes_on_to_its_fault()
    ensures { ParentGoesOnToItsFault }
{}

// It has no strand 7.
#[tactic(auto, using(crate::proofs::Computed::StrandRuns::no_strand_after_a_fault))]
fn no_strand_after_a_fault()
    ensures { NoStrandAfterAFault }
{}

// `fn bad() { let z = 0; return 1 / z; } fn main() { spawn bad(); sync; print 1; return 0; }`: the strand 1 syncs.
#[tactic(auto, using(crate::proofs::Computed::StrandRuns::sync_stands_where_a_child_faulted))]
fn sync_stands_where_a_child_faulted()
    ensures { SyncStandsWhereAChildFaulted }
{}

// The strand 2 of the same is blocked by the fault Divide at 0.0.
#[tactic(auto, using(crate::proofs::Computed::StrandRuns::childs_fault_blocks))]
fn childs_fault_blocks()
    ensures { ChildsFaultBlocks }
{}

// `fn roll(i) { let x = draw; return x; } fn main() { pfor i in 0..5 call roll(i); return 0; }` with the coefficients 0, 1 and 0: the
// strand 0.3.0 draws 2628.
#[tactic(auto, using(crate::proofs::Computed::StrandRuns::iterations_have_strands))]
fn iterations_have_strands()
    ensures { IterationsHaveStrands }
{}

// The strand 0 of the same begins the loop.
#[tactic(auto, using(crate::proofs::Computed::StrandRuns::loop_is_a_strands_event))]
fn loop_is_a_strands_event()
    ensures { LoopIsAStrandsEvent }
{}

// It has no strand 0.3, which is the path of an iteration.
#[tactic(auto, using(crate::proofs::Computed::StrandRuns::iterations_path_is_no_strand))]
fn iterations_path_is_no_strand()
    ensures { IterationsPathIsNoStrand }
{}

// It has no strand 0.5.0, since there are five iterations.
#[tactic(auto, using(crate::proofs::Computed::StrandRuns::no_strand_below_a_missing_iteration))]
fn no_strand_below_a_missing_iteration()
    ensures { NoStrandBelowAMissingIteration }
{}

// `fn f() { let x = draw; return x; } fn main() { let a = 0; scope { a = spawn f(); } print a; return 0; }` of version 2, with the
// coefficients 0, 0 and 1: the strand 0.0 spawns.
#[tactic(auto, using(crate::proofs::Computed::StrandRuns::scopes_first_strand_spawns))]
fn scopes_first_strand_spawns()
    ensures { ScopesFirstStrandSpawns }
{}

// The strand 0.1 of the same has the sync at the scope's end.
#[tactic(auto, using(crate::proofs::Computed::StrandRuns::scopes_second_strand_syncs))]
fn scopes_second_strand_syncs()
    ensures { ScopesSecondStrandSyncs }
{}

// The strand 0.2 of the same exists, and has no event.
#[tactic(auto, using(crate::proofs::Computed::StrandRuns::scopes_last_strand_is_there))]
fn scopes_last_strand_is_there()
    ensures { ScopesLastStrandIsThere }
{}

// There is no strand 0.3.
#[tactic(auto, using(crate::proofs::Computed::StrandRuns::no_strand_after_a_scopes_last))]
fn no_strand_after_a_scopes_last()
    ensures { NoStrandAfterAScopesLast }
{}

// The strand 1 of the same prints 21, and has the sync that the return implies.
#[tactic(auto, using(crate::proofs::Computed::StrandRuns::strand_after_a_scope_prints))]
fn strand_after_a_scope_prints()
    ensures { StrandAfterAScopePrints }
{}
