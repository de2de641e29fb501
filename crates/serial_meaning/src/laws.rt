//! Laws of the meaning, each the contract of a function that does nothing. A proof that needs a law calls it.

ghost use Rattle.serial_meaning.specs.Cuts.{CutsStandBefore, MainIsNotCut, WholeAnswersAreEvals};
ghost use Rattle.serial_meaning.specs.Laws.{DrawsAreDotMix, ElisionHasEquations, FaultIsLeast, LoopsEndAlike, OpenTreeHasEquations, OriginsEndWithinFaults, PedigreesRise, PlainTextDependsOnPrints, ValuesDependOnNames};

/// In the serial elision, a list of statements does what its first statement does and then what the others do; blocks and
/// calls follow the same equations at every level. The meaning is total by its form: it is a function, by recursion on
/// the steps and the depth.
#[tactic(auto, using(crate::proofs::Equations::ExecLaws::elision_has_equations))]
pub fn elision_has_equations()
    ensures { ElisionHasEquations }
{}

/// The same for the open tree.
#[tactic(auto, using(crate::proofs::Equations::ExecLaws::open_tree_has_equations))]
pub fn open_tree_has_equations()
    ensures { OpenTreeHasEquations }
{}

/// Of two events of the serial elision that aren't prints, the earlier one's pedigree precedes the later one's.
pub fn pedigrees_rise()
    ensures { PedigreesRise }
{}

/// Each draw of the serial elision is DotMix of its pedigree.
pub fn draws_are_dotmix()
    ensures { DrawsAreDotMix }
{}

/// The serial elision ends by the least of all faults of the open tree, and without a fault exactly where there is none.
pub fn fault_is_least()
    ensures { FaultIsLeast }
{}

/// In the elision, and in a node of the open tree that goes past it, a loop ends by the first fault of its iterations; its
/// own node ends by the least one. Both are the same fault, or none.
pub fn loops_end_alike()
    ensures { LoopsEndAlike }
{}

/// A fault by which an origin of the plan ends is one of the open tree's.
pub fn origins_end_within_faults()
    ensures { OriginsEndWithinFaults }
{}

/// An expression's value depends on no variable that it doesn't name.
pub fn values_depend_on_names()
    ensures { ValuesDependOnNames }
{}

/// An answer that isn't a cut is its origin's serial meaning.
pub fn whole_answers_are_evals()
    ensures { WholeAnswersAreEvals }
{}

/// The answer of `main` is never a cut: nothing precedes the empty path.
pub fn main_is_not_cut()
    ensures { MainIsNotCut }
{}

/// The fault by which an origin is cut precedes every pedigree that the origin answers for.
pub fn cuts_stand_before()
    ensures { CutsStandBefore }
{}

/// Where values alone are printed, a run's text depends on its prints and its outcome alone: no other event has a part in it.
pub fn plain_text_depends_on_prints()
    ensures { PlainTextDependsOnPrints }
{}
