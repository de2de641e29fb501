//! Laws of tasks and strands, each the contract of a function that does nothing. A proof that needs a law calls it.

ghost use Rattle.strand_meaning.specs.Cuts.{AnswersEnd, CutsPass, FaultsPass};
ghost use Rattle.strand_meaning.specs.StrandLaws.{StrandsAreTheElisions, StrandsDrawDotMix};
ghost use Rattle.strand_meaning.specs.Laws.{AnswersAreEvaluations, AnswersKeepTasks, AnswersLeaveNoMore, AnswersShowNothing, MovesFall, MovesLeaveUnfilledAlone, ObservationBegins, ObservationGoesOn, OriginsFit, StepsAreSound, StopsAreUnique, StopsAreShown, StopsAreSound, StopsExist, StopsFall, StopsKeepOrigins, TasksBegin, UnfilledIsPending, ValidPlansAreClear};

/// A new task of an origin of the plan satisfies the invariant, where no function of the script touches a pending variable.
pub fn tasks_begin()
    ensures { TasksBegin }
{}

/// No function of a valid script touches a pending variable.
pub fn valid_plans_are_clear()
    ensures { ValidPlansAreClear }
{}

/// One move or stop keeps the invariant: a child is an origin of the plan, and an end is the evaluation of the task's origin, with
/// a fault of the open tree.
pub fn steps_are_sound()
    ensures { StepsAreSound }
{}

/// The same for the stop that a task comes to by moves.
pub fn stops_are_sound()
    ensures { StopsAreSound }
{}

/// The rest of a task at a stop has the task's plan and origin.
pub fn stops_keep_origins()
    ensures { StopsKeepOrigins }
{}

/// An answer with the events and the outcome of an origin's evaluation is taken as that evaluation.
pub fn answers_are_evaluations()
    ensures { AnswersAreEvaluations }
{}

/// A task that took its children's evaluations as their answers keeps the invariant.
pub fn answers_keep_tasks()
    ensures { AnswersKeepTasks }
{}

/// A task comes to only one next stop.
pub fn stops_are_unique()
    ensures { StopsAreUnique }
{}

/// A task comes to a stop.
pub fn stops_exist()
    ensures { StopsExist }
{}

/// Each stop of a task that isn't waiting leaves it fewer stops.
pub fn stops_fall()
    ensures { StopsFall }
{}

/// Answers leave a task no more stops than its wait did.
pub fn answers_leave_no_more()
    ensures { AnswersLeaveNoMore }
{}

/// No move reads or writes an unfilled variable: it shows and leaves the same if the child's answer is taken first.
pub fn moves_leave_unfilled_alone()
    ensures { MovesLeaveUnfilledAlone }
{}

/// In each task the unfilled variables of each frame are among those that are pending, by validity, at the statement that the frame
/// is at.
pub fn unfilled_is_pending()
    ensures { UnfilledIsPending }
{}

/// Each move leaves fewer moves before the next stop.
pub fn moves_fall()
    ensures { MovesFall }
{}

/// An origin of the plan is within its depth.
pub fn origins_fit()
    ensures { OriginsFit }
{}

/// Where no fault ends the serial elision before a pedigree, the strand there, if there is one, has the elision's events of that
/// pedigree in order, and the elision's fault if that is there.
pub fn strands_are_the_elisions()
    ensures { StrandsAreTheElisions }
{}

/// Each draw of a strand of the open tree is DotMix of the strand's pedigree, after a fault too.
pub fn strands_draw_dotmix()
    ensures { StrandsDrawDotMix }
{}

/// Nothing is observed of a task that hasn't run yet: its node is what is left.
pub fn observation_begins()
    ensures { ObservationBegins }
{}

/// What a task shows up to its next stop is added to what is observed of it, and at its end that is its whole node: the items and
/// the ending.
pub fn observation_goes_on()
    ensures { ObservationGoesOn }
{}

/// The answers that a task takes change nothing of what is observed: its node has them already.
pub fn answers_show_nothing()
    ensures { AnswersShowNothing }
{}

/// What a task shows up to its next stop can be observed.
pub fn stops_are_shown()
    ensures { StopsAreShown }
{}

/// A task may be cut by what cuts one of its children, where the children before that one gave values.
pub fn cuts_pass()
    ensures { CutsPass }
{}

/// A child's fault is its parent's too, where the children before it gave values.
pub fn faults_pass()
    ensures { FaultsPass }
{}

/// A task whose trace has a fault or a cut, once its children's answers are merged, answers with the first of them.
pub fn answers_end()
    ensures { AnswersEnd }
{}
