//! Laws of the machine, each the contract of a function that does nothing. A proof that needs a law calls it.

ghost use Rattle.sched_meaning.specs.Laws.{ChoicesMakeProgress, ChoicesAreDistinct, CoresAnswerByEvaluations, CoresAreLively, CoresBeginOnce, CoresKeepTasksOnce, CoresRunWithinSegments, SegmentsAreUnique, SegmentsExist, SimWorkersAreUnique, SimWorkersExist, StepsAreUnique};

/// An event leads to at most one core.
pub fn steps_are_unique()
    ensures { StepsAreUnique }
{}

/// The segments of a valid script can be counted.
pub fn segments_exist()
    ensures { SegmentsExist }
{}

/// There is only one such number.
pub fn segments_are_unique()
    ensures { SegmentsAreUnique }
{}

/// Each answer of a core is the evaluation of its origin, whatever the events before.
pub fn cores_answer_by_evaluations()
    ensures { CoresAnswerByEvaluations }
{}

/// There are no more run events than segments.
pub fn cores_run_within_segments()
    ensures { CoresRunWithinSegments }
{}

/// Until the root is answered, some event that may happen is neither idle nor a fruitless look.
pub fn cores_are_lively()
    ensures { CoresAreLively }
{}

/// No origin is begun twice.
pub fn cores_begin_once()
    ensures { CoresBeginOnce }
{}

/// An origin that was begun and isn't answered has exactly one task, which is current or at one place in a deque or among the
/// stalled tasks.
pub fn cores_keep_tasks_once()
    ensures { CoresKeepTasksOnce }
{}

/// The choices of a simulation are exactly the events that may happen and are neither idle nor fruitless looks.
pub fn choices_make_progress()
    ensures { ChoicesMakeProgress }
{}

/// No choice is listed twice.
pub fn choices_are_distinct()
    ensures { ChoicesAreDistinct }
{}

/// At most one worker answers the root in a simulation.
pub fn sim_workers_are_unique()
    ensures { SimWorkersAreUnique }
{}

/// And one does: each simulation of a valid script ends.
pub fn sim_workers_exist()
    ensures { SimWorkersExist }
{}
