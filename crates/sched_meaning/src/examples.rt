//! Small cores, event by event. Each function does nothing; its contract is the example.

ghost use Rattle.sched_meaning.specs.Examples.{NoLookWhereNoneIsStalled, NobodyStealsFromItself, OneChoiceAtFirst, StealsGoByThief, StolenRestAnswers};

// Two workers, and a main that begins one child and waits for it: main's run begins the child, worker 1 steals main's rest and runs
// it to its wait, its look is fruitless, worker 0 answers the child, and then worker 1's look makes main current and its run answers
// the root.
fn stolen_rest_answers()
    ensures { StolenRestAnswers }
{}

// A new core has no steal of worker 0 from worker 0.
fn nobody_steals_from_itself()
    ensures { NobodyStealsFromItself }
{}

// Nor a look, since no task waits.
fn no_look_where_none_is_stalled()
    ensures { NoLookWhereNoneIsStalled }
{}

// It has one choice: worker 0 runs.
fn one_choice_at_first()
    ensures { OneChoiceAtFirst }
{}

// Runs come before pops and these before steals, which are ordered by thief and then by victim.
fn steals_go_by_thief()
    ensures { StealsGoByThief }
{}
