//! Laws of the definitions, each the contract of a function that does nothing. A proof that needs a law calls it.

ghost use Rattle.script_check.specs.Laws.{FaultIsFirst, FaultIsUnique, FewerPendingStaysValid, LoopSetIsClosed, SlotsAreFound, VariablesAreFew};

/// Statements that are valid where some names are pending are valid where only some of these are, and leave no more pending.
pub fn fewer_pending_stays_valid()
    ensures { FewerPendingStaysValid }
{}

/// The set that a `while` is judged with contains all that its body leaves pending from that set: another iteration adds nothing.
pub fn loop_set_is_closed()
    ensures { LoopSetIsClosed }
{}

/// A script has at most one fault.
pub fn fault_is_unique()
    ensures { FaultIsUnique }
{}

/// Of all conditions that a script violates, its fault is one at the first offset, and of those there the one with the least
/// number.
pub fn fault_is_first()
    ensures { FaultIsFirst }
{}

/// In a valid script of a text the table of slots has each variable that is named, and the table of callees each function that is
/// called.
pub fn slots_are_found()
    ensures { SlotsAreFound }
{}

/// A function of a valid script declares at most 256 variables.
pub fn variables_are_few()
    ensures { VariablesAreFew }
{}
