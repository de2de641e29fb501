//! A law of environments, the contract of a function that does nothing.

ghost use Rattle.strand_values.specs.BySlots.{SlotsMeanNames};

/// Where a table has the slot of each variable of an expression, evaluating by slots gives the same value as by names.
pub fn slots_mean_names()
    ensures { SlotsMeanNames }
{}
