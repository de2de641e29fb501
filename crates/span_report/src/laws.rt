//! Laws of the definitions, each the contract of a function that does nothing. A proof that needs a law calls it.

ghost use Rattle.span_report.specs.Nested.{ElisionIsNested};
ghost use Rattle.span_report.specs.Walks.{SpansAreWalked};

/// In a run's events, those of a child are between its spawn and its parent's next event.
#[tactic(auto, using(crate::proofs::Nested::Nesting::elision_is_nested))]
pub fn elision_is_nested()
    ensures { ElisionIsNested }
{}

// A walk along the events of the serial elision, which keeps only the open instances, finds the span.
#[tactic(auto, using(crate::proofs::LongestChains::Claims::spans_are_walked))]
pub(crate) fn spans_are_walked()
    ensures { SpansAreWalked }
{}
