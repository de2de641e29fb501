//! Laws of the texts that aren't pedigrees. Each function does nothing, and is proved to ensure its law.

ghost use Rattle.ped_path.specs.Laws.{LeastRuleIsReported, RefusalsAreUnique};

/// A text has at most one refusal, apart from `Memory`.
pub fn refusals_are_unique()
    ensures { RefusalsAreUnique }
{}

/// All rules that a text breaks are broken at one offset, and the refusal names the one with the least number: a needless zero
/// before a number that is too large.
pub fn least_rule_is_reported()
    ensures { LeastRuleIsReported }
{}
