//! Laws of every text. Each function does nothing, and is proved to ensure its law.

ghost use Rattle.script_text.specs.Laws.{FaultIsFirst, FaultIsUnique, GapsAreBlanksAndComments, NestingCountsOpen, TreeExcludesFault, TreeIsUnique};

/// A text is of at most one script.
pub fn tree_is_unique()
    ensures { TreeIsUnique }
{}

/// A text has at most one fault, with one number. The first token at fault breaks only one limit: a name, a number and the word `fn`,
/// which have limits of their own, don't nest deeper than what comes before them.
pub fn fault_is_unique()
    ensures { FaultIsUnique }
{}

/// Of all faults that a text has, each by itself, its fault is the one at the first offset, and of several there the one with the
/// least number. No other fault is.
pub fn fault_is_first()
    ensures { FaultIsFirst }
{}

/// The text of a script has no fault.
pub fn tree_excludes_fault()
    ensures { TreeExcludesFault }
{}

/// The gap before a token is a list of blanks and comments, and neither follows it.
pub fn gaps_are_blanks_and_comments()
    ensures { GapsAreBlanksAndComments }
{}

/// The nesting at each token of a script counts what is open there: the closing brackets that are still to come, and the unary
/// minuses whose operand hasn't ended. Both are counted by a machine that reads the tokens from left to right and knows what may come
/// next.
pub fn nesting_counts_open()
    ensures { NestingCountsOpen }
{}
