//! Laws of the lexemes of every text. Each function does nothing, and is proved to ensure its law.

ghost use Rattle.script_tokens.specs.Laws.{EveryTextIsCut, LexemesAreTokens, LexemesStandInOrder, LexingIsUnique, NextTokenIsUnique, OneMoreByteDecides, VersionOneHasNoScope, VersionsBegin};

/// A token that some bytes begin with is the longest one there if it and the byte after it are no token.
pub fn one_more_byte_decides()
    ensures { OneMoreByteDecides }
{}

/// Every text can be cut into lexemes.
pub fn every_text_is_cut()
    ensures { EveryTextIsCut }
{}

/// A text is cut into lexemes in only one way, and they end for only one reason.
pub fn lexing_is_unique()
    ensures { LexingIsUnique }
{}

/// [`next_token`](crate::next_token) has only one answer.
pub fn next_token_is_unique()
    ensures { NextTokenIsUnique }
{}

/// No lexeme is empty, each begins where the one before it ended or later, and all are within the text.
pub fn lexemes_stand_in_order()
    ensures { LexemesStandInOrder }
{}

/// A lexeme's text is the token that its word says.
pub fn lexemes_are_tokens()
    ensures { LexemesAreTokens }
{}

/// No lexeme of version 1 is the keyword `scope`.
pub fn version_one_has_no_scope()
    ensures { VersionOneHasNoScope }
{}

/// A text is of version 2 exactly where it begins with the version line.
pub fn versions_begin()
    ensures { VersionsBegin }
{}
