// What every part of the parser reads from, and its smallest steps.

ghost use Rattle.std.specs.Prelude.{◌≡◌, ℕ, ◌≤◌, ◌<◌, [], ◌∷◌, true, MatchOption};
ghost use Rattle.script_tokens.specs.Lexing.{text_of};
ghost use Rattle.script_tokens.specs.declared.token.Word.TheVariants as word;
ghost use Rattle.script_text.specs.Zips.{Zips};
ghost use Rattle.script_text.specs.Machine.{only};
ghost use Rattle.script_text.specs.Reads.{IsUnlimited, IsValue, IsName, IsNumber, ReadsName, ReadsNumber, NextIs, NextIsNot, NextLexeme, PassesWord, OpensBracket, Deepens, Reads, unexpected_in};

use crate::error::SyntaxError;
use crate::fault::TextFault;
use script_grammar::{LONGEST_NAME, Name, NameText, Number};
use script_tokens::{LexEnd, Lexeme, Version, Word};
use std::alloc::Global;

// A text, cut into lexemes.
#[derive(Drop)]
pub(crate) struct LexedText<'a> {
    pub(crate) alloc: Global,
    pub(crate) bytes: &'a [u8],
    pub(crate) version: Version,
    // The length of the text.
    pub(crate) end: u32,
    // Why there is no further lexeme.
    pub(crate) stop: LexEnd,
}

const DEEPEST: u8 = 64;

const LARGEST_NUMBER: u64 = 9_223_372_036_854_775_807;

// A lexeme's bytes. An offset past the end counts as the end.
pub(crate) fn text<'a>(source: &LexedText<'a>, lexeme: Lexeme) -> &'a [u8]
    ensures { result.now ≡ text_of source.now.bytes.now lexeme }
{
    let bytes = source.bytes;
    let end = bytes.len().min(lexeme.end as usize);
    let start = end.min(lexeme.start as usize);
    &bytes[start..end]
}

pub(crate) fn name_in(source: &LexedText<'_>, lexeme: Lexeme) -> Result<Name, SyntaxError>
    ensures { ReadsName source.now lexeme result }
{
    let text = text(source, lexeme);
    if text.len() > LONGEST_NAME {
        return Err(TextFault::NameTooLong.at(lexeme.start));
    }
    Ok(Name {
        bytes: NameText::of(text),
        at: lexeme.start,
    })
}

pub(crate) fn number_node(source: &LexedText<'_>, lexeme: Lexeme) -> Result<Number, SyntaxError>
    ensures { ReadsNumber source.now lexeme result }
{
    match decimal_value(text(source, lexeme)) {
        Some(value) => Ok(Number {
            at: lexeme.start,
            value: value as i64,
        }),
        None => Err(TextFault::NumberOutOfRange.at(lexeme.start)),
    }
}

// The number that digits write, if an i64 holds it.
fn decimal_value(digits: &[u8]) -> Option<u64>
    ensures { IsValue digits.now result }
{
    let mut value = 0;
    for &digit in digits {
        let digit = u64::from(digit.saturating_sub(b'0'));
        if value > (LARGEST_NUMBER - digit) / 10 {
            return None;
        }
        value = 10 * value + digit;
    }
    Some(value)
}

// The next lexeme and what follows it, where it is of this word.
pub(crate) fn next(tokens: &[Lexeme], word: Word) -> Option<(Lexeme, &[Lexeme])>
    ensures { MatchOption result (NextIsNot word tokens.now) (λ p. NextLexeme word p.0 tokens.now p.1.now) }
{
    let (first, rest) = tokens.split_first()?;
    if first.word == word {
        Some((*first, rest))
    } else {
        None
    }
}

// The offset of the next lexeme and what follows it, where it is of this word.
pub(crate) fn rest_after(tokens: &[Lexeme], word: Word) -> Option<(u32, &[Lexeme])>
    ensures { MatchOption result (NextIsNot word tokens.now) (λ p. NextIs word p.0 tokens.now p.1.now) }
{
    let (lexeme, rest) = next(tokens, word)?;
    Some((lexeme.start, rest))
}

// The fault where the next lexeme isn't expected.
pub(crate) fn unexpected(source: &LexedText<'_>, tokens: &[Lexeme]) -> SyntaxError
    ensures { result ≡ unexpected_in source.now tokens.now }
{
    match (tokens, source.stop) {
        ([first, ..], _) => TextFault::UnexpectedToken.at(first.start),
        ([], LexEnd::End) => TextFault::UnexpectedEnd.at(source.end),
        ([], LexEnd::NotAscii(at)) => TextFault::NotAscii.at(at),
        ([], LexEnd::NoToken(at)) => TextFault::UnexpectedToken.at(at),
    }
}

// One level deeper, at the token that opens it.
pub(crate) fn deeper(depth: u8, at: u32) -> Result<u8, SyntaxError>
    requires { depth ≤ 64 }
    ensures { Deepens depth at result }
{
    if depth == DEEPEST {
        Err(TextFault::NestedTooDeep.at(at))
    } else {
        Ok(depth + 1)
    }
}

// What follows this word, which must come next.
pub(crate) fn expect<'t>(
    source: &LexedText<'_>,
    tokens: &'t [Lexeme],
    word: Word,
    depth: u8,
) -> Result<&'t [Lexeme], SyntaxError>
    requires plain { IsUnlimited word }
    requires depth { depth ≤ 64 }
    ensures { PassesWord word source.now depth tokens.now result }
{
    match rest_after(tokens, word) {
        Some((_, rest)) => Ok(rest),
        None => Err(unexpected(source, tokens)),
    }
}

// What follows an opening bracket, which must come next.
pub(crate) fn open<'t>(
    source: &LexedText<'_>,
    tokens: &'t [Lexeme],
    word: Word,
    depth: u8,
) -> Result<&'t [Lexeme], SyntaxError>
    requires plain { IsUnlimited word }
    requires depth { depth ≤ 64 }
    ensures { OpensBracket word source.now depth tokens.now result }
{
    match rest_after(tokens, word) {
        Some((at, rest)) => {
            deeper(depth, at)?;
            Ok(rest)
        }
        None => Err(unexpected(source, tokens)),
    }
}

// What was read before, paired with what was read now. Where reading met a fault, what was read before is dropped.
pub(crate) fn zip<A: Drop, B>(before: A, now: Result<B, SyntaxError>) -> Result<(A, B), SyntaxError>
    ensures { Zips before now result }
{
    match now {
        Ok(now) => Ok((before, now)),
        Err(fault) => Err(fault),
    }
}

pub(crate) fn expect_name<'t>(
    source: &LexedText<'_>,
    tokens: &'t [Lexeme],
    depth: u8,
) -> Result<(Name, &'t [Lexeme]), SyntaxError>
    requires { depth ≤ 64 }
    ensures { Reads IsName (only word.Name ∷ []) source.now depth tokens.now result }
{
    match next(tokens, Word::Name) {
        Some((lexeme, rest)) => Ok((name_in(source, lexeme)?, rest)),
        None => Err(unexpected(source, tokens)),
    }
}

pub(crate) fn expect_number<'t>(
    source: &LexedText<'_>,
    tokens: &'t [Lexeme],
    depth: u8,
) -> Result<(Number, &'t [Lexeme]), SyntaxError>
    requires { depth ≤ 64 }
    ensures { Reads IsNumber (only word.Number ∷ []) source.now depth tokens.now result }
{
    match next(tokens, Word::Number) {
        Some((lexeme, rest)) => Ok((number_node(source, lexeme)?, rest)),
        None => Err(unexpected(source, tokens)),
    }
}
