// How a text is cut into tokens.

ghost use Rattle.std.specs.Prelude.{◌≡◌, ◌≤◌, ◌+◌, length, drop, IfOk};
ghost use Rattle.script_tokens.specs.Lexing.{Comes, IsLexed, LexemeAt, NextToken};

use crate::front::{front_token, gap_length};
use crate::memory::Memory;
use crate::token::{Lexeme, Token, TokenKind};
use crate::version::Version;
use std::alloc::Global;

/// The longest text, one mebibyte. So every offset is a `u32`.
pub const MAX_BYTES: usize = 1_048_576;

/// Why a text has no further lexeme.
#[derive(Clone, Copy, Debug, PartialEq, Eq)]
pub enum LexEnd {
    /// The text ends.
    End,
    /// There is a byte from 128 on at this offset, in a gap or where a token should begin.
    NotAscii(u32),
    /// There is a byte below 128 at this offset with which no token, blank or comment begins.
    NoToken(u32),
}

/// Why there is no next token: a [`LexEnd`] other than the end.
#[derive(Clone, Copy, Debug, PartialEq, Eq)]
pub enum TokenError {
    /// There is a byte from 128 on at this offset, in the gap or right after it.
    NotAscii(u32),
    /// There is a byte below 128 at this offset, right after the gap, with which no token begins.
    NoToken(u32),
}

/// A text's version, its lexemes in order, and why they end. The version line, the lexemes' texts and the gaps between them make up
/// the text up to where they end.
#[derive(Debug, Drop)]
pub struct Lexed {
    /// The version of the text.
    pub version: Version,
    /// The lexemes before the stop, in order.
    pub lexemes: Vec<Lexeme>,
    /// Why there are no further ones.
    pub stop: LexEnd,
}

// The lexeme at the offset `at`, where `rest` is the text from there on, or why there is none.
fn lexeme_at(version: Version, at: u32, rest: &[u8]) -> Result<Lexeme, LexEnd>
    requires { at + length rest.now ≤ MAX_BYTES }
    ensures { LexemeAt version at rest.now result }
{
    let Some((first, _)) = rest.split_first() else {
        return Err(LexEnd::End);
    };
    if !first.is_ascii() {
        return Err(LexEnd::NotAscii(at));
    }
    match front_token(version, rest) {
        Some((word, length)) => Ok(Lexeme {
            word,
            start: at,
            end: at + length as u32,
        }),
        None => Err(LexEnd::NoToken(at)),
    }
}

// The next lexeme from the offset `from` on, or why there is none.
fn next_lexeme(version: Version, bytes: &[u8], from: u32) -> Result<Lexeme, LexEnd>
    requires size { length bytes.now ≤ MAX_BYTES }
    requires within { from ≤ length bytes.now }
    ensures { Comes version from (drop from bytes.now) result }
{
    let left = &bytes[from as usize..];
    let gap = gap_length(left);
    lexeme_at(version, from + gap as u32, &left[gap..])
}

/// Cuts a text into the lexemes of its version, from after the version line to the text's end or to the first byte that fits
/// nowhere. Offsets are those in the whole text.
///
/// The time is linear in the length of the text, and the memory in the number of its lexemes. Only running out of memory makes it
/// `Err`: where a byte fits nowhere, the result has the lexemes before it, and its offset in `stop`.
pub fn lexemes(alloc: Global, bytes: &[u8]) -> Result<Lexed, Memory>
    requires { length bytes.now ≤ MAX_BYTES }
    ensures { IfOk result (λ lexed. IsLexed bytes.now lexed.version lexed.lexemes.items lexed.stop) }
{
    let version = Version::of(bytes);
    let mut lexemes = Vec::new(alloc);
    let mut from = version.begins_at();
    loop {
        match next_lexeme(version, bytes, from) {
            Ok(lexeme) => {
                lexemes.push(lexeme)?;
                from = lexeme.end;
            }
            Err(stop) => {
                return Ok(Lexed {
                    version,
                    lexemes,
                    stop,
                });
            }
        }
    }
}

/// The next token of a version from the offset `from` on, after the blanks and comments there. It takes no memory, and doesn't
/// look for the text's version.
///
/// At the end of the text this is the token [`TokenKind::End`], whose `start` and `end` are the text's length. It is `Err` exactly
/// where a byte from 128 on is among these blanks and comments or right after them (`NotAscii`, with the offset of the first such
/// byte), or else where the byte right after them begins no token (`NoToken`, with its offset). An offset inside a token or a
/// comment is taken as the start of a text.
///
/// For reading a text token by token, as an editor's highlighting does: the tokens of `a..b` from 0 on are `a` at 0 to 1, `..` at 1
/// to 3, `b` at 3 to 4, and `End` at 4 to 4, each from where the one before it ended.
pub fn next_token(bytes: &[u8], from: u32, version: Version) -> Result<Token, TokenError>
    requires size { length bytes.now ≤ MAX_BYTES }
    requires within { from ≤ length bytes.now }
    ensures { NextToken version bytes.now from result }
{
    match next_lexeme(version, bytes, from) {
        Ok(lexeme) => Ok(Token {
            kind: lexeme.word.kind(),
            start: lexeme.start,
            end: lexeme.end,
        }),
        Err(LexEnd::End) => {
            let end = bytes.len() as u32;
            Ok(Token {
                kind: TokenKind::End,
                start: end,
                end,
            })
        }
        Err(LexEnd::NotAscii(at)) => Err(TokenError::NotAscii(at)),
        Err(LexEnd::NoToken(at)) => Err(TokenError::NoToken(at)),
    }
}
