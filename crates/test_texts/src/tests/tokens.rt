// Worked texts, and the largest ones.

use super::same;
use script_tokens::{
    LexEnd, Lexed, MAX_BYTES, Token, TokenError, TokenKind, Version, Word, lexemes, next_token,
};
use std::alloc::{AllocError, Global};
use std::process::Abort;
use std::test::Fail;

// A text, the texts of its lexemes joined by `|`, and why they end.
type Cut = (&'static [u8], &'static [u8], LexEnd);

static CUTS: [Cut; 34] = [
    (b"", b"", LexEnd::End),
    (b"12abc", b"12|abc", LexEnd::End),
    (b"007", b"007", LexEnd::End),
    (b"_ _1 x9_Z", b"_|_1|x9_Z", LexEnd::End),
    (b"fn fnx Fn", b"fn|fnx|Fn", LexEnd::End),
    (b"if(x)", b"if|(|x|)", LexEnd::End),
    (b"a..b", b"a|..|b", LexEnd::End),
    (b"0..5", b"0|..|5", LexEnd::End),
    (b"->- >", b"->|-|>", LexEnd::End),
    (b"<==", b"<=|=", LexEnd::End),
    (b"= ==", b"=|==", LexEnd::End),
    (b"!=>=>", b"!=|>=|>", LexEnd::End),
    (b"--1", b"-|-|1", LexEnd::End),
    (b" \t\r\na", b"a", LexEnd::End),
    (b"a#b", b"a", LexEnd::End),
    (b"#a\nb#c\n", b"b", LexEnd::End),
    (b"#\x00\x01\x7f##\nb", b"b", LexEnd::End),
    (b"a # \xc8", b"a", LexEnd::NotAscii(4)),
    (b"# \xc8\nb", b"", LexEnd::NotAscii(2)),
    (b"ab\xff", b"ab", LexEnd::NotAscii(2)),
    (b"1 \x80", b"1", LexEnd::NotAscii(2)),
    (b"\x80!", b"", LexEnd::NotAscii(0)),
    (b"a ! \xff", b"a", LexEnd::NoToken(2)),
    (b"!", b"", LexEnd::NoToken(0)),
    (b"1.5", b"1", LexEnd::NoToken(1)),
    (b"...", b"..", LexEnd::NoToken(2)),
    (b"\x01", b"", LexEnd::NoToken(0)),
    (b"a\x7f", b"a", LexEnd::NoToken(1)),
    (b"\x0b", b"", LexEnd::NoToken(0)),
    (b"version 2\nscope x", b"scope|x", LexEnd::End),
    (b"version 2\n", b"", LexEnd::End),
    (b"version 2", b"version|2", LexEnd::End),
    (b"version 2\n!", b"", LexEnd::NoToken(10)),
    (b"version 2\n# \xff", b"", LexEnd::NotAscii(12)),
];

// The texts of the lexemes, joined by `|`.
fn joined(
    rt: &impl Abort,
    alloc: Global,
    text: &[u8],
    lexed: &Lexed,
) -> Result<Vec<u8>, AllocError> {
    let mut joined = Vec::new(alloc);
    for lexeme in &lexed.lexemes {
        assert!(rt; lexeme.start <= lexeme.end);
        assert!(rt; lexeme.end as usize <= text.len());
        if !joined.is_empty() {
            joined.push(b'|')?;
        }
        joined.extend_from_slice(lexeme.text(text))?;
    }
    Ok(joined)
}

fn assert_cut(
    rt: &impl Abort,
    alloc: Global,
    text: &[u8],
    parts: &[u8],
    stop: LexEnd,
) -> Result<(), Fail> {
    assert!(rt; text.len() <= MAX_BYTES);
    let lexed = lexemes(alloc, text)?;
    same(rt, format_args!("in {text:?}"), lexed.stop, stop);
    let joined = joined(rt, alloc, text, &lexed)?;
    same(rt, format_args!("in {text:?}"), joined.as_slice(), parts);
    Ok(())
}

#[test]
fn tokens_are_the_longest_that_fit(rt: HostRuntime) -> Result<(), Fail> {
    for &(text, parts, stop) in &CUTS {
        assert_cut(&rt, rt.alloc(), text, parts, stop)?;
    }
    Ok(())
}

const ALL_WORDS: &[u8] =
    b"fn id let spawn call sync print if else while pfor in into draw new return same older
    ( ) { } [ ] , ; = + - * / % == != < <= > >= -> ..";

static WORDS: [Word; 40] = [
    Word::Fn,
    Word::Id,
    Word::Let,
    Word::Spawn,
    Word::Call,
    Word::Sync,
    Word::Print,
    Word::If,
    Word::Else,
    Word::While,
    Word::Pfor,
    Word::In,
    Word::Into,
    Word::Draw,
    Word::New,
    Word::Return,
    Word::Same,
    Word::Older,
    Word::Open,
    Word::Close,
    Word::OpenBlock,
    Word::CloseBlock,
    Word::OpenItem,
    Word::CloseItem,
    Word::Comma,
    Word::Semicolon,
    Word::Assign,
    Word::Plus,
    Word::Minus,
    Word::Times,
    Word::Over,
    Word::Modulo,
    Word::Eq,
    Word::Ne,
    Word::Lt,
    Word::Le,
    Word::Gt,
    Word::Ge,
    Word::Arrow,
    Word::Range,
];

// The kind of the word that begins at this offset.
fn kind_at(start: u32) -> TokenKind {
    if start < 84 {
        TokenKind::Keyword
    } else {
        TokenKind::Symbol
    }
}

#[test]
fn keywords_and_symbols_have_their_words(rt: HostRuntime) -> Result<(), Fail> {
    let lexed = lexemes(rt.alloc(), ALL_WORDS)?;
    same(&rt, "stop", lexed.stop, LexEnd::End);
    same(&rt, "count", lexed.lexemes.len(), WORDS.len());
    for (found, word) in lexed.lexemes.iter().zip(&WORDS) {
        same(&rt, found.start, found.word, *word);
        same(&rt, found.start, found.word.kind(), kind_at(found.start));
    }
    Ok(())
}

// A text, an offset, and the token that comes next there, with its start and end.
static NEXT_TOKENS: [(&[u8], u32, TokenKind, u32, u32); 9] = [
    (b"", 0, TokenKind::End, 0, 0),
    (b" x ", 0, TokenKind::Name, 1, 2),
    (b" x ", 2, TokenKind::End, 3, 3),
    (b" x ", 3, TokenKind::End, 3, 3),
    (b"let7", 1, TokenKind::Name, 1, 4),
    (b"x # note", 1, TokenKind::End, 8, 8),
    (b"x #\n99;", 1, TokenKind::Number, 4, 6),
    (b"==", 0, TokenKind::Symbol, 0, 2),
    (b"==", 1, TokenKind::Symbol, 1, 2),
];

static TOKEN_ERRORS: [(&[u8], u32, TokenError); 3] = [
    (b"x # \xff", 1, TokenError::NotAscii(4)),
    (b"\xff!", 0, TokenError::NotAscii(0)),
    (b"x !\xff", 1, TokenError::NoToken(2)),
];

fn assert_next(rt: &impl Abort, text: &[u8], from: u32, wanted: Result<Token, TokenError>) {
    assert!(rt; text.len() <= MAX_BYTES);
    assert!(rt; from as usize <= text.len());
    let found = next_token(text, from, Version::One);
    same(rt, format_args!("at {from} in {text:?}"), found, wanted);
}

#[test]
fn the_next_token_stands_after_the_gap(rt: HostRuntime) {
    for &(text, from, kind, start, end) in &NEXT_TOKENS {
        assert_next(&rt, text, from, Ok(Token { kind, start, end }));
    }
    for &(text, from, token_error) in &TOKEN_ERRORS {
        assert_next(&rt, text, from, Err(token_error));
    }
}

// A byte, how many lexemes so many of it are, and the word of the first.
static LARGEST: [(u8, usize, Option<Word>); 5] = [
    (b'[', MAX_BYTES, Some(Word::OpenItem)),
    (b'n', 1, Some(Word::Name)),
    (b'7', 1, Some(Word::Number)),
    (b'#', 0, None),
    (b' ', 0, None),
];

// The lexemes of as many of this byte as there may be.
fn largest(alloc: Global, byte: u8) -> Result<Lexed, Fail> {
    let text = vec![in alloc; byte; MAX_BYTES]?;
    Ok(lexemes(alloc, &text)?)
}

#[test]
fn the_largest_texts_are_read(rt: HostRuntime) -> Result<(), Fail> {
    for &(byte, count, first) in &LARGEST {
        let lexed = largest(rt.alloc(), byte)?;
        same(&rt, byte, lexed.stop, LexEnd::End);
        same(&rt, byte, lexed.lexemes.len(), count);
        same(&rt, byte, lexed.lexemes.first().map(|l| l.word), first);
    }
    Ok(())
}

// A text, its version, and the word and the offset of its first lexeme.
static VERSIONS: [(&[u8], Version, Word, u32); 6] = [
    (b"scope", Version::One, Word::Name, 0),
    (b"version 2\nscope", Version::Two, Word::Scope, 10),
    (b"version 2\r\nscope", Version::One, Word::Name, 0),
    (b" version 2\nscope", Version::One, Word::Name, 1),
    (b"version 3\nscope", Version::One, Word::Name, 0),
    (b"version 2\n\nscopes", Version::Two, Word::Name, 11),
];

#[test]
fn a_text_of_version_2_begins_with_its_line(rt: HostRuntime) -> Result<(), Fail> {
    for &(text, version, word, start) in &VERSIONS {
        assert!(rt; text.len() <= MAX_BYTES);
        let lexed = lexemes(rt.alloc(), text)?;
        same(&rt, format_args!("{text:?}"), lexed.version, version);
        let first = lexed.lexemes.first().map(|l| (l.word, l.start));
        same(&rt, format_args!("{text:?}"), first, Some((word, start)));
    }
    Ok(())
}

#[test]
fn scope_is_a_keyword_of_version_2_alone(rt: HostRuntime) {
    for (version, kind) in [
        (Version::One, TokenKind::Name),
        (Version::Two, TokenKind::Keyword),
    ] {
        let wanted = Ok(Token {
            kind,
            start: 1,
            end: 6,
        });
        same(&rt, "scope", next_token(b" scope ", 0, version), wanted);
    }
    same(&rt, "scope", Word::Scope.kind(), TokenKind::Keyword);
}
