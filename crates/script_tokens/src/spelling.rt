// Which word a text spells.

ghost use Rattle.std.specs.Prelude.{◌≡◌, ◌∷◌, [], map};
ghost use Rattle.script_tokens.specs.declared.version.Version.TheVariants as versions;
ghost use Rattle.script_tokens.specs.Word.{common_keywords, keywords, symbols, word_spelled};

use crate::token::Word;
use crate::version::Version;

// The keyword of a version with that text.
pub(crate) fn keyword(version: Version, text: &[u8]) -> Option<Word>
    ensures { result ≡ word_spelled (keywords version) text.now }
{
    match version {
        Version::One => common_keyword(text),
        Version::Two => keyword_of_two(text),
    }
}

// The keyword of version 2 with that text.
fn keyword_of_two(text: &[u8]) -> Option<Word>
    ensures { result ≡ word_spelled (keywords versions.Two) text.now }
{
    let scope: &[u8] = b"scope";
    if scope == text {
        return Some(Word::Scope);
    }
    common_keyword(text)
}

// The keywords of every version.
static COMMON_KEYWORDS: [(&[u8], Word); 18] = [
    (b"fn", Word::Fn),
    (b"id", Word::Id),
    (b"let", Word::Let),
    (b"spawn", Word::Spawn),
    (b"call", Word::Call),
    (b"sync", Word::Sync),
    (b"print", Word::Print),
    (b"if", Word::If),
    (b"else", Word::Else),
    (b"while", Word::While),
    (b"pfor", Word::Pfor),
    (b"in", Word::In),
    (b"into", Word::Into),
    (b"draw", Word::Draw),
    (b"new", Word::New),
    (b"return", Word::Return),
    (b"same", Word::Same),
    (b"older", Word::Older),
];

// The keyword with that text in every version.
fn common_keyword(text: &[u8]) -> Option<Word>
    ensures { result ≡ word_spelled common_keywords text.now }
{
    spelled(&COMMON_KEYWORDS, text)
}

// The word with that text in a table.
fn spelled(table: &[(&[u8], Word)], text: &[u8]) -> Option<Word>
    ensures { result ≡ word_spelled (map (λ s. (s.0.now, s.1)) table.now) text.now }
{
    for &(spelling, word) in table {
        if spelling == text {
            return Some(word);
        }
    }
    None
}

// The symbol of one byte.
pub(crate) fn short_symbol(byte: u8) -> Option<Word>
    ensures { result ≡ word_spelled symbols (byte ∷ []) }
{
    match byte {
        b'(' => Some(Word::Open),
        b')' => Some(Word::Close),
        b'{' => Some(Word::OpenBlock),
        b'}' => Some(Word::CloseBlock),
        b'[' => Some(Word::OpenItem),
        b']' => Some(Word::CloseItem),
        b',' => Some(Word::Comma),
        b';' => Some(Word::Semicolon),
        b'=' => Some(Word::Assign),
        b'+' => Some(Word::Plus),
        b'-' => Some(Word::Minus),
        b'*' => Some(Word::Times),
        b'/' => Some(Word::Over),
        b'%' => Some(Word::Modulo),
        b'<' => Some(Word::Lt),
        b'>' => Some(Word::Gt),
        _ => None,
    }
}

// The symbol of two bytes.
pub(crate) fn long_symbol(first: u8, second: u8) -> Option<Word>
    ensures { result ≡ word_spelled symbols (first ∷ second ∷ []) }
{
    match (first, second) {
        (b'=', b'=') => Some(Word::Eq),
        (b'!', b'=') => Some(Word::Ne),
        (b'<', b'=') => Some(Word::Le),
        (b'>', b'=') => Some(Word::Ge),
        (b'-', b'>') => Some(Word::Arrow),
        (b'.', b'.') => Some(Word::Range),
        _ => None,
    }
}
