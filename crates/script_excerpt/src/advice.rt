// The one word that is missing where a parser stops.

ghost use Rattle.std.specs.Prelude.{◌≡◌, ◌≤◌, ◌+◌, IfOk, IfSome, IsFalse, IsTrue, length, string_bytes, true, false};
ghost use Rattle.script_excerpt.specs.Followers.{GoesOn, with_word};

use crate::bytes::extended;
use script_text::{MAX_BYTES, SyntaxError, Version, parse};
use std::alloc::{AllocError, Global};

// A longer text gets no advice: each word that is tried costs a parse.
const LONGEST_ADVISED: usize = 65536;

// The words to try, `scope` in version 2 only.
static WORDS: [&str; 41] = [
    "fn", "id", "let", "spawn", "call", "sync", "print", "if", "else", "while", "pfor", "in",
    "into", "draw", "new", "return", "same", "older", "(", ")", "{", "}", "[", "]", ",", ";", "=",
    "+", "-", "*", "/", "%", "==", "!=", "<", "<=", ">", ">=", "->", "..", "scope",
];

// Whether a text of this version may have the word.
fn is_word(version: Version, word: &str) -> bool {
    version == Version::Two || word != "scope"
}

// The text with a word inserted before its byte `at`.
fn with_word(alloc: Global, text: &[u8], at: usize, word: &str) -> Result<Vec<u8>, AllocError>
    requires { at ≤ length text.now }
    ensures mended { IfOk result (λ mended. mended.items ≡ with_word text.now at word.now) }
    ensures longer { IfOk result (λ mended. length mended.items ≡ length text.now + length word.now + 2) }
{
    let mended = text[..at].to_vec(alloc)?;
    let mended = extended(mended, b" ")?;
    let mended = extended(mended, word.as_bytes())?;
    let mended = extended(mended, b" ")?;
    extended(mended, &text[at..])
}

// Whether the text with this word inserted is a script, or a parser gets past the token at `at`.
fn would_do(alloc: Global, text: &[u8], at: usize, word: &str) -> Result<bool, AllocError>
    requires within { at ≤ length text.now }
    requires text { length text.now ≤ 65536 }
    ensures { IfOk result (λ does. IsTrue does → GoesOn text.now at word.now) }
{
    let mended = with_word(alloc, text, at, word)?;
    if mended.len() > MAX_BYTES {
        return Ok(false);
    }
    match parse(alloc, &mended) {
        Ok(_) => Ok(true),
        Err(SyntaxError::Bad { at: place, .. }) => {
            let rest = text.len() - at;
            Ok(place as usize + rest > mended.len())
        }
        Err(SyntaxError::Memory) => Err(AllocError),
    }
}

/// The only word that fits before the token at byte `at`, at which a parser stops. A word fits if with it the text is a
/// script, or its first fault comes after that token. `None` where no word fits or several do, where the text is a
/// script already, and where it has more than 65536 bytes. It parses the text once for each word that it tries.
pub fn follower(alloc: Global, text: &[u8], at: usize) -> Result<Option<&'static str>, AllocError>
    requires { at ≤ length text.now }
    ensures { IfOk result (λ found. IfSome found (λ word. GoesOn text.now at word.now)) }
{
    if text.len() > LONGEST_ADVISED {
        return Ok(None);
    }
    if parse(alloc, text).is_ok() {
        return Ok(None);
    }
    let version = Version::of(text);
    let mut found = None;
    for &word in &WORDS {
        if !is_word(version, word) {
            continue;
        }
        if would_do(alloc, text, at, word)? {
            if found.is_some() {
                return Ok(None);
            }
            found = Some(word);
        }
    }
    Ok(found)
}
