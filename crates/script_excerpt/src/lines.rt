// The lines that show a fault of a text.

ghost use Rattle.std.specs.Prelude.{◌≡◌, ◌≤◌, ◌++◌, IfOk, OnOk, codes, length, map};
ghost use Rattle.script_excerpt.specs.Excerpts.{IsAdvice, IsEnd, IsExcerpt, IsPlaceExcerpt, IsWindow, caret_line, changes_draws, is_begun, is_unfit, is_at_version, is_misplaced_return, is_misplaced_version, place_line, blank_for, shown, text_lines, word_advice};

use crate::advice::follower;
use crate::bytes::extended;
use crate::position::{Position, line_start, position_of};
use crate::slips::{begins_with_word, reason};
use std::alloc::{AllocError, Global};

// How much of the line is shown at most: so many bytes before the caret, and so many from it on.
const MOST_SHOWN: usize = 72;

// The part of byte `at`'s line that is shown: its first byte, and the one after its last.
fn window(text: &[u8], at: usize) -> (usize, usize)
    requires { at ≤ length text.now }
    ensures { IsWindow text.now at result.0 result.1 }
{
    let mut end = at;
    while end < text.len() && end - at < MOST_SHOWN && text[end] != b'\n' {
        end += 1;
    }
    (line_start(text, at).max(at.saturating_sub(MOST_SHOWN)), end)
}

// The byte as it goes to a terminal. Control bytes would be obeyed as commands.
fn shown(byte: u8) -> u8
    ensures { result ≡ shown byte }
{
    match byte {
        b'\t' | b' '..=b'~' => byte,
        _ => b'?',
    }
}

// A blank as wide as the byte.
fn blank_for(byte: u8) -> u8
    ensures { result ≡ blank_for byte }
{
    match byte {
        b'\t' => b'\t',
        _ => b' ',
    }
}

/// Appends the bytes for a terminal: tabs and printable ASCII unchanged, any other byte as `?`. Where memory runs out,
/// some of them have been appended.
pub fn add_shown(lines: &mut Vec<u8>, bytes: &[u8]) -> Result<(), AllocError>
    ensures { OnOk result (lines.new.items ≡ lines.old.items ++ map shown bytes.now) }
{
    for &byte in bytes {
        lines.push(shown(byte))?;
    }
    Ok(())
}

// Appends blanks as wide as the bytes.
fn add_blanks(lines: &mut Vec<u8>, bytes: &[u8]) -> Result<(), AllocError>
    ensures { OnOk result (lines.new.items ≡ lines.old.items ++ map blank_for bytes.now) }
{
    for &byte in bytes {
        lines.push(blank_for(byte))?;
    }
    Ok(())
}

// The line with the line number and the column.
fn place_line(alloc: Global, place: Position) -> Result<Vec<u8>, AllocError>
    ensures { IfOk result (λ line. line.items ≡ place_line place.line place.column) }
{
    let line = format!(in alloc; "line {}, column {}\n", place.line, place.column)?;
    Ok(line.into_bytes())
}

// Appends the text between two bytes, and below it blanks up to byte `at`, where the caret goes.
fn with_text_lines(
    lines: Vec<u8>,
    text: &[u8],
    from: usize,
    at: usize,
    to: usize,
) -> Result<Vec<u8>, AllocError>
    requires { (from ≤ at) × (at ≤ to) × (to ≤ length text.now) }
    ensures { IfOk result (λ longer. longer.items ≡ lines.items ++ text_lines text.now from at to) }
{
    let mut lines = lines;
    let (line, before) = (&text[..to], &text[..at]);
    add_shown(&mut lines, &line[from..])?;
    let mut lines = extended(lines, b"\n")?;
    add_blanks(&mut lines, &before[from..])?;
    Ok(lines)
}

// Whether the text begins with `version 2` but that line goes on, which makes it a text of version 1, and the fault is
// there.
fn is_at_version(text: &[u8], at: usize) -> bool
    ensures { result ≡ is_at_version text.now at }
{
    at == 0 && text.starts_with(b"version 2") && !text.starts_with(b"version 2\n")
}

// Whether a `return` is at `at`, and the word that fits would close the block that it stands in.
fn is_misplaced_return(text: &[u8], at: usize, word: &str) -> bool
    requires { at ≤ length text.now }
    ensures { result ≡ is_misplaced_return text.now at word.now }
{
    word == "}" && text[at..].starts_with(b"return")
}

// Whether a version line is at `at`, and the word that fits would make a function of it.
fn is_misplaced_version(text: &[u8], at: usize, word: &str) -> bool
    requires { at ≤ length text.now }
    ensures { result ≡ is_misplaced_version text.now at word.now }
{
    word == "fn" && text[at..].starts_with(b"version ") && !text[at..].starts_with(b"version (")
}

// Whether the word raises a rank or begins another function, so that the script would draw other numbers.
fn changes_draws(word: &str) -> bool
    ensures { result ≡ changes_draws word.now }
{
    word == "scope"
        || word == "sync"
        || word == "spawn"
        || word == "draw"
        || word == "new"
        || word == "pfor"
        || word == "fn"
}

// Whether the first letter of the word stands at `at`, alone.
fn is_begun(text: &[u8], at: usize, word: &str) -> bool
    requires { at ≤ length text.now }
    ensures { result ≡ is_begun text.now at word.now }
{
    let word = word.as_bytes();
    begins_with_word(&text[at..], &word[..word.len().min(1)])
}

// Whether the word is too much to suggest: the script would draw other numbers with it, and nothing shows that it was
// meant.
fn is_unfit(text: &[u8], at: usize, word: &str) -> bool
    requires { at ≤ length text.now }
    ensures { result ≡ is_unfit text.now at word.now }
{
    changes_draws(word) && !is_begun(text, at, word)
}

// The advice for a word that fits at `at`: to put it there, mostly.
fn word_advice(alloc: Global, text: &[u8], at: usize, word: &str) -> Result<Vec<u8>, AllocError>
    requires { at ≤ length text.now }
    ensures { IfOk result (λ advice. advice.items ≡ word_advice text.now at word.now) }
{
    if is_misplaced_return(text, at, word) {
        return b", return stands at the end of its function".to_vec(alloc);
    }
    if is_misplaced_version(text, at, word) {
        return b", a version's line is version 2 and begins the text".to_vec(alloc);
    }
    if is_unfit(text, at, word) {
        return Ok(Vec::new(alloc));
    }
    let advice = b", here a ".to_vec(alloc)?;
    let advice = extended(advice, word.as_bytes())?;
    extended(advice, b" would do")
}

// The advice after the message: about the version line, else about the only word that fits. Empty where there is none.
fn advice(alloc: Global, text: &[u8], at: usize) -> Result<Vec<u8>, AllocError>
    requires { at ≤ length text.now }
    ensures { IfOk result (λ advice. IsAdvice text.now at advice.items) }
{
    if is_at_version(text, at) {
        return b", the line version 2 must end right after the 2".to_vec(alloc);
    }
    match follower(alloc, text, at)? {
        Some(word) => word_advice(alloc, text, at, word),
        None => Ok(Vec::new(alloc)),
    }
}

// The caret, the message and the advice.
fn caret_line(alloc: Global, message: &str, advice: &[u8]) -> Result<Vec<u8>, AllocError>
    ensures { IfOk result (λ line. line.items ≡ caret_line message.now advice.now) }
{
    let line = b"^ ".to_vec(alloc)?;
    let line = extended(line, message.as_bytes())?;
    let line = extended(line, advice)?;
    extended(line, b"\n")
}

// Appends one more line.
fn with_line(lines: Vec<u8>, line: &str) -> Result<Vec<u8>, AllocError>
    ensures { IfOk result (λ longer. longer.items ≡ lines.items ++ line.now ++ codes "\n") }
{
    let lines = extended(lines, line.as_bytes())?;
    extended(lines, b"\n")
}

// The lines from the caret's on: with a known habit of another language the reason, else the advice.
fn end_lines(alloc: Global, text: &[u8], at: usize, message: &str) -> Result<Vec<u8>, AllocError>
    requires { at ≤ length text.now }
    ensures { IfOk result (λ end. IsEnd text.now at message.now end.items) }
{
    match reason(text, at, message) {
        Some(reason) => {
            let line = caret_line(alloc, message, b"")?;
            with_line(line, reason)
        }
        None => {
            let advice = advice(alloc, text, at)?;
            caret_line(alloc, message, &advice)
        }
    }
}

/// Three lines about a fault at byte `at` of a text: line and column, the line itself, and a caret under the byte with
/// the message and the only word that fits there, if there is one (`follower`). Where that word would close the block
/// around a `return`, or make a function of a version line, the message says instead where these belong. Of a line that
/// begins with `version 2` and goes on it says that it must end there.
///
/// Where the fault is a habit of another language (`reason`), no word is named, and a fourth line says how it is
/// written here. A word that changes what the script draws, such as `sync`, `scope` or `fn`, is named only where its
/// first letter stands there alone.
///
/// Of a long line 72 bytes before the byte and 72 from it on are shown, a byte that isn't printable ASCII as `?`.
pub fn excerpt(alloc: Global, text: &[u8], at: usize, message: &str) -> Result<Vec<u8>, AllocError>
    requires { at ≤ length text.now }
    ensures { IfOk result (λ lines. IsExcerpt text.now at message.now lines.items) }
{
    let place = position_of(text, at);
    let (from, to) = window(text, at);
    let lines = place_line(alloc, place)?;
    let lines = with_text_lines(lines, text, from, at, to)?;
    let end = end_lines(alloc, text, at, message)?;
    extended(lines, &end)
}

/// The same three lines with the message alone: no advice and no reason. For a byte where the script is no fault of
/// syntax or check.
pub fn place_excerpt(
    alloc: Global,
    text: &[u8],
    at: usize,
    message: &str,
) -> Result<Vec<u8>, AllocError>
    requires { at ≤ length text.now }
    ensures { IfOk result (λ lines. IsPlaceExcerpt text.now at message.now lines.items) }
{
    let place = position_of(text, at);
    let (from, to) = window(text, at);
    let lines = place_line(alloc, place)?;
    let lines = with_text_lines(lines, text, from, at, to)?;
    let caret = caret_line(alloc, message, b"")?;
    extended(lines, &caret)
}
