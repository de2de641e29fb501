// Recognizes habits of other languages by what stands around the offset at which a parser stops.

ghost use Rattle.std.specs.Prelude.{◌≡◌, ◌<◌, ◌≤◌, IfSome, length};
ghost use Rattle.script_excerpt.specs.Slips.{IsFront, IsNameStart, IsTrimmed, IsWithoutName, begins_with_word, begins_in_name, ends_with_word, ends_in_name, is_blank, is_split};
ghost use Rattle.script_tokens.specs.Word.{is_name_byte as name_byte};

use crate::position::line_start;
use crate::reasons::{NAMES, NUMBERS, OTHERS, PARAMETERS, RETURNS, TOKENS, TOKENS_AFTER_NAMES};

fn is_blank(byte: u8) -> bool
    ensures { result ≡ is_blank byte }
{
    matches!(byte, b' ' | b'\t' | b'\r' | b'\n')
}

fn is_name_byte(byte: u8) -> bool
    ensures { result ≡ name_byte byte }
{
    byte.is_ascii_alphabetic() || byte == b'_' || byte.is_ascii_digit()
}

fn begins_in_name(bytes: &[u8]) -> bool
    ensures { result ≡ begins_in_name bytes.now }
{
    match bytes.first() {
        Some(&byte) => is_name_byte(byte),
        None => false,
    }
}

fn ends_in_name(bytes: &[u8]) -> bool
    ensures { result ≡ ends_in_name bytes.now }
{
    begins_in_name(&bytes[bytes.len().saturating_sub(1)..])
}

// Whether there is no name of which one part ends the first bytes and another begins the rest.
fn is_split(front: &[u8], rest: &[u8]) -> bool
    ensures { result ≡ is_split front.now rest.now }
{
    !(ends_in_name(front) && begins_in_name(rest))
}

// Whether the bytes end with this word, and not with a longer name that ends so.
fn ends_with_word(front: &[u8], word: &[u8]) -> bool
    ensures { result ≡ ends_with_word front.now word.now }
{
    front.ends_with(word) && is_split(&front[..front.len() - word.len()], word)
}

// Whether the bytes begin with this word, and not with a longer name that begins so.
pub(crate) fn begins_with_word(rest: &[u8], word: &[u8]) -> bool
    ensures { result ≡ begins_with_word rest.now word.now }
{
    rest.starts_with(word) && is_split(word, &rest[word.len()..])
}

// The length of the bytes without the blanks at their end.
fn trimmed(bytes: &[u8]) -> usize
    ensures { IsTrimmed bytes.now result }
{
    let mut end = bytes.len();
    while 0 < end && is_blank(bytes[end - 1]) {
        end -= 1;
    }
    end
}

// Where the name at the end of the bytes begins.
fn name_start(bytes: &[u8]) -> usize
    ensures { IsNameStart bytes.now result }
{
    let mut start = bytes.len();
    while 0 < start && is_name_byte(bytes[start - 1]) {
        start -= 1;
    }
    start
}

// What is before a byte, without the blanks at its end.
fn front(text: &[u8], at: usize) -> &[u8]
    requires { at ≤ length text.now }
    ensures { IsFront text.now at result.now }
{
    let before = &text[..at];
    &before[..trimmed(before)]
}

// Where the comment begins in which the bytes end, if they end in one. A `#` always begins one.
fn comment_start(bytes: &[u8]) -> Option<usize>
    ensures { IfSome result (λ start. start < length bytes.now) }
{
    let from = line_start(bytes, bytes.len());
    let line = &bytes[from..];
    match line.iter().position(|&byte| byte == b'#') {
        Some(inside) => Some(from + inside),
        None => None,
    }
}

// What is before a byte, without the comments and blanks at its end.
fn code_before(text: &[u8], at: usize) -> &[u8]
    requires { at ≤ length text.now }
{
    let mut end = front(text, at).len();
    while let Some(start) = comment_start(&text[..end]) {
        end = front(text, start).len();
    }
    &text[..end]
}

// What is before the name at the end of the bytes, without the blanks between; `None` where they don't end with a name.
fn without_name(bytes: &[u8]) -> Option<&[u8]>
    ensures { IfSome result (λ rest. IsWithoutName bytes.now rest.now) }
{
    if !ends_in_name(bytes) {
        return None;
    }
    let before = &bytes[..name_start(bytes)];
    Some(&before[..trimmed(before)])
}

// The reason in the first row whose words stand before and behind the offset.
fn first_reason(
    rows: &[(&'static str, &'static str, &'static str)],
    front: &[u8],
    rest: &[u8],
) -> Option<&'static str> {
    for &(before, word, reason) in rows {
        if ends_with_word(front, before.as_bytes()) && begins_with_word(rest, word.as_bytes()) {
            return Some(reason);
        }
    }
    None
}

// The bytes without the blanks that they begin with.
fn without_blanks(bytes: &[u8]) -> &[u8] {
    let mut from = 0;
    while from < bytes.len() && is_blank(bytes[from]) {
        from += 1;
    }
    &bytes[from..]
}

// The statement that the bytes end with, if it is one that ends with a semicolon.
fn statement(front: &[u8]) -> Option<&[u8]> {
    let (&last, before) = front.split_last()?;
    if last != b';' {
        return None;
    }
    let mut from = before.len();
    while 0 < from && !matches!(before[from - 1], b';' | b'{' | b'}') {
        from -= 1;
    }
    Some(without_blanks(&before[from..]))
}

// Whether the bytes end inside the parentheses after `fn` and a name.
fn ends_in_parameters(front: &[u8]) -> bool {
    let mut from = front.len();
    while 0 < from && is_parameter_byte(front[from - 1]) {
        from -= 1;
    }
    if from == 0 || front[from - 1] != b'(' {
        return false;
    }
    let before = &front[..from - 1];
    match without_name(&before[..trimmed(before)]) {
        Some(before) => ends_with_word(before, b"fn"),
        None => false,
    }
}

fn is_parameter_byte(byte: u8) -> bool {
    is_name_byte(byte) || is_blank(byte) || byte == b','
}

// The reason at a word among a function's parameters: it is no name, or it follows one without a comma.
fn parameter_reason(front: &[u8], rest: &[u8]) -> Option<&'static str> {
    if !begins_in_name(rest) || !ends_in_parameters(front) {
        return None;
    }
    if ends_in_name(front) && !ends_with_word(front, b"id") {
        return Some(PARAMETERS);
    }
    Some(NAMES)
}

// Whether a statement may begin after the bytes.
fn ends_a_statement(front: &[u8]) -> bool {
    matches!(front.last(), Some(b';' | b'{' | b'}'))
}

// Whether a `return` isn't at the end of its function: the parser stops at it, or right after its statement.
fn is_return_early(front: &[u8], rest: &[u8]) -> bool {
    if begins_with_word(rest, b"return") {
        return ends_a_statement(front);
    }
    let follows_return = statement(front).is_some_and(|it| begins_with_word(it, b"return"));
    follows_return && !begins_with_word(rest, b"}") && !begins_with_word(rest, b"fn")
}

// Whether a name follows a digit without a gap.
fn follows_digit(text: &[u8], at: usize) -> bool
    requires { at ≤ length text.now }
{
    match text[..at].last() {
        Some(byte) => byte.is_ascii_digit() && begins_in_name(&text[at..]),
        None => false,
    }
}

// The reason at an unexpected token.
fn token_reason(text: &[u8], at: usize) -> Option<&'static str>
    requires { at ≤ length text.now }
{
    let (front, rest) = (code_before(text, at), &text[at..]);
    if follows_digit(text, at) {
        return Some(NUMBERS);
    }
    if is_return_early(front, rest) {
        return Some(RETURNS);
    }
    if let Some(reason) = parameter_reason(front, rest) {
        return Some(reason);
    }
    match first_reason(&TOKENS, front, rest) {
        Some(reason) => Some(reason),
        None => first_reason(&TOKENS_AFTER_NAMES, without_name(front)?, rest),
    }
}

/// How to write here what stands at byte `at` of a text, where the parser stopped with this message because of a known
/// habit of another language. `None` where no such habit is recognized.
pub fn reason(text: &[u8], at: usize, message: &str) -> Option<&'static str>
    requires { at ≤ length text.now }
{
    if message == "unexpected token" {
        return token_reason(text, at);
    }
    for &(fault, word, reason) in &OTHERS {
        if fault == message && begins_with_word(&text[at..], word.as_bytes()) {
            return Some(reason);
        }
    }
    None
}
