// The gap and the token that some bytes begin with.

ghost use Rattle.std.specs.Prelude.{◌≡◌, ◌≤◌, ◌∷◌, [], length, option_and_then, slice_get};
ghost use Rattle.std.specs.List.{prefix_len};
ghost use Rattle.std.specs.Char.{is_ascii_digit};
ghost use Rattle.script_tokens.specs.Word.{is_letter as letter, is_name_byte as name_byte, symbols, word_spelled};
ghost use Rattle.script_tokens.specs.Lexing.{Fronts, gap_length as length_of_gap, is_blank as blank};

use crate::spelling::{keyword, long_symbol, short_symbol};
use crate::token::Word;
use crate::version::Version;

fn is_blank(byte: u8) -> bool
    ensures { result ≡ blank byte }
{
    matches!(byte, b' ' | b'\t' | b'\r' | b'\n')
}

fn is_letter(byte: u8) -> bool
    ensures { result ≡ letter byte }
{
    byte.is_ascii_alphabetic() || byte == b'_'
}

fn is_name_byte(byte: u8) -> bool
    ensures { result ≡ name_byte byte }
{
    is_letter(byte) || byte.is_ascii_digit()
}

// The length of the blanks and comments that the bytes begin with.
pub(crate) fn gap_length(bytes: &[u8]) -> usize
    ensures value { result ≡ length_of_gap bytes.now }
    ensures within { result ≤ length bytes.now }
{
    let mut in_comment = false;
    for (n, &byte) in bytes.iter().enumerate() {
        if in_comment {
            if !byte.is_ascii() {
                return n;
            }
            in_comment = byte != b'\n';
        } else {
            if !is_blank(byte) && byte != b'#' {
                return n;
            }
            in_comment = byte == b'#';
        }
    }
    bytes.len()
}

fn name_length(bytes: &[u8]) -> usize
    ensures value { result ≡ prefix_len name_byte bytes.now }
    ensures within { result ≤ length bytes.now }
{
    bytes.iter().take_while(|b| is_name_byte(**b)).count()
}

fn digits_length(bytes: &[u8]) -> usize
    ensures value { result ≡ prefix_len is_ascii_digit bytes.now }
    ensures within { result ≤ length bytes.now }
{
    bytes.iter().take_while(|b| b.is_ascii_digit()).count()
}

// The symbol that the first byte makes with the next.
fn long_symbol_at(first: u8, rest: &[u8]) -> Option<Word>
    ensures { result ≡ option_and_then (λ second. word_spelled symbols (first ∷ second ∷ [])) (slice_get rest.now 0) }
{
    long_symbol(first, *rest.first()?)
}

// The longest token that the bytes begin with, and its length.
pub(crate) fn front_token(version: Version, bytes: &[u8]) -> Option<(Word, usize)>
    ensures { Fronts version bytes.now result }
{
    let (first, rest) = bytes.split_first()?;
    if is_letter(*first) {
        let end = 1 + name_length(rest);
        return Some((keyword(version, &bytes[..end]).unwrap_or(Word::Name), end));
    }
    if first.is_ascii_digit() {
        return Some((Word::Number, 1 + digits_length(rest)));
    }
    if let Some(word) = long_symbol_at(*first, rest) {
        return Some((word, 2));
    }
    Some((short_symbol(*first)?, 1))
}
