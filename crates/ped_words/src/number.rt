ghost use Rattle.std.specs.Prelude.{◌≡◌, ◌≤◌, None, Some, IfOk, IfErr, MatchResult, map, true};
ghost use Rattle.std.specs.Char.{is_ascii_digit};
ghost use Rattle.std.specs.List.{list_all};
ghost use Rattle.std.specs.Option.{option_map};
ghost use Rattle.ped_words.specs.Numbers.{AreValues, are_few, is_number, list_rule, number_rule, numbers_of, parts_of, number_in_word};

use crate::rule::Rule;
use std::alloc::{AllocError, Global};

/// Whether a word is a number: `0`, or digits of which the first isn't `0`.
#[tactic(auto, using(crate::proofs::NumberLemmas::all_digits_same))]
pub fn is_number(word: &str) -> bool
    ensures { result ≡ is_number word.now }
{
    let bytes = word.as_bytes();
    !bytes.is_empty() && all_digits(bytes) && (bytes.len() <= 1 || bytes[0] != b'0')
}

fn all_digits(bytes: &[u8]) -> bool
    ensures { result ≡ list_all is_ascii_digit bytes.now }
{
    bytes.iter().all(|byte| byte.is_ascii_digit())
}

// The word read as a number from `least` to `most`.
pub(crate) fn number_in(word: &str, least: u64, most: u64) -> Result<u64, Rule>
    ensures range { IfOk result (λ n. (least ≤ n) × (n ≤ most)) }
    ensures ok { IfOk result (λ n. (number_rule least most word.now ≡ None) × (n ≡ number_in_word word.now)) }
    ensures err { IfErr result (λ rule. number_rule least most word.now ≡ Some rule) }
{
    if !is_number(word) {
        return Err(Rule::BadValue);
    }
    match word.parse::<u64>() {
        Ok(value) if least <= value && value <= most => Ok(value),
        _ => Err(Rule::OutOfRange),
    }
}

// The word read as numbers joined by commas, at most `most` of them if that is given. The form of all is judged before
// the range of any.
pub(crate) fn number_list(
    alloc: Global,
    word: &str,
    most: Option<u64>,
) -> Result<Result<Vec<u64>, Rule>, AllocError>
    ensures { IfOk result (λ read. MatchResult read (λ numbers. (list_rule most word.now ≡ None) × (numbers.items ≡ numbers_of word.now)) (λ rule. list_rule most word.now ≡ Some rule)) }
{
    let parts = split_list(alloc, word)?;
    if !all_numbers(&parts) {
        return Ok(Err(Rule::BadValue));
    }
    if !are_few(most, parts.len() as u64) {
        return Ok(Err(Rule::OutOfRange));
    }
    match values(alloc, &parts)? {
        Some(numbers) => Ok(Ok(numbers)),
        None => Ok(Err(Rule::OutOfRange)),
    }
}

fn are_few(most: Option<u64>, count: u64) -> bool
    ensures { result ≡ are_few most count }
{
    match most {
        Some(most) => count <= most,
        None => true,
    }
}

fn split_list(alloc: Global, word: &str) -> Result<Vec<&str>, AllocError>
    ensures { IfOk result (λ parts. map (λ x. x.now) parts.items ≡ parts_of word.now) }
{
    word.split(',').collect(alloc)
}

fn all_numbers(parts: &[&str]) -> bool
    ensures { result ≡ list_all (λ x. is_number x.now) parts.now }
{
    parts.iter().all(|part| is_number(part))
}

// The values of these numbers, or `None` where one of them doesn't fit a `u64`.
fn values(alloc: Global, parts: &[&str]) -> Result<Option<Vec<u64>>, AllocError>
    requires { list_all (λ x. is_number x.now) parts.now ≡ true }
    ensures { IfOk result (λ values. AreValues parts.now (option_map (λ v. v.items) values)) }
{
    let mut values = Vec::new(alloc);
    for part in parts {
        match number_in(part, 0, u64::MAX) {
            Ok(value) => values.push(value)?,
            Err(_) => return Ok(None),
        }
    }
    Ok(Some(values))
}
