ghost use Rattle.std.specs.Prelude.{◌≡◌, ◌+◌, ◌*◌, ◌<◌, ◌^◌, OnOk, IfOk, IfErr, None, Some, false, length, map, string_bytes};
ghost use Rattle.ped_words.specs.Commands.{IsLawful};
ghost use Rattle.ped_words.specs.Judging.{broken_pair, first_broken, name_rule, pairs_in};
ghost use Rattle.ped_words.specs.Reading.{reading};
ghost use Rattle.ped_words.specs.Rules.{IsRefusal, IsUnlessMemory};
ghost use Rattle.ped_words.specs.Given.{given_count, values_in};
ghost use Rattle.ped_words.specs.Values.{has, option_values};
ghost use Rattle.ped_words.specs.Table.{name_of};

use crate::command::Command;
use crate::given::{Given, text_at};
use crate::rule::{Rule, WordError};
use crate::table::{OptionName, Subcommand};
use crate::value::judge_value;
use std::alloc::Global;

/// Reads a command, or returns the first rule that the words break, with the index of the word that breaks it.
///
/// The first word names the command. Pairs of a word `--NAME` and a value follow, in any order, each name at most once.
/// What depends on several words is judged after the last one: a missing option, coefficients that don't fit the depth,
/// a size that doesn't fit the shape, a count that passes the last rank. `Memory` may come instead of any answer.
#[tactic(auto, unfolding(crate::specs::Reading::reading))]
pub fn read_words(alloc: Global, words: &[String]) -> Result<Command, WordError>
    ensures value { IsUnlessMemory (reading (map string_bytes words.now)) result }
    ensures lawful { IfOk result IsLawful }
{
    if words.is_empty() {
        return Err(Rule::NoCommand.at(0));
    }
    let Some(subcommand) = Subcommand::of_word(text_at(words, 0)) else {
        return Err(Rule::UnknownCommand.at(0));
    };
    judge_pairs(alloc, subcommand, words)?;
    let given = Given::new(words, words.len() as u32 / 2);
    given.command(alloc, subcommand)
}

// Judges all pairs. Where none breaks a rule there are few words, since each option is given at most once, and each
// name has its value.
fn judge_pairs(alloc: Global, subcommand: Subcommand, words: &[String]) -> Result<(), WordError>
    requires { 0 < length words.now }
    ensures broken { OnOk result (first_broken subcommand (map string_bytes words.now) ≡ None) }
    ensures few { OnOk result (length words.now < 2 ^ 32) }
    ensures whole { OnOk result (2 * pairs_in (map string_bytes words.now) < length words.now) }
    ensures err { IfErr result (IsRefusal (first_broken subcommand (map string_bytes words.now))) }
{
    let mut pair = 0;
    while (pair as usize) < words.len() / 2 {
        judge_pair(alloc, subcommand, words, pair)?;
        pair += 1;
    }
    Ok(())
}

// Judges one pair, where those before it break no rule.
fn judge_pair(
    alloc: Global,
    subcommand: Subcommand,
    words: &[String],
    pair: u32,
) -> Result<(), WordError>
    requires within { pair < pairs_in (map string_bytes words.now) }
    requires small { 2 * pair + 2 < 2 ^ 32 }
    ensures broken { OnOk result (broken_pair subcommand (map string_bytes words.now) pair ≡ None) }
    ensures counted { OnOk result (given_count (option_values (map string_bytes words.now) (pair + 1)) ≡ given_count (option_values (map string_bytes words.now) pair) + 1) }
    ensures valued { OnOk result (2 * pair + 2 < length words.now) }
    ensures err { IfErr result (IsRefusal (broken_pair subcommand (map string_bytes words.now) pair)) }
{
    let given = Given::new(words, pair);
    let name_at = 2 * pair + 1;
    let value_at = name_at + 1;
    let is_last = words.len() <= value_at as usize;
    let name = match judge_name(
        subcommand,
        &given,
        text_at(words, name_at as usize),
        is_last,
    ) {
        Ok(name) => name,
        Err(rule) => return Err(rule.at(name_at)),
    };
    judge_value(
        alloc,
        name.value_type(),
        text_at(words, value_at as usize),
        value_at,
    )
}

// Judges a word that must name an option.
fn judge_name(
    subcommand: Subcommand,
    given: &Given,
    word: &str,
    is_last: bool,
) -> Result<OptionName, Rule>
    ensures ok { OnOk result (name_rule subcommand (values_in given.now) word.now is_last ≡ None) }
    ensures named { IfOk result (λ name. name_of word.now ≡ Some name) }
    ensures fresh { IfOk result (λ name. has (values_in given.now) name ≡ false) }
    ensures more { OnOk result (is_last ≡ false) }
    ensures err { IfErr result (λ rule. name_rule subcommand (values_in given.now) word.now is_last ≡ Some rule) }
{
    if !word.as_bytes().starts_with(b"--") {
        return Err(Rule::StrayWord);
    }
    let name = match OptionName::of_word(word) {
        Some(name) => name,
        None => return Err(Rule::UnknownOption),
    };
    if !subcommand.takes_option(name) {
        return Err(Rule::UnknownOption);
    }
    if given.has(name) {
        return Err(Rule::OptionTwice);
    }
    if is_last {
        return Err(Rule::MissingValue);
    }
    Ok(name)
}
