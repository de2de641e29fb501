// Reads the values of options, or finds the rule that a word breaks.

ghost use Rattle.std.specs.Prelude.{◌≡◌, ◌<◌, ◌≤◌, if◌then◌else◌, None, Some, All, IfErr, IfOk, OnOk, length};
ghost use Rattle.ped_path.specs.Path.{IsRank};
ghost use Rattle.ped_words.specs.Judging.{type_rule};
ghost use Rattle.ped_words.specs.Pedigrees.{IsRead, most_ranks};
ghost use Rattle.ped_words.specs.Rules.{IsRefusal, broken_at};
ghost use Rattle.ped_words.specs.Table.{shape_of, show_of};

use crate::number::{number_in, number_list};
use crate::rule::{Rule, WordError};
use crate::table::ValueType;
use ped_gen::Shape;
use ped_path::{Pedigree, parse_pedigree};
use serial_meaning::Show;
use std::alloc::Global;

// Judges the word at index `at` as a value of this type.
pub(crate) fn judge_value(
    alloc: Global,
    value_type: ValueType,
    word: &str,
    at: u32,
) -> Result<(), WordError>
    ensures ok { OnOk result (type_rule value_type word.now ≡ None) }
    ensures err { IfErr result (IsRefusal (broken_at at (type_rule value_type word.now))) }
{
    match broken_rule(alloc, value_type, word)? {
        Some(rule) => Err(rule.at(at)),
        None => Ok(()),
    }
}

// The rule that the word breaks as a value of this type.
fn broken_rule(alloc: Global, value_type: ValueType, word: &str) -> Result<Option<Rule>, WordError>
    ensures rule { IfOk result (λ rule. rule ≡ type_rule value_type word.now) }
    ensures memory { IfErr result (λ e. e ≡ WordError.Memory) }
{
    match value_type {
        ValueType::Number { least, most } => Ok(number_in(word, least, most).err()),
        ValueType::Numbers { most } => Ok(number_list(alloc, word, most)?.err()),
        ValueType::Pedigree => Ok(pedigree_in(alloc, word)?.err()),
        ValueType::Show => Ok(unnamed(show_of(word).is_some())),
        ValueType::Shape => Ok(unnamed(shape_of(word).is_some())),
    }
}

// The rule that is broken by a word that should be one of a few names.
fn unnamed(names: bool) -> Option<Rule>
    ensures { result ≡ (if names then None else Some Rule.BadValue) }
{
    if names { None } else { Some(Rule::BadValue) }
}

// How many ranks a pedigree has. The contract also says that each is below 2^32.
fn rank_count(pedigree: &Pedigree) -> u64
    ensures count { result ≡ length pedigree.now }
    ensures some { 0 < length pedigree.now }
    ensures ranks { All IsRank pedigree.now }
{
    // For the proof: a pedigree has a last rank, and each is below 2^32.
    let _rank = pedigree.rank;
    pedigree.len()
}

// The word read as a pedigree, or the rule that it breaks.
pub(crate) fn pedigree_in(alloc: Global, word: &str) -> Result<Result<Pedigree, Rule>, WordError>
    ensures read { IfOk result (IsRead word.now) }
    ensures memory { IfErr result (λ e. e ≡ WordError.Memory) }
{
    match parse_pedigree(alloc, word) {
        Ok(pedigree) => {
            prove!(rank_count(&pedigree) > 0);
            Ok(Ok(pedigree))
        }
        Err(error) => match Rule::of_text(error) {
            Some(rule) => Ok(Err(rule)),
            None => Err(WordError::Memory),
        },
    }
}

pub(crate) fn show_of(word: &str) -> Option<Show>
    ensures { result ≡ show_of word.now }
{
    match word {
        "plain" => Some(Show::Plain),
        "log" => Some(Show::Log),
        _ => None,
    }
}

pub(crate) fn shape_of(word: &str) -> Option<Shape>
    ensures { result ≡ shape_of word.now }
{
    match word {
        "fib" => Some(Shape::Fib),
        "tree" => Some(Shape::Tree),
        "loop" => Some(Shape::Loop),
        _ => None,
    }
}
