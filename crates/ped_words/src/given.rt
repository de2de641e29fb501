// The values that the pairs after the command give to the options.

ghost use Rattle.std.specs.Prelude.{◌≡◌, ◌+◌, ◌*◌, ◌<◌, ◌≤◌, ◌^◌, IfErr, IfOk, IfSome, length, map, string_bytes, unwrap_or};
ghost use Rattle.std.specs.Option.{option_map};
ghost use Rattle.ped_words.specs.Pedigrees.{most_ranks};
ghost use Rattle.ped_words.specs.Table.{value_type_of, name_of};
ghost use Rattle.ped_words.specs.Given.{HasCount, IsValueIndex, IsIndexedNumber, IsIndexedList, IsSmall, values_in};
ghost use Rattle.ped_words.specs.Values.{IsInRange, has, is_option, list_as, number_value, number_as, pedigree, shape, show, word_at};

use crate::number::{number_in, number_list};
use crate::rule::WordError;
use crate::table::{OptionName, ValueType};
use crate::value::{pedigree_in, shape_of, show_of};
use ped_gen::Shape;
use ped_path::Pedigree;
use serial_meaning::Show;
use std::alloc::{AllocError, Global};
use std::marker::Model;

// The words of a command line, and how many pairs after the command are taken into account. Each of these pairs is
// complete.
#[derive(Drop)]
pub(crate) struct Given<'a> {
    words: &'a [String],
    pairs: u32,
}

impl<'a> Model for Given<'a> {
    ghost use Rattle.std.specs.Prelude.{◌*◌, ◌<◌, ◌^◌, length, map, string_bytes};
    ghost use Rattle.ped_words.specs.Given.{GivenWords};

    ghost Value = { GivenWords };

    ghost view = { λ g. record { words = map string_bytes g.words.now; pairs = g.pairs } };

    ghost invariant = { λ g. (2 * g.pairs < length g.words.now) × (2 * g.pairs < 2 ^ 32) };
}

// The word at this index.
pub(crate) fn text_at(words: &[String], index: usize) -> &str
    requires { index < length words.now }
    ensures { result.now ≡ word_at (map string_bytes words.now) index }
{
    words[index].as_str()
}

// Whether a word names this option.
fn names_option(word: &str, name: OptionName) -> bool
    ensures { result ≡ is_option (name_of word.now) name }
{
    match OptionName::of_word(word) {
        Some(other) => other.is(name),
        None => false,
    }
}

// The index of an option's value among the first `pairs` pairs.
fn value_index_of(words: &[String], pairs: u32, name: OptionName) -> Option<u32>
    requires within { 2 * pairs < length words.now }
    requires small { 2 * pairs < 2 ^ 32 }
    ensures { IsValueIndex (map string_bytes words.now) pairs name result }
{
    let mut index = None;
    for pair in 0..pairs {
        index = next_index(words, pair, name, index);
    }
    index
}

// The same with pair `pair`, given the index among those before it.
fn next_index(words: &[String], pair: u32, name: OptionName, before: Option<u32>) -> Option<u32>
    requires within { 2 * pair + 2 < length words.now }
    requires small { 2 * pair + 2 < 2 ^ 32 }
    requires before { IsValueIndex (map string_bytes words.now) pair name before }
    ensures { IsValueIndex (map string_bytes words.now) (pair + 1) name result }
{
    if names_option(text_at(words, 2 * pair as usize + 1), name) {
        Some(2 * pair + 2)
    } else {
        before
    }
}

impl<'a> Given<'a> {
    // These words with their first `pairs` pairs.
    pub(crate) fn new(words: &'a [String], pairs: u32) -> Given<'a>
        requires within { 2 * pairs < length words.now }
        requires small { 2 * pairs < 2 ^ 32 }
        ensures { result ≡ record { words = map string_bytes words.now; pairs = pairs } }
    {
        Given { words, pairs }
    }

    // How many words there are, the command's included.
    pub(crate) fn len(&self) -> usize
        ensures { result ≡ length self.now.words }
    {
        self.words.len()
    }

    // The index of an option's value.
    pub(crate) fn value_index(&self, name: OptionName) -> Option<u32>
        ensures { IsValueIndex self.now.words self.now.pairs name result }
    {
        value_index_of(self.words, self.pairs, name)
    }

    // The word at this index.
    pub(crate) fn text(&self, at: u32) -> &str
        requires { at < length self.now.words }
        ensures { result.now ≡ word_at self.now.words at }
    {
        text_at(self.words, at as usize)
    }

    // Whether an option was given. `--seed` and `--gamma` exclude each other, so each counts as the other.
    pub(crate) fn has(&self, name: OptionName) -> bool
        ensures { result ≡ has (values_in self.now) name }
    {
        match name {
            OptionName::Seed | OptionName::Gamma => {
                self.value_index(OptionName::Seed).is_some()
                    || self.value_index(OptionName::Gamma).is_some()
            }
            _ => self.value_index(name).is_some(),
        }
    }

    // The number that is an option's value, and the index of its word.
    pub(crate) fn indexed_number(&self, name: OptionName) -> Option<(u64, u32)>
        ensures { IsIndexedNumber (values_in self.now) name result }
    {
        let Some(at) = self.value_index(name) else {
            return None;
        };
        match number_as(name.value_type(), self.text(at)) {
            Some(number) => Some((number, at)),
            None => None,
        }
    }

    // The number that is an option's value.
    pub(crate) fn number(&self, name: OptionName) -> Option<u64>
        ensures value { result ≡ number_value (values_in self.now) name }
        ensures range { IfSome result (IsInRange (value_type_of name)) }
    {
        match self.indexed_number(name) {
            Some((number, _)) => Some(number),
            None => None,
        }
    }

    // The value of an option whose numbers are below 2^32, or the default.
    pub(crate) fn small_number(&self, name: OptionName, default: u32) -> u32
        requires small { IsSmall (value_type_of name) }
        requires within { IsInRange (value_type_of name) default }
        ensures value { result ≡ unwrap_or (number_value (values_in self.now) name) default }
        ensures range { IsInRange (value_type_of name) result }
    {
        match self.number(name) {
            Some(number) => number as u32,
            None => default,
        }
    }

    // The list that is an option's value, and the index of its word.
    pub(crate) fn list(
        &self,
        alloc: Global,
        name: OptionName,
    ) -> Result<Option<(Vec<u64>, u32)>, AllocError>
        ensures value { IfOk result (λ indexed. IsIndexedList (values_in self.now) name (option_map (λ p. (p.0.items, p.1)) indexed)) }
        ensures count { IfOk result (λ indexed. IfSome indexed (λ p. HasCount (value_type_of name) (length p.0.items))) }
    {
        let Some(at) = self.value_index(name) else {
            return Ok(None);
        };
        match list_as(alloc, name.value_type(), self.text(at))? {
            Some(list) => Ok(Some((list, at))),
            None => Ok(None),
        }
    }

    // The value of `--at`.
    pub(crate) fn pedigree(&self, alloc: Global) -> Result<Option<Pedigree>, WordError>
        ensures value { IfOk result (λ j. j ≡ pedigree (values_in self.now)) }
        ensures few { IfOk result (λ j. IfSome j (λ ranks. length ranks ≤ most_ranks)) }
        ensures memory { IfErr result (λ e. e ≡ WordError.Memory) }
    {
        let Some(at) = self.value_index(OptionName::At) else {
            return Ok(None);
        };
        match pedigree_in(alloc, self.text(at))? {
            Ok(pedigree) => Ok(Some(pedigree)),
            Err(_) => Ok(None),
        }
    }

    // The value of `--show`.
    pub(crate) fn show(&self) -> Option<Show>
        ensures { result ≡ show (values_in self.now) }
    {
        match self.value_index(OptionName::Show) {
            Some(at) => show_of(self.text(at)),
            None => None,
        }
    }

    // The value of `--shape`.
    pub(crate) fn shape(&self) -> Option<Shape>
        ensures { result ≡ shape (values_in self.now) }
    {
        match self.value_index(OptionName::Shape) {
            Some(at) => shape_of(self.text(at)),
            None => None,
        }
    }
}

// The word read as a number of this type.
fn number_as(value_type: ValueType, word: &str) -> Option<u64>
    ensures value { result ≡ number_as value_type word.now }
    ensures range { IfSome result (IsInRange value_type) }
{
    let ValueType::Number { least, most } = value_type else {
        return None;
    };
    match number_in(word, least, most) {
        Ok(number) => Some(number),
        Err(_) => None,
    }
}

// The word read as a list of this type.
#[tactic(auto, using(crate::proofs::NumberLemmas::counted))]
fn list_as(alloc: Global, value_type: ValueType, word: &str) -> Result<Option<Vec<u64>>, AllocError>
    ensures value { IfOk result (λ list. option_map (λ l. l.items) list ≡ list_as value_type word.now) }
    ensures count { IfOk result (λ list. IfSome list (λ l. HasCount value_type (length l.items))) }
{
    let ValueType::Numbers { most } = value_type else {
        return Ok(None);
    };
    match number_list(alloc, word, most)? {
        Ok(numbers) => Ok(Some(numbers)),
        Err(_) => Ok(None),
    }
}
