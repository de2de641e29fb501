ghost use Rattle.std.specs.Prelude.{◌≡◌};
ghost use Rattle.ped_words.specs.Rules.{number_of, rule_of, rule_text, rule_name, text_rule};

use ped_path::PedTextError;
use std::alloc::{AllocError, AllocFailed};

// The rules for words, named by what breaks them.
#[derive(Clone, Copy, Debug, PartialEq, Eq)]
pub(crate) enum Rule {
    NoCommand,
    UnknownCommand,
    UnknownOption,
    OptionTwice,
    MissingValue,
    BadValue,
    OutOfRange,
    MissingOption,
    StrayWord,
}

/// Why words are no command.
#[derive(Clone, Copy, Debug, PartialEq, Eq)]
pub enum WordError {
    /// The number of the first rule that is broken, and the index of the word that breaks it, from 0. Words are judged
    /// from left to right: a word that must name an option by 9, 3, 4 and 5 in this order, a value by 6 and then 7. A
    /// value that doesn't have its option's form breaks 6, one of the right form but beyond its range breaks 7
    /// (docs/LANGUAGE.md, "Command words"). 8 is judged after the last word, and then 7 for what depends on several
    /// words.
    ///
    /// | Number | Rule | Word |
    /// |---|---|---|
    /// | 1 | no command | 0 |
    /// | 2 | unknown command | 0 |
    /// | 3 | unknown option | the name |
    /// | 4 | option twice | the later name |
    /// | 5 | missing value | the name |
    /// | 6 | bad value | the value |
    /// | 7 | out of range | the value |
    /// | 8 | missing option | the number of words |
    /// | 9 | stray word | the word |
    Bad { number: u8, at: u32 },
    /// Memory ran out.
    Memory,
}

impl Rule {
    fn number(self) -> u8
        ensures { result ≡ number_of self }
    {
        match self {
            Rule::NoCommand => 1,
            Rule::UnknownCommand => 2,
            Rule::UnknownOption => 3,
            Rule::OptionTwice => 4,
            Rule::MissingValue => 5,
            Rule::BadValue => 6,
            Rule::OutOfRange => 7,
            Rule::MissingOption => 8,
            Rule::StrayWord => 9,
        }
    }

    // The rule with this number; 9 where none has it.
    fn of_number(number: u8) -> Rule
        ensures { result ≡ rule_of number }
    {
        match number {
            1 => Rule::NoCommand,
            2 => Rule::UnknownCommand,
            3 => Rule::UnknownOption,
            4 => Rule::OptionTwice,
            5 => Rule::MissingValue,
            6 => Rule::BadValue,
            7 => Rule::OutOfRange,
            8 => Rule::MissingOption,
            _ => Rule::StrayWord,
        }
    }

    fn text(self) -> &'static str
        ensures { result.now ≡ rule_name self }
    {
        match self {
            Rule::NoCommand => "no command",
            Rule::UnknownCommand => "unknown command",
            Rule::UnknownOption => "unknown option",
            Rule::OptionTwice => "option twice",
            Rule::MissingValue => "missing value",
            Rule::BadValue => "bad value",
            Rule::OutOfRange => "out of range",
            Rule::MissingOption => "missing option",
            Rule::StrayWord => "stray word",
        }
    }

    // The error that this rule is broken at the word with this index.
    pub(crate) fn at(self, at: u32) -> WordError
        ensures { result ≡ WordError.Bad (number_of self) at }
    {
        WordError::Bad {
            number: self.number(),
            at,
        }
    }

    // The rule that a text breaks which isn't a pedigree. `None` for want of memory, which breaks no rule.
    pub(crate) fn of_text(error: PedTextError) -> Option<Rule>
        ensures { result ≡ text_rule error }
    {
        match error {
            PedTextError::Empty | PedTextError::BadByte(_) | PedTextError::Zeros(_) => {
                Some(Rule::BadValue)
            }
            PedTextError::TooBig(_) | PedTextError::TooLong => Some(Rule::OutOfRange),
            PedTextError::Memory => None,
        }
    }
}

/// The text for a number of `WordError::Bad`, as in its table. A number that no rule has is taken for 9.
pub fn rule_text(number: u8) -> &'static str
    ensures { result.now ≡ rule_text number }
{
    Rule::of_number(number).text()
}

impl From<AllocError> for WordError {
    ghost use Rattle.ped_words.specs.declared.rule.WordError.TheVariants as E;

    ghost from_gives = { λ _ e. e ≡ E.Memory };

    fn from(_: AllocError) -> Self {
        WordError::Memory
    }
}

/// The value for which there was no memory is dropped.
impl<T: Drop> From<AllocFailed<T>> for WordError {
    ghost use Rattle.ped_words.specs.declared.rule.WordError.TheVariants as E;

    ghost from_gives = { λ _ e. e ≡ E.Memory };

    fn from(_: AllocFailed<T>) -> Self {
        WordError::Memory
    }
}

impl From<dotmix::Memory> for WordError {
    ghost use Rattle.ped_words.specs.declared.rule.WordError.TheVariants as E;

    ghost from_gives = { λ _ e. e ≡ E.Memory };

    fn from(_: dotmix::Memory) -> Self {
        WordError::Memory
    }
}
