ghost use Rattle.std.specs.Prelude.{◌≡◌, ◌==◌};
ghost use Rattle.ped_words.specs.declared.table.ValueType.TheVariants as value_type;
ghost use Rattle.ped_words.specs.Table.{subcommand_of, name_of, option_number, takes_option, value_type_of};

use dotmix::MOST_ROUNDS;
use serial_meaning::MOST_DEPTH;

const MOST_BUDGET: u64 = 4_294_967_295;

const MOST_WORKERS: u64 = 64;

// A stream has at most this many numbers.
const MOST_COUNT: u64 = 1_048_576;

/// A batch has at most this many seeds.
pub const MOST_SEEDS: u64 = 256;

// The commands.
#[derive(Clone, Copy, Debug, PartialEq, Eq)]
pub(crate) enum Subcommand {
    Run,
    Serial,
    Sim,
    Replay,
    Hash,
    Check,
    Fmt,
    Gen,
    Stream,
    Span,
    Batch,
}

// The options of all commands.
#[derive(Clone, Copy, Debug, PartialEq, Eq)]
pub(crate) enum OptionName {
    Seed,
    Gamma,
    Depth,
    Budget,
    Workers,
    Show,
    Number,
    At,
    Shape,
    Size,
    Rounds,
    Count,
    Below,
    Seeds,
}

// What the value of an option must be.
#[derive(Clone, Copy, Debug, PartialEq, Eq)]
pub(crate) enum ValueType {
    // A number in this range.
    Number { least: u64, most: u64 },
    // Numbers joined by commas, at most this many if there is a limit.
    Numbers { most: Option<u64> },
    Pedigree,
    Show,
    Shape,
}

impl Subcommand {
    // The command with this name.
    pub(crate) fn of_word(word: &str) -> Option<Subcommand>
        ensures { result ≡ subcommand_of word.now }
    {
        match word {
            "run" => Some(Subcommand::Run),
            "serial" => Some(Subcommand::Serial),
            "sim" => Some(Subcommand::Sim),
            "replay" => Some(Subcommand::Replay),
            "hash" => Some(Subcommand::Hash),
            "check" => Some(Subcommand::Check),
            "fmt" => Some(Subcommand::Fmt),
            "gen" => Some(Subcommand::Gen),
            "stream" => Some(Subcommand::Stream),
            "span" => Some(Subcommand::Span),
            "batch" => Some(Subcommand::Batch),
            _ => None,
        }
    }

    // Whether the command has this option.
    pub(crate) fn takes_option(self, name: OptionName) -> bool
        ensures { result ≡ takes_option self name }
    {
        match name {
            OptionName::Seed | OptionName::Gamma => {
                !matches!(
                    self,
                    Subcommand::Check | Subcommand::Fmt | Subcommand::Gen | Subcommand::Batch
                )
            }
            OptionName::Depth | OptionName::Budget => matches!(
                self,
                Subcommand::Run
                    | Subcommand::Serial
                    | Subcommand::Sim
                    | Subcommand::Replay
                    | Subcommand::Span
                    | Subcommand::Batch
            ),
            OptionName::Rounds => !matches!(
                self,
                Subcommand::Check | Subcommand::Fmt | Subcommand::Gen
            ),
            OptionName::Workers => matches!(
                self,
                Subcommand::Run | Subcommand::Sim | Subcommand::Batch
            ),
            OptionName::Show => matches!(
                self,
                Subcommand::Run | Subcommand::Serial | Subcommand::Sim | Subcommand::Batch
            ),
            OptionName::Number => matches!(self, Subcommand::Sim),
            OptionName::At => matches!(
                self,
                Subcommand::Replay | Subcommand::Hash | Subcommand::Stream
            ),
            OptionName::Shape | OptionName::Size => matches!(self, Subcommand::Gen),
            OptionName::Count | OptionName::Below => matches!(self, Subcommand::Stream),
            OptionName::Seeds => matches!(self, Subcommand::Batch),
        }
    }
}

impl OptionName {
    // The option with this name.
    pub(crate) fn of_word(word: &str) -> Option<OptionName>
        ensures { result ≡ name_of word.now }
    {
        match word {
            "--seed" => Some(OptionName::Seed),
            "--gamma" => Some(OptionName::Gamma),
            "--depth" => Some(OptionName::Depth),
            "--budget" => Some(OptionName::Budget),
            "--workers" => Some(OptionName::Workers),
            "--show" => Some(OptionName::Show),
            "--number" => Some(OptionName::Number),
            "--at" => Some(OptionName::At),
            "--shape" => Some(OptionName::Shape),
            "--size" => Some(OptionName::Size),
            "--rounds" => Some(OptionName::Rounds),
            "--count" => Some(OptionName::Count),
            "--below" => Some(OptionName::Below),
            "--seeds" => Some(OptionName::Seeds),
            _ => None,
        }
    }

    fn option_number(self) -> u8
        ensures { result ≡ option_number self }
    {
        self as u8
    }

    // Whether both are the same option.
    pub(crate) fn is(self, other: OptionName) -> bool
        ensures { result ≡ (option_number self == option_number other) }
    {
        self.option_number() == other.option_number()
    }

    // What the option's value must be.
    pub(crate) fn value_type(self) -> ValueType
        ensures { result ≡ value_type_of self }
    {
        match self {
            OptionName::Seed | OptionName::Number | OptionName::Size => number(0, u64::MAX),
            OptionName::Gamma => ValueType::Numbers { most: None },
            OptionName::Depth => number(1, MOST_DEPTH as u64),
            OptionName::Budget => number(1, MOST_BUDGET),
            OptionName::Workers => number(1, MOST_WORKERS),
            OptionName::Show => ValueType::Show,
            OptionName::At => ValueType::Pedigree,
            OptionName::Shape => ValueType::Shape,
            OptionName::Rounds => number(0, MOST_ROUNDS as u64),
            OptionName::Count => number(1, MOST_COUNT),
            OptionName::Below => number(1, u64::MAX),
            OptionName::Seeds => ValueType::Numbers {
                most: Some(MOST_SEEDS),
            },
        }
    }
}

// Numbers in this range.
fn number(least: u64, most: u64) -> ValueType
    ensures { result ≡ value_type.Number least most }
{
    ValueType::Number { least, most }
}
