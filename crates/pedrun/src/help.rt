// Recognizes words that ask for help.

ghost use Rattle.std.specs.Prelude.{◌≡◌, map, string_bytes};
ghost use Rattle.pedrun.specs.Help.{asks_help, topic_of, topic_of_command};

use crate::text;

/// The help texts there are.
#[derive(Clone, Copy, Debug, PartialEq, Eq)]
pub enum Topic {
    /// The program as a whole.
    Program,
    /// Its version.
    Version,
    /// A command.
    Run,
    Serial,
    Sim,
    Check,
    Fmt,
    Replay,
    Hash,
    Gen,
    Stream,
    Span,
    Batch,
}

// Whether the words after a command are `--help` alone.
fn asks_help(words: &[String]) -> bool
    ensures { result ≡ asks_help (map string_bytes words.now) }
{
    match words.split_first() {
        Some((word, rest)) => rest.is_empty() && word.as_str() == "--help",
        None => false,
    }
}

impl Topic {
    /// The topic of the command with this name. `None` where there is no such command.
    pub fn of_command(word: &str) -> Option<Topic>
        ensures { result ≡ topic_of_command word.now }
    {
        match word {
            "run" => Some(Topic::Run),
            "serial" => Some(Topic::Serial),
            "sim" => Some(Topic::Sim),
            "check" => Some(Topic::Check),
            "fmt" => Some(Topic::Fmt),
            "replay" => Some(Topic::Replay),
            "hash" => Some(Topic::Hash),
            "gen" => Some(Topic::Gen),
            "stream" => Some(Topic::Stream),
            "span" => Some(Topic::Span),
            "batch" => Some(Topic::Batch),
            _ => None,
        }
    }

    /// What the words ask for: help where `--help` is the first word, or the only one after a command, and the version
    /// where `--version` is the first. `None` for any other words.
    pub fn of_words(words: &[String]) -> Option<Topic>
        ensures { result ≡ topic_of (map string_bytes words.now) }
    {
        let (first, rest) = words.split_first()?;
        match first.as_str() {
            "--help" => Some(Topic::Program),
            "--version" => Some(Topic::Version),
            word if asks_help(rest) => Topic::of_command(word),
            _ => None,
        }
    }

    /// The text. It ends with a line feed.
    pub fn text(self) -> &'static str {
        match self {
            Topic::Program => text::PROGRAM,
            Topic::Version => text::VERSION,
            Topic::Run => text::RUN,
            Topic::Serial => text::SERIAL,
            Topic::Sim => text::SIM,
            Topic::Check => text::CHECK,
            Topic::Fmt => text::FMT,
            Topic::Replay => text::REPLAY,
            Topic::Hash => text::HASH,
            Topic::Gen => text::GEN,
            Topic::Stream => text::STREAM,
            Topic::Span => text::SPAN,
            Topic::Batch => text::BATCH,
        }
    }
}
