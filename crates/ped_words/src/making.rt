// Makes the command of the given values, and judges what depends on several words.

ghost use Rattle.std.specs.Prelude.{◌≡◌, ◌<◌, ◌^◌, IfErr, IfOk, None, length, true};
ghost use Rattle.ped_words.specs.Commands.{AreLawful, IsLawful, IsWorkers};
ghost use Rattle.ped_words.specs.Making.{budget_of, depth_of, gamma_error, gamma_fits, command_gamma, limits_of, made_command, rounds_of, settings_of, range_error, workers_of};
ghost use Rattle.ped_words.specs.Rules.{IsRefusal, IsUnlessMemory, breaks};
ghost use Rattle.ped_words.specs.Table.{value_type_of};
ghost use Rattle.ped_words.specs.Given.{values_in};
ghost use Rattle.ped_words.specs.Values.{IsInRange};

use crate::command::{Command, Settings};
use crate::given::Given;
use crate::rule::{Rule, WordError};
use crate::table::{OptionName, Subcommand};
use contract_views::Items;
use dotmix::{Gamma, GammaError};
use serial_meaning::{Limits, Show};
use std::alloc::Global;

// The depth where none is given.
const DEFAULT_DEPTH: u32 = 256;

// The number of coefficients of a command that takes no depth.
const HASH_DEPTH: u32 = 512;

// The seed where neither a seed nor coefficients are given.
const DEFAULT_SEED: u64 = 0;

const DEFAULT_BUDGET: u32 = 1_000_000;

const DEFAULT_WORKERS: u32 = 4;

const DEFAULT_ROUNDS: u32 = 4;

// Ranks are below this.
const RANKS: u64 = 1 << 32;

impl<'a> Given<'a> {
    // The command of all pairs, or the first rule that is broken only by several words together.
    pub(crate) fn command(
        &self,
        alloc: Global,
        subcommand: Subcommand,
    ) -> Result<Command, WordError>
        requires few { length self.now.words < 2 ^ 32 }
        ensures value { IsUnlessMemory (made_command subcommand (values_in self.now) (length self.now.words)) result }
        ensures lawful { IfOk result IsLawful }
    {
        match subcommand {
            Subcommand::Run => Ok(Command::Run {
                settings: self.settings(alloc)?,
                workers: self.workers(),
            }),
            Subcommand::Serial => Ok(Command::Serial {
                settings: self.settings(alloc)?,
            }),
            Subcommand::Sim => self.simulation(alloc),
            Subcommand::Replay => self.replay(alloc),
            Subcommand::Hash => self.hash(alloc),
            Subcommand::Check => Ok(Command::Check),
            Subcommand::Fmt => Ok(Command::Fmt),
            Subcommand::Gen => self.generation(),
            Subcommand::Stream => self.stream_command(alloc),
            Subcommand::Span => Ok(Command::Span {
                settings: self.settings(alloc)?,
            }),
            Subcommand::Batch => self.batch(alloc),
        }
    }

    // An option that the command needs is missing.
    fn missing_option(&self) -> WordError
        requires { length self.now.words < 2 ^ 32 }
        ensures { result ≡ breaks Rule.MissingOption (length self.now.words) }
    {
        Rule::MissingOption.at(self.len() as u32)
    }

    // The command `sim`, which needs a number.
    fn simulation(&self, alloc: Global) -> Result<Command, WordError>
        requires { length self.now.words < 2 ^ 32 }
        ensures value { IsUnlessMemory (made_command Subcommand.Sim (values_in self.now) (length self.now.words)) result }
        ensures lawful { IfOk result IsLawful }
    {
        let Some(number) = self.number(OptionName::Number) else {
            return Err(self.missing_option());
        };
        Ok(Command::Sim {
            settings: self.settings(alloc)?,
            workers: self.workers(),
            number,
        })
    }

    // The command `replay`, which needs a pedigree.
    fn replay(&self, alloc: Global) -> Result<Command, WordError>
        requires { length self.now.words < 2 ^ 32 }
        ensures value { IsUnlessMemory (made_command Subcommand.Replay (values_in self.now) (length self.now.words)) result }
        ensures lawful { IfOk result IsLawful }
    {
        let Some(at) = self.pedigree(alloc)? else {
            return Err(self.missing_option());
        };
        let settings = self.settings(alloc)?;
        Ok(Command::Replay { settings, at })
    }

    // The command `hash`, which needs a pedigree.
    fn hash(&self, alloc: Global) -> Result<Command, WordError>
        requires { length self.now.words < 2 ^ 32 }
        ensures value { IsUnlessMemory (made_command Subcommand.Hash (values_in self.now) (length self.now.words)) result }
        ensures lawful { IfOk result IsLawful }
    {
        let Some(at) = self.pedigree(alloc)? else {
            return Err(self.missing_option());
        };
        Ok(Command::Hash {
            gamma: self.coefficients(alloc, HASH_DEPTH)?,
            at,
            rounds: self.rounds(),
        })
    }

    // The command `gen`, which needs a shape and a size that fits it.
    fn generation(&self) -> Result<Command, WordError>
        requires { length self.now.words < 2 ^ 32 }
        ensures value { IsUnlessMemory (made_command Subcommand.Gen (values_in self.now) (length self.now.words)) result }
        ensures lawful { IfOk result IsLawful }
    {
        let (Some(shape), Some((size, at))) = (self.shape(), self.indexed_number(OptionName::Size))
        else {
            return Err(self.missing_option());
        };
        if !shape.fits(size) {
            return Err(Rule::OutOfRange.at(at));
        }
        Ok(Command::Gen { shape, size })
    }

    // The command `stream`, which needs a pedigree and a count with which the ranks stay below 2^32.
    fn stream_command(&self, alloc: Global) -> Result<Command, WordError>
        requires { length self.now.words < 2 ^ 32 }
        ensures value { IsUnlessMemory (made_command Subcommand.Stream (values_in self.now) (length self.now.words)) result }
        ensures lawful { IfOk result IsLawful }
    {
        let Some(at) = self.pedigree(alloc)? else {
            return Err(self.missing_option());
        };
        let Some((count, count_at)) = self.indexed_number(OptionName::Count) else {
            return Err(self.missing_option());
        };
        let gamma = self.coefficients(alloc, HASH_DEPTH)?;
        if at.rank + count > RANKS {
            return Err(Rule::OutOfRange.at(count_at));
        }
        Ok(Command::Stream {
            gamma,
            at,
            count: count as u32,
            rounds: self.rounds(),
            below: self.number(OptionName::Below),
        })
    }

    // The command `batch`, which needs seeds.
    fn batch(&self, alloc: Global) -> Result<Command, WordError>
        requires { length self.now.words < 2 ^ 32 }
        ensures value { IsUnlessMemory (made_command Subcommand.Batch (values_in self.now) (length self.now.words)) result }
        ensures lawful { IfOk result IsLawful }
    {
        let Some((seeds, _)) = self.list(alloc, OptionName::Seeds)? else {
            return Err(self.missing_option());
        };
        Ok(Command::Batch {
            seeds: Items(seeds),
            limits: self.limits(),
            show: self.show().unwrap_or(Show::Plain),
            rounds: self.rounds(),
            workers: self.workers(),
        })
    }

    fn settings(&self, alloc: Global) -> Result<Settings, WordError>
        ensures ok { IfOk result (λ settings. settings ≡ settings_of (values_in self.now)) }
        ensures fits { IfOk result (λ settings. gamma_fits (values_in self.now) (depth_of (values_in self.now)) ≡ true) }
        ensures err { IfErr result (IsRefusal (range_error (values_in self.now) OptionName.Gamma (gamma_fits (values_in self.now) (depth_of (values_in self.now))))) }
        ensures lawful { IfOk result AreLawful }
    {
        let limits = self.limits();
        Ok(Settings {
            gamma: self.coefficients(alloc, limits.depth)?,
            limits,
            show: self.show().unwrap_or(Show::Plain),
            rounds: self.rounds(),
        })
    }

    fn limits(&self) -> Limits
        ensures value { result ≡ limits_of (values_in self.now) }
        ensures depth { IsInRange (value_type_of OptionName.Depth) result.depth }
        ensures budget { IsInRange (value_type_of OptionName.Budget) result.budget }
    {
        Limits {
            depth: self.depth(),
            budget: self.budget(),
        }
    }

    fn depth(&self) -> u32
        ensures value { result ≡ depth_of (values_in self.now) }
        ensures range { IsInRange (value_type_of OptionName.Depth) result }
    {
        self.small_number(OptionName::Depth, DEFAULT_DEPTH)
    }

    fn budget(&self) -> u32
        ensures value { result ≡ budget_of (values_in self.now) }
        ensures range { IsInRange (value_type_of OptionName.Budget) result }
    {
        self.small_number(OptionName::Budget, DEFAULT_BUDGET)
    }

    fn workers(&self) -> u32
        ensures value { result ≡ workers_of (values_in self.now) }
        ensures range { IsWorkers result }
    {
        self.small_number(OptionName::Workers, DEFAULT_WORKERS)
    }

    fn rounds(&self) -> u32
        ensures value { result ≡ rounds_of (values_in self.now) }
        ensures range { IsInRange (value_type_of OptionName.Rounds) result }
    {
        self.small_number(OptionName::Rounds, DEFAULT_ROUNDS)
    }

    // This many coefficients: those of the given list, followed by zeros, else those of the seed.
    fn coefficients(&self, alloc: Global, depth: u32) -> Result<Gamma, WordError>
        ensures ok { IfOk result (λ gamma. gamma ≡ command_gamma (values_in self.now) depth) }
        ensures fits { IfOk result (λ gamma. gamma_fits (values_in self.now) depth ≡ true) }
        ensures err { IfErr result (IsRefusal (range_error (values_in self.now) OptionName.Gamma (gamma_fits (values_in self.now) depth))) }
        ensures long { IfOk result (λ gamma. length gamma ≡ depth) }
    {
        match self.list(alloc, OptionName::Gamma)? {
            Some((list, at)) => match Gamma::of_list(alloc, &list, depth) {
                Ok(gamma) => Ok(gamma),
                Err(error) => Err(gamma_error(error, at)),
            },
            None => {
                let seed = self.number(OptionName::Seed).unwrap_or(DEFAULT_SEED);
                Ok(Gamma::of_seed(alloc, seed, depth)?)
            }
        }
    }
}

// Why the list at this index gives no coefficients: it is too long, or a number in it is too big.
fn gamma_error(error: GammaError, at: u32) -> WordError
    ensures { result ≡ gamma_error error at }
{
    match error {
        GammaError::TooMany | GammaError::TooBig(_) => Rule::OutOfRange.at(at),
        GammaError::Memory => WordError::Memory,
    }
}
