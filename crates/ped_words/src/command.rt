use contract_views::Items;
use dotmix::Gamma;
use ped_gen::Shape;
use ped_path::Pedigree;
use serial_meaning::{Limits, Show};

/// All that the result of a run depends on, beside its script.
#[derive(Drop)]
pub struct Settings {
    /// As many coefficients as `limits.depth`. Where the words give neither a seed nor coefficients, they are those of
    /// seed 0.
    pub gamma: Gamma,
    pub limits: Limits,
    pub show: Show,
    /// How often a draw is mixed, from 0 to 8.
    pub rounds: u32,
}

/// A command with the values of its options, all of them in range.
#[derive(Drop)]
pub enum Command {
    /// Runs a script on this many workers, from 1 to 64.
    Run {
        settings: Settings,
        workers: u32,
    },
    /// Runs a script on the caller's thread.
    Serial {
        settings: Settings,
    },
    /// Simulates a run on this many workers, from 1 to 64. The number picks the schedule.
    Sim {
        settings: Settings,
        workers: u32,
        number: u64,
    },
    /// Runs the strand of this pedigree by itself. `settings.show` is `Plain`, since the words have no option for it.
    Replay {
        settings: Settings,
        at: Pedigree,
    },
    /// Prints a pedigree's draw, mixed in this many rounds, from 0 to 8. There are 512 coefficients.
    Hash {
        gamma: Gamma,
        at: Pedigree,
        rounds: u32,
    },
    /// Checks a script.
    Check,
    /// Prints a script in canonical text. The script need not be valid.
    Fmt,
    /// Prints a script of this shape. The size fits the shape.
    Gen {
        shape: Shape,
        size: u64,
    },
    /// Runs a script on the caller's thread, and prints its work and span. `settings.show` is `Plain`.
    Span {
        settings: Settings,
    },
    /// Runs a script under each of these seeds, from 1 to 256 of them, on this many workers, from 1 to 64. A seed may
    /// occur twice. The coefficients of a run are those of its seed, as many as `limits.depth`.
    Batch {
        seeds: Items<u64>,
        limits: Limits,
        show: Show,
        rounds: u32,
        workers: u32,
    },
    /// Prints the draws of `count` consecutive ranks, from 1 to 1048576, beginning with that of `at`. All of these
    /// ranks are below 2^32. Coefficients and rounds are as for `Hash`. Numbers are printed modulo `below`, if it is
    /// given; it isn't 0.
    Stream {
        gamma: Gamma,
        at: Pedigree,
        count: u32,
        rounds: u32,
        below: Option<u64>,
    },
}
