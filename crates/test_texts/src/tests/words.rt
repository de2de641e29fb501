// Words of command lines, with the command or the first rule that they break.

ghost use Rattle.std.specs.Prelude.{◌<◌};

use super::same;
use ped_gen::Shape;
use ped_words::{Command, Settings, WordError, read_words};
use serial_meaning::{Memory, Show};
use std::alloc::{AllocError, Global};
use std::process::Abort;
use std::test::Fail;

// Words stand between single blanks, so two blanks have an empty word between them.
fn words_of(alloc: Global, line: &str) -> Result<Vec<String>, Memory> {
    let mut words = Vec::new(alloc);
    if !line.is_empty() {
        for word in line.split(' ') {
            words.push(String::from_str(alloc, word)?)?;
        }
    }
    Ok(words)
}

fn command_of(alloc: Global, line: &str) -> Result<Command, Fail> {
    let words = words_of(alloc, line)?;
    Ok(read_words(alloc, &words)?)
}

// The number of the first rule that the words break and the word where they do, (0, 0) of a command, and (99, 0) where there is no memory.
fn refusal(alloc: Global, line: &str) -> (u8, u32) {
    let Ok(words) = words_of(alloc, line) else {
        return (99, 0);
    };
    match read_words(alloc, &words) {
        Ok(_) => (0, 0),
        Err(WordError::Bad { number, at }) => (number, at),
        Err(WordError::Memory) => (99, 0),
    }
}

// The words, and the number of the first rule that they break and the word where they do. The name first, then the value by its form and by
// its range, and last what all words together show.
static REFUSALS: [(&str, u8, u32); 101] = [
    ("", 1, 0),
    ("go", 2, 0),
    (" run", 2, 0),
    ("Run x", 2, 0),
    ("--seed 1", 2, 0),
    ("run --at 1", 3, 1),
    ("run --sed", 3, 1),
    ("run --", 3, 1),
    ("serial --workers 1", 3, 1),
    ("hash --depth 1", 3, 1),
    ("gen --seed 1", 3, 1),
    ("gen --rounds 1", 3, 1),
    ("hash --count 1", 3, 1),
    ("stream --depth 1", 3, 1),
    ("stream --size 1", 3, 1),
    ("fmt --seed", 3, 1),
    ("span --show log", 3, 1),
    ("batch --seed 1", 3, 1),
    ("batch --gamma 1", 3, 1),
    ("run --seeds 1", 3, 1),
    ("span --workers 1", 3, 1),
    ("replay --at 0 --show log", 3, 3),
    ("run --seed 1 --seed 2", 4, 3),
    ("run --seed 1 --seed", 4, 3),
    ("run --seed 1 --gamma", 4, 3),
    ("run --gamma 1 --seed x", 4, 3),
    ("sim --number 1 --depth 2 --number x", 4, 5),
    ("run --seed", 5, 1),
    ("run --depth 1 --show", 5, 3),
    ("check x", 9, 1),
    ("run -seed", 9, 1),
    ("run --depth 1 x --depth", 9, 3),
    ("run ", 9, 1),
    ("run --seed ", 6, 2),
    ("run --seed 01", 6, 2),
    ("run --seed +1", 6, 2),
    ("run --seed ١", 6, 2),
    ("run --seed 18446744073709551616", 7, 2),
    ("run --seed 1x8446744073709551616", 6, 2),
    ("run --depth 0", 7, 2),
    ("run --depth 00", 6, 2),
    ("run --depth 513", 7, 2),
    ("run --budget 0", 7, 2),
    ("run --budget 4294967296", 7, 2),
    ("run --workers 0", 7, 2),
    ("run --workers 65", 7, 2),
    ("run --workers 0 --depth x", 7, 2),
    ("run --seed 1 --workers 0", 7, 4),
    ("run --rounds 9", 7, 2),
    ("serial --rounds 08", 6, 2),
    ("hash --gamma 1 --at 0 --rounds 9", 7, 6),
    ("hash --gamma 1 --at 0 --rounds 01", 6, 6),
    ("stream --count 0", 7, 2),
    ("stream --count 1048577", 7, 2),
    ("stream --below 0", 7, 2),
    ("stream --below 18446744073709551616", 7, 2),
    ("run --show all", 6, 2),
    ("run --show Plain", 6, 2),
    ("run --gamma 1,", 6, 2),
    ("run --gamma ,", 6, 2),
    ("run --gamma 1,02", 6, 2),
    ("run --gamma 18446744073709551616,x", 6, 2),
    ("run --gamma 1,18446744073709551616 x", 7, 2),
    ("sim --number 18446744073709551616", 7, 2),
    ("batch --seeds 1,,2", 6, 2),
    ("batch --seeds 18446744073709551616,x", 6, 2),
    ("batch --seeds 0,18446744073709551616", 7, 2),
    ("batch", 8, 1),
    ("batch --workers 2", 8, 3),
    ("replay --at 01", 6, 2),
    ("replay --at ", 6, 2),
    ("replay --at 1.", 6, 2),
    ("replay --at 1,2", 6, 2),
    ("replay --at 4294967296", 7, 2),
    ("replay --at 4294967296x", 7, 2),
    ("replay --at 4294967296.01", 7, 2),
    ("replay --at 01.4294967296", 6, 2),
    ("gen --shape ring", 6, 2),
    ("gen --size x --shape ring", 6, 2),
    ("hash", 8, 1),
    ("sim", 8, 1),
    ("replay --seed 1", 8, 3),
    ("sim --gamma 18446744073709551557", 8, 3),
    ("gen --shape fib", 8, 3),
    ("stream --at 0", 8, 3),
    ("stream --count 5", 8, 3),
    ("gen --size 31", 8, 3),
    ("run --gamma 1,2 --depth 1", 7, 2),
    ("run --depth 1 --gamma 1,2", 7, 4),
    ("span --depth 1 --gamma 1,2", 7, 4),
    ("run --gamma 1,2 --depth 1 x", 9, 5),
    ("run --gamma 18446744073709551557", 7, 2),
    ("hash --at 0 --gamma 18446744073709551557", 7, 4),
    ("gen --size 31 --shape fib", 7, 2),
    ("gen --shape tree --size 21", 7, 4),
    ("gen --shape loop --size 0", 7, 4),
    ("gen --shape loop --size 4097", 7, 4),
    ("stream --at 4294967295 --count 2", 7, 4),
    ("stream --count 1048576 --at 1.4293918721", 7, 2),
    (
        "stream --count 2 --at 4294967295 --gamma 18446744073709551557",
        7,
        6,
    ),
    ("stream --count 2 --at 4294967295 --x", 3, 5),
];

#[test]
fn words_are_judged_in_order(rt: HostRuntime) {
    for &(line, number, at) in &REFUSALS {
        same(&rt, line, refusal(rt.alloc(), line), (number, at));
    }
}

// These words, with so many times this after them.
fn repeated(alloc: Global, words: &str, piece: &str, times: u32) -> Result<String, AllocError> {
    let mut line = String::from_str(alloc, words)?;
    for _ in 0..times {
        line.push_str(piece)?;
    }
    Ok(line)
}

// The command is a hash of a pedigree of so many ranks.
fn hashes(rt: &impl Abort, command: &Command, ranks: u64) {
    match command {
        Command::Hash { at, .. } => same(rt, "ranks", at.len(), ranks),
        _other => panic!(rt; "not hash"),
    }
}

#[test]
fn a_hash_may_have_512_ranks(rt: HostRuntime) -> Result<(), Fail> {
    let line = repeated(rt.alloc(), "hash --at 0", ".7", 511)?;
    hashes(&rt, &command_of(rt.alloc(), line.as_str())?, 512);
    Ok(())
}

// The words, a text that stands after them so many times, and the first rule that they break and where they do.
static LONG: [(&str, &str, u32, (u8, u32)); 2] = [
    ("hash --at 0", ".7", 512, (7, 2)),
    ("run --depth 1", " --depth 2", 100, (4, 3)),
];

// 513 ranks are too many. Words after the first fault are of no account, however many there are.
#[test]
fn words_may_be_long_and_many(rt: HostRuntime) -> Result<(), Fail> {
    for &(words, piece, times, wanted) in &LONG {
        let line = repeated(rt.alloc(), words, piece, times)?;
        same(&rt, words, refusal(rt.alloc(), line.as_str()), wanted);
    }
    Ok(())
}

fn assert_settings(
    rt: &impl Abort,
    settings: &Settings,
    limits: (u32, u32),
    show: Show,
    coefficients: &[u64],
) {
    same(rt, "depth", settings.limits.depth, limits.0);
    same(rt, "budget", settings.limits.budget, limits.1);
    assert!(rt; settings.show == show);
    same(rt, "coefficients", settings.gamma.len(), limits.0);
    for (i, coefficient) in (1u32..=512).zip(coefficients) {
        assert!(rt; 0 < i && i <= settings.gamma.len());
        same(rt, i, settings.gamma.coeff(i), *coefficient);
    }
}

// What the words give beside the settings, and 0 for what they don't: workers, the number of a schedule, the ranks of a pedigree.
type OtherOptions = (u32, u64, [u64; 3]);

// The settings of a command that runs a script once.
fn settings_of(command: &Command) -> Option<&Settings> {
    match command {
        Command::Run { settings, .. }
        | Command::Serial { settings }
        | Command::Span { settings }
        | Command::Sim { settings, .. }
        | Command::Replay { settings, .. } => Some(settings),
        _other => None,
    }
}

// What the command has beside its settings. A pedigree has three ranks.
fn other_options(command: &Command) -> Option<OtherOptions> {
    match command {
        Command::Run { workers, .. } => Some((*workers, 0, [0; 3])),
        Command::Serial { .. } | Command::Span { .. } => Some((0, 0, [0; 3])),
        Command::Sim {
            workers,
            number,
            ..
        } => Some((*workers, *number, [0; 3])),
        Command::Replay { at, .. } => match (
            at.rank_at(0),
            at.rank_at(1),
            at.rank_at(2),
            at.rank_at(3),
        ) {
            (Some(first), Some(second), Some(third), None) => Some((0, 0, [first, second, third])),
            _other => None,
        },
        _other => None,
    }
}

const SEEDED: &[u64] = &[16_294_208_416_658_607_535, 7_960_286_522_194_355_700];

// The words, what they give beside the settings, the depth and the budget, what is shown, and the first coefficients.
type Setting = (&'static str, OtherOptions, (u32, u32), Show, &'static [u64]);

static SETTINGS: [Setting; 6] = [
    ("run", (4, 0, [0; 3]), (256, 1_000_000), Show::Plain, SEEDED),
    (
        "run --workers 1 --budget 4294967295 --seed 1234567 --depth 1 --show plain",
        (1, 0, [0; 3]),
        (1, 4_294_967_295),
        Show::Plain,
        &[6_457_827_717_110_365_317],
    ),
    (
        "serial --budget 1 --gamma 18446744073709551556",
        (0, 0, [0; 3]),
        (256, 1),
        Show::Plain,
        &[18_446_744_073_709_551_556, 0],
    ),
    (
        "span --gamma 5 --depth 2 --rounds 0 --budget 7",
        (0, 0, [0; 3]),
        (2, 7),
        Show::Plain,
        &[5, 0],
    ),
    (
        "sim --show log --number 7 --gamma 5,6 --depth 3 --workers 64 --budget 9",
        (64, 7, [0; 3]),
        (3, 9),
        Show::Log,
        &[5, 6, 0],
    ),
    (
        "replay --at 1.0.4294967295 --gamma 7 --depth 2",
        (0, 0, [1, 0, 4_294_967_295]),
        (2, 1_000_000),
        Show::Plain,
        &[7, 0],
    ),
];

#[test]
fn commands_have_their_settings(rt: HostRuntime) -> Result<(), Fail> {
    for &(line, wanted, limits, show, coefficients) in &SETTINGS {
        let command = command_of(rt.alloc(), line)?;
        same(&rt, line, other_options(&command), Some(wanted));
        let Some(settings) = settings_of(&command) else {
            panic!(rt; "no settings");
        };
        assert_settings(&rt, settings, limits, show, coefficients);
    }
    Ok(())
}

// The command is a hash of the pedigree 0 by 512 coefficients, of which the first is 5.
fn hashes_by_5(rt: &impl Abort, command: &Command) {
    let Command::Hash { gamma, at, rounds } = command else {
        panic!(rt; "not hash");
    };
    assert!(rt; gamma.len() == 512);
    same(rt, "rounds", *rounds, 4);
    same(rt, "first", gamma.coeff(1), 5);
    same(rt, "last", gamma.coeff(512), 0);
    same(rt, "ranks", at.len(), 1);
    same(rt, "rank 0", at.rank_at(0), Some(0));
}

#[test]
fn a_hash_has_512_coefficients(rt: HostRuntime) -> Result<(), Fail> {
    hashes_by_5(&rt, &command_of(rt.alloc(), "hash --gamma 5 --at 0")?);
    Ok(())
}

// The command is a stream to the end of the ranks.
fn streams_to_the_end(rt: &impl Abort, command: &Command) {
    let Command::Stream {
        gamma,
        at,
        count,
        rounds,
        below,
    } = command
    else {
        panic!(rt; "not stream");
    };
    same(rt, "coefficients", gamma.len(), 512);
    same(rt, "count", *count, 1_048_576);
    same(rt, "rounds", *rounds, 8);
    same(rt, "below", *below, Some(6));
    same(rt, "ranks", at.len(), 2);
    same(rt, "rank 1", at.rank_at(1), Some(4_293_918_720));
}

#[test]
fn a_stream_has_a_count_that_its_ranks_are_enough_for(rt: HostRuntime) -> Result<(), Fail> {
    let line = "stream --count 1048576 --at 1.4293918720 --rounds 8 --below 6";
    streams_to_the_end(&rt, &command_of(rt.alloc(), line)?);
    Ok(())
}

// The command is a stream by 300 coefficients that were given.
fn streams_by_300(rt: &impl Abort, command: &Command) {
    let Command::Stream {
        gamma,
        rounds,
        below,
        ..
    } = command
    else {
        panic!(rt; "not stream");
    };
    assert!(rt; gamma.len() == 512);
    same(rt, "300", gamma.coeff(300), 7);
    same(rt, "301", gamma.coeff(301), 0);
    same(rt, "rounds", *rounds, 4);
    same(rt, "below", *below, None);
}

// The coefficients of a stream are those of a hash, so 300 of them are accepted.
#[test]
fn a_stream_takes_300_coefficients(rt: HostRuntime) -> Result<(), Fail> {
    let line = repeated(rt.alloc(), "stream --at 0 --count 1 --gamma 5", ",7", 299)?;
    streams_by_300(&rt, &command_of(rt.alloc(), line.as_str())?);
    Ok(())
}

// A batch of so many seeds, all but the last one 7.
fn batch_of(alloc: Global, seeds: u32) -> Result<String, AllocError>
    requires { 0 < seeds }
{
    let mut line = repeated(alloc, "batch --workers 2 --seeds ", "7,", seeds - 1)?;
    line.push_str("18446744073709551615")?;
    Ok(line)
}

// The command is a batch of 256 seeds.
fn batches_256(rt: &impl Abort, command: &Command) {
    let Command::Batch {
        seeds,
        limits,
        show,
        rounds,
        workers,
    } = command
    else {
        panic!(rt; "not batch");
    };
    same(rt, "seeds", seeds.0.len(), 256);
    same(rt, "first", seeds.0.first(), Some(&7));
    same(
        rt,
        "last",
        seeds.0.last(),
        Some(&18_446_744_073_709_551_615),
    );
    same(rt, "depth", limits.depth, 256);
    same(rt, "budget", limits.budget, 1_000_000);
    assert!(rt; *show == Show::Plain);
    same(rt, "rounds", *rounds, 4);
    same(rt, "workers", *workers, 2);
}

#[test]
fn a_batch_has_at_most_256_seeds(rt: HostRuntime) -> Result<(), Fail> {
    let line = batch_of(rt.alloc(), 256)?;
    batches_256(&rt, &command_of(rt.alloc(), line.as_str())?);
    let line = batch_of(rt.alloc(), 257)?;
    same(&rt, "257", refusal(rt.alloc(), line.as_str()), (7, 4));
    Ok(())
}

// Whether the command generates a tree of the size 20.
fn generates_20(command: &Command) -> bool {
    match command {
        Command::Gen { shape, size } => *shape == Shape::Tree && *size == 20,
        _other => false,
    }
}

#[test]
fn a_size_fits_its_shape(rt: HostRuntime) -> Result<(), Fail> {
    for line in ["gen --size 20 --shape tree", "gen --shape tree --size 20"] {
        assert!(rt; generates_20(&command_of(rt.alloc(), line)?), "{line}");
    }
    Ok(())
}

#[test]
fn some_commands_have_no_options(rt: HostRuntime) -> Result<(), Fail> {
    let checked = command_of(rt.alloc(), "check")?;
    assert!(rt; matches!(&checked, Command::Check));
    let printed = command_of(rt.alloc(), "fmt")?;
    assert!(rt; matches!(&printed, Command::Fmt));
    Ok(())
}
