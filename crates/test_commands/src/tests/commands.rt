// The commands and their words, and what the streams do to them.

use engine::{OpenGate, pedrun};
use ped_io::{MemSink, MemSource};
use std::alloc::{AllocError, Global};
use std::test::Fail;
use test_calls::{
    DRAWS, Host, ONE, Printed, call, compare, generated, prints, refuses, same, words,
};

// The words, and what is printed.
static HASHES: [(&str, &str); 5] = [
    (
        "hash --gamma 4294967296 --at 0",
        "dot 4294967296\ndraw 90194313216\n",
    ),
    (
        "hash --gamma 18446744073709551556 --at 1",
        "dot 18446744073709551555\ndraw 108965703\n",
    ),
    ("hash --at 0 --gamma 1", "dot 1\ndraw 21\n"),
    (
        "hash --seed 0 --at 0",
        "dot 16294208416658607535\ndraw 5688721021308471510\n",
    ),
    (
        "hash --seed 0 --at 0.0",
        "dot 5807750865143411678\ndraw 6243189118266778904\n",
    ),
];

// The dots of seed 0 are known from the published generator, the draws are four rounds of mixing of them, as a program of its own has
// them.
#[test]
fn pedigrees_have_their_draws(rt: HostRuntime) -> Result<(), Fail> {
    for &(line, output) in &HASHES {
        prints(&rt, line, "", output)?;
    }
    Ok(())
}

// So many rounds, and what is drawn. With the only coefficient 1 the dot product of the strand 0 is 1.
static ROUNDS: [(u32, u64); 6] = [
    (0, 1),
    (1, 12_884_901_888),
    (2, 3),
    (4, 21),
    (6, 903),
    (8, 1_631_721),
];

// So many rounds draw this.
fn draws<R: Host>(rt: &R, rounds: u32, draw: u64) -> Result<(), Fail> {
    let line = format!(in rt.alloc(); "hash --gamma 1 --at 0 --rounds {rounds}")?;
    let output = format!(in rt.alloc(); "dot 1\ndraw {draw}\n")?;
    prints(rt, line.as_str(), "", output.as_str())
}

#[test]
fn rounds_mix_the_dot_product(rt: HostRuntime) -> Result<(), Fail> {
    for &(rounds, draw) in &ROUNDS {
        draws(&rt, rounds, draw)?;
    }
    prints(&rt, "run --gamma 5 --rounds 0", DRAWS, "5\n10\n15\n")
}

// The words, and what is printed.
static STREAMS: [(&str, &str); 4] = [
    (
        "stream --gamma 1 --at 0 --count 11",
        "21\n210\n903\n2628\n6105\n12246\n22155\n37128\n58653\n88410\n128271\n",
    ),
    (
        "stream --gamma 18446744073709551556 --at 1 --count 2",
        "108965703\n116319378\n",
    ),
    ("stream --gamma 1 --at 0 --count 3 --below 10", "1\n0\n3\n"),
    (
        "stream --gamma 1 --at 4294967294 --count 2 --rounds 0",
        "4294967295\n4294967296\n",
    ),
];

#[test]
fn streams_are_draws_of_consecutive_ranks(rt: HostRuntime) -> Result<(), Fail> {
    for &(line, output) in &STREAMS {
        prints(&rt, line, "", output)?;
    }
    Ok(())
}

static BLOCKS: [&str; 3] = [
    "stream --seed 3 --at 2.10 --count 4096",
    "stream --seed 3 --at 2.4106 --count 4096",
    "stream --seed 3 --at 2.8202 --count 1",
];

// What they print one after the other.
fn blocks<R: Host>(rt: &R) -> Result<String, Fail> {
    let mut parts = String::new(rt.alloc());
    for &line in &BLOCKS {
        parts.push_str(generated(rt, line)?.as_str())?;
    }
    Ok(parts)
}

// A stream of several blocks has the lines of the shorter streams that it is made of.
#[test]
fn streams_go_on_after_a_block(rt: HostRuntime) -> Result<(), Fail> {
    let parts = blocks(&rt)?;
    let line = "stream --seed 3 --at 2.10 --count 8193";
    prints(&rt, line, "", parts.as_str())
}

// The words of a hash of the pedigree of so many zeros.
fn hash_of_zeros(alloc: Global, ranks: u32) -> Result<String, AllocError> {
    let mut line = String::from_str(alloc, "hash --gamma 1 --at 0")?;
    for _ in 1..ranks {
        line.push_str(".0")?;
    }
    Ok(line)
}

#[test]
fn pedigrees_have_at_most_512_ranks(rt: HostRuntime) -> Result<(), Fail> {
    let most = hash_of_zeros(rt.alloc(), 512)?;
    prints(&rt, most.as_str(), "", "dot 1\ndraw 21\n")?;
    let more = hash_of_zeros(rt.alloc(), 513)?;
    refuses(&rt, more.as_str(), "", 2, "words: out of range at word 4\n")
}

static GENERATED: [&str; 3] = [
    "gen --shape fib --size 20",
    "gen --size 10 --shape tree",
    "gen --shape loop --size 4096",
];

#[test]
fn generated_scripts_are_canonical(rt: HostRuntime) -> Result<(), Fail> {
    for &line in &GENERATED {
        let script = generated(&rt, line)?;
        same(line, script.as_str().starts_with("fn "), true)?;
        prints(&rt, "fmt", script.as_str(), script.as_str())?;
        prints(&rt, "check", script.as_str(), "ok\n")?;
    }
    Ok(())
}

// A script and its canonical text.
static CANONICAL_TEXTS: [(&str, &str); 4] = [
    ("", ""),
    (
        "fn main(){print (1+2)*3;return 0;}",
        "fn main() {\n  print (1 + 2) * 3;\n  return 0;\n}\n",
    ),
    (
        "fn f(id y)->id{return y;}# end",
        "fn f(id y) -> id {\n  return y;\n}\n",
    ),
    (
        "fn main(){if 1<2{sync;}else{}return -(1+2);}",
        "fn main() {\n  if 1 < 2 {\n    sync;\n  }\n  return -(1 + 2);\n}\n",
    ),
];

#[test]
fn scripts_have_a_canonical_text(rt: HostRuntime) -> Result<(), Fail> {
    for &(script, text) in &CANONICAL_TEXTS {
        prints(&rt, "fmt", script, text)?;
        prints(&rt, "fmt", text, text)?;
    }
    Ok(())
}

// The words and the line that refuses them.
static REFUSED_WORDS: [(&str, &str); 20] = [
    ("", "words: no command at word 0\n"),
    ("go", "words: unknown command at word 0\n"),
    ("run --workers 0", "words: out of range at word 2\n"),
    ("run --workers 65", "words: out of range at word 2\n"),
    ("run --budget 4294967296", "words: out of range at word 2\n"),
    ("run --depth 513", "words: out of range at word 2\n"),
    ("run --seed 1 --seed 2", "words: option twice at word 3\n"),
    ("run --seed", "words: missing value at word 1\n"),
    ("hash", "words: missing option at word 1\n"),
    ("check x", "words: stray word at word 1\n"),
    ("replay --at 01", "words: bad value at word 2\n"),
    (
        "hash --at 0 --gamma 18446744073709551557",
        "words: out of range at word 4\n",
    ),
    (
        "hash --gamma 1 --at 0 --rounds 9",
        "words: out of range at word 6\n",
    ),
    (
        "hash --gamma 1 --at 0 --rounds 01",
        "words: bad value at word 6\n",
    ),
    (
        "stream --at 4294967295 --count 2",
        "words: out of range at word 4\n",
    ),
    ("sim --workers 3", "words: missing option at word 3\n"),
    ("sim --number 01", "words: bad value at word 2\n"),
    (
        "sim --number 18446744073709551616",
        "words: out of range at word 2\n",
    ),
    (
        "sim --number 0 --workers 65",
        "words: out of range at word 4\n",
    ),
    ("sim --number 0 --at 0", "words: unknown option at word 3\n"),
];

#[test]
fn words_that_give_no_command_are_refused(rt: HostRuntime) -> Result<(), Fail> {
    for &(line, refusal) in &REFUSED_WORDS {
        refuses(&rt, line, ONE, 2, refusal)?;
    }
    Ok(())
}

// A run whose read of this number fails, of 8 bytes at most.
fn run_reading<R: Host>(rt: &R, planned: u64) -> Result<Printed, Fail> {
    let alloc = rt.alloc();
    let script = ONE.as_bytes().to_vec(alloc)?;
    let reads = Vec::from_slice(alloc, &[planned])?;
    call(rt, "run", script, 8, reads, Vec::new(alloc), &OpenGate)
}

// The script's 32 bytes take four reads of 8, and a fifth finds the end. A failed read leaves no output.
#[test]
fn a_failed_read_is_told(rt: HostRuntime) -> Result<(), Fail> {
    for planned in 0..5 {
        compare("run", run_reading(&rt, planned)?, 4, "", "read fault\n")?;
    }
    compare("run", run_reading(&rt, 5)?, 0, "1\n", "")
}

const THREE_DRAWS: &str = "run --gamma 1";

// A run whose write of this number fails, of 4 bytes at most.
fn run_writing<R: Host>(rt: &R, planned: u64) -> Result<Printed, Fail> {
    let alloc = rt.alloc();
    let script = DRAWS.as_bytes().to_vec(alloc)?;
    let writes = Vec::from_slice(alloc, &[planned])?;
    call(
        rt,
        THREE_DRAWS,
        script,
        4,
        Vec::new(alloc),
        writes,
        &OpenGate,
    )
}

// A write that fails, and what stands there then: a front of the output.
static FRONTS: [(u64, &str); 3] = [(0, ""), (1, "21\n2"), (2, "21\n210\n9")];

#[test]
fn a_failed_write_is_told(rt: HostRuntime) -> Result<(), Fail> {
    for &(planned, front) in &FRONTS {
        let printed = run_writing(&rt, planned)?;
        compare(THREE_DRAWS, printed, 5, front, "write fault\n")?;
    }
    let printed = run_writing(&rt, 3)?;
    compare(THREE_DRAWS, printed, 0, "21\n210\n903\n", "")
}

// A line that can't be written changes no status.
#[test]
fn a_failing_error_output_changes_no_status(rt: HostRuntime) -> Result<(), Fail> {
    let alloc = rt.alloc();
    let words = words(alloc, "go")?;
    let mut source = MemSource::new(Vec::new(alloc), 4096, Vec::new(alloc));
    let mut out = MemSink::new(alloc, 4096, 4096, Vec::new(alloc))?;
    let mut err = MemSink::new(alloc, 4096, 4096, Vec::from_slice(alloc, &[0])?)?;
    let status = pedrun(
        &rt,
        alloc,
        &words,
        &mut source,
        &mut out,
        &mut err,
        &OpenGate,
    );
    same("status", status.code(), 2)?;
    same("out", out.bytes(), b"".as_slice())?;
    same("err", err.bytes(), b"".as_slice())
}
