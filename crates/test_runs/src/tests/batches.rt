// Batches of seeds, by the command.

use super::workers::Meeting;
use engine::Gate;
use serial_meaning::Origin;
use std::test::Fail;
use test_calls::{
    DRAWS, Host, ONE, TWO_DRAWS, compare, ends, generated, guarded, plain, prints, refuses, same,
};

const PRINTS: &str = "fn main() { print 1; print 2; print 3; return 0; }";

#[test]
fn each_seed_has_its_part(rt: HostRuntime) -> Result<(), Fail> {
    prints(&rt, "batch --seeds 0,0", ONE, "seed 0\n1\nseed 0\n1\n")?;
    let script = generated(&rt, "gen --shape fib --size 10")?;
    prints(
        &rt,
        "batch --seeds 1,2,3 --workers 2",
        script.as_str(),
        "seed 1\n55\nseed 2\n55\nseed 3\n55\n",
    )
}

// The status is that of a fault, and the runs after it go on. One fault is enough.
#[test]
fn a_fault_in_a_batch_gives_status_1(rt: HostRuntime) -> Result<(), Fail> {
    ends(
        &rt,
        "batch --seeds 3,0",
        "fn main() { let x = draw; print 1 / (x % 2); return 0; }",
        1,
        "seed 3\n1\nseed 0\nfault 1: division by zero\n",
        "",
    )?;
    ends(
        &rt,
        "batch --seeds 5,6 --budget 3",
        PRINTS,
        1,
        "seed 5\n1\n2\n3\nfault 0: budget spent\nseed 6\n1\n2\n3\nfault 0: budget spent\n",
        "",
    )
}

static REFUSED_WORDS: [(&str, &str); 2] = [
    ("batch --seeds 1,,2", "words: bad value at word 2\n"),
    ("batch", "words: missing option at word 1\n"),
];

#[test]
fn words_that_give_no_batch_are_refused(rt: HostRuntime) -> Result<(), Fail> {
    for &(line, refusal) in &REFUSED_WORDS {
        refuses(&rt, line, ONE, 2, refusal)?;
    }
    refuses(&rt, "batch --seeds 1", "", 3, "script: no main at byte 0\n")
}

// What a run by this seed prints, below its line.
fn part<R: Host>(rt: &R, script: &str, seed: u64) -> Result<String, Fail> {
    let line = format!(in rt.alloc(); "run --seed {seed} --show log")?;
    let run = plain(rt, line.as_str(), script.as_bytes())?;
    Ok(format!(in rt.alloc(); "seed {seed}\n{}", run.out)?)
}

// What the runs by each seed print.
fn parts<R: Host>(rt: &R, script: &str) -> Result<String, Fail> {
    let mut parts = String::new(rt.alloc());
    for seed in [7, 0, 18446744073709551615, 7] {
        parts.push_str(part(rt, script, seed)?.as_str())?;
    }
    Ok(parts)
}

// A batch of these seeds prints this.
fn prints_parts<R: Host>(rt: &R, script: &str, workers: u32, parts: &str) -> Result<(), Fail> {
    let line = format!(in rt.alloc();
        "batch --seeds 7,0,18446744073709551615,7 --show log --workers {workers}"
    )?;
    prints(rt, line.as_str(), script, parts)
}

// Each part is what a run by its seed alone prints, on any number of workers.
#[test]
fn parts_are_runs(rt: HostRuntime) -> Result<(), Fail> {
    for script in [DRAWS, TWO_DRAWS] {
        let parts = parts(&rt, script)?;
        for workers in [1, 2, 3, 8, 64] {
            prints_parts(&rt, script, workers, parts.as_str())?;
        }
    }
    Ok(())
}

// The runs of a batch, each of which waits for the others where it begins.
#[derive(Drop)]
struct RunsTogether(Meeting);

impl Gate for RunsTogether {
    fn enter(&self, origin: &Origin) {
        if let Origin::Instance { path, .. } = origin {
            if path.len() == 0 {
                self.0.come();
                self.0.hold();
            }
        }
    }

    fn leave(&self, _origin: &Origin) {}
}

// One seed after the other would hold the first run to the end.
#[test]
fn two_seeds_run_at_once(rt: HostRuntime) -> Result<(), Fail> {
    let gate = RunsTogether(Meeting::of(2));
    let printed = guarded(&rt, "batch --seeds 1,2 --workers 2", ONE.as_bytes(), &gate)?;
    same("gate", gate.0.took_place(), true)?;
    compare("batch", printed, 0, "seed 1\n1\nseed 2\n1\n", "")
}
