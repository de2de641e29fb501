// Runs on workers: they work at once, and write the same however they share the work.

use engine::Gate;
use serial_meaning::Origin;
use std::hint;
use std::sync::atomic::{AtomicBool, AtomicU64, Ordering};
use std::test::Fail;
use test_calls::{
    FAULT_BEFORE_ANOTHER, FAULTY_CHILD, Host, SQUARES, TWO_DRAWS, compare, ends, generated,
    guarded, same,
};

const WORKERS: [u32; 5] = [1, 2, 3, 8, 64];

const DRAWS_IN_CHILDREN: &str =
    "fn f() { let x = draw; return x; } fn main() { let a = spawn f(); let b = spawn f(); sync; print a; print b; return 0; }";

const THREE_CHILDREN: &str =
    "fn f(n) { return n; } fn main() { let a = spawn f(1); let b = spawn f(2); let c = spawn f(3); sync; print a + b + c; return 0; }";

const CHILD_AFTER_A_SYNC: &str =
    "fn f(n) { return n; } fn main() { let a = spawn f(1); sync; print a; let b = spawn f(2); sync; print b; return 0; }";

// A strand is held for at most so many rounds of a loop.
const MOST_TURNS: u32 = 50000000;

/// Strands that wait for one another, of which so many are to come.
#[derive(Drop)]
pub struct Meeting {
    wanted: u64,
    came: AtomicU64,
    late: AtomicBool,
}

impl Meeting {
    pub fn of(wanted: u64) -> Meeting {
        Meeting {
            wanted,
            came: AtomicU64::new(0),
            late: AtomicBool::new(false),
        }
    }

    /// One more has come.
    pub fn come(&self) {
        self.came.fetch_add(1, Ordering::SeqCst);
    }

    fn is_whole(&self) -> bool {
        self.came.load(Ordering::SeqCst) >= self.wanted
    }

    /// Whether all came, and none waited in vain.
    pub fn took_place(&self) -> bool {
        self.is_whole() && !self.late.load(Ordering::SeqCst)
    }

    /// Waits until all have come.
    pub fn hold(&self) {
        for _ in 0..MOST_TURNS {
            if self.is_whole() {
                return;
            }
            hint::spin_loop();
        }
        self.late.store(true, Ordering::SeqCst);
    }
}

// Whether this is main's child of this rank.
fn is_child(origin: &Origin, rank: u64) -> bool {
    match origin {
        Origin::Instance { path, .. } => path.len() == 1 && path.rank_at(0) == Some(rank),
        Origin::Loop { .. } => false,
    }
}

// Main's first children, each of which waits for the others where it begins.
#[derive(Drop)]
struct Together(Meeting);

impl Gate for Together {
    fn enter(&self, origin: &Origin) {
        for rank in 0..self.0.wanted {
            if is_child(origin, rank) {
                self.0.come();
                self.0.hold();
            }
        }
    }

    fn leave(&self, _origin: &Origin) {}
}

// How many children main has, on as many workers, and what is printed.
static AT_ONCE: [(u64, &str, &str, &str); 2] = [
    (
        2,
        "run --gamma 1,1 --workers 2 --show log",
        DRAWS_IN_CHILDREN,
        "draw 0.0 = 210\ndraw 1.0 = 903\n210\n903\n",
    ),
    (3, "run --workers 3", THREE_CHILDREN, "6\n"),
];

// With one worker less a child would be held to the end.
#[test]
fn workers_work_at_once(rt: HostRuntime) -> Result<(), Fail> {
    for &(children, line, script, output) in &AT_ONCE {
        let gate = Together(Meeting::of(children));
        let printed = guarded(&rt, line, script.as_bytes(), &gate)?;
        same(line, gate.0.took_place(), true)?;
        compare(line, printed, 0, output, "")?;
    }
    Ok(())
}

// Main's first child, which is held at its end until the child has begun that main spawns after its sync, at the rank 2.
#[derive(Drop)]
struct HeldAtItsEnd(Meeting);

impl Gate for HeldAtItsEnd {
    fn enter(&self, origin: &Origin) {
        if is_child(origin, 2) {
            self.0.come();
        }
    }

    fn leave(&self, origin: &Origin) {
        if is_child(origin, 0) {
            self.0.hold();
        }
    }
}

// A gate is left when the answer has been put, so main goes on with it meanwhile.
#[test]
fn an_answer_is_put_before_its_task_leaves(rt: HostRuntime) -> Result<(), Fail> {
    let gate = HeldAtItsEnd(Meeting::of(1));
    let line = "run --workers 2";
    let printed = guarded(&rt, line, CHILD_AFTER_A_SYNC.as_bytes(), &gate)?;
    same(line, gate.0.took_place(), true)?;
    compare(line, printed, 0, "1\n2\n", "")
}

// The words, on each number of workers, so many times.
fn repeats<R: Host>(
    rt: &R,
    words: &str,
    times: u32,
    script: &str,
    code: u8,
    output: &str,
) -> Result<(), Fail> {
    let alloc = rt.alloc();
    for workers in WORKERS {
        let line = format!(in alloc; "{words} --workers {workers}")?;
        for _ in 0..times {
            ends(rt, line.as_str(), script, code, output, "")?;
        }
    }
    Ok(())
}

// The words, the script, the status, and what is printed.
static RUNS: [(&str, &str, u8, &str); 4] = [
    (
        "run --gamma 1,1 --show log",
        TWO_DRAWS,
        0,
        "draw 0.0 = 210\ndraw 1 = 210\n210\n210\n",
    ),
    (
        "run --budget 10000",
        FAULTY_CHILD,
        1,
        "7\nfault 0.0: division by zero\n",
    ),
    ("run", SQUARES, 0, "0\n1\n4\n9\n16\n"),
    (
        "run",
        FAULT_BEFORE_ANOTHER,
        1,
        "fault 0.0: division by zero\n",
    ),
];

#[test]
fn runs_are_the_same_on_any_workers(rt: HostRuntime) -> Result<(), Fail> {
    for &(line, script, code, output) in &RUNS {
        repeats(&rt, line, 20, script, code, output)?;
    }
    Ok(())
}

// The words that generate a script, how often it runs, and what it prints.
static GENERATED: [(&str, u32, &str); 3] = [
    ("gen --shape fib --size 20", 3, "6765\n"),
    ("gen --shape tree --size 10", 10, "1024\n"),
    ("gen --shape loop --size 10", 10, "285\n"),
];

#[test]
fn generated_scripts_are_the_same_on_any_workers(rt: HostRuntime) -> Result<(), Fail> {
    for &(made, times, output) in &GENERATED {
        let script = generated(&rt, made)?;
        repeats(&rt, "run --gamma 0", times, script.as_str(), 0, output)?;
    }
    Ok(())
}

// How main begins what spawns on until no depth is left.
static EARLY: [&str; 3] = [
    "spawn f(1); sync;",
    "pfor i in 0..1 call f(i);",
    "pfor i in 0..100 call f(i);",
];

// Without cuts each level would take three times as long as the one before. The first strand without depth for a child has a pedigree of as
// many zeros as there may be ranks, in the first child as in the first iteration.
#[test]
fn what_stands_after_a_known_fault_is_not_run(rt: HostRuntime) -> Result<(), Fail> {
    let alloc = rt.alloc();
    let mut output = String::from_str(alloc, "fault 0")?;
    for _ in 1..24 {
        output.push_str(".0")?;
    }
    output.push_str(": depth\n")?;
    for &main in &EARLY {
        let script = format!(in alloc;
            "fn f(n) {{ spawn f(n); spawn f(n); spawn f(n); return 0; }} fn main() {{ {main} return 0; }}"
        )?;
        repeats(
            &rt,
            "run --depth 24",
            2,
            script.as_str(),
            1,
            output.as_str(),
        )?;
    }
    Ok(())
}
