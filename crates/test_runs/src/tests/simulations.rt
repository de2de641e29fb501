// Simulations: which worker ends main, and what stands after its line.

use engine::OpenGate;
use std::test::Fail;
use test_calls::{
    FAULTY_CHILD, Host, SQUARES, TWO_DRAWS, call, compare, ends, plain, prints, same,
};

const ONE_CHILD: &str =
    "fn f() { let x = draw; return x; } fn main() { let a = spawn f(); sync; print a; return 0; }";

// On two workers the first step can only be the run in which main spawns its child. Then worker 0 may run and worker 1 may steal: the second
// word of seed 0, 7960286522194355700, is even, so worker 0 runs, and its child has answered. Then it may pop main's rest and worker 1 may
// steal it: the third word, 487617019471545679, is odd, so worker 1 steals. Worker 0 has no task any more, and worker 1 ends main.
#[test]
fn a_thief_ends_main(rt: HostRuntime) -> Result<(), Fail> {
    prints(
        &rt,
        "sim --gamma 1,10 --workers 2 --number 0",
        ONE_CHILD,
        "worker 1\n128271\n",
    )
}

// The number and the worker, as `tests/simulations` has it by the definitions.
static NUMBERS: [(u64, u32); 10] = [
    (0, 1),
    (1, 1),
    (2, 2),
    (3, 0),
    (4, 1),
    (5, 1),
    (6, 2),
    (7, 0),
    (8, 2),
    (9, 1),
];

#[test]
fn each_number_has_its_worker(rt: HostRuntime) -> Result<(), Fail> {
    let alloc = rt.alloc();
    for &(number, worker) in &NUMBERS {
        let line = format!(in alloc; "sim --workers 3 --number {number} --gamma 1,1 --show log")?;
        let output = format!(in alloc;
            "worker {worker}\ndraw 0.0 = 210\ndraw 1 = 210\n210\n210\n"
        )?;
        prints(&rt, line.as_str(), TWO_DRAWS, output.as_str())?;
    }
    Ok(())
}

#[test]
fn one_worker_is_worker_0(rt: HostRuntime) -> Result<(), Fail> {
    prints(
        &rt,
        "sim --workers 1 --number 0 --gamma 1,1 --show log",
        TWO_DRAWS,
        "worker 0\ndraw 0.0 = 210\ndraw 1 = 210\n210\n210\n",
    )
}

// Main spins until its steps are spent, and waits for its child before it ends.
#[test]
fn a_fault_stands_after_the_worker(rt: HostRuntime) -> Result<(), Fail> {
    ends(
        &rt,
        "sim --workers 1 --number 0 --budget 1000",
        FAULTY_CHILD,
        1,
        "worker 0\n7\nfault 0.0: division by zero\n",
        "",
    )
}

// What stands after the line of the worker.
fn lines_after_first(output: &str) -> &str {
    match output.split_once("\n") {
        Some((_, lines)) => lines,
        None => "",
    }
}

// The number picks the worker, and changes nothing else.
fn simulate_all<R: Host>(rt: &R, script: &str) -> Result<(), Fail> {
    let alloc = rt.alloc();
    let run = plain(rt, "serial", script.as_bytes())?;
    for workers in [1u32, 2, 5, 64] {
        for number in 0..4u64 {
            let line = format!(in alloc; "sim --workers {workers} --number {number}")?;
            let printed = plain(rt, line.as_str(), script.as_bytes())?;
            let line = line.as_str();
            same(line, printed.code, run.code)?;
            same(line, printed.out.as_str().starts_with("worker "), true)?;
            same(
                line,
                lines_after_first(printed.out.as_str()),
                run.out.as_str(),
            )?;
        }
    }
    Ok(())
}

#[test]
fn simulations_print_the_same_after_the_worker(rt: HostRuntime) -> Result<(), Fail> {
    simulate_all(&rt, SQUARES)?;
    simulate_all(&rt, TWO_DRAWS)
}

// The write that fails, and what stands then.
static FRONTS: [(u64, &str); 3] = [(0, ""), (1, "work"), (2, "worker 1")];

#[test]
fn a_simulation_tells_faults_of_its_streams(rt: HostRuntime) -> Result<(), Fail> {
    let alloc = rt.alloc();
    let line = "sim --gamma 1,10 --workers 2 --number 0";
    for &(planned, front) in &FRONTS {
        let script = ONE_CHILD.as_bytes().to_vec(alloc)?;
        let writes = vec![in alloc; planned]?;
        let printed = call(&rt, line, script, 4, Vec::new(alloc), writes, &OpenGate)?;
        compare(line, printed, 5, front, "write fault\n")?;
    }
    let script = ONE_CHILD.as_bytes().to_vec(alloc)?;
    let reads = vec![in alloc; 1u64]?;
    let printed = call(&rt, line, script, 8, reads, Vec::new(alloc), &OpenGate)?;
    compare(line, printed, 4, "", "read fault\n")?;
    ends(
        &rt,
        line,
        "fn main() { return x; }",
        3,
        "",
        "script: unknown variable at byte 19\n",
    )
}
