// What runs print, and by which faults they end. `serial` goes by one worker by itself.

use std::alloc::{AllocError, Global};
use std::test::Fail;
use test_calls::{
    DRAWS, FAULTY_CHILD, ONE, PENDING_SYNCED, ROLLS, SQUARES, SUM, TWO_DRAWS, ends, prints,
};

const SPAWNED: &str =
    "fn f() { let x = draw; return x; } fn main() { print 1; spawn f(); sync; return 0; }";

const SPAWNED_DRAW: &str =
    "fn f() { let x = draw; return x; } fn main() { let a = spawn f(); sync; print a; return 0; }";

const IDS: &str =
    "fn mk() -> id { let o = new; return o; } fn main() { let a = spawn mk(); let b = spawn mk(); sync; print a; print b; let c = older(a, b); print c; let s = same(a, a); print s; return 0; }";

const THREE_PRINTS: &str = "fn main() { print 1; print 2; print 3; return 0; }";

const ONE_SPAWN: &str = "fn f() { return 0; } fn main() { spawn f(); return 0; }";

const ONE_ITERATION: &str =
    "fn f(i) { return i; } fn main() { pfor i in 0..1 call f(i); return 0; }";

const AWAITED: &str =
    "fn f() { return 5; } fn main() { print 1; let a = spawn f(); print 2; sync; print a; return 0; }";

// The words, the script, and what is printed.
type Run = (&'static str, &'static str, &'static str);

static RUNS: [Run; 15] = [
    ("run --seed 0", ONE, "1\n"),
    ("run", ONE, "1\n"),
    ("run --seed 0", SPAWNED, "1\n"),
    ("run --seed 7", SUM, "5\n3\n"),
    ("run --workers 64 --seed 18446744073709551615", ONE, "1\n"),
    ("run", PENDING_SYNCED, "1\n"),
    ("run --workers 8", SQUARES, "0\n1\n4\n9\n16\n"),
    ("run --workers 1", SQUARES, "0\n1\n4\n9\n16\n"),
    ("run", IDS, "0.0\n1.0\n1\n1\n"),
    (
        "run",
        "fn main() { let m = -9223372036854775807 - 1; print m / -1; print m % -1; return 0; }",
        "-9223372036854775808\n0\n",
    ),
    (
        "run",
        "fn f(n) { let r = 0; if n > 0 { r = call f(n - 1); } return r; } fn main() { let r = call f(255); print r; return 0; }",
        "0\n",
    ),
    ("run --budget 4", THREE_PRINTS, "1\n2\n3\n"),
    ("run --depth 2", ONE_SPAWN, ""),
    ("run --depth 3", ONE_ITERATION, ""),
    // A loop without an iteration needs no depth.
    (
        "run --depth 1",
        "fn f(i) { return i; } fn main() { pfor i in 0..0 call f(i); print 1; return 0; }",
        "1\n",
    ),
];

#[test]
fn runs_print_their_lines(rt: HostRuntime) -> Result<(), Fail> {
    for &(line, script, output) in &RUNS {
        prints(&rt, line, script, output)?;
    }
    Ok(())
}

static DRAWING_RUNS: [Run; 8] = [
    ("run --gamma 1", DRAWS, "21\n210\n903\n"),
    ("run --gamma 1,10", SPAWNED_DRAW, "128271\n"),
    (
        "run --gamma 1,1 --show log",
        TWO_DRAWS,
        "draw 0.0 = 210\ndraw 1 = 210\n210\n210\n",
    ),
    (
        "serial --gamma 1,1 --show log",
        TWO_DRAWS,
        "draw 0.0 = 210\ndraw 1 = 210\n210\n210\n",
    ),
    (
        "run --gamma 1",
        "fn f(i) { return i; } fn main() { pfor i in 3..3 call f(i); let x = draw; print x; return 0; }",
        "210\n",
    ),
    ("run --gamma 0,1", ROLLS, "21\n10\n3\n28\n5\n"),
    (
        "run --gamma 1",
        "fn f() { let x = draw; return x; } fn main() { let a = call f(); let b = call f(); print a; print b; return 0; }",
        "21\n210\n",
    ),
    (
        "run --gamma 1",
        "fn h() { return 0; } fn g() { spawn h(); return 0; } fn main() { call g(); let x = draw; print x; return 0; }",
        "903\n",
    ),
];

// Empty loops, calls and implied syncs raise the rank as their own strands do.
#[test]
fn draws_follow_the_pedigree(rt: HostRuntime) -> Result<(), Fail> {
    for &(line, script, output) in &DRAWING_RUNS {
        prints(&rt, line, script, output)?;
    }
    Ok(())
}

static SERIAL_RUNS: [Run; 10] = [
    (
        "serial --budget 100",
        "fn f(x) { print x; return x * 10; } fn main() { print 0; let a = spawn f(1); print 2; let b = spawn f(3); print 4; sync; print a + b; return 0; }",
        "0\n1\n2\n3\n4\n40\n",
    ),
    (
        "serial --budget 100",
        "fn fib(n) { let a = n; let b = 0; if 1 < n { a = spawn fib(n - 1); b = spawn fib(n - 2); sync; } return a + b; } fn main() { let x = spawn fib(10); sync; print x; return 0; }",
        "55\n",
    ),
    (
        "serial --budget 100",
        "fn down(n) { let r = 0; if 0 < n { r = spawn down(n - 1); sync; } return r + 1; } fn main() { let x = spawn down(200); sync; print x; return 0; }",
        "201\n",
    ),
    (
        "serial --budget 100",
        "fn square(i, k) { print i; return i * i + k; } fn main() { let a[5]; pfor i in 0..5 into a call square(i, 100); print a[0]; print a[4]; print a[3]; return 0; }",
        "0\n1\n2\n3\n4\n100\n116\n109\n",
    ),
    (
        "serial --budget 10000",
        "fn own(i) { return i; } fn main() { let a[1000]; let k = 0; let s = 0; pfor i in 0..1000 into a call own(i); while k < 1000 { s = s + a[k]; k = k + 1; } print s; return 0; }",
        "499500\n",
    ),
    ("serial --budget 100", IDS, "0.0\n1.0\n1\n1\n"),
    ("serial --depth 2 --budget 100", AWAITED, "1\n2\n5\n"),
    (
        "serial --depth 3 --budget 30",
        "fn f(n) { let s = 0; while n { if n % 2 { print n; } else { s = s + n; } n = n - 1; } return s; } fn main() { let x = call f(4); print x; return x + 1; }",
        "3\n1\n6\n",
    ),
    (
        "serial --depth 3 --budget 30",
        "fn f() { return 1; } fn g() { let x = spawn f(); sync; print x; return x + 1; } fn main() { print 0; let x = call g(); print x; return 2 * x; }",
        "0\n1\n2\n",
    ),
    (
        "serial --depth 3 --budget 30",
        "fn f(i) { return i; } fn main() { let a[3]; pfor i in 7..9 into a call f(i); print a[0]; print a[1]; print a[2]; return 4; }",
        "7\n8\n0\n",
    ),
];

#[test]
fn one_worker_prints_its_lines(rt: HostRuntime) -> Result<(), Fail> {
    for &(line, script, output) in &SERIAL_RUNS {
        prints(&rt, line, script, output)?;
    }
    Ok(())
}

static FAULTED_RUNS: [Run; 22] = [
    (
        "run --workers 1 --budget 10000",
        FAULTY_CHILD,
        "7\nfault 0.0: division by zero\n",
    ),
    (
        "run --workers 2 --budget 10000",
        FAULTY_CHILD,
        "7\nfault 0.0: division by zero\n",
    ),
    (
        "run --workers 64 --budget 10000",
        FAULTY_CHILD,
        "7\nfault 0.0: division by zero\n",
    ),
    (
        "serial --budget 100",
        FAULTY_CHILD,
        "7\nfault 0.0: division by zero\n",
    ),
    (
        "run --budget 3",
        THREE_PRINTS,
        "1\n2\n3\nfault 0: budget spent\n",
    ),
    ("run --depth 1", ONE_SPAWN, "fault 0: depth\n"),
    ("run --depth 2", ONE_ITERATION, "fault 0: depth\n"),
    (
        "run",
        "fn f(i) { return i; } fn main() { pfor i in -9223372036854775807 - 1..9223372036854775807 call f(i); return 0; }",
        "fault 0: budget spent\n",
    ),
    (
        "run",
        "fn sq(i) { return i * i; } fn main() { let a[5]; pfor i in 0..6 into a call sq(i); let k = 0; while k < 5 { print a[k]; k = k + 1; } return 0; }",
        "fault 0: index out of range\n",
    ),
    // The array is looked at before the depth, and the budget before the array.
    (
        "run --depth 2",
        "fn f(i) { return i; } fn main() { let a[1]; pfor i in 0..2 into a call f(i); return 0; }",
        "fault 0: index out of range\n",
    ),
    (
        "run --budget 3",
        "fn f(i) { return i; } fn main() { let a[1]; pfor i in 0..2 into a call f(i); return 0; }",
        "fault 0: budget spent\n",
    ),
    // A loop pays a step for each iteration.
    (
        "run --budget 4",
        "fn f(i) { return i; } fn main() { pfor i in 0..3 call f(i); print 1; return 0; }",
        "fault 1: budget spent\n",
    ),
    // The ends of a loop are evaluated from left to right.
    (
        "run",
        "fn f(i) { return i; } fn main() { let z = 0; let a[1]; pfor i in (1 / z)..a[3] call f(i); return 0; }",
        "fault 0: division by zero\n",
    ),
    // A store looks at its index before its value.
    (
        "run",
        "fn main() { let a[2]; a[1] = 5; print a[0]; print a[1]; a[2] = 6; return 0; }",
        "0\n5\nfault 0: index out of range\n",
    ),
    (
        "run",
        "fn main() { let z = 0; let a[1]; a[9] = 1 / z; return 0; }",
        "fault 0: index out of range\n",
    ),
    // Arguments are evaluated before the depth is looked at.
    (
        "run --depth 1",
        "fn f(n) { return n; } fn main() { let z = 0; spawn f(1 / z); return 0; }",
        "fault 0: division by zero\n",
    ),
    // The spawn and the sync that the return implies raise the rank.
    (
        "run",
        "fn f() { return 0; } fn main() { let z = 0; spawn f(); return 1 / z; }",
        "fault 2: division by zero\n",
    ),
    (
        "run",
        "fn f(n) { let r = 0; if n > 0 { r = call f(n - 1); } return r; } fn main() { let r = call f(256); print r; return 0; }",
        "fault 0: calls\n",
    ),
    (
        "serial --budget 100",
        "fn bad() { let z = 0; return 1 / z; } fn main() { print 7; let a = spawn bad(); print 8; sync; print a; return 0; }",
        "7\nfault 0.0: division by zero\n",
    ),
    (
        "serial --budget 100",
        "fn f(i) { print i; return 6 / (2 - i); } fn main() { let a[4]; pfor i in 0..4 into a call f(i); print 9; return 0; }",
        "0\n1\n2\nfault 0.2.0: division by zero\n",
    ),
    (
        "serial --depth 1 --budget 100",
        AWAITED,
        "1\nfault 0: depth\n",
    ),
    (
        "serial --depth 3 --budget 30",
        "fn main() { print 1; print 2; let o = new; print 3; while 1 { } return 0; }",
        "1\n2\n3\nfault 1: budget spent\n",
    ),
];

// Of the first rows the child's fault is before main's, which stands in a loop without end.
#[test]
fn runs_end_by_their_least_fault(rt: HostRuntime) -> Result<(), Fail> {
    for &(line, script, output) in &FAULTED_RUNS {
        ends(&rt, line, script, 1, output, "")?;
    }
    Ok(())
}

// The numbers from 1 to 511, and the fault at 512 ranks.
fn numbers_and_fault(alloc: Global) -> Result<String, AllocError> {
    let mut output = String::new(alloc);
    for n in 1..512u32 {
        output.push_str(format!(in alloc; "{n}\n")?.as_str())?;
    }
    output.push_str("fault 0")?;
    for _ in 1..512u32 {
        output.push_str(".0")?;
    }
    output.push_str(": depth\n")?;
    Ok(output)
}

// Each of 511 tasks would spawn two children more.
#[test]
fn a_fault_ends_all_tasks_below_at_once(rt: HostRuntime) -> Result<(), Fail> {
    let output = numbers_and_fault(rt.alloc())?;
    let script =
        "fn f(n) { print n; spawn f(n + 1); spawn f(n); spawn f(n); return 0; } fn main() { spawn f(1); sync; return 0; }";
    let line = "serial --depth 512 --budget 100";
    ends(&rt, line, script, 1, output.as_str(), "")
}

// Spawns of 17 children, whose answers are the numbers from 1 to 17.
fn spawns(alloc: Global) -> Result<String, AllocError> {
    let mut spawns = String::new(alloc);
    for i in 1..18u32 {
        spawns.push_str(format!(in alloc; "let x{i} = spawn f({i}); ")?.as_str())?;
    }
    Ok(spawns)
}

// The sum of their answers.
fn sum(alloc: Global) -> Result<String, AllocError> {
    let mut sum = String::from_str(alloc, "x1")?;
    for i in 2..18u32 {
        sum.push_str(format!(in alloc; " + x{i}")?.as_str())?;
    }
    Ok(sum)
}

#[test]
fn a_sync_waits_for_17_children(rt: HostRuntime) -> Result<(), Fail> {
    let alloc = rt.alloc();
    let spawns = spawns(alloc)?;
    let sum = sum(alloc)?;
    let script = format!(in alloc;
        "fn f(n) {{ return n; }} fn main() {{ {spawns}sync; print {sum}; return 0; }}"
    )?;
    prints(&rt, "run", script.as_str(), "153\n")
}
