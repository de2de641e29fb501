// Scopes: what scripts of version 2 print, their strands, their work and span.

use std::test::Fail;
use test_calls::{ends, prints};

const PRINT_THEN_DRAW: &str =
    "version 2\nfn main() { scope { print 1; } let x = draw; print x; return 0; }";

const DRAW: &str = "version 2\nfn main() { let x = 0; scope { x = draw; } print x; return 0; }";

// The child is spawned at 0.0, and the scope's end waits for it at 0.1.
const CHILD: &str =
    "version 2\nfn f() { let x = draw; return x; } fn main() { let a = 0; scope { a = spawn f(); } print a; return 0; }";

// A call in a scope goes on from the scope's path and rank; its own scope is one level further, and the loop in there two more.
const NESTED: &str =
    "version 2\nfn f() { let x = draw; return x; } fn g(i) { print i; return i; } fn inner() { let x = call f(); scope { pfor i in 0..2 call g(i); } let y = call f(); return x + y; } fn main() { scope { call inner(); } return 0; }";

// The sync waits for what was spawned before its scope.
const SYNC_WITHIN: &str =
    "version 2\nfn f() { return 7; } fn main() { let x = spawn f(); scope { sync; print x; } return 0; }";

// The words, the script, the status, and what is printed and told.
type Row = (&'static str, &'static str, u8, &'static str, &'static str);

static RUNS: [Row; 12] = [
    ("run --gamma 1", PRINT_THEN_DRAW, 0, "1\n210\n", ""),
    ("serial --gamma 1", PRINT_THEN_DRAW, 0, "1\n210\n", ""),
    (
        "run --gamma 0,1 --show log",
        DRAW,
        0,
        "draw 0.0 = 21\n21\n",
        "",
    ),
    ("run --gamma 0,0,1", CHILD, 0, "21\n", ""),
    ("run --gamma 0,0,1 --workers 4", CHILD, 0, "21\n", ""),
    (
        "run --gamma 0,1 --show log",
        NESTED,
        0,
        "draw 0.0 = 21\n0\n1\ndraw 0.2 = 903\n",
        "",
    ),
    ("run --depth 1", PRINT_THEN_DRAW, 1, "fault 0: depth\n", ""),
    ("run --depth 2", CHILD, 1, "fault 0.0: depth\n", ""),
    ("run", SYNC_WITHIN, 0, "7\n", ""),
    (
        "run",
        "version 2\nfn main() { let z = 0; scope { print 1 / z; } return 0; }",
        1,
        "fault 0.0: division by zero\n",
        "",
    ),
    (
        "run",
        "fn main() { scope { } return 0; }",
        3,
        "",
        "script: unexpected token at byte 18\n",
    ),
    (
        "fmt",
        "version 2\nfn main(){scope{sync;}return 0;}",
        0,
        "version 2\nfn main() {\n  scope {\n    sync;\n  }\n  return 0;\n}\n",
        "",
    ),
];

#[test]
fn scopes_are_levels_of_pedigrees(rt: HostRuntime) -> Result<(), Fail> {
    for &(line, script, code, output, refusal) in &RUNS {
        ends(&rt, line, script, code, output, refusal)?;
    }
    Ok(())
}

// A scope's strands are its instance's, and so are those before and after it. The one that came to the scope did nothing else.
static STRANDS: [Row; 8] = [
    ("replay --at 0", CHILD, 0, "", ""),
    ("replay --at 0.0", CHILD, 0, "spawn 0.0\n", ""),
    (
        "replay --gamma 0,0,1 --at 0.0.0",
        CHILD,
        0,
        "draw 0.0.0 = 21\n",
        "",
    ),
    ("replay --at 0.1", CHILD, 0, "sync 0.1\n", ""),
    ("replay --at 0.2", CHILD, 0, "", ""),
    ("replay --at 0.3", CHILD, 7, "", "no strand 0.3\n"),
    ("replay --gamma 0,0,1 --at 1", CHILD, 0, "21\nsync 1\n", ""),
    ("replay --at 0.0.3", CHILD, 7, "", "no strand 0.0.3\n"),
];

#[test]
fn strands_of_scopes_are_found(rt: HostRuntime) -> Result<(), Fail> {
    for &(line, script, code, output, refusal) in &STRANDS {
        ends(&rt, line, script, code, output, refusal)?;
    }
    Ok(())
}

// Of a scope that waits for a child that faults, only what comes after it is blocked.
const FAULTY: &str =
    "version 2\nfn bad() { let z = 0; return 1 / z; } fn main() { scope { spawn bad(); print 1; } print 2; return 0; }";

static AROUND_A_FAULT: [Row; 5] = [
    ("run", FAULTY, 1, "fault 0.0.0: division by zero\n", ""),
    ("replay --at 0.1", FAULTY, 0, "1\nsync 0.1\n", ""),
    ("replay --at 0.2", FAULTY, 7, "", "blocked by fault 0.0.0\n"),
    ("replay --at 1", FAULTY, 7, "", "blocked by fault 0.0.0\n"),
    (
        "replay --at 0.0.0",
        FAULTY,
        1,
        "fault 0.0.0: division by zero\n",
        "",
    ),
];

#[test]
fn a_scope_waits_for_its_children(rt: HostRuntime) -> Result<(), Fail> {
    for &(line, script, code, output, refusal) in &AROUND_A_FAULT {
        ends(&rt, line, script, code, output, refusal)?;
    }
    Ok(())
}

// Events in a scope are its instance's own: in series with one another, and no iterations. A scope's end waits for what was spawned before it,
// too. In the last script a path begins anew with ranks that an iteration of the child also has.
static SPANS: [(&str, &str); 5] = [
    (
        "version 2\nfn main() { scope { print 1; } scope { print 2; } return 0; }",
        "work 4\nspan 4\n",
    ),
    (
        "version 2\nfn f() { let x = draw; return x; } fn main() { scope { spawn f(); print 1; } print 2; return 0; }",
        "work 6\nspan 5\n",
    ),
    (
        "version 2\nfn f() { let x = draw; let y = draw; return x; } fn main() { spawn f(); scope { } print 1; return 0; }",
        "work 6\nspan 5\n",
    ),
    (
        "version 2\nfn h(i) { let x = draw; return x; } fn f() { pfor i in 0..1 call h(i); return 0; } fn main() { spawn f(); scope { scope { scope { print 1; } } } return 0; }",
        "work 8\nspan 6\n",
    ),
    (
        "version 2\nfn g(i) { print i; return i; } fn main() { pfor i in 0..1 call g(i); scope { scope { print 1; } } return 0; }",
        "work 5\nspan 5\n",
    ),
];

#[test]
fn scopes_belong_to_their_instance(rt: HostRuntime) -> Result<(), Fail> {
    for &(script, output) in &SPANS {
        prints(&rt, "span", script, output)?;
    }
    Ok(())
}
