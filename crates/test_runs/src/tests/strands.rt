// Replayed strands.

use std::test::Fail;
use test_calls::{FAULTY_CHILD, ROLLS, ends};

const FAULTY_CHILD_AWAITED: &str =
    "fn bad() { let z = 0; return 1 / z; } fn main() { spawn bad(); sync; print 1; return 0; }";

// Events of all kinds, in main, in a spawned child and in the iterations of a loop.
const EVENTS: &str =
    "fn f() { let x = new; print x; return 0; } fn g(i) { print i; let z = new; print z; return 0; } fn main() { spawn f(); let y = new; print y; sync; pfor i in 0..2 call g(i); return 0; }";

// The words, the script, the status, and what is printed and told.
static STRANDS: [(&str, &str, u8, &str, &str); 25] = [
    ("replay --at 0", FAULTY_CHILD, 0, "7\nspawn 0\n", ""),
    ("replay --at 1", FAULTY_CHILD_AWAITED, 0, "sync 1\n", ""),
    (
        "replay --gamma 0,1 --at 0.3.0",
        ROLLS,
        0,
        "draw 0.3.0 = 2628\n",
        "",
    ),
    ("replay --gamma 0,1 --at 0", ROLLS, 0, "loop 0\n", ""),
    ("replay --at 0", EVENTS, 0, "spawn 0\n", ""),
    ("replay --at 0.0", EVENTS, 0, "new 0.0\n", ""),
    ("replay --at 0.1", EVENTS, 0, "0.0\n", ""),
    ("replay --at 1", EVENTS, 0, "new 1\n", ""),
    ("replay --at 2", EVENTS, 0, "1\nsync 2\n", ""),
    ("replay --at 3", EVENTS, 0, "loop 3\n", ""),
    ("replay --at 3.0.0", EVENTS, 0, "0\nnew 3.0.0\n", ""),
    ("replay --at 3.0.1", EVENTS, 0, "3.0.0\n", ""),
    ("replay --at 3.1.0", EVENTS, 0, "1\nnew 3.1.0\n", ""),
    ("replay --at 3.1.1", EVENTS, 0, "3.1.0\n", ""),
    ("replay --at 4", EVENTS, 0, "sync 4\n", ""),
    (
        "replay --at 0.0",
        FAULTY_CHILD,
        1,
        "fault 0.0: division by zero\n",
        "",
    ),
    (
        "replay --budget 10000 --at 1",
        FAULTY_CHILD,
        1,
        "fault 1: budget spent\n",
        "",
    ),
    (
        "replay --budget 10000 --at 7",
        FAULTY_CHILD,
        7,
        "",
        "no strand 7\n",
    ),
    (
        "replay --at 2",
        FAULTY_CHILD_AWAITED,
        7,
        "",
        "blocked by fault 0.0\n",
    ),
    (
        "replay --gamma 0,1 --at 0.3",
        ROLLS,
        7,
        "",
        "no strand 0.3\n",
    ),
    (
        "replay --gamma 0,1 --at 0.5.0",
        ROLLS,
        7,
        "",
        "no strand 0.5.0\n",
    ),
    // Of two children that fault the first one blocks what comes after the sync; a loop blocks by its iterations.
    (
        "replay --at 3",
        "fn bad() { let z = 0; return 1 / z; } fn main() { spawn bad(); spawn bad(); sync; print 1; return 0; }",
        7,
        "",
        "blocked by fault 0.0\n",
    ),
    (
        "replay --at 1",
        "fn f(i) { return 6 / (2 - i); } fn main() { pfor i in 0..4 call f(i); print 9; return 0; }",
        7,
        "",
        "blocked by fault 0.2.0\n",
    ),
    // An iteration's first argument is its number in the range, and the others are the loop's.
    (
        "replay --at 0.1.0",
        "fn f(i, k) { print i; print k; return 0; } fn main() { pfor i in 7..9 call f(i, 5); return 0; }",
        0,
        "8\n5\n",
        "",
    ),
    // The fault stands in the next strand.
    (
        "replay --at 0",
        "fn main() { let x = new; let z = 0; print 1 / z; return 0; }",
        0,
        "new 0\n",
        "",
    ),
];

// The elision doesn't reach the strand 1 of the script with a faulty child.
#[test]
fn strands_tell_their_events_or_why_there_are_none(rt: HostRuntime) -> Result<(), Fail> {
    for &(line, script, code, output, refusal) in &STRANDS {
        ends(&rt, line, script, code, output, refusal)?;
    }
    Ok(())
}
