// Scripts, and the first condition that each violates.

use super::{same, tree};
use script_check::{CheckError, check};
use std::alloc::Global;
use std::process::Abort;

// The number and the place of the first violated condition, (0, 0) of a valid script, and (99, 0) where there is no tree.
fn fault(rt: &impl Abort, alloc: Global, text: &[u8]) -> (u8, u32) {
    let Ok(script) = tree(rt, alloc, text) else {
        return (99, 0);
    };
    match check(alloc, script) {
        Ok(_) => (0, 0),
        Err(CheckError::Bad { number, at }) => (number, at),
        Err(CheckError::Memory) => (98, 0),
    }
}

// A script, and the number and the place of its first violated condition. More rows stand with the commands `check` and `run`, whose lines
// tell the same.
static RULES: [(&str, u8, u32); 66] = [
    ("fn f() { return x; }", 1, 0),
    (
        "fn f() { return 1; } fn f() { return 2; } fn main() { return 0; }",
        3,
        24,
    ),
    (
        "fn f(a) { return 1; } fn main() { call f(); return 0; } fn f() { return 2; }",
        7,
        39,
    ),
    (
        "fn f() { return 1; } fn main() { call f(); return 0; } fn f(a) { return 2; }",
        3,
        58,
    ),
    ("fn main() { return 0; } fn main(a) { return 0; }", 3, 27),
    ("fn main() -> id { let o = new; return o; }", 0, 0),
    ("fn f(a, a) { return 1; } fn main() { return 0; }", 4, 8),
    (
        "fn f(a) { let a = 1; return 1; } fn main() { return 0; }",
        4,
        14,
    ),
    ("fn main() { let x = 1; let x[2]; return 0; }", 4, 27),
    ("fn main() { let x = x; return 0; }", 6, 20),
    ("fn main() { x = 1; return 0; }", 6, 12),
    ("fn main() { print y + z; return 0; }", 6, 18),
    ("fn main() { if 1 { let x = x; } return 0; }", 10, 19),
    ("fn main() { while 1 { let a[0]; } return 0; }", 10, 22),
    (
        "fn main() { if 0 { } else { let x = 1; } return 0; }",
        10,
        28,
    ),
    (
        "fn f(id o) { return 1; } fn main() { call f(1); return 0; }",
        8,
        44,
    ),
    (
        "fn f(id o) { return 1; } fn main() { call f(1, 2); return 0; }",
        7,
        42,
    ),
    (
        "fn f() -> id { let o = new; return o; } fn main() { let x = 1; x = call f(2); return 0; }",
        8,
        67,
    ),
    (
        "fn f() -> id { let o = new; return o; } fn main() { let x = 1; x = spawn f(); return 0; }",
        8,
        67,
    ),
    ("fn main() { let x = 1; x = new; return 0; }", 8, 27),
    ("fn main() { let o = new; o = draw; return 0; }", 8, 29),
    ("fn main() { let o = new; o = (1 + o); return 0; }", 8, 30),
    ("fn main() { let o = new; o = (y + 1); return 0; }", 6, 30),
    (
        "fn main() { let o = new; let x = same(o, 1); return 0; }",
        8,
        41,
    ),
    (
        "fn main() { let o = new; let x = older(o, o) + same(o, o); print o; return x; }",
        0,
        0,
    ),
    ("fn main() { let o = new; return o; }", 8, 32),
    ("fn main() -> id { return 0; }", 8, 25),
    ("fn main() { let a[2]; print a; return 0; }", 8, 28),
    ("fn main() { let a[2]; a = 1; return 0; }", 8, 22),
    ("fn main() { let x = 1; print x[0]; return 0; }", 8, 29),
    (
        "fn main() { let o = new; let a[2]; a[0] = -(o); return 0; }",
        8,
        44,
    ),
    ("fn main() { let o = new; if o { } return 0; }", 8, 28),
    (
        "fn main() { let o = new; while o < 1 { } return 0; }",
        8,
        31,
    ),
    (
        "fn main() { let o = new; print 1 * o * 2; return 0; }",
        8,
        35,
    ),
    (
        "fn f(i) { return i; } fn main() { let a[2]; pfor k in 0..2 into a call f(k); return 0; }",
        0,
        0,
    ),
    (
        "fn f() { return 1; } fn main() { pfor k in 0..2 call f(k); return 0; }",
        7,
        53,
    ),
    (
        "fn f(id o) { return 1; } fn main() { pfor k in 0..2 call f(k); return 0; }",
        8,
        57,
    ),
    (
        "fn f(id o) { return 1; } fn main() { pfor k in 0..2 call f(k, 1); return 0; }",
        7,
        57,
    ),
    (
        "fn f(i) -> id { let o = new; return o; } fn main() { pfor k in 0..2 call f(k); return 0; }",
        0,
        0,
    ),
    (
        "fn f(i) -> id { let o = new; return o; } fn main() { let a[2]; pfor k in 0..2 into a call f(k); return 0; }",
        8,
        90,
    ),
    (
        "fn f(i) { return i; } fn main() { let a = 1; pfor k in 0..2 into a call f(k); return 0; }",
        8,
        65,
    ),
    (
        "fn main() { pfor k in 0..2 into a call f(k); return 0; }",
        6,
        32,
    ),
    ("fn main() { pfor k in 0..k call f(k); return 0; }", 6, 25),
    (
        "fn f(i, id o) { return i; } fn main() { pfor k in 0..2 call f(k, 3); return 0; }",
        8,
        65,
    ),
    (
        "fn f() { return 1; } fn main() { let x = spawn f(); print x; return 0; }",
        9,
        58,
    ),
    (
        "fn f() { return 1; } fn main() { let x = spawn f(); x = 1; return 0; }",
        9,
        52,
    ),
    (
        "fn f() { return 1; } fn main() { let x = spawn f(); sync; print x; return 0; }",
        0,
        0,
    ),
    (
        "fn f() { return 1; } fn main() { let x = spawn f(); return x; }",
        0,
        0,
    ),
    (
        "fn f() { return 1; } fn main() { let x = spawn f(); spawn f(); call f(); let y = spawn f(); print 1; pfor k in 0..x call f(k); return 0; }",
        9,
        114,
    ),
    (
        "fn f() { return 1; } fn main() { let x = 0; if 1 { x = spawn f(); sync; } print x; return 0; }",
        0,
        0,
    ),
    (
        "fn f() { return 1; } fn main() { let x = spawn f(); if 1 { sync; } else { sync; } print x; return 0; }",
        0,
        0,
    ),
    (
        "fn f() { return 1; } fn main() { let x = spawn f(); if 1 { sync; } print x; return 0; }",
        9,
        73,
    ),
    (
        "fn f() { return 1; } fn main() { let x = spawn f(); while 1 { sync; } print x; return 0; }",
        9,
        76,
    ),
    (
        "fn f() { return 1; } fn main() { let x = 0; while x { x = spawn f(); } return 0; }",
        9,
        50,
    ),
    (
        "fn f() { return 1; } fn main() { let x = 0; while 1 { while 1 { print x; } if 1 { x = spawn f(); } } return 0; }",
        9,
        70,
    ),
    (
        "fn f() { return 1; } fn main() { let x = 0; while 1 { print x; x = spawn f(); sync; } return x; }",
        0,
        0,
    ),
    (
        "fn f() { return 1; } fn main() { while 1 { print y; y = spawn f(); } return 0; }",
        6,
        49,
    ),
    (
        "fn f() { return 1; } fn main() { let a[2]; while 1 { print a[0]; a = spawn f(); } return 0; }",
        9,
        59,
    ),
    (
        "fn g(a, b) { return a; } fn main() { let x = 1; x = spawn g(x, x); return 0; }",
        0,
        0,
    ),
    (
        "fn g(a, b) { return a; } fn main() { let x = 1; x = spawn g(1, 2); call g(x, 3); return 0; }",
        9,
        74,
    ),
    (
        "version 2\nfn main() { scope { let x = 1; } return 0; }",
        10,
        30,
    ),
    (
        "version 2\nfn f() { return 1; } fn main() { let x = 0; scope { x = spawn f(); } return x; }",
        0,
        0,
    ),
    (
        "version 2\nfn f() { return 1; } fn main() { let x = 0; scope { x = spawn f(); print x; } return x; }",
        9,
        83,
    ),
    (
        "version 2\nfn f() { return 1; } fn main() { let x = spawn f(); scope { print x; } return x; }",
        9,
        76,
    ),
    (
        "version 2\nfn f() { return 1; } fn main() { let x = spawn f(); scope { } print x; return x; }",
        0,
        0,
    ),
    (
        "version 2\nfn f() { return 1; } fn main() { let x = 0; while 1 { print x; scope { x = spawn f(); } } return x; }",
        0,
        0,
    ),
];

#[test]
fn each_rule_has_its_place(rt: HostRuntime) {
    for &(text, number, at) in &RULES {
        same(
            &rt,
            text,
            fault(&rt, rt.alloc(), text.as_bytes()),
            (number, at),
        );
    }
}
