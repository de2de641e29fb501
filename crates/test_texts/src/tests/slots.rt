// Where the variables of scripts are found.

use super::{same, tree};
use script_check::{Checked, check};
use std::alloc::Global;
use std::process::Abort;

// The checked script of a text, if it is valid.
fn checked(rt: &impl Abort, alloc: Global, text: &[u8]) -> Option<Checked> {
    let Ok(script) = tree(rt, alloc, text) else {
        return None;
    };
    check(alloc, script).ok()
}

// A script, the offset of a variable's name in it, and the variable's slot.
static SLOTS: [(&str, usize, u16); 16] = [
    (
        "fn main() { let x = 1; let yy = x; yy = x + yy; return yy; }",
        32,
        0,
    ),
    (
        "fn main() { let x = 1; let yy = x; yy = x + yy; return yy; }",
        35,
        1,
    ),
    (
        "fn main() { let x = 1; let yy = x; yy = x + yy; return yy; }",
        55,
        1,
    ),
    (
        "fn f(a, b) { let c = b; return a; } fn main() { let c = call f(1, 2); return c; }",
        17,
        2,
    ),
    (
        "fn f(a, b) { let c = b; return a; } fn main() { let c = call f(1, 2); return c; }",
        21,
        1,
    ),
    (
        "fn f(a, b) { let c = b; return a; } fn main() { let c = call f(1, 2); return c; }",
        52,
        0,
    ),
    (
        "fn f(i, n) { return i + n; } fn main() { let n = 3; let a[4]; a[n] = 1; pfor i in 0..n into a call f(i, n); return a[n - 1]; }",
        24,
        1,
    ),
    (
        "fn f(i, n) { return i + n; } fn main() { let n = 3; let a[4]; a[n] = 1; pfor i in 0..n into a call f(i, n); return a[n - 1]; }",
        62,
        1,
    ),
    (
        "fn f(i, n) { return i + n; } fn main() { let n = 3; let a[4]; a[n] = 1; pfor i in 0..n into a call f(i, n); return a[n - 1]; }",
        64,
        0,
    ),
    (
        "fn f(i, n) { return i + n; } fn main() { let n = 3; let a[4]; a[n] = 1; pfor i in 0..n into a call f(i, n); return a[n - 1]; }",
        92,
        1,
    ),
    (
        "fn f(i, n) { return i + n; } fn main() { let n = 3; let a[4]; a[n] = 1; pfor i in 0..n into a call f(i, n); return a[n - 1]; }",
        104,
        0,
    ),
    (
        "fn f(i, n) { return i + n; } fn main() { let n = 3; let a[4]; a[n] = 1; pfor i in 0..n into a call f(i, n); return a[n - 1]; }",
        117,
        0,
    ),
    (
        "fn f(x) { if x { while x { x = x - 1; } } else { print x; } return 0; } fn main() { let y = spawn f(1); let z = 2; sync; call f(z); return y; }",
        31,
        0,
    ),
    (
        "fn f(x) { if x { while x { x = x - 1; } } else { print x; } return 0; } fn main() { let y = spawn f(1); let z = 2; sync; call f(z); return y; }",
        55,
        0,
    ),
    (
        "fn f(x) { if x { while x { x = x - 1; } } else { print x; } return 0; } fn main() { let y = spawn f(1); let z = 2; sync; call f(z); return y; }",
        128,
        1,
    ),
    (
        "fn f(x) { if x { while x { x = x - 1; } } else { print x; } return 0; } fn main() { let y = spawn f(1); let z = 2; sync; call f(z); return y; }",
        139,
        0,
    ),
];

#[test]
fn each_name_has_its_slot(rt: HostRuntime) {
    for &(text, at, slot) in &SLOTS {
        let checked = checked(&rt, rt.alloc(), text.as_bytes()).expect(&rt, text);
        same(&rt, text, checked.slots().get(at).copied(), Some(slot));
    }
}

// A script, the number of a function in it, a slot, and the name of the variable there.
static NAMES: [(&str, u32, usize, &str); 7] = [
    (
        "fn f(a, b) { let c = b; return a; } fn main() { let c = call f(1, 2); return c; }",
        0,
        0,
        "a",
    ),
    (
        "fn f(a, b) { let c = b; return a; } fn main() { let c = call f(1, 2); return c; }",
        0,
        1,
        "b",
    ),
    (
        "fn f(a, b) { let c = b; return a; } fn main() { let c = call f(1, 2); return c; }",
        0,
        2,
        "c",
    ),
    (
        "fn f(i, n) { return i + n; } fn main() { let n = 3; let a[4]; a[n] = 1; pfor i in 0..n into a call f(i, n); return a[n - 1]; }",
        1,
        0,
        "n",
    ),
    (
        "fn f(i, n) { return i + n; } fn main() { let n = 3; let a[4]; a[n] = 1; pfor i in 0..n into a call f(i, n); return a[n - 1]; }",
        1,
        1,
        "a",
    ),
    (
        "fn f(x) { if x { while x { x = x - 1; } } else { print x; } return 0; } fn main() { let y = spawn f(1); let z = 2; sync; call f(z); return y; }",
        1,
        0,
        "y",
    ),
    (
        "fn f(x) { if x { while x { x = x - 1; } } else { print x; } return 0; } fn main() { let y = spawn f(1); let z = 2; sync; call f(z); return y; }",
        1,
        1,
        "z",
    ),
];

#[test]
fn each_slot_has_a_name(rt: HostRuntime) {
    for &(text, function, slot, name) in &NAMES {
        let checked = checked(&rt, rt.alloc(), text.as_bytes()).expect(&rt, text);
        let names = checked.names(function).expect(&rt, text);
        let found = names.as_slice().get(slot).expect(&rt, text);
        same(&rt, text, found.as_slice() == name.as_bytes(), true);
    }
}
