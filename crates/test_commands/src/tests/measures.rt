// Work and span of scripts, by the command.

use std::test::Fail;
use test_calls::{FAULTY_CHILD, ROLLS, TWO_DRAWS, ends, generated, prints};

// A script, the status, and what is printed and told. A child and a loop's iterations are side by side with their parent, until its sync or
// the loop's end. A fault comes after the two lines.
static SPANS: [(&str, u8, &str, &str); 6] = [
    (TWO_DRAWS, 0, "work 7\nspan 6\n", ""),
    (ROLLS, 0, "work 11\nspan 7\n", ""),
    (
        FAULTY_CHILD,
        1,
        "work 2\nspan 2\nfault 0.0: division by zero\n",
        "",
    ),
    ("fn main() { return 0; }", 0, "work 0\nspan 0\n", ""),
    (
        "fn f(i) { print i; print i; return 0; } fn main() { pfor i in 0..2 call f(i); return 0; }",
        0,
        "work 5\nspan 3\n",
        "",
    ),
    (
        "fn main() { print 1 return 0; }",
        3,
        "",
        "script: unexpected token at byte 20\n",
    ),
];

#[test]
fn scripts_have_work_and_span(rt: HostRuntime) -> Result<(), Fail> {
    for &(script, code, output, refusal) in &SPANS {
        ends(&rt, "span", script, code, output, refusal)?;
    }
    Ok(())
}

// 2047 instances: a leaf has 2 events, each other one 4, and main prints. A chain has 3 of each of ten levels, a leaf's 2 and the print.
#[test]
fn a_tree_is_as_long_as_it_is_deep(rt: HostRuntime) -> Result<(), Fail> {
    let script = generated(&rt, "gen --shape tree --size 10")?;
    prints(&rt, "span", script.as_str(), "work 6141\nspan 33\n")
}
