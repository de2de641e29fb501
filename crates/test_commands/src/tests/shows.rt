// One script in both forms, by each command that prints it. In plain form a run keeps its prints alone, and in log form all events.

use std::test::Fail;
use test_calls::{FAULTY_CHILD, ends, prints};

// It makes an object at 0, and its children draw at 1.0 and 2.0.
const ROLLED: &str =
    "fn roll() { let x = draw; print 7; return x; } fn main() { let o = new; let a = spawn roll(); let b = spawn roll(); print 9; sync; print a % 6; print b % 6; print o; return 0; }";

const PLAIN: &str = "7\n7\n9\n-1\n2\n0\n";

const LOG: &str =
    "new 0\ndraw 1.0 = 18313383515021173533\n7\ndraw 2.0 = 1169314436506139360\n7\n9\n-1\n2\n0\n";

// Under a second seed too.
const PLAIN_BATCH: &str = "seed 1\n7\n7\n9\n-1\n2\n0\nseed 0\n7\n7\n9\n3\n0\n0\n";

const LOG_BATCH: &str =
    "seed 1\nnew 0\ndraw 1.0 = 18313383515021173533\n7\ndraw 2.0 = 1169314436506139360\n7\n9\n-1\n2\n0\nseed 0\nnew 0\ndraw 1.0 = 6966525338017513503\n7\ndraw 2.0 = 18060431616501674362\n7\n9\n3\n0\n0\n";

// The words, and what is printed.
static FORMS: [(&str, &str); 10] = [
    ("serial --seed 1", PLAIN),
    ("serial --seed 1 --show log", LOG),
    ("run --seed 1 --workers 1", PLAIN),
    ("run --seed 1 --workers 1 --show log", LOG),
    ("run --seed 1 --workers 4", PLAIN),
    ("run --seed 1 --workers 4 --show log", LOG),
    ("batch --seeds 1,0 --workers 1", PLAIN_BATCH),
    ("batch --seeds 1,0 --workers 1 --show log", LOG_BATCH),
    ("batch --seeds 1,0 --workers 4", PLAIN_BATCH),
    ("batch --seeds 1,0 --workers 4 --show log", LOG_BATCH),
];

#[test]
fn a_log_has_the_plain_lines_and_more(rt: HostRuntime) -> Result<(), Fail> {
    for &(line, output) in &FORMS {
        prints(&rt, line, ROLLED, output)?;
    }
    Ok(())
}

// A fault has its line in both forms.
static FAULTS: [(&str, &str); 8] = [
    ("serial --budget 100", "7\nfault 0.0: division by zero\n"),
    (
        "serial --budget 100 --show log",
        "7\nfault 0.0: division by zero\n",
    ),
    (
        "run --budget 100 --workers 1",
        "7\nfault 0.0: division by zero\n",
    ),
    (
        "run --budget 100 --workers 1 --show log",
        "7\nfault 0.0: division by zero\n",
    ),
    (
        "run --budget 100 --workers 4",
        "7\nfault 0.0: division by zero\n",
    ),
    (
        "run --budget 100 --workers 4 --show log",
        "7\nfault 0.0: division by zero\n",
    ),
    (
        "batch --budget 100 --seeds 5",
        "seed 5\n7\nfault 0.0: division by zero\n",
    ),
    (
        "batch --budget 100 --seeds 5 --show log",
        "seed 5\n7\nfault 0.0: division by zero\n",
    ),
];

#[test]
fn a_fault_has_its_line_in_both_forms(rt: HostRuntime) -> Result<(), Fail> {
    for &(line, output) in &FAULTS {
        ends(&rt, line, FAULTY_CHILD, 1, output, "")?;
    }
    Ok(())
}
