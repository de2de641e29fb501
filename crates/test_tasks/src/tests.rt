// Tasks, alone and in the hands of a crew.

mod starts;
mod tasks;

use dotmix::Gamma;
use script_check::check;
use script_text::{MAX_BYTES, parse};
use serial_meaning::{Limits, Plan, Show};
use std::fmt::{Debug, Display};
use std::process::Abort;
use std::sync::Arc;
use std::test::Fail;

// The script's plan where each instance has 100 steps, and main may have children.
fn plan(rt: &(impl Abort + AllocGlobal), text: &str) -> Result<Arc<Plan>, Fail> {
    plan_within(rt, text, 2)
}

// The script's plan where each instance has 100 steps, and pedigrees have at most this many ranks.
fn plan_within(rt: &(impl Abort + AllocGlobal), text: &str, depth: u32) -> Result<Arc<Plan>, Fail> {
    let alloc = rt.alloc();
    assert!(rt; text.len() <= MAX_BYTES);
    assert!(rt; depth > 0 && depth < 10);
    let checked = check(alloc, parse(alloc, text.as_bytes())?)?;
    let gamma = Gamma::of_seed(alloc, 0, depth)?;
    assert!(rt; gamma.len() == depth);
    let limits = Limits { depth, budget: 100 };
    let plan = Plan::new(checked, gamma, limits, Show::Plain, 4);
    Ok(Arc::new(alloc, plan)?)
}

// What was found in this row is what was wanted. It stands for `assert_eq!`, whose text the check takes up anew at each place.
fn same<A: PartialEq + Debug + Drop>(
    rt: &impl Abort,
    row: impl Display + Drop,
    found: A,
    wanted: A,
) {
    assert_eq!(rt; found, wanted, "{row}");
}
