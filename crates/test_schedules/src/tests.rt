// A core by hand on a small script, and simulations of it.
ghost use Rattle.std.specs.Prelude.{◌≤◌};

use dotmix::Gamma;
use sched_core::{Core, CoreError, CoreEvent, Simulated, simulate};
use script_check::check;
use script_text::{MAX_BYTES, parse};
use serial_meaning::{Answer, Event, FaultKind, Limits, Outcome, Plan, Show, Value};
use std::alloc::Global;
use std::process::Abort;
use std::sync::Arc;
use std::test::Fail;

// Main spawns one child, waits for it and gives its value.
const ONE_CHILD: &str = "fn f() { return 7; } fn main() { let x = spawn f(); sync; return x; }";

// Main spawns one child, which draws a number, and prints it.
const DRAWS: &str =
    "fn f() { let x = draw; return x; } fn main() { let a = spawn f(); sync; print a; return 0; }";

// Main's child divides by 0, while main itself would go on until its budget is used up.
const DIVIDES: &str =
    "fn bad() { let z = 0; return 1 / z; } fn main() { print 7; let a = spawn bad(); let i = 0; while i == 0 { i = 0; } sync; print a; return 0; }";

const LOOK: CoreEvent = CoreEvent::Look {
    worker: 1,
    place: 0,
};

const STEAL: CoreEvent = CoreEvent::Steal {
    thief: 1,
    victim: 0,
};

// The script's plan where each instance has 100 steps, and may have children.
fn plan(rt: &(impl Abort + AllocGlobal), text: &str) -> Result<Arc<Plan>, Fail> {
    let alloc = rt.alloc();
    assert!(rt; text.len() <= MAX_BYTES);
    let checked = check(alloc, parse(alloc, text.as_bytes())?)?;
    let gamma = Gamma::of_list(alloc, &[1, 10], 2)?;
    assert!(rt; gamma.len() == 2);
    let limits = Limits {
        depth: 2,
        budget: 100,
    };
    let plan = Plan::new(checked, gamma, limits, Show::Plain, 4);
    Ok(Arc::new(alloc, plan)?)
}

// A core of so many workers on this script.
fn new_core(rt: &(impl Abort + AllocGlobal), text: &str, workers: u32) -> Result<Core, Fail>
    requires { (1 ≤ workers) × (workers ≤ 64) }
{
    let plan = plan(rt, text)?;
    Ok(Core::new(rt.alloc(), &plan, workers)?)
}

// Makes these steps, one after the other.
fn make(core: &mut Core, alloc: Global, events: &[CoreEvent]) -> Result<(), CoreError> {
    for event in events {
        core.step(alloc, *event)?;
    }
    Ok(())
}

// A number's simulation of the script on so many workers.
fn simulate_script(
    rt: &(impl Abort + AllocGlobal),
    text: &str,
    workers: u32,
    number: u64,
) -> Result<Simulated, Fail>
    requires { (1 ≤ workers) × (workers ≤ 64) }
{
    let plan = plan(rt, text)?;
    Ok(simulate(rt.alloc(), &plan, workers, number)?)
}

fn is_seven(answer: Option<&Answer>) -> bool {
    match answer {
        Some(answer) => matches!(answer.outcome, Outcome::Value(Value::Int(7))),
        None => false,
    }
}

// Whether it printed this number.
fn printed(answer: &Answer, number: i64) -> bool {
    for i in 0..answer.out.len() {
        if let Some(Event::Print(_, Value::Int(value))) = answer.out.get(i) {
            return *value == number;
        }
    }
    false
}

// Whether the simulation of `DRAWS` by number 0 on so many workers ends on this one, and prints what the child drew.
fn ends_on(rt: &(impl Abort + AllocGlobal), workers: u32, worker: u32) -> Result<bool, Fail>
    requires { (1 ≤ workers) × (workers ≤ 64) }
{
    let simulated = simulate_script(rt, DRAWS, workers, 0)?;
    Ok(simulated.worker == worker && printed(&simulated.answer, 128271))
}

#[test]
fn stolen_rest_answers(rt: HostRuntime) -> Result<(), Fail> {
    let alloc = rt.alloc();
    let mut core = new_core(&rt, DRAWS, 2)?;
    let events = [
        CoreEvent::Run(0),
        STEAL,
        CoreEvent::Run(1),
        LOOK,
        CoreEvent::Run(0),
        LOOK,
    ];
    make(&mut core, alloc, &events)?;
    assert!(rt; core.answer().is_none());
    core.step(alloc, CoreEvent::Run(1))?;
    assert!(rt; core.answer().is_some());
    assert!(rt; core.step(alloc, CoreEvent::Idle(0)) == Err(CoreError::NotLawful));
    Ok(())
}

#[test]
fn unlawful_events_are_told(rt: HostRuntime) -> Result<(), Fail> {
    let alloc = rt.alloc();
    let mut core = new_core(&rt, ONE_CHILD, 2)?;
    let steal = CoreEvent::Steal {
        thief: 0,
        victim: 0,
    };
    let look = CoreEvent::Look {
        worker: 0,
        place: 0,
    };
    assert!(rt; core.step(alloc, steal) == Err(CoreError::NotLawful));
    assert!(rt; core.step(alloc, look) == Err(CoreError::NotLawful));
    assert!(rt; core.step(alloc, CoreEvent::Pop(0)) == Err(CoreError::NotLawful));
    assert!(rt; core.step(alloc, CoreEvent::Run(2)) == Err(CoreError::NotLawful));
    let events = [
        CoreEvent::Idle(1),
        CoreEvent::Run(0),
        CoreEvent::Run(0),
        CoreEvent::Pop(0),
        CoreEvent::Run(0),
        look,
        CoreEvent::Run(0),
    ];
    make(&mut core, alloc, &events)?;
    assert!(rt; is_seven(core.answer()));
    Ok(())
}

// The first two words of seed 0 pick runs of worker 0, by which the child has answered; then worker 1 steals main's rest.
#[test]
fn words_pick_the_events(rt: HostRuntime) -> Result<(), Fail> {
    let stolen = ends_on(&rt, 2, 1)?;
    assert!(rt; stolen);
    let alone = ends_on(&rt, 1, 0)?;
    assert!(rt; alone);
    Ok(())
}

#[test]
fn every_number_gives_mains_answer(rt: HostRuntime) -> Result<(), Fail> {
    for number in 0..10 {
        let simulated = simulate_script(&rt, DRAWS, 3, number)?;
        assert!(rt; simulated.worker < 3);
        assert!(rt; printed(&simulated.answer, 128271));
    }
    Ok(())
}

#[test]
fn a_childs_fault_is_mains(rt: HostRuntime) -> Result<(), Fail> {
    let simulated = simulate_script(&rt, DIVIDES, 1, 0)?;
    assert!(rt; simulated.worker == 0);
    assert!(rt; printed(&simulated.answer, 7));
    let divides = match &simulated.answer.outcome {
        Outcome::Fault(fault) => fault.kind == FaultKind::Divide && fault.at.len() == 2,
        _ => false,
    };
    assert!(rt; divides);
    Ok(())
}
