// Main under several plans, on one crew.

use contract_views::Items;
use crew::{Crew, Gate, Hand, OpenGate, Root, Turn};
use dotmix::Gamma;
use meet_block::Look;
use ped_gen::{Shape, gen_script};
use ped_io::MemSink;
use run_lines::Page;
use script_check::check;
use script_text::{MAX_BYTES, parse};
use seed_batch::{put_batch, run_batch, run_batch_of_lines, run_batch_of_prints};
use serial_meaning::{Answer, Keep, Limits, Lined, Origin, Out, Plan, Prints, Show};
use std::alloc::{AllocError, Global};
use std::fmt::{Debug, Display};
use std::hint;
use std::process::Abort;
use std::sync::atomic::{AtomicBool, AtomicU64, Ordering};
use std::sync::{Arc, Wait};
use std::test::Fail;
use std::thread::Threads;

const MOST_STEPS: u32 = 4294967295;

const ONE: &[u8] = b"fn main() { print 1; return 0; }";

const SUM: &[u8] =
    b"fn two() { let x = 1 + 1; return x; } fn main() { let a = spawn two(); print 5; sync; print a + 1; return 0; }";

const SQUARES: &[u8] =
    b"fn sq(i) { return i * i; } fn main() { let a[5]; pfor i in 0..5 into a call sq(i); let k = 0; while k < 5 { print a[k]; k = k + 1; } return 0; }";

const THREE_PRINTS: &[u8] = b"fn main() { print 1; print 2; print 3; return 0; }";

// What a test's runtime has.
trait Host: Abort + AllocGlobal + Threads + Wait + Sync {}

impl<R: Abort + AllocGlobal + Threads + Wait + Sync> Host for R {}

// What was found in this row is what was wanted. It stands for `assert_eq!`, whose text the check takes up anew at each place.
fn same<A: PartialEq + Debug + Drop>(
    rt: &impl Abort,
    row: impl Display + Drop,
    found: A,
    wanted: A,
) {
    assert_eq!(rt; found, wanted, "{row}");
}

// The script's plan under a seed, where each instance has so many steps.
fn plan_under<R: Abort + AllocGlobal>(
    rt: &R,
    script: &[u8],
    seed: u64,
    budget: u32,
) -> Result<Arc<Plan>, Fail> {
    plan_showing(rt, script, seed, budget, Show::Plain)
}

// The same, of which this is shown.
fn plan_showing<R: Abort + AllocGlobal>(
    rt: &R,
    script: &[u8],
    seed: u64,
    budget: u32,
    show: Show,
) -> Result<Arc<Plan>, Fail> {
    let alloc = rt.alloc();
    assert!(rt; script.len() <= MAX_BYTES);
    let checked = check(alloc, parse(alloc, script)?)?;
    let gamma = Gamma::of_seed(alloc, seed, 64)?;
    assert!(rt; gamma.len() == 64 && budget > 0);
    let limits = Limits { depth: 64, budget };
    let plan = Plan::new(checked, gamma, limits, show, 4);
    Ok(Arc::new(alloc, plan)?)
}

// The script's plans under these seeds, in order.
fn plans_under<R: Abort + AllocGlobal>(
    rt: &R,
    script: &[u8],
    seeds: &[u64],
    budget: u32,
) -> Result<Items<Arc<Plan>>, Fail> {
    let mut plans = Vec::new(rt.alloc());
    for &seed in seeds {
        plans.push(plan_under(rt, script, seed, budget)?)?;
    }
    Ok(Items(plans))
}

// What a batch of these plans prints, by so many workers, where they are under these seeds.
fn batch<R: Host, G: Gate + Sync>(
    rt: &R,
    plans: &Items<Arc<Plan>>,
    seeds: &[u64],
    workers: u32,
    gate: &G,
) -> Result<Vec<u8>, Fail> {
    let alloc = rt.alloc();
    let count = plans.as_slice().len();
    assert!(rt; count >= 1 && count <= 256 && count == seeds.len());
    assert!(rt; workers >= 1 && workers <= 64);
    let answers = run_batch(rt, alloc, plans, workers, gate)?;
    let seeds = Items(seeds.to_vec(alloc)?);
    let mut page = Page::new(alloc)?;
    let mut out = MemSink::new(alloc, 4096, 1048576, Vec::new(alloc))?;
    put_batch(&seeds, &answers, &mut page, &mut out)?;
    page.flush(&mut out)?;
    Ok(out.bytes().to_vec(alloc)?)
}

// A batch of the script under these seeds prints this.
fn prints_parts<R: Host>(
    rt: &R,
    script: &[u8],
    seeds: &[u64],
    budget: u32,
    workers: u32,
    output: &[u8],
) -> Result<(), Fail> {
    let plans = plans_under(rt, script, seeds, budget)?;
    let printed = batch(rt, &plans, seeds, workers, &OpenGate)?;
    same(rt, "batch", printed.as_slice(), output);
    Ok(())
}

#[test]
fn a_batch_prints_a_part_of_each_seed(rt: HostRuntime) -> Result<(), Fail> {
    prints_parts(&rt, ONE, &[0, 0], MOST_STEPS, 1, b"seed 0\n1\nseed 0\n1\n")?;
    let fib = gen_script(rt.alloc(), Shape::Fib, 10)?;
    let parts = b"seed 1\n55\nseed 2\n55\nseed 3\n55\n";
    prints_parts(&rt, &fib, &[1, 2, 3], MOST_STEPS, 2, parts)
}

#[test]
fn a_fault_ends_its_own_part_alone(rt: HostRuntime) -> Result<(), Fail> {
    let parts = b"seed 5\n1\n2\n3\nfault 0: budget spent\nseed 6\n1\n2\n3\nfault 0: budget spent\n";
    prints_parts(&rt, THREE_PRINTS, &[5, 6], 3, 4, parts)
}

// The plans of these scripts, each under its seed.
fn plans_of<R: Abort + AllocGlobal>(
    rt: &R,
    scripts: &[(&[u8], u64)],
) -> Result<Items<Arc<Plan>>, Fail> {
    let mut plans = Vec::new(rt.alloc());
    for &(script, seed) in scripts {
        plans.push(plan_under(rt, script, seed, MOST_STEPS)?)?;
    }
    Ok(Items(plans))
}

static SEEDED: [(&[u8], u64); 3] = [(SUM, 7), (SQUARES, 18446744073709551615), (THREE_PRINTS, 0)];

#[test]
fn each_part_is_its_plans_own(rt: HostRuntime) -> Result<(), Fail> {
    let plans = plans_of(&rt, &SEEDED)?;
    let seeds = [7, 18446744073709551615, 0];
    let parts = b"seed 7\n5\n3\nseed 18446744073709551615\n0\n1\n4\n9\n16\nseed 0\n1\n2\n3\n";
    for workers in [1, 2, 3, 8, 64] {
        let printed = batch(&rt, &plans, &seeds, workers, &OpenGate)?;
        same(&rt, workers, printed.as_slice(), parts.as_slice());
    }
    Ok(())
}

// How many events there are, and how many of them are kept.
fn counts<K: Keep>(events: &Out<K>) -> (u64, u64) {
    let mut kept = 0u64;
    if let Some((full, last)) = events.kept_chunks() {
        for chunk in full {
            kept = kept.wrapping_add(chunk.events().len() as u64);
        }
        kept = kept.wrapping_add(last.len() as u64);
    }
    (events.len(), kept)
}

// The answers of a batch that keeps prints alone, by so many workers.
fn answers_of_prints<R: Host>(
    rt: &R,
    plans: &Items<Arc<Plan>>,
    workers: u32,
) -> Result<Items<Answer<Prints>>, Fail> {
    let count = plans.as_slice().len();
    assert!(rt; count >= 1 && count <= 256);
    assert!(rt; workers >= 1 && workers <= 64);
    Ok(run_batch_of_prints(rt, rt.alloc(), plans, workers, &OpenGate)?)
}

// The same of one that keeps the events that have a line.
fn answers_of_lines<R: Host>(
    rt: &R,
    plans: &Items<Arc<Plan>>,
    workers: u32,
) -> Result<Items<Answer<Lined>>, Fail> {
    let count = plans.as_slice().len();
    assert!(rt; count >= 1 && count <= 256);
    assert!(rt; workers >= 1 && workers <= 64);
    Ok(run_batch_of_lines(rt, rt.alloc(), plans, workers, &OpenGate)?)
}

// The first run spawns, syncs twice and prints twice, and the second has a loop and five prints.
static COUNTED: [(u64, u64); 3] = [(5, 2), (6, 5), (3, 3)];

#[test]
fn a_batch_of_prints_keeps_them_alone(rt: HostRuntime) -> Result<(), Fail> {
    let plans = plans_of(&rt, &SEEDED)?;
    for workers in [1, 4] {
        let answers = answers_of_prints(&rt, &plans, workers)?;
        assert!(rt; answers.as_slice().len() == COUNTED.len());
        for (answer, &wanted) in answers.as_slice().iter().zip(COUNTED.iter()) {
            same(&rt, workers, counts(&answer.out), wanted);
        }
    }
    Ok(())
}

// None of the runs draws or makes an object.
#[test]
fn a_batch_of_lines_keeps_those_events_alone(rt: HostRuntime) -> Result<(), Fail> {
    let plans = plans_of(&rt, &SEEDED)?;
    for workers in [1, 4] {
        let answers = answers_of_lines(&rt, &plans, workers)?;
        assert!(rt; answers.as_slice().len() == COUNTED.len());
        for (answer, &wanted) in answers.as_slice().iter().zip(COUNTED.iter()) {
            same(&rt, workers, counts(&answer.out), wanted);
        }
    }
    Ok(())
}

// A log has the line of each object and draw too.
#[test]
fn a_part_is_a_log_where_its_plan_shows_one(rt: HostRuntime) -> Result<(), Fail> {
    let script = b"fn main() { let o = new; print o; return 0; }";
    let log = plan_showing(&rt, script, 3, MOST_STEPS, Show::Log)?;
    let plain = plan_showing(&rt, script, 4, MOST_STEPS, Show::Plain)?;
    let plans = Items(Vec::from_array(rt.alloc(), [log, plain])?);
    for workers in [1, 4] {
        let printed = batch(&rt, &plans, &[3, 4], workers, &OpenGate)?;
        let parts = b"seed 3\nnew 0\n0\nseed 4\n0\n";
        same(&rt, workers, printed.as_slice(), parts.as_slice());
    }
    Ok(())
}

// As many seeds as there may be: from 0 to 255.
fn most_seeds(alloc: Global) -> Result<Vec<u64>, AllocError> {
    let mut seeds = Vec::new(alloc);
    for seed in 0..256u64 {
        seeds.push(seed)?;
    }
    Ok(seeds)
}

// What a script that prints 1 prints under them.
fn most_parts(alloc: Global) -> Result<String, AllocError> {
    let mut parts = String::new(alloc);
    for seed in 0..256u64 {
        parts.push_str(format!(in alloc; "seed {seed}\n1\n")?.as_str())?;
    }
    Ok(parts)
}

// More than 64 stand on one deck.
#[test]
fn many_seeds_run_on_one_crew(rt: HostRuntime) -> Result<(), Fail> {
    let seeds = most_seeds(rt.alloc())?;
    let parts = most_parts(rt.alloc())?;
    prints_parts(&rt, ONE, &seeds, MOST_STEPS, 3, parts.as_bytes())
}

// What a turn of this hand did.
fn turn(alloc: Global, hand: &mut Hand) -> Result<&'static str, Fail> {
    Ok(match hand.turn(alloc, &OpenGate)? {
        Turn::Popped => "popped",
        Turn::Stole => "stole",
        Turn::Ended(_) => "ended",
        Turn::Idle => "idle",
        _ => "another",
    })
}

// The hand's next turns did this.
fn turns(rt: &impl Abort, alloc: Global, hand: &mut Hand, words: &[&str]) -> Result<(), Fail> {
    for &wanted in words {
        same(rt, "turn", turn(alloc, hand)?, wanted);
    }
    Ok(())
}

fn is_ready(root: &mut Root) -> bool {
    matches!(root.look(), Look::Ready)
}

#[test]
fn a_hand_by_itself_comes_to_each_root_in_order(rt: HostRuntime) -> Result<(), Fail> {
    let alloc = rt.alloc();
    let plans = plans_under(&rt, ONE, &[1, 2], MOST_STEPS)?;
    assert!(rt; plans.as_slice().len() == 2);
    let (roots, hands) = Crew::many(alloc, &plans, 1)?;
    let mut roots = roots.0.0;
    let mut hands = hands.0.0;
    assert!(rt; roots.len() == 2 && hands.len() == 1);
    turns(&rt, alloc, &mut hands[0], &["popped", "ended"])?;
    assert!(rt; is_ready(&mut roots[0]) && !is_ready(&mut roots[1]));
    turns(&rt, alloc, &mut hands[0], &["popped", "ended"])?;
    assert!(rt; is_ready(&mut roots[1]));
    turns(&rt, alloc, &mut hands[0], &["idle"])
}

#[test]
fn another_hand_steals_the_last_root(rt: HostRuntime) -> Result<(), Fail> {
    let alloc = rt.alloc();
    let plans = plans_under(&rt, ONE, &[1, 2, 3], MOST_STEPS)?;
    assert!(rt; plans.as_slice().len() == 3);
    let (roots, hands) = Crew::many(alloc, &plans, 2)?;
    let mut roots = roots.0.0;
    let mut hands = hands.0.0;
    assert!(rt; roots.len() == 3 && hands.len() == 2);
    turns(&rt, alloc, &mut hands[1], &["stole", "ended"])?;
    assert!(rt; is_ready(&mut roots[2]) && !is_ready(&mut roots[0]));
    Ok(())
}

// Holds the first root that begins until another one has, for so many rounds of a loop.
const MOST_TURNS: u32 = 50000000;

#[derive(Drop)]
struct AnotherRoot {
    begun: AtomicU64,
    late: AtomicBool,
}

impl AnotherRoot {
    fn new() -> AnotherRoot {
        AnotherRoot {
            begun: AtomicU64::new(0),
            late: AtomicBool::new(false),
        }
    }

    fn has_come(&self) -> bool {
        self.begun.load(Ordering::SeqCst) > 1
    }

    fn is_late(&self) -> bool {
        self.late.load(Ordering::SeqCst)
    }

    fn hold(&self) {
        for _ in 0..MOST_TURNS {
            if self.has_come() {
                return;
            }
            hint::spin_loop();
        }
        self.late.store(true, Ordering::SeqCst);
    }
}

impl Gate for AnotherRoot {
    fn enter(&self, origin: &Origin) {
        if let Origin::Instance { path, .. } = origin {
            if path.len() == 0 && self.begun.fetch_add(1, Ordering::SeqCst) == 0 {
                self.hold();
            }
        }
    }

    fn leave(&self, _origin: &Origin) {}
}

// To run one seed after the other would hold the first root to the end.
#[test]
fn two_workers_work_at_two_seeds_at_once(rt: HostRuntime) -> Result<(), Fail> {
    let gate = AnotherRoot::new();
    let seeds = [1, 2];
    let plans = plans_under(&rt, ONE, &seeds, MOST_STEPS)?;
    let printed = batch(&rt, &plans, &seeds, 2, &gate)?;
    assert!(rt; gate.has_come() && !gate.is_late());
    let parts = b"seed 1\n1\nseed 2\n1\n";
    same(&rt, "parts", printed.as_slice(), parts.as_slice());
    Ok(())
}
