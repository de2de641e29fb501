ghost use Rattle.std.specs.Prelude.{◌≡◌, ◌<◌, [], IfOk, OnOk, IsTrue, false, true, replicate};

use super::same;
use contract_views::Tagged;
use meet_block::{Arrived, Give, Join, JoinPool, Look, Memory};
use std::alloc::Global;
use std::process::Abort;
use std::thread;

#[derive(Drop)]
struct Square {
    of: u64,
    value: u64,
}

impl Tagged for Square {
    type Key = u64;

    ghost tag = { λ s. s.of };
}

fn square_of(of: u64) -> Square
    ensures { result.of ≡ of }
{
    Square {
        of,
        value: of.wrapping_mul(of),
    }
}

// A give with its tag.
#[derive(Drop)]
struct Job {
    give: Give<Square>,
    of: u64,
    ghost fits: { give.tag ≡ of },
}

fn hand(alloc: Global, join: &mut Join<Square>, of: u64) -> Result<Job, Memory>
    ensures { OnOk result (join.new.children.ready ≡ false) }
{
    Ok(Job {
        give: join.hand(alloc, &of)?,
        of,
    })
}

fn run(job: Job) -> Arrived<Square> {
    let Job { give, of } = job;
    give.put(square_of(of))
}

fn run_all(mut jobs: Vec<Job>) {
    while let Some(job) = jobs.pop() {
        drop(run(job));
    }
}

// Hands out the tags from 0 to 63, to two lists by turns.
fn hand_64(
    alloc: Global,
    join: &mut Join<Square>,
    even: &mut Vec<Job>,
    odd: &mut Vec<Job>,
) -> Result<(), Memory>
    requires { join.old.children.taken ≡ [] }
    ensures { OnOk result (join.new.children.taken ≡ replicate 64 false) }
{
    for of in 0..64u64 {
        let give = join.hand(alloc, &of)?;
        let job = Job { give, of };
        if of % 2 == 0 {
            even.push(job)?;
        } else {
            odd.push(job)?;
        }
    }
    Ok(())
}

fn look_until_ready(join: &mut Join<Square>) -> bool
    ensures ready { IsTrue result → join.new.children.ready ≡ true }
    ensures taken { join.new.children.taken ≡ join.old.children.taken }
{
    for _ in 0..50000000 {
        if let Look::Ready = join.look() {
            return true;
        }
        thread::yield_now();
    }
    false
}

fn take_64(rt: &impl Abort, join: &mut Join<Square>)
    requires ready { join.old.children.ready ≡ true }
    requires left { join.old.children.taken ≡ replicate 64 false }
{
    for i in 0..64u64 {
        let taken = join.take(i);
        assert!(rt; taken.of == i && taken.value == i * i, "the value of {i}");
    }
}

#[test]
fn nobody_looks_for_a_detached_give(rt: HostRuntime) -> Result<(), Memory> {
    let alloc = rt.alloc();
    let mut join: Join<Square> = Join::detached();
    same(&rt, "no child", join.look(), Look::Ready);
    let give = join.hand(alloc, &5)?;
    assert!(rt; give.is_detached());
    same(&rt, "one", join.count(), 1);
    give.put(square_of(5));
    same(
        &rt,
        "it has put, and nobody knows",
        join.look(),
        Look::NotYet(1),
    );
    assert!(rt; !Join::<Square>::new(alloc)?.hand(alloc, &6)?.is_detached());
    let detached = Give::<Square>::detached(&7);
    assert!(rt; detached.is_detached());
    detached.put(square_of(7));
    Ok(())
}

#[test]
fn values_are_taken_by_number(rt: HostRuntime) -> Result<(), Memory> {
    let alloc = rt.alloc();
    let mut join: Join<Square> = Join::new(alloc)?;
    let first = join.hand(alloc, &5)?;
    let second = join.hand(alloc, &6)?;
    let third = join.hand(alloc, &7)?;
    same(&rt, "three", join.count(), 3);
    third.put(square_of(7));
    first.put(square_of(5));
    second.put(square_of(6));
    let Look::Ready = join.look() else {
        panic!(rt; "each has put");
    };
    same(&rt, "number 0", join.take(0).value, 25);
    same(&rt, "number 1", join.take(1).value, 36);
    same(&rt, "number 2", join.take(2).value, 49);
    Ok(())
}

// The square, by a join that has its memory of the pool.
fn square_by_join(
    alloc: Global,
    of: u64,
    pool: &mut JoinPool<Square>,
) -> Result<Option<Square>, Memory> {
    let mut join: Join<Square> = Join::new(alloc)?;
    let give = join.hand_in(alloc, &of, pool)?;
    give.put(square_of(of));
    match join.look() {
        Look::Ready => Ok(Some(pool.value_of(join.take_boxed(0)))),
        Look::NotYet(_) => Ok(None),
    }
}

#[test]
fn a_pool_serves_joins_by_turns(rt: HostRuntime) -> Result<(), Memory> {
    let alloc = rt.alloc();
    let mut pool = JoinPool::new(alloc);
    for of in 0..3u64 {
        let Some(square) = square_by_join(alloc, of, &mut pool)? else {
            panic!(rt; "it has put");
        };
        assert!(rt;
            square.of == of && square.value == of * of,
            "the square of {of}"
        );
    }
    Ok(())
}

#[test]
fn a_child_is_pending_until_it_has_put(rt: HostRuntime) -> Result<(), Memory> {
    let alloc = rt.alloc();
    let mut join: Join<Square> = Join::new(alloc)?;
    let give = join.hand(alloc, &8)?;
    same(&rt, "one is pending", join.look(), Look::NotYet(1));
    give.put(square_of(8));
    let Look::Ready = join.look() else {
        panic!(rt; "it has put");
    };
    same(&rt, "number 0", join.take(0).value, 64);
    // A give that is dropped hasn't put.
    drop(join.hand(alloc, &9)?);
    same(&rt, "dropped", join.look(), Look::NotYet(1));
    Ok(())
}

#[test]
fn a_look_reads_the_counters_in_order(rt: HostRuntime) -> Result<(), Memory> {
    let alloc = rt.alloc();
    let mut join: Join<Square> = Join::new(alloc)?;
    let mut jobs = Vec::new(alloc);
    for of in 0..16u64 {
        let job = hand(alloc, &mut join, of)?;
        jobs.push(job)?;
    }
    let last = hand(alloc, &mut join, 16)?;
    same(&rt, "all pending", join.look(), Look::NotYet(16));
    run_all(jobs);
    same(&rt, "one is pending", join.look(), Look::NotYet(1));
    run(last);
    same(&rt, "none is pending", join.look(), Look::Ready);
    Ok(())
}

#[test]
fn a_hand_after_a_look_opens_a_counter(rt: HostRuntime) -> Result<(), Memory> {
    let alloc = rt.alloc();
    let mut join: Join<Square> = Join::new(alloc)?;
    let first = join.hand(alloc, &2)?;
    same(&rt, "one is pending", join.look(), Look::NotYet(1));
    let second = join.hand(alloc, &3)?;
    first.put(square_of(2));
    second.put(square_of(3));
    let Look::Ready = join.look() else {
        panic!(rt; "each has put");
    };
    same(&rt, "number 1", join.take(1).value, 9);
    Ok(())
}

#[test]
fn a_join_serves_round_after_round(rt: HostRuntime) -> Result<(), Memory> {
    let alloc = rt.alloc();
    let mut join: Join<Square> = Join::new(alloc)?;
    join.hand(alloc, &2)?.put(square_of(2));
    let Look::Ready = join.look() else {
        panic!(rt; "it has put");
    };
    same(&rt, "number 0", join.take(0).value, 4);
    let second = join.hand(alloc, &3)?;
    let third = join.hand(alloc, &4)?;
    same(&rt, "two are pending", join.look(), Look::NotYet(2));
    second.put(square_of(3));
    third.put(square_of(4));
    let Look::Ready = join.look() else {
        panic!(rt; "each has put");
    };
    same(&rt, "number 2", join.take(2).value, 16);
    same(&rt, "number 1", join.take(1).value, 9);
    same(&rt, "all", join.count(), 3);
    Ok(())
}

#[test]
fn two_threads_put_64_values(rt: HostRuntime) -> Result<(), Memory> {
    let alloc = rt.alloc();
    let mut join: Join<Square> = Join::new(alloc)?;
    let mut even = Vec::new(alloc);
    let mut odd = Vec::new(alloc);
    hand_64(alloc, &mut join, &mut even, &mut odd)?;
    let a = thread::spawn(&rt, move || run_all(even)).map_err(|_| Memory)?;
    let b = thread::spawn(&rt, move || run_all(odd)).map_err(|_| Memory)?;
    let ready = look_until_ready(&mut join);
    a.join(&rt);
    b.join(&rt);
    if !ready {
        panic!(rt; "each has put");
    }
    take_64(&rt, &mut join);
    Ok(())
}

fn needs_send<T: Send>(_: &T) {}

// Each end of a join may go to another thread, where the value may.
fn ends_are_send<A: Tagged + Send>(join: &Join<A>, give: &Give<A>, arrived: &Arrived<A>) {
    needs_send(join);
    needs_send(give);
    needs_send(arrived);
}

#[test]
fn each_end_goes_to_another_thread(rt: HostRuntime) -> Result<(), Memory> {
    let alloc = rt.alloc();
    let mut join: Join<Square> = Join::new(alloc)?;
    let job = hand(alloc, &mut join, 4)?;
    let other = join.hand(alloc, &5)?;
    let arrived = thread::spawn(&rt, move || run(job))
        .map_err(|_| Memory)?
        .join(&rt);
    ends_are_send(&join, &other, &arrived);
    let looked = thread::spawn(&rt, move || {
        let mut join = join;
        join.look()
    })
    .map_err(|_| Memory)?
    .join(&rt);
    same(&rt, "one is pending", looked, Look::NotYet(1));
    Ok(())
}
