// How the hands of a crew get threads.
ghost use Rattle.std.specs.Thread.{IsSend, IsSync};

use std::alloc::{AllocError, Global};
use std::sync::Wait;
use std::sync::atomic::{AtomicU64, Ordering};
use std::thread;
use std::thread::{Builder, Threads};

// The stack of a hand's thread, in bytes.
const STACK: usize = 1024 * 1024;

// How far the stack of the calling thread is grown before another one starts, in pages of 4 KiB.
const STACK_PAGES: u64 = 64;

// What the system gives of addresses for the heap of a thread, in bytes. glibc asks for them when the thread first takes memory, and gives half of
// them back. Where it doesn't get them, each block that the thread takes is a page by itself, and costs three calls of the system.
const HEAP_ROOM: usize = 128 * 1024 * 1024;

// How long a hand takes turns.
#[derive(Clone, Copy, Drop)]
pub(crate) enum Until {
    // Until it has stolen a task, or there may be one for others to steal.
    Task,
    // Until the hands have ended all roots, or one has failed.
    End,
}

// Calls itself so many times, each time with a page of 4 KiB on the calling thread's stack, so that the system gives it as many. What is
// written hangs on the word and is read after the call, so that no compiler leaves it out.
fn grow_stack(word: &AtomicU64, pages: u64) {
    let page = [word.load(Ordering::SeqCst); 512];
    if pages > 0 {
        grow_stack(word, pages - 1);
    }
    word.store(page[pages as usize % 512], Ordering::SeqCst);
}

// Calls f on it.
fn at_one<T, F: Fn(&mut T, Until) -> bool>(f: &F, one: &mut T, until: Until) -> bool
    requires { F.IsAlwaysCallable f.now }
{
    f(one, until)
}

// Makes the heap of the thread that calls.
fn make_heap(alloc: Global) {
    let first: Result<Vec<u8>, AllocError> = Vec::with_capacity(alloc, 1);
    drop(first);
}

// Whether there are addresses for the heap of one more thread.
fn has_room(alloc: Global) -> bool {
    let room: Result<Vec<u8>, AllocError> = Vec::with_capacity(alloc, HEAP_ROOM);
    room.is_ok()
}

// Calls f on the last of them in this thread until there is a task, then starts a thread that does the same with the others, and calls f
// on the last one until the end.
#[cycle(starting)]
fn run_from<'x, R: Threads + Wait + Sync, T: Send + Drop, F: Fn(&mut T, Until) -> bool + Sync>(
    rt: &'x R,
    alloc: Global,
    f: &'x F,
    mut all: Vec<T>,
)
    requires { F.IsAlwaysCallable f.now }
{
    let Some(mut first) = all.pop() else {
        return;
    };
    if !at_one(f, &mut first, Until::Task) {
        return;
    }
    if all.is_empty() || !has_room(alloc) {
        at_one(f, &mut first, Until::End);
        return;
    }
    thread::scope(
        thread::scope_env(),
        rt,
        move |scope|
            requires { IsSync R.row × IsSend T.row × IsSync F.row × F.IsAlwaysCallable f.now }
        {
            let next = move ||
                requires { IsSync R.row × IsSend T.row × IsSync F.row × F.IsAlwaysCallable f.now }
            {
                make_heap(alloc);
                run_from(rt, alloc, f, all);
            };
            let started = Builder::new().stack_size(STACK).spawn_scoped(scope, next);
            drop(started);
            let mut first = first;
            at_one(f, &mut first, Until::End);
        },
    );
}

// Calls f on the first of them in this thread, and on each other one in a thread of its own, and returns once all calls have. Each thread
// starts the next one as it takes up its first task, so that a run has no more threads than it has had tasks to steal. From the first one on for
// which no thread can be made, or no heap of its own, they are left out.
pub(crate) fn at_each<
    R: Threads + Wait + Sync,
    T: Send + Drop,
    F: Fn(&mut T, Until) -> bool + Sync,
>(rt: &R, alloc: Global, mut all: Vec<T>, f: &F)
    requires { F.IsAlwaysCallable f.now }
{
    // Where there are hardly any addresses left, to grow the stack would end the process.
    if all.len() > 1 && has_room(alloc) {
        grow_stack(&AtomicU64::new(0), STACK_PAGES);
    }
    all.reverse();
    run_from(rt, alloc, f, all);
}
