// Running a task to its next stop, and the ends of tasks.
ghost use Rattle.std.specs.Prelude.{◌≡◌, IfOk, None, true};
ghost use Rattle.strand_machine.specs.Made.{IsSoundMade, IsStopped, KnowsEnd, PausesAs, made};
ghost use Rattle.strand_machine.specs.Stops.{Advances, Pauses};
ghost use Rattle.strand_machine.specs.Tasks.{has_outcome};
ghost use Rattle.strand_machine.specs.declared.stop.Stop.TheVariants as stop;

use crate::memory::Memory;
use crate::parts::Parts;
use crate::remaining::Remaining;
use crate::step::run_in_place;
use crate::stop::{Passed, Paused, Stop};
use crate::task::Task;
use crate::task_pool::TaskPool;
use crate::task_state::TaskState;
use meet_block::Give;
use serial_meaning::{Answer, Keep};
use spare_memory::emptied;
use std::alloc::Global;

// A task at the stop that it came to.
#[inline(always)]
fn paused<K: Keep>(parts: Box<Parts<K>>, passed: Passed<K>) -> Paused<K>
    requires sound { IsSoundMade parts.value passed }
    requires stops { IsStopped passed }
    requires known { KnowsEnd parts.value passed }
    ensures { PausesAs (made parts.value passed) result }
{
    match passed {
        Passed::Continues => unreachable!(),
        Passed::Waits => Paused::Wait {
            rest: Task { parts },
        },
        Passed::Spawned(child) => Paused::Spawn {
            child,
            rest: Task { parts },
        },
        Passed::Ends => Paused::Ended {
            rest: Task { parts },
        },
    }
}

impl<K: Keep> Task<K> {
    /// Whether its outcome is known: it has ended, or it took an answer that is a cut and ends by its next advance.
    pub fn has_outcome(&self) -> bool
        ensures { result ≡ has_outcome self.now.cut }
    {
        matches!(self.parts.remaining, Remaining::Ends(_))
    }

    /// The answer of a task that has an outcome, and the give for it.
    #[inline(always)]
    pub fn into_answer(self, pool: &mut TaskPool<K>) -> (Answer<K>, Give<Answer<K>>)
        requires { has_outcome self.cut ≡ true }
        ensures { Advances {K = K} self (stop.Done result.0 result.1) }
    {
        let Task { parts } = self;
        let (parts, room) = emptied(parts);
        pool.keep_box(room);
        let Parts { state, remaining } = parts;
        let Remaining::Ends(ended) = remaining else {
            unreachable!()
        };
        let TaskState { links, trace, .. } = state;
        let (prefix, after) = trace.into_prefix();
        pool.keep_children(after);
        links.answer(prefix, ended)
    }

    /// Runs to the next stop: a child that is begun, a wait, or the end. A task that waits stops at its wait again. On `Memory` it is
    /// dropped.
    #[inline(always)]
    pub fn run(self, alloc: Global, pool: &mut TaskPool<K>) -> Result<Paused<K>, Memory>
        requires { self.cut ≡ None }
        ensures { IfOk result (Pauses self) }
    {
        let Task { mut parts } = self;
        let passed = run_in_place(&mut parts, alloc, pool)?;
        Ok(paused(parts, passed))
    }

    /// The same, with the answer of a task that has ended. One that took a cut ends by the first fault or cut in the
    /// order of its trace.
    pub fn advance(self, alloc: Global) -> Result<Stop<K>, Memory>
        ensures { IfOk result (Advances self) }
    {
        if self.has_outcome() {
            return Ok(stop_done(self, alloc));
        }
        let paused = self.run(alloc, &mut TaskPool::new(alloc))?;
        match paused {
            Paused::Spawn { child, rest } => Ok(Stop::Spawn { child, rest }),
            Paused::Wait { rest } => Ok(Stop::Wait { rest }),
            Paused::Ended { rest } => Ok(stop_done(rest, alloc)),
        }
    }
}

// The end of a task that has an outcome.
fn stop_done<K: Keep>(task: Task<K>, alloc: Global) -> Stop<K>
    requires { has_outcome task.cut ≡ true }
    ensures { Advances task result }
{
    let (answer, give) = task.into_answer(&mut TaskPool::new(alloc));
    Stop::Done { answer, give }
}
