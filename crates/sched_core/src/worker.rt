use crate::job::Job;
use std::alloc::Global;
use std::collections::VecDeque;
use std::marker::Model;
use strand_machine::Memory;

// The most stalled tasks of a worker, so that each index among them is a `u32`.
const MOST_STALLED: usize = u32::MAX as usize;

// A worker: its current task, its deque, the front first, and its tasks that wait for their children.
#[derive(Drop)]
pub(crate) struct Worker {
    current: Option<Job>,
    deque: VecDeque<Job>,
    stalled: Vec<Job>,
}

impl Model for Worker {
    ghost use Rattle.std.specs.Prelude.{◌<◌, ◌^◌, length};
    ghost use Rattle.std.specs.Coded.{codes};
    ghost use Rattle.script_grammar.specs.contracts.tree.Stmt as statement_type;
    ghost use Rattle.serial_meaning.specs.contracts.plan.Plan as plan_type;
    ghost use Rattle.sched_core.specs.Workers.{WorkerView};

    ghost Value = { WorkerView };

    ghost coded = { Prim.hlevel (codes, statement_type.the_row.coded, plan_type.the_row.coded) };

    ghost view = { λ w. record { current = w.current; deque = w.deque.items; stalled = w.stalled.items } };

    ghost invariant = { λ w. length w.stalled.items < 2 ^ 32 };
}

impl Worker {
    ghost use Rattle.std.specs.Prelude.{◌≡◌, ◌≢◌, ◌<◌, [], Some, None, OnOk, is_some, length, nat_eq, not, slice_get};
    ghost use Rattle.sched_core.specs.Moves.{SwitchesToChild, Stalls, TakesCurrent, PopsBack, PopsFront, SetsCurrent, TakesStalled};
    ghost use Rattle.sched_core.specs.Workers.{worker_with};

    // A worker whose only task is this one.
    pub fn new(alloc: Global, current: Option<Job>) -> Worker
        ensures { result ≡ worker_with current }
    {
        Worker {
            current,
            deque: VecDeque::new(alloc),
            stalled: Vec::new(alloc),
        }
    }

    // Whether it has a current task.
    pub fn is_running(&self) -> bool
        ensures { result ≡ is_some self.now.current }
    {
        self.current.is_some()
    }

    // Whether its deque has a task.
    pub fn has_ready(&self) -> bool
        ensures { result ≡ not (nat_eq (length self.now.deque) 0) }
    {
        !self.deque.is_empty()
    }

    // How many of its tasks are stalled.
    pub fn stalled_count(&self) -> u32
        ensures { result ≡ length self.now.stalled }
    {
        self.stalled.len() as u32
    }

    // The number of the stalled task with this index.
    pub fn stalled_number(&self, place: u32) -> Option<usize>
        ensures some { (j : _) → slice_get self.now.stalled place ≡ Some j → result ≡ Some j.number }
        ensures none { slice_get self.now.stalled place ≡ None → result ≡ None }
    {
        match self.stalled.get(place as usize) {
            Some(job) => Some(job.number),
            None => None,
        }
    }

    // The child becomes the current task, and its parent's rest goes to the back of the deque.
    pub fn switch_to_child(&mut self, child: Job, rest: Job) -> Result<(), Memory>
        ensures { OnOk result (SwitchesToChild child rest self.old self.new) }
    {
        self.deque.push_back(rest)?;
        self.current = Some(child);
        Ok(())
    }

    // The task goes to the end of the stalled tasks. The answer is `Memory` also where there are as many as may be.
    pub fn stall(&mut self, rest: Job) -> Result<(), Memory>
        ensures { OnOk result (Stalls rest self.old self.new) }
    {
        if self.stalled.len() >= MOST_STALLED {
            return Err(Memory);
        }
        self.stalled.push(rest)?;
        Ok(())
    }

    // Takes out the current task.
    pub fn take_current(&mut self) -> Job
        requires { self.old.current ≢ None }
        ensures { TakesCurrent result self.old self.new }
    {
        let Some(job) = self.current.take() else {
            unreachable!()
        };
        job
    }

    // Takes out the task at the back of the deque.
    pub fn pop_back(&mut self) -> Job
        requires { self.old.deque ≢ [] }
        ensures { PopsBack result self.old self.new }
    {
        let Some(job) = self.deque.pop_back() else {
            unreachable!()
        };
        job
    }

    // Takes out the task at the front of the deque.
    pub fn pop_front(&mut self) -> Job
        requires { self.old.deque ≢ [] }
        ensures { PopsFront result self.old self.new }
    {
        let Some(job) = self.deque.pop_front() else {
            unreachable!()
        };
        job
    }

    // Makes the task the current one.
    pub fn set_current(&mut self, job: Job)
        ensures { SetsCurrent job self.old self.new }
    {
        self.current = Some(job);
    }

    // Takes out the stalled task with this index.
    pub fn take_stalled(&mut self, place: u32) -> Job
        requires { place < length self.old.stalled }
        ensures { TakesStalled place result self.old self.new }
    {
        self.stalled.remove(place as usize)
    }
}
