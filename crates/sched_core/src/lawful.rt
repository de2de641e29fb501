// Whether an event may happen.
ghost use Rattle.std.specs.Prelude.{◌≡◌, ◌&&◌, false, is_none, map, slice_get};
ghost use Rattle.sched_meaning.specs.Simulation.{is_progress, is_free, has_ready, may_run};
ghost use Rattle.sched_meaning.specs.declared.event.CoreEvent.TheVariants as event;
ghost use Rattle.sched_core.specs.Cores.{core_of, worker_of};
ghost use Rattle.sched_core.specs.Lawful.{has_stalled, may_happen, may_idle};

use crate::state::CoreState;
use sched_meaning::CoreEvent;

impl CoreState {
    // Whether the worker has a current task.
    pub fn may_run(&self, w: u32) -> bool
        ensures { result ≡ may_run (slice_get (map worker_of self.now.workers.items) w) }
    {
        match self.workers.get(w as usize) {
            Some(worker) => worker.is_running(),
            None => false,
        }
    }

    // Whether this worker exists and has no current task.
    pub fn is_free(&self, w: u32) -> bool
        ensures { result ≡ is_free (slice_get (map worker_of self.now.workers.items) w) }
    {
        match self.workers.get(w as usize) {
            Some(worker) => !worker.is_running(),
            None => false,
        }
    }

    // Whether the worker's deque has a task.
    pub fn has_ready(&self, w: u32) -> bool
        ensures { result ≡ has_ready (slice_get (map worker_of self.now.workers.items) w) }
    {
        match self.workers.get(w as usize) {
            Some(worker) => worker.has_ready(),
            None => false,
        }
    }

    // Whether the worker may pop.
    pub fn may_pop(&self, w: u32) -> bool
        ensures { result ≡ is_progress (core_of false self.now) (event.Pop w) }
    {
        self.is_free(w) && self.has_ready(w)
    }

    // Whether this thief may steal from this victim.
    pub fn may_steal(&self, thief: u32, victim: u32) -> bool
        ensures { result ≡ is_progress (core_of false self.now) (event.Steal thief victim) }
    {
        thief != victim && self.is_free(thief) && self.has_ready(victim)
    }

    // Whether the worker has a stalled task with this index.
    fn has_stalled(&self, w: u32, place: u32) -> bool
        ensures { result ≡ has_stalled place (slice_get (map worker_of self.now.workers.items) w) }
    {
        match self.workers.get(w as usize) {
            Some(worker) => place < worker.stalled_count(),
            None => false,
        }
    }

    // Whether the worker has no task at all.
    fn may_idle(&self, w: u32) -> bool
        ensures { result ≡ may_idle (slice_get (map worker_of self.now.workers.items) w) }
    {
        match self.workers.get(w as usize) {
            Some(worker) => !worker.is_running()
                && !worker.has_ready()
                && worker.stalled_count() == 0,
            None => false,
        }
    }

    // Whether the event may happen now. None may after the root's answer.
    pub fn allows(&self, event: CoreEvent) -> bool
        ensures { result ≡ (is_none self.now.root && may_happen (core_of false self.now) event) }
    {
        if self.root.is_some() {
            return false;
        }
        match event {
            CoreEvent::Run(w) => self.may_run(w),
            CoreEvent::Pop(w) => self.may_pop(w),
            CoreEvent::Steal { thief, victim } => self.may_steal(thief, victim),
            CoreEvent::Look { worker, place } => {
                self.is_free(worker) && self.has_stalled(worker, place)
            }
            CoreEvent::Idle(w) => self.may_idle(w),
        }
    }
}
