use crate::error::CoreError;
use crate::new_state::new_state;
use crate::state::CoreState;
use crate::steps::take_event;
use sched_meaning::CoreEvent;
use serial_meaning::{Answer, Plan};
use std::alloc::Global;
use std::marker::Model;
use std::sync::Arc;
use strand_machine::Memory;

/// Workers with their tasks, the origins that were begun and the answers that were given. Contracts see the scheduling machine's
/// core.
///
/// For stepping through a schedule by hand. Where main's first stop is a spawn, worker 1 has nothing to steal at first
/// (`NotLawful`), and main's rest after `Run(0)`. The test `stolen_rest_answers` of `test_schedules` goes on from there to main's
/// answer.
#[derive(Drop)]
pub struct Core {
    pub(crate) state: CoreState,
    pub(crate) spent: bool,
}

impl Model for Core {
    ghost use Rattle.std.specs.Coded.{codes};
    ghost use Rattle.script_grammar.specs.contracts.tree.Stmt as statement_type;
    ghost use Rattle.serial_meaning.specs.contracts.plan.Plan as plan_type;
    ghost use Rattle.sched_meaning.specs.Core.{Core as CoreView};
    ghost use Rattle.sched_core.specs.Cores.{core_of};
    ghost use Rattle.sched_core.specs.Consistent.{HoldsOfCore};

    ghost Value = { CoreView };

    ghost coded = { Prim.hlevel (codes, statement_type.the_row.coded, plan_type.the_row.coded) };

    ghost view = { λ c. core_of c.spent c.state };

    ghost invariant = { λ c. HoldsOfCore c.spent c.state };
}

impl Core {
    ghost use Rattle.std.specs.Prelude.{◌≡◌, ◌≤◌, ◌↔◌, true, false, Err, IfOk, IfSome, IsNone, OnOk, option_copied};
    ghost use Rattle.std.specs.Arc.{arc_value};
    ghost use Rattle.serial_meaning.specs.Eval.{main_origin};
    ghost use Rattle.strand_meaning.specs.Laws.{IsFaultOf};
    ghost use Rattle.sched_meaning.specs.Core.{IsRootAnswered, new_core};
    ghost use Rattle.sched_meaning.specs.Core.{Core as CoreView};
    ghost use Rattle.sched_meaning.specs.Steps.{Step};
    ghost use Rattle.sched_core.specs.Sound.{IsSound};

    /// This many workers, of which worker 0 has main's task as its current one.
    pub fn new(alloc: Global, plan: &Arc<Plan>, workers: u32) -> Result<Core, Memory>
        requires { (1 ≤ workers) × (workers ≤ 64) }
        ensures { IfOk result (λ core. core ≡ new_core (arc_value plan.now) workers) }
    {
        let state = new_state(alloc, plan, workers)?;
        Ok(Core {
            state,
            spent: false,
        })
    }

    /// One step. If an earlier one ran out of memory the core is spent, and takes no more.
    pub fn step(&mut self, alloc: Global, event: CoreEvent) -> Result<(), CoreError>
        ensures ok { OnOk result (Step event self.old self.new) }
        ensures not_lawful { result ≡ Err CoreError.NotLawful → (self.new ≡ self.old) × ((next : CoreView) → Step event self.old next → ⊥) }
        ensures spent { (result ≡ Err CoreError.Spent) ↔ (self.old.spent ≡ true) }
        ensures stays { result ≡ Err CoreError.Spent → self.new ≡ self.old }
        ensures memory { result ≡ Err CoreError.Memory → self.new.spent ≡ true }
    {
        if self.spent {
            return Err(CoreError::Spent);
        }
        if !self.state.allows(event) {
            return Err(CoreError::NotLawful);
        }
        self.spent = true;
        take_event(&mut self.state, alloc, event)?;
        self.spent = false;
        Ok(())
    }

    /// Main's answer, once it is there.
    ///
    /// Its clause `sound` says what holds of every core, whatever events led to it: no origin was begun twice, one that was begun
    /// and isn't answered has one task in one place, answers are evaluations, there are no more runs than segments, and until the
    /// root is answered some event makes progress. So a loop `while core.answer().is_none() { core.step(next)?; }` knows all this
    /// after every step, for instance that there always is a next step before main's answer.
    pub fn answer(&self) -> Option<&Answer>
        ensures none { self.now.spent ≡ false → (IsNone result ↔ (IsRootAnswered self.now → ⊥)) }
        ensures root { self.now.spent ≡ false → IfSome (option_copied result) (λ a. (a.plan ≡ self.now.plan) × (a.origin ≡ main_origin self.now.plan)) }
        ensures fault { self.now.spent ≡ false → IfSome (option_copied result) (λ a. IsFaultOf self.now.plan a.outcome) }
        ensures sound { self.now.spent ≡ false → IsSound self.now }
    {
        self.state.root.as_ref()
    }
}
