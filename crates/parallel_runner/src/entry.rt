// A task as a hand keeps it.
ghost use Rattle.std.specs.Prelude.{◌≡◌, IfSome};
ghost use Rattle.std.specs.Arc.{arc_value};
ghost use Rattle.serial_meaning.specs.Answer.{IsCut};

use crate::known_faults::is_of;
use serial_meaning::{Fault, Keep, Known, Origin};
use std::marker::Model;
use std::sync::Arc;
use strand_machine::Task;

// A task, and a fault that a hand found to be one of its plan, if any. By it the task and its children are cut without a comparison of plans.
#[derive(Drop)]
pub(crate) struct Entry<K: Keep> {
    pub task: Task<K>,
    pub known: Option<Arc<Known>>,
}

impl<K: Keep> Model for Entry<K> {
    ghost use Rattle.std.specs.Prelude.{◌≡◌, IfSome};
    ghost use Rattle.std.specs.Arc.{arc_value};
    ghost use Rattle.std.specs.Coded.{codes};
    ghost use Rattle.script_grammar.specs.contracts.tree.Stmt as statement_type;
    ghost use Rattle.serial_meaning.specs.contracts.plan.Plan as plan_type;
    ghost use Rattle.strand_machine.specs.Tasks.{TaskView};

    ghost Value = { TaskView };

    ghost coded = { Prim.hlevel (codes, statement_type.the_row.coded, plan_type.the_row.coded) };

    ghost view = { λ e. e.task };

    ghost invariant = { λ e. IfSome e.known (λ k. (arc_value k).plan ≡ e.task.task.plan) };
}

// Whether the task may be cut by the fault, or children of it may.
fn concerns<K: Keep>(fault: &Fault, task: &Task<K>) -> bool {
    let path = match task.origin() {
        Origin::Instance { path, .. } => path,
        Origin::Loop { path, .. } => path,
    };
    fault.at.begins_with(path) || task.may_cut(fault)
}

// The task, with a fault that is known to be one of its plan.
#[inline(always)]
pub(crate) fn with_known<K: Keep>(task: Task<K>, known: Option<Arc<Known>>) -> Entry<K>
    requires { IfSome known (λ k. (arc_value k).plan ≡ task.task.plan) }
    ensures { result ≡ task }
{
    Entry { task, known }
}

// A child of a task that has such a fault.
#[inline(always)]
pub(crate) fn child_entry<K: Keep>(child: Task<K>, known: &Option<Arc<Known>>) -> Entry<K>
    requires { IfSome known.now (λ k. (arc_value k).plan ≡ child.task.plan) }
    ensures { result ≡ child }
{
    match known {
        Some(known) => child_with(child, known),
        None => Entry {
            task: child,
            known: None,
        },
    }
}

fn child_with<K: Keep>(child: Task<K>, known: &Arc<Known>) -> Entry<K>
    requires { (arc_value known.now).plan ≡ child.task.plan }
    ensures { result ≡ child }
{
    let known = if concerns(&known.fault, &child) {
        Arc::try_clone(known).ok()
    } else {
        None
    };
    Entry { task: child, known }
}

impl<K: Keep> Entry<K> {
    /// The task, without such a fault.
    #[inline(always)]
    pub fn new(task: Task<K>) -> Entry<K>
        ensures { result ≡ task }
    {
        Entry { task, known: None }
    }

    // Whether the entry wants this fault, if it is one of the task's plan: it may cut the task or its children, and precedes the one that the entry has.
    fn wants(&self, known: &Known) -> bool {
        if !concerns(&known.fault, &self.task) {
            return false;
        }
        match &self.known {
            Some(own) => known.fault.at.before(&own.fault.at),
            None => true,
        }
    }

    /// The same task, with this fault where it is one of its plan and of use.
    pub fn told(self, known: &Arc<Known>) -> Entry<K>
        ensures { result ≡ self }
    {
        if !self.wants(known) || !is_of(known, self.task.plan()) {
            return self;
        }
        let Entry { task, known: _ } = self;
        Entry {
            task,
            known: Arc::try_clone(known).ok(),
        }
    }

    /// The fault of the entry by which the task may be cut, if there is one.
    pub fn cutting(&self) -> Option<Fault>
        ensures { IfSome result (λ by. IsCut self.now.task.plan self.now.task.origin by) }
    {
        match &self.known {
            Some(own) => cut_by_own(&self.task, own),
            None => None,
        }
    }
}

// The fault, which is one of the task's plan, where the task may be cut by it.
fn cut_by_own<K: Keep>(task: &Task<K>, own: &Known) -> Option<Fault>
    requires { own.now.plan ≡ task.now.task.plan }
    ensures { IfSome result (λ by. IsCut task.now.task.plan task.now.task.origin by) }
{
    if !task.may_cut(&own.fault) {
        return None;
    }
    let by = own.fault.share().ok()?;
    Some(by)
}
