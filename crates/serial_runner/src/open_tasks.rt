ghost use Rattle.std.specs.Prelude.{◌≡◌, ◌∷◌, [], OnOk, IfSome, IfNone};

use contract_views::Items;
use serial_meaning::{Answer, Keep};
use std::alloc::Global;
use std::marker::Model;
use strand_machine::{Memory, Task};

// A task, and the answers of its children so far, in order.
#[derive(Drop)]
pub(crate) struct OpenTask<K: Keep> {
    pub task: Task<K>,
    pub answers: Items<Answer<K>>,
}

// Open tasks of which the last one is taken first. Contracts see them in the order in which they will be taken. The lists of answers that they no longer
// need are kept for the next ones, since most tasks want one.
#[derive(Drop)]
pub(crate) struct OpenTasks<K: Keep> {
    open_tasks: Vec<OpenTask<K>>,
    spare: Vec<Items<Answer<K>>>,
}

impl<K: Keep> Model for OpenTasks<K> {
    ghost use Rattle.std.specs.Prelude.{List, reverse};
    ghost use Rattle.std.specs.Coded.{codes};
    ghost use Rattle.script_grammar.specs.contracts.tree.Stmt as statement_type;
    ghost use Rattle.serial_meaning.specs.contracts.plan.Plan as plan_type;
    ghost use Rattle.serial_runner.specs.declared.open_tasks.OpenTask.{OpenTask};

    ghost Value = { List (OpenTask K) };

    ghost coded = { Prim.hlevel (codes, statement_type.the_row.coded, plan_type.the_row.coded) };

    ghost view = { λ f. reverse f.open_tasks.items };
}

impl<K: Keep> OpenTasks<K> {
    // No open task.
    pub fn new(alloc: Global) -> OpenTasks<K>
        ensures { result ≡ [] }
    {
        OpenTasks {
            open_tasks: Vec::new(alloc),
            spare: Vec::new(alloc),
        }
    }

    // A task that has no child's answer yet.
    pub fn open_task(&mut self, alloc: Global, task: Task<K>) -> OpenTask<K>
        ensures open_task { result ≡ record { task = task; answers = [] } }
        ensures same { self.new ≡ self.old }
    {
        let answers = match self.spare.pop() {
            Some(mut answers) => {
                answers.0.clear();
                answers
            }
            None => Items(Vec::new(alloc)),
        };
        OpenTask { task, answers }
    }

    // Keeps a list that is no longer needed, where there is room for it.
    pub fn reuse(&mut self, answers: Items<Answer<K>>)
        ensures { self.new ≡ self.old }
    {
        match self.spare.push(answers) {
            Ok(()) => {}
            Err(failed) => drop(failed),
        }
    }

    // Pushes a task, which is then the first to be taken.
    pub fn push(&mut self, open_task: OpenTask<K>) -> Result<(), Memory>
        ensures { OnOk result (self.new ≡ open_task ∷ self.old) }
    {
        self.open_tasks.push(open_task)?;
        Ok(())
    }

    // Takes the first one.
    pub fn pop(&mut self) -> Option<OpenTask<K>>
        ensures some { IfSome result (λ open_task. self.old ≡ open_task ∷ self.new) }
        ensures none { IfNone result (self.old ≡ []) }
    {
        self.open_tasks.pop()
    }
}
