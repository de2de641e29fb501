use crate::entry::Entry;
use serial_meaning::Keep;
use std::marker::Model;

// A task that stands in a wait.
#[derive(Drop)]
pub(crate) struct Stalled<K: Keep> {
    pub entry: Entry<K>,
}

impl<K: Keep> Model for Stalled<K> {
    ghost use Rattle.std.specs.Prelude.{◌≡◌, true};
    ghost use Rattle.std.specs.Coded.{codes};
    ghost use Rattle.script_grammar.specs.contracts.tree.Stmt as statement_type;
    ghost use Rattle.serial_meaning.specs.contracts.plan.Plan as plan_type;
    ghost use Rattle.strand_machine.specs.Tasks.{TaskView};

    ghost Value = { TaskView };

    ghost coded = { Prim.hlevel (codes, statement_type.the_row.coded, plan_type.the_row.coded) };

    ghost view = { λ p. p.entry };

    ghost invariant = { λ p. p.entry.task.waiting ≡ true };
}
