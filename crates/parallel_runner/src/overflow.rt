// A hand's private list.
ghost use Rattle.std.specs.Prelude.{◌≡◌, ◌↔◌, [], ◌∷◌, ◌++◌, OnOk, OnErr, IfSome, IfNone, IsTrue};

use crate::entry::Entry;
use crate::memory::Memory;
use serial_meaning::Keep;
use std::alloc::Global;
use std::marker::Model;
use steal_deck::Refused;

// The tasks of a hand behind its deck. The first of them is one that the deck refused, and the others came after it.
//
// A clause sees it as their list.
#[derive(Drop)]
pub(crate) struct Overflow<K: Keep> {
    first: Option<Refused<Entry<K>>>,
    others: Vec<Entry<K>>,
}

impl<K: Keep> Model for Overflow<K> {
    ghost use Rattle.std.specs.Prelude.{◌≡◌, List, [], ◌++◌, IfNone, option_to_list};
    ghost use Rattle.std.specs.Coded.{codes};
    ghost use Rattle.script_grammar.specs.contracts.tree.Stmt as statement_type;
    ghost use Rattle.serial_meaning.specs.contracts.plan.Plan as plan_type;
    ghost use Rattle.strand_machine.specs.Tasks.{TaskView};

    ghost Value = { List TaskView };

    ghost coded = { Prim.hlevel (codes, statement_type.the_row.coded, plan_type.the_row.coded) };

    ghost view = { λ o. option_to_list o.first ++ o.others.items };

    ghost invariant = { λ o. IfNone o.first (o.others.items ≡ []) };
}

impl<K: Keep> Overflow<K> {
    /// No task.
    pub fn none(alloc: Global) -> Overflow<K>
        ensures { result ≡ [] }
    {
        Overflow {
            first: None,
            others: Vec::new(alloc),
        }
    }

    #[inline(always)]
    pub fn is_empty(&self) -> bool
        ensures { IsTrue result ↔ (self.now ≡ []) }
    {
        self.first.is_none()
    }

    /// The first task. It takes no memory.
    pub fn begin(&mut self, refused: Refused<Entry<K>>)
        requires { self.old ≡ [] }
        ensures { self.new ≡ refused ∷ [] }
    {
        self.first = Some(refused);
    }

    /// One more task at the end.
    pub fn push(&mut self, task: Entry<K>) -> Result<(), Memory>
        requires { self.old ≡ [] → ⊥ }
        ensures ok { OnOk result (self.new ≡ self.old ++ task ∷ []) }
        ensures err { OnErr result (self.new ≡ self.old) }
    {
        self.others.push(task)?;
        Ok(())
    }

    /// Takes the last task.
    pub fn pop(&mut self) -> Option<Entry<K>>
        ensures some { IfSome result (λ task. self.old ≡ self.new ++ task ∷ []) }
        ensures none { IfNone result ((self.old ≡ []) × (self.new ≡ [])) }
    {
        if let Some(task) = self.others.pop() {
            return Some(task);
        }
        match self.first.take() {
            Some(refused) => Some(refused.into_task()),
            None => None,
        }
    }
}
