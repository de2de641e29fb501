// The variables of a function with their slots.

ghost use Rattle.std.specs.Prelude.{◌≡◌, ◌<◌, ◌≤◌, ◌++◌, ◌∷◌, [], IfOk, length};
ghost use Rattle.script_check.specs.Slots.{slot_in, with_new_name};
ghost use Rattle.script_check.specs.Rules.{most_variables};

use crate::memory::Memory;
use crate::names::NameTable;
use contract_views::Items;
use script_grammar::NameText;
use std::alloc::Global;
use std::marker::Model;

// Names of variables, with the slot of each, the index of its first declaration. Contracts see the list of the names.
#[derive(Drop)]
pub(crate) struct Variables {
    names: Vec<NameText>,
    first: NameTable<u16>,
}

impl Model for Variables {
    ghost use Rattle.std.specs.Prelude.{ℕ, List};
    ghost use Rattle.std.specs.Coded.{coded_list, coded_ℕ};
    ghost use Rattle.script_check.specs.Tables.{table_of};
    ghost use Rattle.script_check.specs.Walk.{IsSlotIndex};

    ghost Value = { List (List ℕ) };

    ghost coded = { coded_list (coded_list coded_ℕ) };

    ghost view = { λ v. v.names.items };

    ghost invariant = { λ v. IsSlotIndex v.names.items (table_of v.first.map) };
}

impl Variables {
    // No names.
    pub(crate) fn new(alloc: Global) -> Variables
        ensures { result ≡ [] }
    {
        Variables {
            names: Vec::new(alloc),
            first: NameTable::new(alloc),
        }
    }

    // Adds a name.
    pub(crate) fn with(self, alloc: Global, name: &NameText) -> Result<Variables, Memory>
        requires { length self < most_variables }
        ensures { IfOk result (λ more. more ≡ self ++ name.now ∷ []) }
    {
        let Variables {
            mut names,
            mut first,
        } = self;
        let slot = names.len() as u16;
        first.insert(alloc, name.as_slice(), slot)?;
        names.push(name.copy())?;
        Ok(Variables { names, first })
    }

    // Adds a name that is new.
    pub(crate) fn with_new(self, alloc: Global, name: &NameText) -> Result<Variables, Memory>
        requires { length (with_new_name self name.now) ≤ most_variables }
        ensures { IfOk result (λ more. more ≡ with_new_name self name.now) }
    {
        if self.slot(name).is_some() {
            return Ok(self);
        }
        self.with(alloc, name)
    }

    // A name's slot.
    pub(crate) fn slot(&self, name: &NameText) -> Option<u16>
        ensures { result ≡ slot_in self.now name.now }
    {
        self.first.get(name.as_slice())
    }

    // The names in order.
    pub(crate) fn names(self) -> Items<NameText>
        ensures { result ≡ self }
    {
        Items(self.names)
    }
}
