ghost use Rattle.std.specs.Prelude.{◌≡◌, ◌≤◌, ◌↔◌, IsTrue, true, length, IfOk, option_copied, option_map, slice_get};
ghost use Rattle.std.specs.Arc.{arc_value};
ghost use Rattle.script_check.specs.Slots.{finds_all, finds_callee, table_of_slots, variable_names};
ghost use Rattle.script_check.specs.Spawns.{spawns_in};
ghost use Rattle.serial_meaning.specs.Plan.{IsPlan, functions_of};
ghost use Rattle.serial_meaning.specs.Functions.{function_number};
ghost use Rattle.serial_meaning.specs.Eval.{main_origin};

use crate::memory::Memory;
use crate::origin::Origin;
use contract_views::Items;
use dotmix::Gamma;
use ped_path::Ped;
use script_check::Checked;
use script_grammar::laws::functions_are_few;
use script_grammar::{Function, Name, NameText};
use std::alloc::Global;
use std::marker::Model;
use std::sync::Arc;

/// The most ranks of a pedigree, whatever the limits of a run.
pub const MOST_DEPTH: u32 = 512;

/// The limits of a run.
#[derive(Clone, Copy, Debug, PartialEq, Eq)]
pub struct Limits {
    /// The length of the longest pedigree, from 1 to `MOST_DEPTH`.
    pub depth: u32,
    /// How many steps an instance has, from 1 to 4294967295.
    pub budget: u32,
}

/// Which events are printed.
#[derive(Clone, Copy, Debug, PartialEq, Eq)]
pub enum Show {
    /// What the script prints.
    Plain,
    /// Also the draws and the objects.
    Log,
}

/// All that the meaning of a run depends on. The script is valid, there are as many coefficients as the depth, and the
/// limits and the rounds are in range. It has no number of workers, nor anything else that could make the answer depend
/// on them.
#[derive(Drop)]
pub struct Plan {
    pub checked: Checked,
    pub gamma: Gamma,
    pub limits: Limits,
    pub show: Show,
    /// How often a draw is mixed, from 0 to 8.
    pub rounds: u32,
}

impl Model for Plan {
    ghost use Rattle.std.specs.Coded.{codes};
    ghost use Rattle.script_grammar.specs.contracts.tree.Script as script_type;
    ghost use Rattle.serial_meaning.specs.Plan.{PlanView, IsPlan};

    ghost Value = { PlanView };

    ghost coded = { Prim.hlevel (codes, script_type.the_row.coded) };

    ghost view = { λ p. record { script = p.checked; gamma = p.gamma; limits = p.limits; show = p.show; rounds = p.rounds } };

    ghost invariant = { λ p. IsPlan p.gamma p.limits p.rounds };
}

impl Plan {
    /// The plan of a valid script. It takes no memory.
    pub fn new(checked: Checked, gamma: Gamma, limits: Limits, show: Show, rounds: u32) -> Plan
        requires { IsPlan gamma limits rounds }
        ensures { result ≡ record { script = checked; gamma = gamma; limits = limits; show = show; rounds = rounds } }
    {
        Plan {
            checked,
            gamma,
            limits,
            show,
            rounds,
        }
    }

    /// Another handle of the same plan, with a reference count of its own. All but the plan's numbers is shared.
    pub fn again(&self, alloc: Global) -> Result<Arc<Plan>, Memory>
        ensures { IfOk result (λ plan. arc_value plan ≡ self.now) }
    {
        Ok(Arc::new(
            alloc,
            Plan {
                checked: self.checked.share()?,
                gamma: self.gamma.share()?,
                limits: self.limits,
                show: self.show,
                rounds: self.rounds,
            },
        )?)
    }

    /// The functions of the script, in the order of the text.
    pub fn functions(&self) -> &[Function]
        ensures functions { result.now ≡ functions_of self.now }
        ensures few { length result.now ≤ 1024 }
    {
        functions_are_few();
        self.checked.script().functions.as_slice()
    }

    /// Whether the word `spawn` is in the text of the function with this index, if there is one.
    pub fn spawns(&self, function: u32) -> bool
        ensures { result ≡ spawns_in (slice_get (functions_of self.now) function) }
    {
        self.checked.spawns(function)
    }

    /// The names of the variables of the function with this index, if there is one: of its parameters, and then of its
    /// `let` statements.
    pub fn names(&self, function: u32) -> Option<&Items<NameText>>
        ensures { option_copied result ≡ option_map variable_names (slice_get (functions_of self.now) function) }
    {
        self.checked.names(function)
    }

    /// Maps a name's byte offset to its variable's slot, its index among the names of its function's variables.
    #[inline(always)]
    pub fn slots(&self) -> &[u16]
        ensures table { result.now ≡ table_of_slots (functions_of self.now) }
        ensures found { finds_all result.now (functions_of self.now) ≡ true }
    {
        self.checked.slots()
    }

    /// The index of the function that this name of the text calls. No name is compared.
    #[inline(always)]
    pub fn callee(&self, name: &Name) -> u32
        requires { finds_callee (functions_of self.now) name.now ≡ true }
        ensures { result ≡ function_number (functions_of self.now) name.now.bytes }
    {
        self.checked.callee(name)
    }

    /// The origin of a whole run: `main` at the empty path.
    pub fn main_origin(&self, alloc: Global) -> Result<Origin, Memory>
        ensures { IfOk result (λ origin. origin ≡ main_origin self.now) }
    {
        Ok(Origin::Instance {
            function: function_number(self.functions(), b"main"),
            args: Items(Vec::new(alloc)),
            path: Ped::root(alloc)?,
        })
    }

    /// Whether an origin is that of a whole run.
    pub fn is_main_origin(&self, origin: &Origin) -> bool
        ensures { IsTrue result ↔ (origin.now ≡ main_origin self.now) }
    {
        match origin {
            Origin::Instance {
                function,
                args,
                path,
            } => {
                path.len() == 0
                    && args.as_slice().is_empty()
                    && *function == function_number(self.functions(), b"main")
            }
            Origin::Loop { .. } => false,
        }
    }
}

/// The index of the first function with this name, or the number of functions where there is none.
pub fn function_number(functions: &[Function], name: &[u8]) -> u32
    requires { length functions.now ≤ 1024 }
    ensures { result ≡ function_number functions.now name.now }
{
    let mut number = 0;
    for function in functions {
        if function.name.bytes.as_slice() == name {
            return number;
        }
        number += 1;
    }
    number
}
