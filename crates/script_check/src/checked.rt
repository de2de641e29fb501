// Checked scripts.

ghost use Rattle.std.specs.Prelude.{◌≡◌, ◌≢◌, ◌<◌, ℕ, ◌++◌, true, Some, Err, IfOk, IfSome, OnOk, length, option_copied, option_map, slice_get};
ghost use Rattle.script_grammar.specs.Text.{IsOfText};
ghost use Rattle.script_check.specs.Functions.{first_named, function_named, main_name};
ghost use Rattle.script_check.specs.Slots.{finds_all, finds_callee, table_of_slots, variable_names};
ghost use Rattle.script_check.specs.Spawns.{spawns_in};
ghost use Rattle.script_check.specs.Tables.{table_of};
ghost use Rattle.script_check.specs.Valid.{IsValid, CheckFault, all_function_violations, main_violations};
ghost use Rattle.script_check.specs.Violations.{earliest};
ghost use Rattle.script_check.specs.Walk.{IsChecked, IsIndex};

use crate::callees::callees;
use crate::error::CheckError;
use crate::findings::{Findings, Violation};
use crate::function::{judge_function, judge_main};
use crate::functions::{Functions, index_functions};
use crate::memory::Memory;
use crate::names::NameTable;
use crate::slots::slots;
use crate::texts::each_spawns;
use contract_views::Items;
use script_grammar::laws::functions_are_few;
use script_grammar::{Name, NameText, Script};
use std::alloc::Global;
use std::marker::Model;
use std::sync::Arc;

/// A valid script that was read from a text. Contracts see the script. It never changes, so all its copies share one allocation.
#[derive(Drop)]
pub struct Checked {
    kept: Arc<CheckedScript>,
}

// A script with what its check found out.
#[derive(Drop)]
struct CheckedScript {
    script: Script,
    first: NameTable<u32>,
    // Of each function, whether the word `spawn` is in its text.
    spawns: Items<bool>,
    // Maps the offset of a called name to the function's index.
    callees: Items<u16>,
    // The names of the variables of each function.
    names: Items<Items<NameText>>,
    // Maps a name's byte offset to its variable's slot.
    slots: Items<u16>,
}

impl Model for Checked {
    ghost use Rattle.std.specs.Arc.{arc_value};
    ghost use Rattle.std.specs.Coded.{codes};
    ghost use Rattle.script_grammar.specs.declared.tree.Script.{Script};
    ghost use Rattle.script_grammar.specs.contracts.tree.Script as script_type;
    ghost use Rattle.script_check.specs.Tables.{table_of};
    ghost use Rattle.script_check.specs.Spawns.{each_spawns};
    ghost use Rattle.script_check.specs.Walk.{IsChecked};

    ghost Value = { Script };

    ghost coded = { Prim.hlevel (codes, script_type.the_row.coded) };

    ghost view = { λ c. (arc_value c.kept).script };

    ghost invariant = { λ c. let k = arc_value c.kept in IsChecked k.script (table_of k.first.map) k.spawns k.names k.slots k.callees };
}

/// Checks a script that was read from a text. It is `Ok` exactly for valid scripts, unless memory runs out. Else the error has the first
/// violated condition: the one at the least offset, and of several there the one with the least number. On `Err` the script is dropped.
pub fn check(alloc: Global, script: Script) -> Result<Checked, CheckError>
    requires { IsOfText script }
    ensures ok { IfOk result (λ checked. checked ≡ script) }
    ensures valid { IfOk result (λ checked. IsValid script) }
    ensures bad { (number at : ℕ) → result ≡ Err (CheckError.Bad number at) → CheckFault script number at }
{
    let mut found = Findings::new();
    let first = index_functions(alloc, &mut found, script.functions.as_slice())?;
    judge_script(alloc, &mut found, &script, &first)?;
    match found.least() {
        None => Ok(keep_valid(alloc, script, first)?),
        Some(Violation { at, number }) => Err(CheckError::Bad { number, at }),
    }
}

// A valid script with its tables.
fn keep_valid(alloc: Global, script: Script, first: NameTable<u32>) -> Result<Checked, Memory>
    requires valid { IsValid script }
    requires text { IsOfText script }
    requires index { IsIndex script.functions (table_of first.map) }
    ensures { IfOk result (λ checked. checked ≡ script) }
{
    functions_are_few();
    let functions = script.functions.as_slice();
    let spawns = each_spawns(alloc, functions)?;
    let callees = callees(alloc, &first, functions)?;
    let (names, slots) = slots(alloc, functions)?;
    checked_of(
        alloc,
        CheckedScript {
            script,
            first,
            spawns,
            callees,
            names,
            slots,
        },
    )
}

// Shares what a check found out.
fn checked_of(alloc: Global, kept: CheckedScript) -> Result<Checked, Memory>
    requires { IsChecked kept.script (table_of kept.first.map) kept.spawns kept.names kept.slots kept.callees }
    ensures { IfOk result (λ checked. checked ≡ kept.script) }
{
    Ok(Checked {
        kept: Arc::new(alloc, kept)?,
    })
}

// All conditions of a script, except that no function is declared twice.
fn judge_script(
    alloc: Global,
    found: &mut Findings,
    script: &Script,
    first: &NameTable<u32>,
) -> Result<(), Memory>
    requires { IsIndex script.now.functions (table_of first.now.map) }
    ensures { OnOk result (found.new ≡ earliest found.old (main_violations (function_named script.now.functions main_name)
        ++ all_function_violations script.now.functions script.now.functions)) }
{
    let list = script.functions.as_slice();
    let functions = Functions::new(list, first);
    judge_main(&functions, found);
    for f in list {
        judge_function(alloc, &functions, found, f)?;
    }
    Ok(())
}

impl Checked {
    /// The script. It is valid, and was read from a text.
    pub fn script(&self) -> &Script
        ensures script { result.now ≡ self.now }
        ensures valid { IsValid self.now }
        ensures text { IsOfText self.now }
    {
        &self.kept.script
    }

    /// Shares the script's memory.
    pub fn share(&self) -> Result<Checked, Memory>
        ensures { IfOk result (λ checked. checked ≡ self.now) }
    {
        Ok(Checked {
            kept: Arc::try_clone(&self.kept)?,
        })
    }

    /// The index of the first function named `main`, where a run begins: 1 in `fn f() { return 0; } fn main() { return 0; }`.
    pub fn main(&self) -> u32
        ensures main { Some result ≡ first_named self.now.functions main_name }
        ensures within { result < length self.now.functions }
    {
        self.kept.first.get(b"main").unwrap_or(0)
    }

    /// The index of the first function with this name, which needn't be one of the script's text. None exactly where no function
    /// has it. In `fn f() { return 0; } fn main() { return 0; }` that of `f` is 0, and `g` has none.
    pub fn function_of(&self, name: &Name) -> Option<u32>
        ensures function { result ≡ first_named self.now.functions name.now.bytes }
        ensures within { IfSome result (λ i. i < length self.now.functions) }
    {
        self.kept.first.get(name.bytes.as_slice())
    }

    /// The index of the function that this name of the text calls. A table has it by the name's offset, so no name is compared.
    #[inline(always)]
    pub fn callee(&self, name: &Name) -> u32
        requires { finds_callee self.now.functions name.now ≡ true }
        ensures { Some result ≡ first_named self.now.functions name.now.bytes }
    {
        u32::from(self.kept.callees.as_slice()[name.at as usize])
    }

    /// Whether the word `spawn` is in the text of the function with this index, if there is one.
    pub fn spawns(&self, function: u32) -> bool
        ensures { result ≡ spawns_in (slice_get self.now.functions function) }
    {
        match self.kept.spawns.as_slice().get(function as usize) {
            Some(spawns) => *spawns,
            None => false,
        }
    }

    /// The names of the variables of the function with this index: of its parameters, and then of its `let` statements.
    pub fn names(&self, function: u32) -> Option<&Items<NameText>>
        ensures { option_copied result ≡ option_map variable_names (slice_get self.now.functions function) }
    {
        self.kept.names.as_slice().get(function as usize)
    }

    /// Maps a name's byte offset to its variable's slot, its index among the names of its function's variables.
    #[inline(always)]
    pub fn slots(&self) -> &[u16]
        ensures table { result.now ≡ table_of_slots self.now.functions }
        ensures found { finds_all result.now self.now.functions ≡ true }
    {
        self.kept.slots.as_slice()
    }
}
