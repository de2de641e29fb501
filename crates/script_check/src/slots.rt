// The slot of the variable that each name of a script means, by the name's offset.

ghost use Rattle.std.specs.Prelude.{◌≡◌, ◌≤◌, All, IfOk, OnOk, length};
ghost use Rattle.script_check.specs.Slots.{each_names, named_in_function, table_of_slots, variable_names, with_entry, with_entries};
ghost use Rattle.script_check.specs.Rules.{most_variables};

use crate::memory::Memory;
use crate::named::named_in;
use crate::variables::Variables;
use contract_views::Items;
use script_grammar::{Function, Name, NameText};
use std::alloc::Global;

// The names of the variables of each function, and the table of slots by the names' offsets.
pub(crate) fn slots(
    alloc: Global,
    functions: &[Function],
) -> Result<(Items<Items<NameText>>, Items<u16>), Memory>
    requires { All (λ f. length (variable_names f) ≤ most_variables) functions.now }
    ensures names { IfOk result (λ kept. kept.0 ≡ each_names functions.now) }
    ensures slots { IfOk result (λ kept. kept.1 ≡ table_of_slots functions.now) }
{
    let mut each = Vec::with_capacity(alloc, functions.len())?;
    let mut table = Vec::new(alloc);
    for f in functions {
        let named = named_in(alloc, f)?;
        let variables = variables_of(alloc, f, named.as_slice())?;
        put_each(&mut table, &variables, named.as_slice())?;
        each.push(variables.names())?;
    }
    Ok((Items(each), Items(table)))
}

// The variables of a function that names these besides its parameters.
fn variables_of(alloc: Global, f: &Function, named: &[Name]) -> Result<Variables, Memory>
    requires named { named.now ≡ named_in_function f.now }
    requires few { length (variable_names f.now) ≤ most_variables }
    ensures { IfOk result (λ variables. variables ≡ variable_names f.now) }
{
    let mut variables = Variables::new(alloc);
    for param in f.params.as_slice() {
        variables = variables.with(alloc, &param.name.bytes)?;
    }
    for name in named {
        variables = variables.with_new(alloc, &name.bytes)?;
    }
    Ok(variables)
}

// The slots of these names.
fn put_each(table: &mut Vec<u16>, variables: &Variables, named: &[Name]) -> Result<(), Memory>
    ensures { OnOk result (table.new.items ≡ with_entries variables.now table.old.items named.now) }
{
    for name in named {
        let slot = variables.slot(&name.bytes).unwrap_or(0);
        set_entry(table, name.at as usize, slot)?;
    }
    Ok(())
}

// Adds a slot after the table's end, with zeros up to it.
pub(crate) fn set_entry(table: &mut Vec<u16>, at: usize, slot: u16) -> Result<(), Memory>
    ensures { OnOk result (table.new.items ≡ with_entry table.old.items at slot) }
{
    while table.len() < at {
        table.push(0)?;
    }
    table.push(slot)?;
    Ok(())
}
