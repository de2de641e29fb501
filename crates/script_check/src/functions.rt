// The functions of a script, found by their names.

ghost use Rattle.std.specs.Prelude.{◌≡◌, List, [], ◌∷◌, IfOk, OnOk, option_copied};
ghost use Rattle.script_check.specs.Functions.{function_named};
ghost use Rattle.script_check.specs.Tables.{table_of};
ghost use Rattle.script_check.specs.Valid.{functions_twice};
ghost use Rattle.script_check.specs.Violations.{earliest};
ghost use Rattle.script_check.specs.Walk.{IsIndex};

use crate::condition::Condition;
use crate::findings::Findings;
use crate::memory::Memory;
use crate::names::NameTable;
use script_grammar::Function;
use std::alloc::Global;
use std::marker::Model;

// The functions of a script, with the index of the first of each name. Contracts see the list of the functions.
#[derive(Drop)]
pub(crate) struct Functions<'s> {
    list: &'s [Function],
    first: &'s NameTable<u32>,
}

impl<'s> Model for Functions<'s> {
    ghost use Rattle.std.specs.Prelude.{List};
    ghost use Rattle.std.specs.Coded.{codes};
    ghost use Rattle.script_grammar.specs.declared.tree.Function.{Function};
    ghost use Rattle.script_grammar.specs.contracts.tree.Function as function_type;
    ghost use Rattle.script_check.specs.Tables.{table_of};
    ghost use Rattle.script_check.specs.Walk.{IsIndex};

    ghost Value = { List Function };

    ghost coded = { Prim.hlevel (codes, function_type.the_row.coded) };

    ghost view = { λ f. f.list.now };

    ghost invariant = { λ f. IsIndex f.list.now (table_of f.first.now.map) };
}

impl<'s> Functions<'s> {
    // The functions of a script with their index.
    pub(crate) fn new(list: &'s [Function], first: &'s NameTable<u32>) -> Functions<'s>
        requires { IsIndex list.now (table_of first.now.map) }
        ensures { result ≡ list.now }
    {
        Functions { list, first }
    }

    // The first function with this name.
    pub(crate) fn function_named(&self, name: &[u8]) -> Option<&Function>
        ensures { option_copied result ≡ function_named self.now name.now }
    {
        match self.first.get(name) {
            Some(i) => self.list.get(i as usize),
            None => None,
        }
    }
}

// The index of the first function of each name. A function whose name an earlier one has is a violation. More than 2^32 functions,
// which no text has, also give `Memory`.
pub(crate) fn index_functions(
    alloc: Global,
    found: &mut Findings,
    list: &[Function],
) -> Result<NameTable<u32>, Memory>
    ensures index { IfOk result (λ first. IsIndex list.now (table_of first.map)) }
    ensures twice { OnOk result (found.new ≡ earliest found.old (functions_twice [] list.now)) }
{
    let mut first = NameTable::new(alloc);
    for (i, f) in list.iter().enumerate() {
        let name = f.name.bytes.as_slice();
        found.add_violation_if(
            first.get(name).is_some(),
            Condition::FunctionTwice,
            f.name.at,
        );
        let Ok(i) = u32::try_from(i) else {
            return Err(Memory);
        };
        first.insert(alloc, name, i)?;
    }
    Ok(first)
}
