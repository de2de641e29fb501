ghost use Rattle.std.specs.Prelude.{◌≡◌, ℕ, List, [], true, Ok, Err, Some, IfOk, IfSome, OnOk, OnErr, IsSome, IsNone, is_some};
ghost use Rattle.std.specs.Option.{option_copied};
ghost use Rattle.script_check.specs.Slots.{every_in_target, has_slot, slot_in, stand_from};
ghost use Rattle.serial_meaning.specs.declared.environment.Content.TheVariants.{Scalar, Array};
ghost use Rattle.serial_meaning.specs.Values.{value_of, values_of, content_of, items_of, at_index};
ghost use Rattle.serial_meaning.specs.Exec.{bound, with_content, zeros, set_item, has_room, with_loop_values};
ghost use Rattle.serial_meaning.specs.declared.event.FaultKind.{FaultKind};
ghost use Rattle.serial_meaning.specs.declared.value.Value.TheVariants.{Int};
ghost use Rattle.strand_values.specs.declared.evaluation_error.EvaluationError.TheVariants.{Fault};
ghost use Rattle.strand_values.specs.Changes.{assigned, called_with};
ghost use Rattle.strand_values.specs.Environments.{EnvironmentView, FindsExpression, FindsArguments, FindsName, IsOwnSlot, entry_content, with_filled, with_variables, with_optional_content};
ghost use Rattle.strand_values.specs.Gives.{Calculates, integer_result, holding};

use crate::entry::Entry;
use crate::environment_pool::EnvironmentPool;
use crate::evaluation_error::EvaluationError;
use crate::memory::Memory;
use crate::plain;
use crate::scalar::number;
use crate::target::Target;
use crate::value::{self, is_integer};
use contract_views::{Items, KnownList};
use script_grammar::{Expr, Name, NameText, Param};
use serial_meaning::Value;
use std::alloc::Global;
use std::marker::Model;
use std::mem;
use std::snapshot::Snapshot;

/// The variables of a frame: an entry for each variable of its function. Contracts see the list of those that are
/// there, with their names, in the order in which they were made. No name is read at run time.
#[derive(Drop)]
pub struct Environment {
    pub(crate) entries: Vec<Entry>,
    // The names of its function's variables. Only contracts read them, so they take no memory.
    names: Snapshot<Items<NameText>>,
    // The slots in the order in which they were filled; also for contracts only.
    filled: KnownList<usize>,
}

impl Model for Environment {
    ghost use Rattle.strand_values.specs.Environments.{EnvironmentView, IsEnvironment, filled_variables};

    ghost Value = { EnvironmentView };

    ghost view = { λ e. record { names = e.names.value; variables = filled_variables e.names.value e.entries.items e.filled.items } };

    ghost invariant = { λ e. IsEnvironment e.names.value e.entries.items e.filled.items };
}

impl Environment {
    // The environment of a function with variables of these names, none of which is there yet.
    #[inline(always)]
    fn vacant(
        alloc: Global,
        names: &Items<NameText>,
        pool: &mut EnvironmentPool,
    ) -> Result<Environment, Memory>
        ensures { IfOk result (λ env. env ≡ record { names = names.now; variables = [] }) }
    {
        let count = names.as_slice().len();
        let mut entries = pool.list(alloc);
        entries.try_reserve_exact(count)?;
        for _ in 0..count {
            entries.push_reserved(Entry::Vacant);
        }
        Ok(Environment {
            entries,
            names: Snapshot::of(names),
            filled: KnownList::none(),
        })
    }

    /// The parameters with their arguments, as far as there are both; an id shares its memory. The names are those of the function's
    /// variables.
    #[inline(always)]
    pub fn bound(
        alloc: Global,
        names: &Items<NameText>,
        params: &[Param],
        args: &[Value],
        pool: &mut EnvironmentPool,
    ) -> Result<Environment, Memory>
        requires { stand_from 0 names.now params.now ≡ true }
        ensures { IfOk result (λ env. env ≡ record { names = names.now; variables = bound params.now args.now }) }
    {
        let mut env = Environment::vacant(alloc, names, pool)?;
        for i in 0..params.len().min(args.len()) {
            env.put(i, Entry::of(args[i].share()?));
        }
        Ok(env)
    }

    /// The parameters with the values of a call's arguments in these variables, as far as there are both, or the fault that is met first.
    pub fn called_with(
        &self,
        alloc: Global,
        slots: &[u16],
        names: &Items<NameText>,
        params: &[Param],
        args: &[Expr],
        pool: &mut EnvironmentPool,
    ) -> Result<Environment, EvaluationError>
        requires params { stand_from 0 names.now params.now ≡ true }
        requires args { FindsArguments slots.now self.now args.now }
        ensures { Calculates result (called_with names.now params.now args.now self.now.variables) }
    {
        let mut env = Environment::vacant(alloc, names, pool)?;
        for i in 0..args.len() {
            let value = value::evaluate(self, slots, &args[i])?;
            if i < params.len() {
                env.put(i, Entry::of(value));
            }
        }
        Ok(env)
    }

    /// Drops the variables. Their list goes to the pool.
    #[inline(always)]
    pub fn discard(self, pool: &mut EnvironmentPool)
        ensures { pool.new ≡ pool.old }
    {
        let Environment {
            entries,
            names,
            filled,
        } = self;
        drop((names, filled));
        pool.keep(entries);
    }

    /// The value of an expression, or the fault that is met first from left to right. An id shares its memory.
    pub fn value(&self, slots: &[u16], e: &Expr) -> Result<Value, EvaluationError>
        requires { FindsExpression slots.now self.now e.now }
        ensures { Calculates result (value_of e.now self.now.variables) }
    {
        value::evaluate(self, slots, e)
    }

    /// The value of an expression as a number.
    pub fn integer(&self, slots: &[u16], e: &Expr) -> Result<i64, EvaluationError>
        requires { FindsExpression slots.now self.now e.now }
        ensures { Calculates result (integer_result (value_of e.now self.now.variables)) }
    {
        value::integer(self, slots, e)
    }

    /// The integer value of an expression that is a number, a variable that holds one, or a calculation of plain
    /// operands, and meets no fault.
    pub fn plain(&self, slots: &[u16], e: &Expr) -> Option<i64>
        requires { FindsExpression slots.now self.now e.now }
        ensures { IfSome result (λ n. value_of e.now self.now.variables ≡ Ok (Int n)) }
    {
        plain::plain(self, slots, e)
    }

    /// The same, inlined for a loop over statements: more code, fewer calls.
    #[inline(always)]
    pub fn plain_in_place(&self, slots: &[u16], e: &Expr) -> Option<i64>
        requires { FindsExpression slots.now self.now e.now }
        ensures { IfSome result (λ n. value_of e.now self.now.variables ≡ Ok (Int n)) }
    {
        plain::plain_in_place(self, slots, e)
    }

    /// Whether a condition holds: its value isn't 0.
    pub fn holds(&self, slots: &[u16], e: &Expr) -> Result<bool, EvaluationError>
        requires { FindsExpression slots.now self.now e.now }
        ensures { Calculates result (holding (value_of e.now self.now.variables)) }
    {
        match plain::plain(self, slots, e) {
            Some(number) => Ok(number != 0),
            None => Ok(value::integer(self, slots, e)? != 0),
        }
    }

    /// The values of arguments from left to right, or the fault that is met first.
    #[inline(always)]
    pub fn values(
        &self,
        alloc: Global,
        slots: &[u16],
        args: &[Expr],
    ) -> Result<Items<Value>, EvaluationError>
        requires { FindsArguments slots.now self.now args.now }
        ensures { Calculates result (values_of args.now self.now.variables) }
    {
        value::values(self, slots, args, Items(Vec::new(alloc)))
    }

    /// The same, in this empty list.
    #[inline(always)]
    pub fn values_in(
        &self,
        slots: &[u16],
        args: &[Expr],
        room: Items<Value>,
    ) -> Result<Items<Value>, EvaluationError>
        requires args { FindsArguments slots.now self.now args.now }
        requires room { room ≡ [] }
        ensures { Calculates result (values_of args.now self.now.variables) }
    {
        value::values(self, slots, args, room)
    }

    /// Assigns the value of an expression to a scalar, or returns the fault that is met first. A new variable comes
    /// last. On `Err` nothing has changed.
    pub fn assign(&mut self, slots: &[u16], name: &Name, e: &Expr) -> Result<(), EvaluationError>
        requires name { FindsName slots.now self.old name.now }
        requires value { FindsExpression slots.now self.old e.now }
        ensures ok { OnOk result (assigned self.old.variables name.now e.now ≡ Ok self.new.variables) }
        ensures fault { (kind : FaultKind) → result ≡ Err (Fault kind) → assigned self.old.variables name.now e.now ≡ Err kind }
        ensures err { OnErr result (self.new ≡ self.old) }
        ensures names { self.new.names ≡ self.old.names }
    {
        if is_integer(e) {
            let number = value::integer(self, slots, e)?;
            self.set_number(slots, name, number);
        } else {
            let value = value::value(self, slots, e)?;
            self.set_scalar(slots, name, value);
        }
        Ok(())
    }

    /// Assigns a number to a scalar. A new variable comes last.
    #[inline(always)]
    pub fn set_number(&mut self, slots: &[u16], name: &Name, number: i64)
        requires { FindsName slots.now self.old name.now }
        ensures { self.new ≡ with_variables self.old (with_content self.old.variables name.now.bytes (Scalar (Int number))) }
    {
        let slot = slots[name.at as usize] as usize;
        self.filled = with_filled(
            mem::replace(&mut self.filled, KnownList::none()),
            &self.entries[slot],
            slot,
        );
        self.entries[slot].set_number(number);
    }

    /// Assigns a value to a scalar. A new variable comes last.
    pub fn set_scalar(&mut self, slots: &[u16], name: &Name, value: Value)
        requires { FindsName slots.now self.old name.now }
        ensures { self.new ≡ with_variables self.old (with_content self.old.variables name.now.bytes (Scalar value)) }
    {
        self.put(slots[name.at as usize] as usize, Entry::of(value));
    }

    /// The same for the variable that takes a call's value.
    #[inline(always)]
    pub fn receive(&mut self, slots: &[u16], target: &Target, value: Value)
        requires { FindsName slots.now self.old target.now }
        ensures { self.new ≡ with_variables self.old (with_content self.old.variables target.now.bytes (Scalar value)) }
    {
        self.put(slots[target.at() as usize] as usize, Entry::of(value));
    }

    /// Assigns a value to a scalar that is there. Where it isn't, nothing changes.
    #[inline(always)]
    pub fn replace_scalar(&mut self, slots: &[u16], target: &Target, value: Value)
        requires { FindsName slots.now self.old target.now }
        ensures there { IsSome (content_of self.old.variables target.now.bytes) → self.new ≡ with_variables self.old (with_content self.old.variables target.now.bytes (Scalar value)) }
        ensures missing { IsNone (content_of self.old.variables target.now.bytes) → self.new ≡ self.old }
    {
        let slot = slots[target.at() as usize] as usize;
        if !self.entries[slot].is_vacant() {
            self.put(slot, Entry::of(value));
        }
    }

    /// Makes an array of `n` zeros. A new variable comes last. On `Memory` nothing changes.
    pub fn set_array(
        &mut self,
        alloc: Global,
        slots: &[u16],
        name: &Name,
        length: u64,
    ) -> Result<(), Memory>
        requires { FindsName slots.now self.old name.now }
        ensures ok { OnOk result (self.new ≡ with_variables self.old (with_content self.old.variables name.now.bytes (Array (zeros length)))) }
        ensures err { OnErr result (self.new ≡ self.old) }
    {
        let items = vec![in alloc; 0i64; length as usize]?;
        self.put(slots[name.at as usize] as usize, Entry::Array(Items(items)));
        Ok(())
    }

    /// Writes an array's item, where the array has this index.
    pub fn set_item(&mut self, slots: &[u16], name: &Name, index: i64, value: &Value)
        requires name { FindsName slots.now self.old name.now }
        requires there { IsSome (at_index (items_of (content_of self.old.variables name.now.bytes)) index) }
        ensures { self.new ≡ with_variables self.old (with_content self.old.variables name.now.bytes (Array (set_item (items_of (content_of self.old.variables name.now.bytes)) index value.now))) }
    {
        self.entries[slots[name.at as usize] as usize].put_item(index as usize, number(value));
    }

    /// Whether a loop's target, if there is one, has at least `n` items.
    pub fn has_room(&self, slots: &[u16], target: Option<&Name>, n: u64) -> bool
        requires { every_in_target (has_slot slots.now self.now.names) (option_copied target) ≡ true }
        ensures { result ≡ has_room (option_copied target.entry) n self.now.variables }
    {
        match target {
            Some(name) => n <= self.items(slots, name).len() as u64,
            None => true,
        }
    }

    /// Writes no values to a loop's target, if there is one: what isn't an array becomes an empty one.
    pub fn clear(&mut self, alloc: Global, slots: &[u16], target: Option<&Name>)
        requires { every_in_target (has_slot slots.now self.old.names) (option_copied target) ≡ true }
        ensures { self.new ≡ with_variables self.old (with_loop_values (option_copied target.entry) [] self.old.variables) }
    {
        if let Some(name) = target {
            self.fill_entry(alloc, slots[name.at as usize] as usize, &[]);
        }
    }

    /// Writes a loop's values over the first items of its target, if there is one. What isn't an array becomes an empty
    /// one.
    pub fn fill(&mut self, alloc: Global, slots: &[u16], target: Option<&Target>, values: &[Value])
        requires { every_in_target (has_slot slots.now self.old.names) (option_copied target) ≡ true }
        ensures { self.new ≡ with_variables self.old (with_loop_values (option_copied target.entry) values.now self.old.variables) }
    {
        if let Some(target) = target {
            self.fill_entry(alloc, slots[target.at() as usize] as usize, values);
        }
    }

    // Writes values over the first items of the array in a slot. What isn't an array becomes an empty one.
    fn fill_entry(&mut self, alloc: Global, slot: usize, values: &[Value])
        requires { IsOwnSlot self.old.names slot }
        ensures { (name : List ℕ) → slot_in self.old.names name ≡ Some slot → self.new ≡ with_variables self.old (with_loop_values (Some (record { bytes = name; at = 0 })) values.now self.old.variables) }
    {
        self.filled = with_filled(
            mem::replace(&mut self.filled, KnownList::none()),
            &self.entries[slot],
            slot,
        );
        self.entries[slot].set_front(alloc, values);
    }

    // Sets a slot's entry.
    #[inline(always)]
    fn put(&mut self, slot: usize, entry: Entry)
        requires there { IsOwnSlot self.old.names slot }
        requires some { IsSome (entry_content entry) }
        ensures { (name : List ℕ) → slot_in self.old.names name ≡ Some slot → self.new ≡ with_variables self.old (with_optional_content self.old.variables name (entry_content entry)) }
    {
        self.filled = with_filled(
            mem::replace(&mut self.filled, KnownList::none()),
            &self.entries[slot],
            slot,
        );
        self.entries[slot] = entry;
    }
}

// The slots in the order in which they were filled, once this one is.
#[inline(always)]
fn with_filled(filled: KnownList<usize>, entry: &Entry, slot: usize) -> KnownList<usize>
    ensures { result.items ≡ with_filled filled.items slot (entry_content entry.now) }
{
    if entry.is_vacant() {
        filled.with(&slot)
    } else {
        filled
    }
}
