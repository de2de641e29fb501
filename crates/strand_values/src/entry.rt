// What a variable's slot holds.

ghost use Rattle.std.specs.Prelude.{◌≡◌, ◌<◌, Some, is_none, length};
ghost use Rattle.serial_meaning.specs.declared.environment.Content.TheVariants.{Scalar, Array};
ghost use Rattle.serial_meaning.specs.declared.value.Value.TheVariants.{Int};
ghost use Rattle.serial_meaning.specs.Values.{items_of};
ghost use Rattle.serial_meaning.specs.Exec.{with_item, with_front};
ghost use Rattle.strand_values.specs.Environments.{entry_content};

use crate::scalar::number;
use contract_views::Items;
use ped_path::Pedigree;
use serial_meaning::Value;
use std::alloc::Global;

// Nothing yet, or what the variable holds.
#[derive(Drop)]
pub(crate) enum Entry {
    Vacant,
    Int(i64),
    Id(Pedigree),
    // An array's items.
    Array(Items<i64>),
}

impl Entry {
    // A scalar of this value.
    pub fn of(value: Value) -> Entry
        ensures { entry_content result ≡ Some (Scalar value) }
    {
        match value {
            Value::Int(number) => Entry::Int(number),
            Value::Id(object) => Entry::Id(object),
        }
    }

    pub fn is_vacant(&self) -> bool
        ensures { result ≡ is_none (entry_content self.now) }
    {
        matches!(self, Entry::Vacant)
    }

    // Makes it a scalar of this number.
    #[inline(always)]
    pub fn set_number(&mut self, number: i64)
        ensures { entry_content self.new ≡ Some (Scalar (Int number)) }
    {
        match self {
            Entry::Int(old) => *old = number,
            entry => *entry = Entry::Int(number),
        }
    }

    // Writes an item of an array that is there.
    pub fn put_item(&mut self, i: usize, number: i64)
        requires { i < length (items_of (entry_content self.old)) }
        ensures { entry_content self.new ≡ Some (Array (with_item (items_of (entry_content self.old)) i number)) }
    {
        match self {
            Entry::Array(items) => items.0[i] = number,
            _ => unreachable!(),
        }
    }

    // Writes values over an array's first items. What isn't an array becomes an empty one.
    pub fn set_front(&mut self, alloc: Global, values: &[Value])
        ensures { entry_content self.new ≡ Some (Array (with_front (items_of (entry_content self.old)) values.now)) }
    {
        match self {
            Entry::Array(items) => fill_items(&mut items.0, values),
            entry => *entry = Entry::Array(Items(Vec::new(alloc))),
        }
    }
}

fn fill_items(items: &mut [i64], values: &[Value])
    ensures { items.new ≡ with_front items.old values.now }
{
    for i in 0..items.len().min(values.len()) {
        items[i] = number(&values[i]);
    }
}
