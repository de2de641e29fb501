// Variables by their slots.

ghost use Rattle.std.specs.Prelude.{◌≡◌, IfSome, Ok};
ghost use Rattle.serial_meaning.specs.Values.{content_of, scalar, as_integer, items_of, at_index};
ghost use Rattle.serial_meaning.specs.declared.value.Value.TheVariants.{Int};
ghost use Rattle.strand_values.specs.Environments.{FindsName, entry_content};
ghost use Rattle.strand_values.specs.Gives.{Calculates};

use crate::entry::Entry;
use crate::environment::Environment;
use crate::evaluation_error::EvaluationError;
use script_grammar::Name;
use serial_meaning::Value;

impl Environment {
    // What a variable's slot holds.
    #[inline(always)]
    pub(crate) fn entry(&self, slots: &[u16], name: &Name) -> &Entry
        requires { FindsName slots.now self.now name.now }
        ensures { entry_content result.now ≡ content_of self.now.variables name.now.bytes }
    {
        &self.entries[slots[name.at as usize] as usize]
    }

    // A scalar's value; an id shares its memory.
    pub(crate) fn scalar(&self, slots: &[u16], name: &Name) -> Result<Value, EvaluationError>
        requires { FindsName slots.now self.now name.now }
        ensures { Calculates result (Ok (scalar (content_of self.now.variables name.now.bytes))) }
    {
        match self.entry(slots, name) {
            Entry::Int(number) => Ok(Value::Int(*number)),
            Entry::Id(object) => match object.share() {
                Ok(object) => Ok(Value::Id(object)),
                Err(_) => Err(EvaluationError::Memory),
            },
            Entry::Array(_) | Entry::Vacant => Ok(Value::Int(0)),
        }
    }

    // A scalar's value as a number.
    #[inline(always)]
    pub(crate) fn integer_or_zero(&self, slots: &[u16], name: &Name) -> i64
        requires { FindsName slots.now self.now name.now }
        ensures { result ≡ as_integer (scalar (content_of self.now.variables name.now.bytes)) }
    {
        match self.entry(slots, name) {
            Entry::Int(number) => *number,
            Entry::Id(_) | Entry::Array(_) | Entry::Vacant => 0,
        }
    }

    // The integer that a scalar holds, if it holds one.
    #[inline(always)]
    pub(crate) fn integer_of(&self, slots: &[u16], name: &Name) -> Option<i64>
        requires { FindsName slots.now self.now name.now }
        ensures { IfSome result (λ n. scalar (content_of self.now.variables name.now.bytes) ≡ Int n) }
    {
        match self.entry(slots, name) {
            Entry::Int(number) => Some(*number),
            Entry::Id(_) | Entry::Array(_) | Entry::Vacant => None,
        }
    }

    // An array's items.
    pub(crate) fn items(&self, slots: &[u16], name: &Name) -> &[i64]
        requires { FindsName slots.now self.now name.now }
        ensures { result.now ≡ items_of (content_of self.now.variables name.now.bytes) }
    {
        match self.entry(slots, name) {
            Entry::Array(items) => items.as_slice(),
            Entry::Int(_) | Entry::Id(_) | Entry::Vacant => &[],
        }
    }

    /// The item of an array at this index, if it has one: from 0, and below the array's length.
    pub fn item(&self, slots: &[u16], name: &Name, index: i64) -> Option<i64>
        requires { FindsName slots.now self.now name.now }
        ensures { result ≡ at_index (items_of (content_of self.now.variables name.now.bytes)) index }
    {
        let items = self.items(slots, name);
        if index < 0 || index as u64 >= items.len() as u64 {
            return None;
        }
        Some(items[index as usize])
    }
}
