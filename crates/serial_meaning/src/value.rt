ghost use Rattle.std.specs.Prelude.{◌≡◌, ◌↔◌, IfOk, IsTrue};

use crate::memory::Memory;
use ped_path::Pedigree;

/// What a scalar variable holds: a 64-bit integer, or the id of an object, which is the pedigree of the `new` that made it.
#[derive(Drop)]
pub enum Value {
    Int(i64),
    Id(Pedigree),
}

impl Value {
    /// The same value; an id shares its memory.
    pub fn share(&self) -> Result<Value, Memory>
        ensures { IfOk result (λ value. value ≡ self.now) }
    {
        Ok(match self {
            Value::Int(number) => Value::Int(*number),
            Value::Id(object) => Value::Id(object.share()?),
        })
    }

    /// Whether both are the same integer, or the same id.
    pub fn same(&self, other: &Value) -> bool
        ensures { IsTrue result ↔ (self.now ≡ other.now) }
    {
        match (self, other) {
            (Value::Int(number), Value::Int(other)) => number == other,
            (Value::Id(object), Value::Id(other)) => object.same(other),
            _ => false,
        }
    }
}

// Whether both lists have the same values.
pub(crate) fn same_values(values: &[Value], others: &[Value]) -> bool
    ensures { IsTrue result ↔ (values.now ≡ others.now) }
{
    if values.len() != others.len() {
        return false;
    }
    for (i, value) in values.iter().enumerate() {
        if !value.same(&others[i]) {
            return false;
        }
    }
    true
}
