ghost use Rattle.std.specs.Prelude.{◌≡◌};
ghost use Rattle.std.specs.Str.{bytes_eq};
ghost use Rattle.std.specs.Ordering.{nat_cmp, is_lt};
ghost use Rattle.std.specs.Cmp.Lexicographic.{slice_cmp};
ghost use Rattle.serial_meaning.specs.Values.{as_integer, object, truth, is_true};
ghost use Rattle.serial_meaning.specs.declared.value.Value.TheVariants.{Int};

use serial_meaning::Value;

/// The integer that a value is. An id, which no valid script takes for an integer, counts as 0.
pub fn number(value: &Value) -> i64
    ensures { result ≡ as_integer value.now }
{
    match value {
        Value::Int(number) => *number,
        Value::Id(_) => 0,
    }
}

/// Whether a condition of this value holds: it isn't 0. For a value without an expression: 7 and -1 hold, 0 and an
/// object don't.
pub fn is_true(value: &Value) -> bool
    ensures { result ≡ is_true value.now }
{
    number(value) != 0
}

// The value of a comparison: 1 or 0.
pub(crate) fn truth(holds: bool) -> i64
    ensures { Int result ≡ truth holds }
{
    if holds { 1 } else { 0 }
}

// Whether both are the same object. An integer, which no valid script takes for an id, counts as one with no rank.
pub(crate) fn is_same(left: &Value, right: &Value) -> bool
    ensures { result ≡ bytes_eq (object left.now) (object right.now) }
{
    match (left, right) {
        (Value::Id(left), Value::Id(right)) => left.same(right),
        (Value::Id(object), Value::Int(_)) => object.len() == 0,
        (Value::Int(_), Value::Id(object)) => object.len() == 0,
        (Value::Int(_), Value::Int(_)) => true,
    }
}

// Whether the left object was made before the right one in serial order.
#[tactic(auto, using(crate::proofs::ValueLemmas::before_none))]
pub(crate) fn is_older(left: &Value, right: &Value) -> bool
    ensures { result ≡ is_lt (slice_cmp nat_cmp (object left.now) (object right.now)) }
{
    match (left, right) {
        (Value::Id(left), Value::Id(right)) => left.before(right),
        (Value::Int(_), Value::Id(object)) => object.len() != 0,
        (Value::Id(_), Value::Int(_)) | (Value::Int(_), Value::Int(_)) => false,
    }
}
