ghost use Rattle.std.specs.Prelude.{◌≡◌, ◌-ℤ◌};
ghost use Rattle.serial_meaning.specs.Values.{product, added, compared};
ghost use Rattle.serial_meaning.specs.Exec.{count_of};
ghost use Rattle.serial_meaning.specs.declared.value.Value.TheVariants.{Int};
ghost use Rattle.strand_values.specs.Gives.{integral};

use script_grammar::{Comparison, ProductSign};
use serial_meaning::FaultKind;

// A product, quotient or remainder modulo 2^64, and the fault `Divide` where the divisor is 0.
pub(crate) fn product(sign: ProductSign, x: i64, y: i64) -> Result<i64, FaultKind>
    ensures { integral result ≡ product sign x y }
{
    match sign {
        ProductSign::Times => Ok(x.wrapping_mul(y)),
        ProductSign::Over | ProductSign::Modulo if y == 0 => Err(FaultKind::Divide),
        ProductSign::Over => Ok(x.wrapping_div(y)),
        ProductSign::Modulo => Ok(x.wrapping_rem(y)),
    }
}

// A sum, or a difference where `minus` is set, modulo 2^64.
pub(crate) fn sum(minus: bool, x: i64, y: i64) -> i64
    ensures { added minus x y ≡ Ok (Int result) }
{
    if minus {
        x.wrapping_sub(y)
    } else {
        x.wrapping_add(y)
    }
}

pub(crate) fn compare(how: Comparison, x: i64, y: i64) -> bool
    ensures { result ≡ compared how x y }
{
    match how {
        Comparison::Eq => x == y,
        Comparison::Ne => x != y,
        Comparison::Lt => x < y,
        Comparison::Le => x <= y,
        Comparison::Gt => x > y,
        Comparison::Ge => x >= y,
    }
}

/// A number that isn't negative, and 0 for the others.
pub fn count_of(number: i64) -> u64
    ensures { result ≡ count_of number }
{
    if number < 0 { 0 } else { number as u64 }
}

/// How many integers there are from `lo` on and below `hi`.
pub fn iteration_count(lo: i64, hi: i64) -> u64
    ensures { result ≡ count_of (hi -ℤ lo) }
{
    if lo < hi { hi.abs_diff(lo) } else { 0 }
}
