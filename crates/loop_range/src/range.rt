ghost use Rattle.std.specs.Prelude.{◌≡◌, ◌<◌, ◌≤◌, ◌-◌, ◌↔◌, ◌∷◌, ◌++◌, [], IfOk, IfSome, IsNone, IsTrue};
ghost use Rattle.loop_range.specs.Range.{IsRange, IsGapless, lower_half, upper_half};

use crate::memory::Memory;
use ped_path::Ped;
use std::alloc::Global;
use std::marker::Model;

/// The iterations from `lo` up to but not including `hi`, with `lo` at most `hi` and `hi` at most 4294967295. It may be empty.
#[derive(Clone, Copy, Debug, PartialEq, Eq)]
pub struct IterRange {
    pub lo: u64,
    pub hi: u64,
}

impl Model for IterRange {
    ghost use Rattle.loop_range.specs.Range.{Range, IsRange};

    ghost Value = { Range };

    ghost view = { λ r. record { lo = r.lo; hi = r.hi } };

    ghost invariant = { λ r. IsRange r.lo r.hi };

    ghost inverse = { λ r. record { lo = r.lo; hi = r.hi } };
}

impl IterRange {
    /// How many iterations there are.
    pub fn len(&self) -> u64
        ensures count { result ≡ self.now.hi - self.now.lo }

        // What holds of every range.
        ensures range { IsRange self.now.lo self.now.hi }
    {
        self.hi - self.lo
    }

    /// The lower and the upper half, where there are at least two iterations. Of an odd number the upper half has one more.
    pub fn split(&self) -> Option<(IterRange, IterRange)>
        ensures too_few { IsNone result ↔ (self.now.hi - self.now.lo < 2) }
        ensures halves { IfSome result (λ parts. (parts.0 ≡ lower_half self.now) × (parts.1 ≡ upper_half self.now)) }
    {
        if self.len() < 2 {
            return None;
        }
        let middle = self.lo + (self.hi - self.lo) / 2;
        let lower = IterRange {
            lo: self.lo,
            hi: middle,
        };
        let upper = IterRange {
            lo: middle,
            hi: self.hi,
        };
        Some((lower, upper))
    }
}

/// Whether each part ends where the next one begins. True for zero or one part. For testing how a range was split: the parts 0 to 2
/// and 2 to 5 are gapless, and 0 to 2 and 3 to 5 leave out iteration 2.
pub fn cover(parts: &[IterRange]) -> bool
    ensures { IsTrue result ↔ IsGapless parts.now }
{
    for i in 1..parts.len() {
        let part = &parts[i - 1];
        let next = &parts[i];
        if part.hi != next.lo {
            return false;
        }
    }
    true
}

/// The path of iteration `k` of the loop whose strand has this path: the loop's instance, the loop's rank, and then `k`.
pub fn iteration_path(path: &Ped, alloc: Global, k: u64) -> Result<Ped, Memory>
    requires { k ≤ 4294967294 }
    ensures { IfOk result (λ child. child ≡ path.now ++ k ∷ []) }
{
    Ok(path.child(alloc, k)?)
}
