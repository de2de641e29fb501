// Replacing a value, with the old one dropped by one call.
ghost use Rattle.std.specs.Prelude.{◌≡◌};

use crate::remaining::Remaining;
use std::mem;

// Puts a value in place of another, which is dropped.
#[inline(always)]
pub(crate) fn set<T: Drop>(place: &mut T, value: T)
    ensures { place.new ≡ value }
{
    *place = value;
}

// Replaces what remains of a task. Mostly the old value is the stand-in that a move leaves there, whose drop takes no
// call.
#[inline(always)]
pub(crate) fn set_remaining(place: &mut Remaining, remaining: Remaining)
    ensures { place.new ≡ remaining }
{
    match mem::replace(place, remaining) {
        Remaining::Finished(value, _) => drop(value),
        was => drop(was),
    }
}
