ghost use Rattle.std.specs.Prelude.{◌≡◌, ◌<◌, ℕ, List, length, slice_index, take};
ghost use Rattle.std.specs.Cmp.Lexicographic.{slice_cmp};
ghost use Rattle.std.specs.Ordering.{nat_cmp};
ghost use Rattle.std.specs.Str.{bytes_eq};

use std::cmp::Ordering;

// A list of ranks that is read by index.
pub(crate) trait Ranks {
    ghost ranks: { Self → List ℕ };

    fn count(&self) -> u64
        ensures { result ≡ length (ranks self.now) };

    fn rank(&self, i: u64) -> u64
        requires { i < length (ranks self.now) }
        ensures { result ≡ slice_index (ranks self.now) i };
}

// The lexicographic order, in which a proper prefix comes first.
pub(crate) fn compare<A: Ranks, B: Ranks>(left: &A, right: &B) -> Ordering
    ensures { result ≡ slice_cmp nat_cmp (A.ranks left.now) (B.ranks right.now) }
{
    for i in 0..left.count().min(right.count()) {
        let order = left.rank(i).cmp(&right.rank(i));
        if order != Ordering::Equal {
            return order;
        }
    }
    left.count().cmp(&right.count())
}

// Whether `front` is a prefix of the list.
pub(crate) fn begins<A: Ranks, B: Ranks>(list: &A, front: &B) -> bool
    ensures { result ≡ bytes_eq (take (length (B.ranks front.now)) (A.ranks list.now)) (B.ranks front.now) }
{
    if list.count() < front.count() {
        return false;
    }
    for i in 0..front.count() {
        if list.rank(i) != front.rank(i) {
            return false;
        }
    }
    true
}
