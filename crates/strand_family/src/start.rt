// Whether a pedigree precedes all that an origin answers for.
ghost use Rattle.std.specs.Prelude.{◌≡◌, ◌<◌, ◌≤◌, ◌↔◌, [], ◌∷◌, ◌++◌, IsTrue, length, slice_index};
ghost use Rattle.std.specs.Cmp.Lexicographic.{slice_cmp};
ghost use Rattle.std.specs.Ordering.{nat_cmp};
ghost use Rattle.ped_path.specs.Path.{IsBefore};
ghost use Rattle.serial_meaning.specs.Answer.{start_of};

use ped_path::{Ped, Pedigree};
use serial_meaning::Origin;
use std::cmp::Ordering;

// Whether the pedigree precedes an instance's path, or that of a loop's first iteration.
pub(crate) fn stands_before(at: &Pedigree, origin: &Origin) -> bool
    ensures { IsTrue result ↔ IsBefore at.now (start_of origin.now) }
{
    match origin {
        Origin::Instance { path, .. } => at.before_path(path),
        Origin::Loop { path, range, .. } => compare_iteration(at, path, range.lo).is_lt(),
    }
}

// Compares the pedigree with the path of iteration `k`, without making that path.
fn compare_iteration(at: &Pedigree, path: &Ped, k: u64) -> Ordering
    ensures { result ≡ slice_cmp nat_cmp at.now (path.now ++ k ∷ []) }
{
    let count = path.len() + 1;
    for i in 0..at.len().min(count) {
        let order = first_rank(at, i).cmp(&iteration_rank(path, k, i));
        if order != Ordering::Equal {
            return order;
        }
    }
    at.len().cmp(&count)
}

fn first_rank(at: &Pedigree, i: u64) -> u64
    requires { i < length at.now }
    ensures { result ≡ slice_index at.now i }
{
    let Some(rank) = at.rank_at(i) else {
        unreachable!()
    };
    rank
}

// The rank at this index of the path of iteration `k`.
fn iteration_rank(path: &Ped, k: u64, i: u64) -> u64
    requires { i ≤ length path.now }
    ensures { result ≡ slice_index (path.now ++ k ∷ []) i }
{
    path.rank_at(i).unwrap_or(k)
}
