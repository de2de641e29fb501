ghost use Rattle.std.specs.Prelude.{◌≡◌, ◌+◌, ◌*◌, ◌%◌, ◌<◌, ◌≤◌, ◌^◌, [], ◌∷◌, ◌++◌, length};
ghost use Rattle.ped_path.specs.Path.{IsRank};
ghost use Rattle.dotmix.specs.Draws.{coefficient, modulus, most_rounds, IsResidue};
ghost use Rattle.dotmix.specs.Draws as draws;

use crate::gamma::{Gamma, MODULUS};
use crate::mixing::mix;
use ped_path::{Ped, Pedigree};

// 2^64, which is 59 modulo the prime.
const WORD: u128 = 1 << 64;

const FOLD: u128 = 59;

// The remainder by the prime, without a division of 128 bits. The number is so small that once folded it is below the prime's double.
fn reduced(number: u128) -> u64
    requires { number < 2 ^ 97 }
    ensures { result ≡ number % modulus }
{
    let folded = number / WORD * FOLD + number % WORD;
    if folded < MODULUS as u128 {
        folded as u64
    } else {
        (folded - MODULUS as u128) as u64
    }
}

/// A dot product with one more term: that of position `i`, from 1, where the pedigree has this rank. The result is
/// reduced by the modulus; only the calculation needs 128 bits.
pub fn add_term(gamma: &Gamma, dot: u64, i: u32, rank: u64) -> u64
    requires from_one { 0 < i }
    requires within { i ≤ length gamma.now }
    requires dot { IsResidue dot }
    requires rank { IsRank rank }
    ensures value { result ≡ (dot + coefficient gamma.now i * (rank + 1)) % modulus }
    ensures small { IsResidue result }
{
    let term = gamma.coeff(i) as u128 * (rank as u128 + 1);
    reduced(dot as u128 + term)
}

// The dot product of a path.
pub(crate) fn path_dot(gamma: &Gamma, path: &Ped) -> u64
    requires { length path.now ≤ length gamma.now }
    ensures value { result ≡ draws.dot gamma.now path.now }
    ensures small { IsResidue result }
{
    let mut sum = 0;
    for i in 0..gamma.len() {
        let Some(rank) = path.rank_at(i as u64) else {
            break;
        };
        sum = add_term(gamma, sum, i + 1, rank);
    }
    sum
}

// The dot product of a path with one more rank after it, from that of the path.
pub(crate) fn dot_with_rank(gamma: &Gamma, path: &Ped, path_dot: u64, rank: u64) -> u64
    requires within { length path.now < length gamma.now }
    requires dot { path_dot ≡ draws.dot gamma.now path.now }
    requires rank { IsRank rank }
    ensures value { result ≡ draws.dot gamma.now (path.now ++ rank ∷ []) }
    ensures small { IsResidue result }
{
    add_term(gamma, path_dot, gamma.place_after(path), rank)
}

/// The dot product of the coefficients and the ranks, each rank counted one more than itself, so that 0 and 0.0 differ. It is
/// taken modulo the prime.
pub fn dot(gamma: &Gamma, j: &Pedigree) -> u64
    requires { length j.now ≤ length gamma.now }
    ensures { result ≡ draws.dot gamma.now j.now }
{
    dot_with_rank(gamma, &j.path, path_dot(gamma, &j.path), j.rank)
}

/// The number that the strand with this pedigree draws: its dot product, mixed by this many rounds, at most
/// `MOST_ROUNDS`.
pub fn dotmix(gamma: &Gamma, j: &Pedigree, rounds: u32) -> u64
    requires within { length j.now ≤ length gamma.now }
    requires rounds { rounds ≤ most_rounds }
    ensures { result ≡ draws.dotmix gamma.now j.now rounds }
{
    mix(dot(gamma, j), rounds)
}
