ghost use Rattle.std.specs.Prelude.{◌≡◌, ◌≤◌, ◌<◌, ◌^◌, [], ◌∷◌, IfOk, length};

use super::same;
use bulk_draw::{draw_run, mix_lanes, reduce};
use dotmix::{Gamma, dotmix, mix};
use ped_path::{Memory, Ped, Pedigree};
use std::alloc::Global;
use std::process::Abort;
use std::test::Fail;

// A strand of main.
fn strand(alloc: Global, rank: u32) -> Result<Pedigree, Memory>
    ensures { IfOk result (λ j. j ≡ rank ∷ []) }
{
    let path = Ped::root(alloc)?;
    let rank = rank as u64;
    Ok(Pedigree { path, rank })
}

// The only coefficient, the first strand's rank, and the draws from it on. With the coefficient 1 the dot products are 1, 2, 3 and so on;
// the greatest coefficient is the prime less one, so that the products of the second row are the prime less two and less three; the last
// row has the greatest rank.
static RUNS: [(u64, u32, &[u64]); 3] = [
    (
        1,
        0,
        &[
            21, 210, 903, 2628, 6105, 12_246, 22_155, 37_128, 58_653, 88_410, 128_271,
        ],
    ),
    (18_446_744_073_709_551_556, 1, &[108_965_703, 116_319_378]),
    (1, 4_294_967_295, &[90_194_313_216]),
];

// The draws of a strand of main and of those after it are these, by one coefficient.
fn draws(rt: &impl Abort, gamma: &Gamma, at: &Pedigree, rank: u32, expected: &[u64])
    requires { at.now ≡ rank ∷ [] }
{
    assert!(rt; gamma.len() == 1);
    assert!(rt; expected.len() <= 11 && rank as u64 + expected.len() as u64 <= 4_294_967_296);
    let mut draws = [0u64; 11];
    draw_run(gamma, at, 4, &mut draws[..expected.len()]);
    same(rt, rank, &draws[..expected.len()], expected);
}

#[test]
fn runs_draw_by_the_table(rt: HostRuntime) -> Result<(), Fail> {
    for &(coefficient, rank, expected) in &RUNS {
        let gamma = Gamma::of_list(rt.alloc(), &[coefficient], 1)?;
        let at = strand(rt.alloc(), rank)?;
        draws(&rt, &gamma, &at, rank, expected);
    }
    Ok(())
}

#[test]
fn draws_are_reduced(rt: HostRuntime) {
    let mut draws = [21, 210, 903];
    reduce(&mut draws, 10);
    same(&rt, "by 10", draws, [1, 0, 3]);
}

// The strand of this rank in the child that main spawns at 3.
fn strand_of_child(alloc: Global, rank: u64) -> Result<Pedigree, Memory>
    requires { rank < 2 ^ 32 }
    ensures { IfOk result (λ j. j ≡ 3 ∷ rank ∷ []) }
{
    let path = Ped::root(alloc)?.child(alloc, 3)?;
    Ok(Pedigree { path, rank })
}

// What one call draws for the strand so many ranks after the first one, which has the rank 5.
fn drawn_at(alloc: Global, gamma: &Gamma, i: usize, rounds: u32) -> Result<u64, Memory>
    requires gamma { length gamma.now ≡ 2 }
    requires i { i < 17 }
    requires rounds { rounds ≤ 8 }
{
    let j = strand_of_child(alloc, 5 + i as u64)?;
    Ok(dotmix(gamma, &j, rounds))
}

// A run of this length draws what each strand draws, and nothing after it.
fn draws_each(
    rt: &(impl Abort + AllocGlobal),
    gamma: &Gamma,
    len: usize,
    rounds: u32,
) -> Result<(), Memory>
    requires gamma { length gamma.now ≡ 2 }
    requires len { len ≤ 17 }
    requires rounds { rounds ≤ 8 }
{
    let mut draws = [0; 17];
    draw_run(
        gamma,
        &strand_of_child(rt.alloc(), 5)?,
        rounds,
        &mut draws[..len],
    );
    for i in 0..17usize {
        let expected = if i < len {
            drawn_at(rt.alloc(), gamma, i, rounds)?
        } else {
            0
        };
        same(rt, i, draws[i], expected);
    }
    Ok(())
}

// Of each length that a block of eight makes different, against one call for each strand.
#[test]
fn a_run_draws_what_each_strand_draws(rt: HostRuntime) -> Result<(), Fail> {
    let gamma = Gamma::of_seed(rt.alloc(), 7, 2)?;
    assert!(rt; gamma.len() == 2);
    for len in [0, 1, 7, 8, 9, 16, 17] {
        for rounds in [0, 4, 8] {
            draws_each(&rt, &gamma, len, rounds)?;
        }
    }
    Ok(())
}

#[test]
fn lanes_are_mixed_as_numbers_are(rt: HostRuntime) {
    for len in [0, 1, 7, 8, 9, 16, 17] {
        let mut numbers = [0; 17];
        for (i, number) in numbers.iter_mut().enumerate() {
            *number = i as u64 * 1_000_000_007;
        }
        let before = numbers;
        mix_lanes(&mut numbers[..len], 4);
        for (i, number) in numbers.iter().enumerate() {
            let expected = if i < len {
                mix(before[i], 4)
            } else {
                before[i]
            };
            same(&rt, format_args!("at {i} of {len}"), *number, expected);
        }
    }
}
