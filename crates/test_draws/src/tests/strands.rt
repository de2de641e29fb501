ghost use Rattle.std.specs.Prelude.{◌≡◌, IfOk, length};
ghost use Rattle.dotmix.specs.Trails.{FitsGamma};

use super::same;
use dotmix::{Gamma, GammaError, Memory, Trail, dot, dotmix, mix};
use ped_path::{Ped, Pedigree, parse_pedigree};
use std::alloc::Global;
use std::process::Abort;
use std::test::Fail;

// A number, and what four rounds make of it.
static MIXED: [(u64, u64); 9] = [
    (0, 0),
    (1, 21),
    (2, 210),
    (3, 903),
    (4, 2628),
    (5, 6105),
    (11, 128_271),
    (4_294_967_296, 90_194_313_216),
    (18_446_744_073_709_551_555, 108_965_703),
];

// What so many rounds make of 1.
static MIXED_ONES: [(u32, u64); 6] = [
    (0, 1),
    (1, 12_884_901_888),
    (2, 3),
    (4, 21),
    (6, 903),
    (8, 1_631_721),
];

#[test]
fn mixes_by_the_table(rt: HostRuntime) {
    for &(z, mixed) in &MIXED {
        same(&rt, z, mix(z, 4), mixed);
    }
    for &(rounds, mixed) in &MIXED_ONES {
        same(&rt, rounds, mix(1, rounds), mixed);
    }
}

// A seed, and the coefficient of this number from it: a word of the published SplitMix64 that is below the modulus.
static COEFFICIENTS: [(u64, u32, u64); 3] = [
    (0, 1, 16_294_208_416_658_607_535),
    (0, 2, 7_960_286_522_194_355_700),
    (1_234_567, 1, 6_457_827_717_110_365_317),
];

#[test]
fn coefficients_are_words_of_the_generator(rt: HostRuntime) -> Result<(), Fail> {
    for &(seed, i, word) in &COEFFICIENTS {
        let gamma = Gamma::of_seed(rt.alloc(), seed, i)?;
        assert!(rt; 0 < i && i <= gamma.len());
        same(&rt, seed, gamma.coeff(i), word);
    }
    Ok(())
}

// A pedigree, and its dot product by the coefficients of seed 0. The sum of the second passes the modulus.
static DOTS: [(&str, u64); 2] = [
    ("0", 16_294_208_416_658_607_535),
    ("0.0", 5_807_750_865_143_411_678),
];

// The pedigree has this dot product, and draws what that is mixed to.
fn has_product(rt: &impl Abort, gamma: &Gamma, j: &Pedigree, product: u64) {
    assert!(rt; j.len() <= gamma.len() as u64);
    same(rt, "dot", dot(gamma, j), product);
    same(rt, product, dotmix(gamma, j, 4), mix(product, 4));
}

#[test]
fn dot_products_of_seed_0(rt: HostRuntime) -> Result<(), Fail> {
    let gamma = Gamma::of_seed(rt.alloc(), 0, 256)?;
    for &(text, product) in &DOTS {
        let j = parse_pedigree(rt.alloc(), text)?;
        has_product(&rt, &gamma, &j, product);
    }
    Ok(())
}

#[test]
fn coefficients_of_a_list_end_with_zeros(rt: HostRuntime) -> Result<(), Fail> {
    let gamma = Gamma::of_list(rt.alloc(), &[7], 2)?;
    assert!(rt; gamma.len() == 2);
    same(&rt, 1, gamma.coeff(1), 7);
    same(&rt, 2, gamma.coeff(2), 0);
    Ok(())
}

static REFUSED: [(&[u64], GammaError); 2] = [
    (&[1, 2], GammaError::TooMany),
    (&[18_446_744_073_709_551_557], GammaError::TooBig(0)),
];

#[test]
fn lists_are_refused_where_they_are_too_long_or_too_big(rt: HostRuntime) {
    for &(list, refusal) in &REFUSED {
        let refused = Gamma::of_list(rt.alloc(), list, 1).err();
        same(&rt, list.len(), refused, Some(refusal));
    }
}

// A coefficient, a rank, and the dot product and the draw of the pedigree of this rank alone.
static DRAWS: [(u64, u32, u64, u64); 2] = [
    (4_294_967_296, 0, 4_294_967_296, 90_194_313_216),
    (
        18_446_744_073_709_551_556,
        1,
        18_446_744_073_709_551_555,
        108_965_703,
    ),
];

// By one coefficient the pedigree of one rank has this dot product, and draws this.
fn draws(rt: &impl Abort, gamma: &Gamma, j: &Pedigree, product: u64, drawn: u64) {
    assert!(rt; gamma.len() == 1);
    assert!(rt; j.len() == 1);
    same(rt, "dot", dot(gamma, j), product);
    same(rt, product, dotmix(gamma, j, 4), drawn);
}

#[test]
fn draws_of_one_coefficient(rt: HostRuntime) -> Result<(), Fail> {
    for &(coefficient, rank, product, drawn) in &DRAWS {
        let gamma = Gamma::of_list(rt.alloc(), &[coefficient], 1)?;
        let path = Ped::root(rt.alloc())?;
        let rank = rank as u64;
        draws(&rt, &gamma, &Pedigree { path, rank }, product, drawn);
    }
    Ok(())
}

// The example at the head of `dotmix`.
#[test]
fn a_strand_draws_by_its_pedigree(rt: HostRuntime) -> Result<(), Fail> {
    let gamma = Gamma::of_list(rt.alloc(), &[1, 10], 2)?;
    let strand = parse_pedigree(rt.alloc(), "0.0")?;
    assert!(rt; gamma.len() == 2 && strand.len() == 2);
    same(&rt, "the product", dot(&gamma, &strand), 11);
    same(&rt, "the draw", dotmix(&gamma, &strand, 4), 128_271);
    Ok(())
}

// The coefficients 1 and 10.
fn one_and_ten(rt: &(impl Abort + AllocGlobal)) -> Result<Gamma, Fail>
    ensures { IfOk result (λ gamma. length gamma ≡ 2) }
{
    let gamma = Gamma::of_list(rt.alloc(), &[1, 10], 2)?;
    assert!(rt; gamma.len() == 2);
    Ok(gamma)
}

// The trail of the path of this one rank.
fn trail(alloc: Global, gamma: &Gamma, rank: u32) -> Result<Trail, Memory>
    requires { length gamma.now ≡ 2 }
    ensures path { IfOk result (λ trail. length trail.path ≡ 1) }
    ensures fits { IfOk result (FitsGamma gamma.now) }
{
    let path = Ped::root(alloc)?.child(alloc, rank as u64)?;
    Ok(Trail::of(gamma, path))
}

#[test]
fn a_trail_draws_what_its_pedigree_draws(rt: HostRuntime) -> Result<(), Fail> {
    let gamma = one_and_ten(&rt)?;
    let trail = trail(rt.alloc(), &gamma, 0)?;
    for (rounds, drawn) in [(4, 128_271), (0, 11)] {
        same(&rt, rounds, trail.draw(&gamma, 0, rounds), drawn);
    }
    Ok(())
}

#[test]
fn a_childs_trail_has_one_term_more(rt: HostRuntime) -> Result<(), Fail> {
    let gamma = one_and_ten(&rt)?;
    let child = trail(rt.alloc(), &gamma, 0)?.child(rt.alloc(), &gamma, 0)?;
    same(&rt, "length", child.path.len(), 2);
    same(&rt, "rank 0", child.path.rank_at(0), Some(0));
    same(&rt, "rank 1", child.path.rank_at(1), Some(0));
    same(&rt, "sum", child.sum, 11);
    Ok(())
}

#[test]
fn a_copy_of_a_trail_is_the_same(rt: HostRuntime) -> Result<(), Fail> {
    let gamma = one_and_ten(&rt)?;
    let trail = trail(rt.alloc(), &gamma, 0)?;
    let copy = trail.share()?;
    same(&rt, "path", copy.path.same(&trail.path), true);
    same(&rt, "length", copy.path.len(), 1);
    same(&rt, "sum", copy.sum, 1);
    Ok(())
}
