ghost use Rattle.std.specs.Prelude.{◌≡◌, ◌+◌, ◌*◌, ◌%◌, ◌≤◌, ◌^◌, length};
ghost use Rattle.dotmix.specs.Draws.{modulus, most_rounds, IsResidue};
ghost use Rattle.bulk_draw.specs.Streams.{dots, last_rank, stream};

use crate::lanes::{LANES, mix_each, write_lanes};
use dotmix::{Gamma, MODULUS, dot};
use ped_path::Pedigree;

// Branch-free modular addition of two numbers below the modulus.
fn residue_sum(dot: u64, step: u64) -> u64
    requires dot { IsResidue dot }
    requires step { IsResidue step }
    ensures value { result ≡ (dot + step) % modulus }
    ensures small { IsResidue result }
{
    let room = MODULUS - step;
    let back = if dot < room { MODULUS } else { 0 };
    dot.wrapping_sub(room).wrapping_add(back)
}

// Writes consecutive dot products, from `first` on, and returns the next one.
fn write_dots(out: &mut [u64], first: u64, step: u64) -> u64
    requires dot { IsResidue first }
    requires step { IsResidue step }
    ensures list { out.new ≡ dots first step (length out.old) }
    ensures next { result ≡ (first + length out.old * step) % modulus }
    ensures small { IsResidue result }
{
    let mut dot = first;
    for place in out.iter_mut() {
        *place = dot;
        dot = residue_sum(dot, step);
    }
    dot
}

/// Writes the draws of consecutive ranks, from the pedigree's own on, each by this many rounds, at most `dotmix::MOST_ROUNDS`. All
/// these ranks are below 2^32.
pub fn draw_run(gamma: &Gamma, at: &Pedigree, rounds: u32, out: &mut [u64])
    requires within { length at.now ≤ length gamma.now }
    requires rounds { rounds ≤ most_rounds }
    requires ranks { last_rank at.now + length out.old ≤ 2 ^ 32 }
    ensures { out.new ≡ stream gamma.now at.now (length out.old) rounds }
{
    // So the index of the coefficient fits 32 bits.
    let places = gamma.len();
    prove!(at.len() <= places as u64);
    let step = gamma.coeff(at.path.len() as u32 + 1);
    let mut next = dot(gamma, at);
    let blocks = out.len() / LANES;
    for block in 0..blocks {
        let start = block * LANES;
        let mut lanes = [0; LANES];
        next = write_dots(&mut lanes, next, step);
        mix_each(&mut lanes, rounds);
        write_lanes(out, start, &lanes);
    }
    let rest = &mut out[blocks * LANES..];
    write_dots(rest, next, step);
    mix_each(rest, rounds);
}
