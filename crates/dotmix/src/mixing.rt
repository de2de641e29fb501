ghost use Rattle.std.specs.Prelude.{◌≡◌};
ghost use Rattle.dotmix.specs.Draws.{mix, round};

/// The most rounds by which a draw is mixed.
pub const MOST_ROUNDS: u32 = 8;

/// One round of mixing: 2z² + z modulo 2^64, and then the upper and the lower 32 bits exchanged.
pub fn mixed_once(z: u64) -> u64
    ensures { result ≡ round z }
{
    z.wrapping_mul(2)
        .wrapping_mul(z)
        .wrapping_add(z)
        .rotate_left(32)
}

/// Mixes a number by this many rounds of 2z² + z modulo 2^64, each followed by an exchange of the two halves. A draw
/// takes at most `MOST_ROUNDS`.
#[tactic(auto, using(crate::proofs::MixLemmas::mix_more))]
pub fn mix(z: u64, rounds: u32) -> u64
    ensures { result ≡ mix z rounds }
{
    let mut mixed = z;
    for _i in 0..rounds {
        mixed = mixed_once(mixed);
    }
    mixed
}
