ghost use Rattle.std.specs.Prelude.{◌≡◌, ◌+◌, ◌≤◌, length, map};
ghost use Rattle.dotmix.specs.Draws.{mix, most_rounds, round};
ghost use Rattle.bulk_draw.specs.Streams.{with_lanes};

use dotmix::mixed_once;

// How many numbers are mixed at once.
pub(crate) const LANES: usize = 8;

fn mix_once(z: &mut [u64])
    ensures { z.new ≡ map round z.old }
{
    for number in z.iter_mut() {
        *number = mixed_once(*number);
    }
}

// Mixes each number by this many rounds. All numbers take one round before any takes the next, so that the processor overlaps them.
// The few numbers of a fixed-size array stay in registers meanwhile.
pub(crate) fn mix_each(z: &mut [u64], rounds: u32)
    ensures { z.new ≡ map (λ n. mix n rounds) z.old }
{
    for _i in 0..rounds {
        mix_once(z);
    }
}

// Writes eight numbers from this index on, one by one: a block copy would go through memory.
pub(crate) fn write_lanes(out: &mut [u64], start: usize, lanes: &[u64; LANES])
    requires { start + 8 ≤ length out.old }
    ensures { out.new ≡ with_lanes out.old start lanes.now }
{
    for i in 0..LANES {
        out[start + i] = lanes[i];
    }
}

/// Mixes each number by this many rounds, at most `dotmix::MOST_ROUNDS`, where the dot products come from elsewhere: four rounds
/// make 0, 21 and 128271 of 0, 1 and 11.
pub fn mix_lanes(z: &mut [u64], rounds: u32)
    requires { rounds ≤ most_rounds }
    ensures { z.new ≡ map (λ n. mix n rounds) z.old }
{
    let blocks = z.len() / LANES;
    for block in 0..blocks {
        let start = block * LANES;
        let mut lanes = [0; LANES];
        lanes.copy_from_slice(&z[start..start + LANES]);
        mix_each(&mut lanes, rounds);
        write_lanes(z, start, &lanes);
    }
    mix_each(&mut z[blocks * LANES..], rounds);
}
