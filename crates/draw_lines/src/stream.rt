ghost use Rattle.std.specs.Prelude.{◌≡◌, ◌+◌, ◌<◌, ◌^◌, length};
ghost use Rattle.bulk_draw.specs.Streams.{last_rank, stream};
ghost use Rattle.draw_lines.specs.Lines.{CanDraw, later_stream, each_modulo};

use bulk_draw::{draw_run, reduce};
use dotmix::Gamma;
use ped_path::Pedigree;

/// A stream of draws, which begins at the draw of a pedigree and goes on rank by rank.
#[derive(Drop)]
pub struct Stream {
    /// At least as many coefficients as the pedigree has ranks.
    pub gamma: Gamma,
    /// The pedigree of the next number.
    pub at: Pedigree,
    /// How often a draw is mixed, from 0 to 8.
    pub rounds: u32,
    /// The modulus by which each number is reduced, not 0.
    pub below: Option<u64>,
}

impl Stream {
    // Fills `numbers` with the next draws. The stream stays where it is.
    pub(crate) fn draw(&self, numbers: &mut [u64])
        requires { CanDraw self.now (length numbers.old) }
        ensures { numbers.new ≡ each_modulo self.now.below (stream self.now.gamma self.now.at (length numbers.old) self.now.rounds) }
    {
        draw_run(&self.gamma, &self.at, self.rounds, numbers);
        if let Some(below) = self.below {
            reduce(numbers, below);
        }
    }

    // Skips this many numbers. At least one more must be left, so that the rank stays in range.
    pub(crate) fn skip(&mut self, count: u64)
        requires { last_rank self.old.at + count < 2 ^ 32 }
        ensures { self.new ≡ later_stream self.old count }
    {
        self.at.rank += count;
    }
}
