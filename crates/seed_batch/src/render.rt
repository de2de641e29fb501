// What a batch prints.
ghost use Rattle.std.specs.Prelude.{◌≡◌, ◌++◌, All, OnErr, OnOk, codes, decimal, length};
ghost use Rattle.ped_io.specs.Causes.{HasCause};
ghost use Rattle.ped_io.specs.Streams.{AppendsFront};
ghost use Rattle.run_lines.specs.Puts.{Puts};
ghost use Rattle.serial_meaning.specs.Answer.{AnswerView};
ghost use Rattle.serial_meaning.specs.KeptLines.{KeepsLines};
ghost use Rattle.serial_meaning.specs.Render.{IsWhole, answer_text, line};
ghost use Rattle.seed_batch.specs.Batch.{batch_text, seed_lines};

use contract_views::Items;
use ped_io::{Failed, Sink};
use run_lines::{Page, Piece, put_answer, put_pieces};
use serial_meaning::{Answer, Keep};

// `seed S`
fn put_seed<S: Sink>(seed: u64, page: &mut Page, out: &mut S) -> Result<(), Failed>
    ensures all { OnOk result (Puts (S.written out.old) (S.written out.new) page.old page.new (line (codes "seed " ++ decimal seed))) }
    ensures front { OnErr result (AppendsFront (S.written out.old) (S.written out.new) (page.old ++ line (codes "seed " ++ decimal seed))) }
    ensures cause { HasCause (S.faults out.old) (S.faults out.new) result }
{
    let pieces = [
        Piece::Text(b"seed "),
        Piece::Number(seed),
        Piece::Text(b"\n"),
    ];
    put_pieces(&pieces, page, out)
}

// One seed's line, and the lines of its run.
fn put_part<K: Keep, S: Sink>(
    seed: u64,
    answer: &Answer<K>,
    page: &mut Page,
    out: &mut S,
) -> Result<(), Failed>
    requires whole { IsWhole answer.now.outcome }
    requires lines { KeepsLines K.kept answer.now.plan.show }
    ensures all { OnOk result (Puts (S.written out.old) (S.written out.new) page.old page.new (seed_lines seed (answer_text answer.now))) }
    ensures front { OnErr result (AppendsFront (S.written out.old) (S.written out.new) (page.old ++ seed_lines seed (answer_text answer.now))) }
    ensures cause { HasCause (S.faults out.old) (S.faults out.new) result }
{
    put_seed(seed, page, out)?;
    put_answer(answer, page, out)
}

/// Puts what a batch prints: for each seed, in order, the line `seed S` with the seed in decimal, and then the lines of
/// its answer, which has the same index. Each answer must have kept the events that have a line under its plan. What
/// doesn't fill the page waits on it.
///
/// # Errors
/// `Failed` where a write failed: of the bytes that waited and these lines, a prefix was written.
pub fn put_batch<K: Keep, S: Sink>(
    seeds: &Items<u64>,
    answers: &Items<Answer<K>>,
    page: &mut Page,
    out: &mut S,
) -> Result<(), Failed>
    requires count { length answers.now ≡ length seeds.now }
    requires whole { All (λ (answer : AnswerView). IsWhole answer.outcome) answers.now }
    requires lines { All (λ (answer : AnswerView). KeepsLines K.kept answer.plan.show) answers.now }
    ensures all { OnOk result (Puts (S.written out.old) (S.written out.new) page.old page.new (batch_text seeds.now answers.now)) }
    ensures front { OnErr result (AppendsFront (S.written out.old) (S.written out.new) (page.old ++ batch_text seeds.now answers.now)) }
    ensures cause { HasCause (S.faults out.old) (S.faults out.new) result }
{
    let seeds = seeds.as_slice();
    for (i, answer) in answers.as_slice().iter().enumerate() {
        put_part(seeds[i], answer, page, out)?;
    }
    Ok(())
}
