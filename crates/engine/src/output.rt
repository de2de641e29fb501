// The output of a report, as it is kept until it is written.

ghost use Rattle.std.specs.Prelude.{◌≡◌, ◌++◌, [], All, OnErr, OnOk, length};
ghost use Rattle.ped_io.specs.Causes.{HasCause};
ghost use Rattle.ped_io.specs.Streams.{Appends, AppendsFront};
ghost use Rattle.run_lines.specs.Puts.{Puts};
ghost use Rattle.seed_batch.specs.Batch.{batch_text};
ghost use Rattle.serial_meaning.specs.Answer.{AnswerView};
ghost use Rattle.serial_meaning.specs.KeptLines.{KeepsLines};
ghost use Rattle.serial_meaning.specs.Prints.{is_print};
ghost use Rattle.serial_meaning.specs.Render.{IsWhole, answer_text, strand_text};

use contract_views::Items;
use ped_io::{Failed, Sink};
use run_lines::{Page, put_answer, put_strand};
use seed_batch::put_batch;
use serial_meaning::{Answer, Lined, Prints, Strand};
use std::alloc::Global;
use std::marker::Model;

/// The output of a report: a text, and after it the lines of runs or of a strand, which are made only as they are
/// written. Contracts see it as the list of all its bytes.
#[derive(Drop)]
pub struct Output {
    text: Vec<u8>,
    runs: Runs,
}

// The answers of runs, each of which has kept the events that have a line, or a strand.
#[derive(Drop)]
enum Runs {
    Nothing,
    Prints(Answer<Prints>),
    Lines(Answer<Lined>),
    Log(Answer),
    Strand(Strand),
    // The runs under a list of seeds.
    SeedsPrints(Items<u64>, Items<Answer<Prints>>),
    SeedsLines(Items<u64>, Items<Answer<Lined>>),
}

impl Model for Output {
    ghost use Rattle.std.specs.Prelude.{ℕ, List, ◌++◌};
    ghost use Rattle.engine.specs.Output.{AreWhole, runs_text};

    ghost Value = { List ℕ };

    ghost view = { λ o. o.text.items ++ runs_text o.runs };

    ghost invariant = { λ o. AreWhole o.runs };
}

impl Output {
    /// A text, and no runs.
    pub fn text(text: Vec<u8>) -> Output
        ensures { result ≡ text.items }
    {
        Output {
            text,
            runs: Runs::Nothing,
        }
    }

    /// The lines of a run whose answer keeps its prints alone, which must be enough for what it shows.
    pub fn prints(alloc: Global, answer: Answer<Prints>) -> Output
        requires whole { IsWhole answer.outcome }
        requires lines { KeepsLines is_print answer.plan.show }
        ensures { result ≡ answer_text answer }
    {
        Output {
            text: Vec::new(alloc),
            runs: Runs::Prints(answer),
        }
    }

    /// The lines of a run whose answer keeps the events that have a line.
    pub fn lines(alloc: Global, answer: Answer<Lined>) -> Output
        requires { IsWhole answer.outcome }
        ensures { result ≡ answer_text answer }
    {
        Output {
            text: Vec::new(alloc),
            runs: Runs::Lines(answer),
        }
    }

    /// A text, and then the lines of a run whose answer keeps all events.
    pub fn log(text: Vec<u8>, answer: Answer) -> Output
        requires { IsWhole answer.outcome }
        ensures { result ≡ text.items ++ answer_text answer }
    {
        Output {
            text,
            runs: Runs::Log(answer),
        }
    }

    /// The lines of a strand.
    pub fn strand(alloc: Global, strand: Strand) -> Output
        ensures { result ≡ strand_text strand }
    {
        Output {
            text: Vec::new(alloc),
            runs: Runs::Strand(strand),
        }
    }

    /// The lines of a batch whose answers keep their prints alone.
    pub fn batch_of_prints(
        alloc: Global,
        seeds: Items<u64>,
        answers: Items<Answer<Prints>>,
    ) -> Output
        requires count { length answers ≡ length seeds }
        requires whole { All (λ (answer : AnswerView). IsWhole answer.outcome) answers }
        requires lines { All (λ (answer : AnswerView). KeepsLines is_print answer.plan.show) answers }
        ensures { result ≡ batch_text seeds answers }
    {
        Output {
            text: Vec::new(alloc),
            runs: Runs::SeedsPrints(seeds, answers),
        }
    }

    /// The lines of a batch whose answers keep the events that have a line.
    pub fn batch_of_lines(alloc: Global, seeds: Items<u64>, answers: Items<Answer<Lined>>) -> Output
        requires count { length answers ≡ length seeds }
        requires whole { All (λ (answer : AnswerView). IsWhole answer.outcome) answers }
        ensures { result ≡ batch_text seeds answers }
    {
        Output {
            text: Vec::new(alloc),
            runs: Runs::SeedsLines(seeds, answers),
        }
    }

    fn put<S: Sink>(&self, page: &mut Page, out: &mut S) -> Result<(), Failed>
        ensures all { OnOk result (Puts (S.written out.old) (S.written out.new) page.old page.new self.now) }
        ensures front { OnErr result (AppendsFront (S.written out.old) (S.written out.new) (page.old ++ self.now)) }
        ensures cause { HasCause (S.faults out.old) (S.faults out.new) result }
    {
        page.put(&self.text, out)?;
        self.runs.put(page, out)
    }

    /// Writes all bytes through a page, which must be empty. It takes no memory.
    ///
    /// # Errors
    /// `Failed` where a write failed: a prefix of the bytes was written.
    pub fn write<S: Sink>(&self, page: &mut Page, out: &mut S) -> Result<(), Failed>
        requires { page.old ≡ [] }
        ensures all { OnOk result (Appends (S.written out.old) (S.written out.new) self.now) }
        ensures front { OnErr result (AppendsFront (S.written out.old) (S.written out.new) self.now) }
        ensures cause { HasCause (S.faults out.old) (S.faults out.new) result }
    {
        self.put(page, out)?;
        page.flush(out)
    }
}

impl Runs {
    ghost use Rattle.engine.specs.Output.{AreWhole, runs_text};

    #[tactic(auto, using(crate::proofs::KeptLemmas::lines_kept, crate::proofs::KeptLemmas::all_lines_kept))]
    fn put<S: Sink>(&self, page: &mut Page, out: &mut S) -> Result<(), Failed>
        requires { AreWhole self.now }
        ensures all { OnOk result (Puts (S.written out.old) (S.written out.new) page.old page.new (runs_text self.now)) }
        ensures front { OnErr result (AppendsFront (S.written out.old) (S.written out.new) (page.old ++ runs_text self.now)) }
        ensures cause { HasCause (S.faults out.old) (S.faults out.new) result }
    {
        match self {
            Runs::Nothing => Ok(()),
            Runs::Prints(answer) => put_answer(answer, page, out),
            Runs::Lines(answer) => put_answer(answer, page, out),
            Runs::Log(answer) => put_answer(answer, page, out),
            Runs::Strand(strand) => put_strand(strand, page, out),
            Runs::SeedsPrints(seeds, answers) => put_batch(seeds, answers, page, out),
            Runs::SeedsLines(seeds, answers) => put_batch(seeds, answers, page, out),
        }
    }
}
