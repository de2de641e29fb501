// The report of a command: what it writes, and how it ends.

ghost use Rattle.std.specs.Prelude.{◌≡◌, ℕ, ◌≤◌, List, IsTrue, IsFalse, IfErr, IfOk, length};
ghost use Rattle.dotmix.specs.Draws.{most_rounds};
ghost use Rattle.ped_words.specs.Commands.{IsLawful, is_batch};
ghost use Rattle.engine.specs.Commands.{AcceptsScript, Reports, is_whole, takes_script};
ghost use Rattle.engine.specs.Promise.{most_bytes};
ghost use Rattle.engine.specs.Refusal.{IsRejection};
ghost use Rattle.engine.specs.Report.{hash_text, done_report, report_view};

use crate::output::Output;
use crate::refusal::Refusal;
use crate::run::{report_replay, report_serial_run, report_simulation, report_span};
use crate::script::{any_script, valid_script};
use dotmix::{Gamma, dot, dotmix};
use ped_gen::gen_script;
use ped_path::Pedigree;
use ped_words::Command;
use script_print::print_script;
use serial_meaning::{Fault, Memory};
use std::alloc::Global;

/// How a report ends.
#[derive(Drop)]
pub enum ReportEnd {
    /// The command did what it should.
    Done,
    /// A run or a strand ended by a fault, whose line is the last one. Of a batch: one of its runs did.
    Faulted,
    /// No strand has this pedigree. There is no output.
    NoStrand(Pedigree),
    /// It isn't known whether there is such a strand, since an instance on the way down to it ended by this fault.
    /// There is no output.
    Blocked(Fault),
}

/// What a command writes, and how it ends.
#[derive(Drop)]
pub struct Report {
    /// The bytes for the output: lines, each with a line feed at its end.
    pub output: Output,
    /// How the command ended, which gives the status.
    pub ending: ReportEnd,
}

impl Report {
    // The report of a command that ended well.
    fn done(output: Vec<u8>) -> Report
        ensures { report_view result ≡ done_report output.items }
    {
        Report {
            output: Output::text(output),
            ending: ReportEnd::Done,
        }
    }
}

// The report of `hash`: a pedigree's dot product, and its draw in this many rounds.
fn hash_report(alloc: Global, gamma: &Gamma, at: &Pedigree, rounds: u32) -> Result<Report, Memory>
    requires within { length at.now ≤ length gamma.now }
    requires rounds { rounds ≤ most_rounds }
    ensures { IfOk result (λ report. report_view report ≡ done_report (hash_text gamma.now at.now rounds)) }
{
    let sum = dot(gamma, at);
    let number = dotmix(gamma, at, rounds);
    let text = format!(in alloc; "dot {sum}\ndraw {number}\n")?;
    Ok(Report::done(text.into_bytes()))
}

/// The report of a command on the script with this text, made on the caller's thread. The command isn't `batch`. The
/// refusal is `Rejected` where the text isn't a script that the command takes, or `Memory`.
pub fn script_report(alloc: Global, command: Command, bytes: &[u8]) -> Result<Report, Refusal>
    requires script { IsTrue (takes_script command) }
    requires not_batch { IsFalse (is_batch command) }
    requires lawful { IsLawful command }
    requires within { length bytes.now ≤ most_bytes }
    ensures report { IfOk result (λ report. Reports command bytes.now (report_view report)) }
    ensures refused { IfErr result (IsRejection (AcceptsScript command) bytes.now) }
{
    match command {
        Command::Run { settings, .. } => report_serial_run(alloc, settings, bytes),
        Command::Serial { settings } => report_serial_run(alloc, settings, bytes),
        Command::Sim {
            settings,
            workers,
            number,
        } => report_simulation(alloc, settings, workers, number, bytes),
        Command::Replay { settings, at } => report_replay(alloc, settings, at, bytes),
        Command::Span { settings } => report_span(alloc, settings, bytes),
        Command::Fmt => {
            let script = any_script(alloc, bytes)?;
            Ok(Report::done(print_script(alloc, &script)?))
        }
        Command::Check => {
            valid_script(alloc, bytes)?;
            Ok(Report::done(b"ok\n".to_vec(alloc)?))
        }
        _ => unreachable!(),
    }
}

/// The report of a command that takes no script, and makes its report whole.
pub fn report_without_script(alloc: Global, command: Command) -> Result<Report, Memory>
    requires no_script { IsFalse (takes_script command) }
    requires whole { IsTrue (is_whole command) }
    requires lawful { IsLawful command }
    ensures { IfOk result (λ report. (bytes : List ℕ) → Reports command bytes (report_view report)) }
{
    match command {
        Command::Hash { gamma, at, rounds } => hash_report(alloc, &gamma, &at, rounds),
        Command::Gen { shape, size } => match gen_script(alloc, shape, size) {
            Ok(text) => Ok(Report::done(text)),
            Err(_) => Err(Memory),
        },
        _ => unreachable!(),
    }
}
