//! The program `pedrun`: help texts, standard streams, exit status, and what a person at a terminal gets. All else is
//! the crate `engine`.
//!
//! The contracts of `answer` and, on a terminal, of `ticker::answer_with_progress` say what it does to its streams.
//! `main` only makes the streams, reads the words and ends with the status.
#![tactic(auto)]

mod answer;
mod early_exit;
mod fault_line;
mod fault_note;
mod help;
mod hints;
mod notes;
mod progress;
mod recorded;
mod replay_call;
mod search;
mod streams;
mod terminal;
mod text;
mod ticker;

use answer::answer;
use early_exit::refuse;
use notes::seed_count;
use progress::Progress;
use std::io::IsTerminal;
use std::process::ExitCode;
use std::rt::Env;
use std::{env, io};
use streams::{recorded, standard};
use ticker::answer_with_progress;

// The words after the program's name.
fn words(rt: &(impl Env + AllocGlobal)) -> io::Result<Vec<String>> {
    let mut words = Vec::new(rt.alloc());
    for word in env::args(rt)?.skip(1) {
        words.push(word)?;
    }
    Ok(words)
}

// Whether the terminal knows the control codes by which a line is overwritten.
fn can_rewrite(rt: &(impl Env + AllocGlobal)) -> bool {
    match env::var(rt, "TERM") {
        Ok(term) => !term.is_empty() && term.as_str() != "dumb",
        Err(_) => false,
    }
}

fn main(rt: HostRuntime) -> ExitCode {
    let mut streams = standard(&rt);
    let words = match words(&rt) {
        Ok(words) => words,
        Err(error) => return ExitCode::from(refuse(error.kind(), &mut streams.err).code()),
    };
    if rt.stderr().is_terminal() {
        let progress = Progress::new(&rt, can_rewrite(&rt), seed_count(&words));
        let is_typed = rt.stdin().is_terminal();
        let streams = recorded(&rt, rt.alloc(), streams, is_typed, &progress);
        let (status, _) = answer_with_progress(&rt, rt.alloc(), &words, streams, &progress);
        return ExitCode::from(status.code());
    }
    let status = answer(&rt, rt.alloc(), &words, &mut streams);
    ExitCode::from(status.code())
}
