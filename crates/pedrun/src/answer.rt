// Answers the program's words, over any streams.

ghost use Rattle.std.specs.Prelude.{map, string_bytes};
ghost use Rattle.engine.specs.Clauses.{change};
ghost use Rattle.pedrun.specs.Calls.{Answers};

use crate::early_exit::write_help;
use crate::help::Topic;
use crate::streams::Streams;
use engine::{OpenGate, Status, pedrun};
use ped_io::{Sink, Source};
use std::alloc::Global;
use std::sync::Wait;
use std::thread::Threads;

/// Answers the words after the program's name: with the help text that they ask for, or by a top call.
pub fn answer<R: Threads + Wait + Sync, S: Source, K: Sink, E: Sink>(
    rt: &R,
    alloc: Global,
    words: &[String],
    streams: &mut Streams<S, K, E>,
) -> Status
    ensures { Answers (map string_bytes words.now) (change S.left S.faults streams.old.script streams.new.script)
        (change K.written K.faults streams.old.out streams.new.out) (change E.written E.faults streams.old.err streams.new.err) result }
{
    match Topic::of_words(words) {
        Some(topic) => write_help(topic.text(), &mut streams.out, &mut streams.err),
        None => pedrun(
            rt,
            alloc,
            words,
            &mut streams.script,
            &mut streams.out,
            &mut streams.err,
            &OpenGate,
        ),
    }
}
