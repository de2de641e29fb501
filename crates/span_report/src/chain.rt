ghost use Rattle.std.specs.Prelude.{◌≡◌, IfOk, OnOk, length};
ghost use Rattle.serial_meaning.specs.Eval.{main_origin};
ghost use Rattle.serial_meaning.specs.Render.{IsWhole};
ghost use Rattle.serial_meaning.specs.Chunks.{joined};
ghost use Rattle.span_report.specs.Series.{IsSpan};
ghost use Rattle.span_report.specs.Walks.{open_instances, walked_all, walked_span};

use crate::laws::spans_are_walked;
use crate::measure::Span;
use crate::walk::Walk;
use serial_meaning::laws::whole_answers_are_evals;
use serial_meaning::{Answer, Chunk, Event, Memory, Out};
use std::alloc::Global;

/// Work and span of main's answer. It takes memory only for the open instances, however many events there are.
pub fn span(alloc: Global, answer: &Answer) -> Result<Span, Memory>
    requires main { answer.now.origin ≡ main_origin answer.now.plan }
    requires whole { IsWhole answer.now.outcome }
    ensures work { IfOk result (λ s. s.work ≡ length answer.now.out) }
    ensures span { IfOk result (λ s. IsSpan answer.now.out s.span) }
{
    whole_answers_are_evals();
    spans_are_walked();
    Ok(Span {
        work: answer.out.len(),
        span: longest_chain(alloc, &answer.out)?,
    })
}

// The number of events in the longest chain.
#[tactic(auto, using(crate::proofs::LongestChains::Stacks::walked_append))]
fn longest_chain(alloc: Global, events: &Out) -> Result<u64, Memory>
    ensures { IfOk result (λ n. n ≡ walked_span events.now) }
{
    let mut walk = Walk::new(alloc)?;
    if let Some((full, last)) = events.chunks() {
        add_chunks(alloc, &mut walk, full)?;
        add_chunk(alloc, &mut walk, last)?;
    }
    Ok(walk.longest())
}

fn add_chunks(alloc: Global, walk: &mut Walk, chunks: &[Chunk]) -> Result<(), Memory>
    ensures { OnOk result (open_instances walk.new ≡ walked_all (open_instances walk.old) (joined chunks.now)) }
{
    for chunk in chunks {
        add_chunk(alloc, walk, chunk.events())?;
    }
    Ok(())
}

fn add_chunk(alloc: Global, walk: &mut Walk, events: &[Event]) -> Result<(), Memory>
    ensures { OnOk result (open_instances walk.new ≡ walked_all (open_instances walk.old) events.now) }
{
    for event in events {
        walk.add_event(alloc, event)?;
    }
    Ok(())
}
