ghost use Rattle.std.specs.Prelude.{◌≡◌, ◌++◌, [], true, OnErr, OnOk, flat_map};
ghost use Rattle.ped_io.specs.Causes.{HasCause};
ghost use Rattle.ped_io.specs.Streams.{AppendsFront};
ghost use Rattle.run_lines.specs.Puts.{Puts};
ghost use Rattle.serial_meaning.specs.Chunks.{joined};
ghost use Rattle.serial_meaning.specs.KeptLines.{KeepsLines};
ghost use Rattle.serial_meaning.specs.Render.{IsWhole, answer_text, end_line, last_line, strand_text};
ghost use Rattle.run_lines.specs.Lines.{KeepsLinesIn, line_in};

use crate::line::{put_draw, put_fault, put_named, put_value};
use crate::page::Page;
use ped_io::{Failed, Sink};
use serial_meaning::{Answer, Chunk, Event, Fault, Keep, Out, Outcome, Plan, Show, Strand};

// Which lines events have: those of a run, or those of a strand.
#[derive(Clone, Copy)]
enum Listing {
    Run(Show),
    Strand,
}

/// Puts the lines that a run with this answer prints. The answer must have kept each event that has a line. What
/// doesn't fill the page waits on it: call `Page::flush` at the end.
///
/// # Errors
/// `Failed` where a write failed: of the bytes that waited and these lines, a prefix was written.
pub fn put_answer<K: Keep, S: Sink>(
    answer: &Answer<K>,
    page: &mut Page,
    out: &mut S,
) -> Result<(), Failed>
    requires whole { IsWhole answer.now.outcome }
    requires lines { KeepsLines K.kept answer.now.plan.show }
    ensures all { OnOk result (Puts (S.written out.old) (S.written out.new) page.old page.new (answer_text answer.now)) }
    ensures front { OnErr result (AppendsFront (S.written out.old) (S.written out.new) (page.old ++ answer_text answer.now)) }
    ensures cause { HasCause (S.faults out.old) (S.faults out.new) result }
{
    let plan: &Plan = &answer.plan;
    put_events(Listing::Run(plan.show), &answer.out, page, out)?;
    put_end(&answer.outcome, page, out)
}

/// Puts what a strand prints: a line for each of its events, and then the line of its own fault, if it has one.
///
/// # Errors
/// `Failed` where a write failed. A prefix of what waited and of the lines was written.
pub fn put_strand<S: Sink>(strand: &Strand, page: &mut Page, out: &mut S) -> Result<(), Failed>
    ensures all { OnOk result (Puts (S.written out.old) (S.written out.new) page.old page.new (strand_text strand.now)) }
    ensures front { OnErr result (AppendsFront (S.written out.old) (S.written out.new) (page.old ++ strand_text strand.now)) }
    ensures cause { HasCause (S.faults out.old) (S.faults out.new) result }
{
    put_events(Listing::Strand, &strand.events, page, out)?;
    put_last(&strand.fault, page, out)
}

// Puts the line of a strand's own fault, if it has one.
fn put_last<S: Sink>(fault: &Option<Fault>, page: &mut Page, out: &mut S) -> Result<(), Failed>
    ensures all { OnOk result (Puts (S.written out.old) (S.written out.new) page.old page.new (last_line fault.now)) }
    ensures front { OnErr result (AppendsFront (S.written out.old) (S.written out.new) (page.old ++ last_line fault.now)) }
    ensures cause { HasCause (S.faults out.old) (S.faults out.new) result }
{
    match fault {
        Some(fault) => put_fault(fault, page, out),
        None => Ok(()),
    }
}

// Puts the line of the fault by which a run ended, if it did.
fn put_end<S: Sink>(outcome: &Outcome, page: &mut Page, out: &mut S) -> Result<(), Failed>
    ensures all { OnOk result (Puts (S.written out.old) (S.written out.new) page.old page.new (end_line outcome.now)) }
    ensures front { OnErr result (AppendsFront (S.written out.old) (S.written out.new) (page.old ++ end_line outcome.now)) }
    ensures cause { HasCause (S.faults out.old) (S.faults out.new) result }
{
    match outcome {
        Outcome::Fault(fault) => put_fault(fault, page, out),
        _ => Ok(()),
    }
}

// Puts the lines of events; each event that has a line is kept.
fn put_events<K: Keep, S: Sink>(
    listing: Listing,
    events: &Out<K>,
    page: &mut Page,
    out: &mut S,
) -> Result<(), Failed>
    requires { KeepsLinesIn K.kept listing }
    ensures all { OnOk result (Puts (S.written out.old) (S.written out.new) page.old page.new (flat_map (line_in listing) events.now)) }
    ensures front { OnErr result (AppendsFront (S.written out.old) (S.written out.new) (page.old ++ flat_map (line_in listing) events.now)) }
    ensures cause { HasCause (S.faults out.old) (S.faults out.new) result }
{
    match events.kept_chunks() {
        Some((full, last)) => put_parts(listing, full, last, page, out),
        None => Ok(()),
    }
}

// The lines of the full chunks, and then of the last one.
fn put_parts<S: Sink>(
    listing: Listing,
    full: &[Chunk],
    last: &[Event],
    page: &mut Page,
    out: &mut S,
) -> Result<(), Failed>
    ensures all { OnOk result (Puts (S.written out.old) (S.written out.new) page.old page.new (flat_map (line_in listing) (joined full.now ++ last.now))) }
    ensures front { OnErr result (AppendsFront (S.written out.old) (S.written out.new) (page.old ++ flat_map (line_in listing) (joined full.now ++ last.now))) }
    ensures cause { HasCause (S.faults out.old) (S.faults out.new) result }
{
    put_chunks(listing, full, page, out)?;
    put_list(listing, last, page, out)
}

fn put_chunks<S: Sink>(
    listing: Listing,
    chunks: &[Chunk],
    page: &mut Page,
    out: &mut S,
) -> Result<(), Failed>
    ensures all { OnOk result (Puts (S.written out.old) (S.written out.new) page.old page.new (flat_map (flat_map (line_in listing)) chunks.now)) }
    ensures front { OnErr result (AppendsFront (S.written out.old) (S.written out.new) (page.old ++ flat_map (flat_map (line_in listing)) chunks.now)) }
    ensures cause { HasCause (S.faults out.old) (S.faults out.new) result }
{
    for chunk in chunks {
        put_chunk(listing, chunk, page, out)?;
    }
    Ok(())
}

// Puts the lines of a chunk's events. A chunk that is known to have none is skipped.
fn put_chunk<S: Sink>(
    listing: Listing,
    chunk: &Chunk,
    page: &mut Page,
    out: &mut S,
) -> Result<(), Failed>
    ensures all { OnOk result (Puts (S.written out.old) (S.written out.new) page.old page.new (flat_map (line_in listing) chunk.now)) }
    ensures front { OnErr result (AppendsFront (S.written out.old) (S.written out.new) (page.old ++ flat_map (line_in listing) chunk.now)) }
    ensures cause { HasCause (S.faults out.old) (S.faults out.new) result }
{
    if is_silent(listing, chunk) {
        return Ok(());
    }
    put_list(listing, chunk.events(), page, out)
}

// Whether it is certain that none of the chunk's events has a line.
#[tactic(auto, using(serial_meaning::proofs::PlainLines::plain_of_none))]
fn is_silent(listing: Listing, chunk: &Chunk) -> bool
    ensures { result ≡ true → flat_map (line_in listing) chunk.now ≡ [] }
{
    matches!(listing, Listing::Run(Show::Plain)) && !chunk.prints()
}

fn put_list<S: Sink>(
    listing: Listing,
    events: &[Event],
    page: &mut Page,
    out: &mut S,
) -> Result<(), Failed>
    ensures all { OnOk result (Puts (S.written out.old) (S.written out.new) page.old page.new (flat_map (line_in listing) events.now)) }
    ensures front { OnErr result (AppendsFront (S.written out.old) (S.written out.new) (page.old ++ flat_map (line_in listing) events.now)) }
    ensures cause { HasCause (S.faults out.old) (S.faults out.new) result }
{
    for event in events {
        put_event(listing, event, page, out)?;
    }
    Ok(())
}

#[tactic(auto, using(crate::proofs::PutLemmas::puts_none))]
fn put_event<S: Sink>(
    listing: Listing,
    event: &Event,
    page: &mut Page,
    out: &mut S,
) -> Result<(), Failed>
    ensures all { OnOk result (Puts (S.written out.old) (S.written out.new) page.old page.new (line_in listing event.now)) }
    ensures front { OnErr result (AppendsFront (S.written out.old) (S.written out.new) (page.old ++ line_in listing event.now)) }
    ensures cause { HasCause (S.faults out.old) (S.faults out.new) result }
{
    match (listing, event) {
        (_, Event::Print(_, value)) => put_value(value, page, out),
        (Listing::Run(Show::Plain), _) => Ok(()),
        (_, Event::Draw(at, number)) => put_draw(at, *number, page, out),
        (_, Event::New(at)) => put_named(b"new ", at, page, out),
        (Listing::Run(Show::Log), _) => Ok(()),
        (Listing::Strand, Event::Spawn(at)) => put_named(b"spawn ", at, page, out),
        (Listing::Strand, Event::Sync(at)) => put_named(b"sync ", at, page, out),
        (Listing::Strand, Event::Loop(at)) => put_named(b"loop ", at, page, out),
    }
}
