ghost use Rattle.std.specs.Prelude.{◌≡◌, ◌++◌, ◌∷◌, List, [], true, IfOk, OnOk, codes, decimal, flat_map};
ghost use Rattle.std.specs.Fmt.{signed_decimal};
ghost use Rattle.ped_path.specs.Text.{ped_text};
ghost use Rattle.serial_meaning.specs.Chunks.{joined};
ghost use Rattle.serial_meaning.specs.Render.{IsWhole, answer_text, strand_text, event_line, strand_line, line, draw_line, value_text, fault_kind_text, fault_line};
ghost use Rattle.serial_meaning.specs.Columns.{line_in};
ghost use Rattle.serial_meaning.specs.Keeping.{kept_of};
ghost use Rattle.serial_meaning.specs.KeptLines.{KeepsLines};
ghost use Rattle.serial_meaning.specs.declared.plan.Show.TheVariants.{Plain};

use crate::answer::{Answer, Outcome, Strand};
use crate::chunk::Chunk;
use crate::event::{Event, Fault, FaultKind};
use crate::keep::{Keep, Prints};
use crate::memory::Memory;
use crate::out::Out;
use crate::plan::{Plan, Show};
use crate::value::Value;
use itoa::Buffer;
use ped_path::{Pedigree, write_pedigree};
use std::alloc::Global;

// The three forms in which events are printed.
#[derive(Clone, Copy, Debug, PartialEq, Eq)]
enum Column {
    Run(Show),
    Strand,
}

/// What a run prints: the lines of its events in order, and at the end the line of its fault, if it has one. The plan's
/// `show` says which events have a line.
pub fn render_run(alloc: Global, answer: &Answer) -> Result<Vec<u8>, Memory>
    requires { IsWhole answer.now.outcome }
    ensures { IfOk result (λ text. text.items ≡ answer_text answer.now) }
{
    render_kept(alloc, answer)
}

/// The same for an answer that keeps prints only, where the plan shows values only.
pub fn render_plain(alloc: Global, answer: &Answer<Prints>) -> Result<Vec<u8>, Memory>
    requires whole { IsWhole answer.now.outcome }
    requires plain { answer.now.plan.show ≡ Plain }
    ensures { IfOk result (λ text. text.items ≡ answer_text answer.now) }
{
    render_kept(alloc, answer)
}

/// The same for an answer that keeps each event that has a line.
pub fn render_kept<K: Keep>(alloc: Global, answer: &Answer<K>) -> Result<Vec<u8>, Memory>
    requires whole { IsWhole answer.now.outcome }
    requires lines { KeepsLines K.kept answer.now.plan.show }
    ensures { IfOk result (λ text. text.items ≡ answer_text answer.now) }
{
    let plan: &Plan = &answer.plan;
    let mut text = Vec::new(alloc);
    write_kept(plan.show, &answer.out, &mut text)?;
    if let Outcome::Fault(fault) = &answer.outcome {
        write_fault(fault, &mut text)?;
    }
    Ok(text)
}

/// What a strand prints: a line for each of its events, and at the end the line of its own fault, if it has one.
pub fn render_strand(alloc: Global, strand: &Strand) -> Result<Vec<u8>, Memory>
    ensures { IfOk result (λ text. text.items ≡ strand_text strand.now) }
{
    let mut text = Vec::new(alloc);
    write_strand(&strand.events, &mut text)?;
    if let Some(fault) = &strand.fault {
        write_fault(fault, &mut text)?;
    }
    Ok(text)
}

// The lines of a run's events; each event that has a line is kept.
fn write_kept<K: Keep>(show: Show, events: &Out<K>, text: &mut Vec<u8>) -> Result<(), Memory>
    requires { KeepsLines K.kept show }
    ensures { OnOk result (text.new.items ≡ text.old.items ++ flat_map (event_line show) events.now) }
{
    write_events(Column::Run(show), events, text)
}

// The lines of a strand's events.
fn write_strand(events: &Out, text: &mut Vec<u8>) -> Result<(), Memory>
    ensures { OnOk result (text.new.items ≡ text.old.items ++ flat_map strand_line events.now) }
{
    write_events(Column::Strand, events, text)
}

fn write_events<K: Keep>(column: Column, events: &Out<K>, text: &mut Vec<u8>) -> Result<(), Memory>
    ensures { OnOk result (text.new.items ≡ text.old.items ++ flat_map (line_in column) (kept_of K.kept events.now)) }
{
    if let Some((full, last)) = events.kept_chunks() {
        write_chunks(column, full, text)?;
        write_chunk(column, last, text)?;
    }
    Ok(())
}

fn write_chunks(column: Column, chunks: &[Chunk], text: &mut Vec<u8>) -> Result<(), Memory>
    ensures { OnOk result (text.new.items ≡ text.old.items ++ flat_map (line_in column) (joined chunks.now)) }
{
    for chunk in chunks {
        if !is_silent(column, chunk) {
            write_chunk(column, chunk.events(), text)?;
        }
    }
    Ok(())
}

// Whether it is known that none of its events has a line.
#[tactic(auto, using(crate::proofs::PlainLines::plain_of_none))]
fn is_silent(column: Column, chunk: &Chunk) -> bool
    ensures { result ≡ true → flat_map (line_in column) chunk.now ≡ [] }
{
    matches!(column, Column::Run(Show::Plain)) && !chunk.prints()
}

fn write_chunk(column: Column, events: &[Event], text: &mut Vec<u8>) -> Result<(), Memory>
    ensures { OnOk result (text.new.items ≡ text.old.items ++ flat_map (line_in column) events.now) }
{
    for event in events {
        write_event(column, event, text)?;
    }
    Ok(())
}

fn write_event(column: Column, event: &Event, text: &mut Vec<u8>) -> Result<(), Memory>
    ensures { OnOk result (text.new.items ≡ text.old.items ++ line_in column event.now) }
{
    match (column, event) {
        (_, Event::Print(_, value)) => write_value(value, text),
        (Column::Run(Show::Plain), _) => Ok(()),
        (_, Event::Draw(at, number)) => write_draw(at, *number, text),
        (_, Event::New(at)) => write_named(b"new ", at, text),
        (Column::Run(Show::Log), _) => Ok(()),
        (Column::Strand, Event::Spawn(at)) => write_named(b"spawn ", at, text),
        (Column::Strand, Event::Sync(at)) => write_named(b"sync ", at, text),
        (Column::Strand, Event::Loop(at)) => write_named(b"loop ", at, text),
    }
}

fn write_value(value: &Value, text: &mut Vec<u8>) -> Result<(), Memory>
    ensures { OnOk result (text.new.items ≡ text.old.items ++ line (value_text value.now)) }
{
    match value {
        Value::Int(number) => text.extend_from_slice(Buffer::new().format(*number).as_bytes())?,
        Value::Id(object) => write_pedigree(object, text)?,
    }
    text.push(b'\n')?;
    Ok(())
}

fn write_named(name: &[u8], at: &Pedigree, text: &mut Vec<u8>) -> Result<(), Memory>
    ensures { OnOk result (text.new.items ≡ text.old.items ++ line (name.now ++ ped_text at.now)) }
{
    text.extend_from_slice(name)?;
    write_pedigree(at, text)?;
    text.push(b'\n')?;
    Ok(())
}

fn write_draw(at: &Pedigree, number: u64, text: &mut Vec<u8>) -> Result<(), Memory>
    ensures { OnOk result (text.new.items ≡ text.old.items ++ draw_line at.now number) }
{
    text.extend_from_slice(b"draw ")?;
    write_pedigree(at, text)?;
    text.extend_from_slice(b" = ")?;
    text.extend_from_slice(Buffer::new().format(number).as_bytes())?;
    text.push(b'\n')?;
    Ok(())
}

fn write_fault(fault: &Fault, text: &mut Vec<u8>) -> Result<(), Memory>
    ensures { OnOk result (text.new.items ≡ text.old.items ++ fault_line fault.now) }
{
    text.extend_from_slice(b"fault ")?;
    write_pedigree(&fault.at, text)?;
    text.extend_from_slice(b": ")?;
    text.extend_from_slice(kind_name(fault.kind).as_bytes())?;
    text.push(b'\n')?;
    Ok(())
}

fn kind_name(kind: FaultKind) -> &'static str
    ensures { result.now ≡ fault_kind_text kind }
{
    match kind {
        FaultKind::Divide => "division by zero",
        FaultKind::Index => "index out of range",
        FaultKind::Depth => "depth",
        FaultKind::Calls => "calls",
        FaultKind::Budget => "budget spent",
    }
}
