ghost use Rattle.std.specs.Prelude.{◌≡◌, ◌+◌, ◌≤◌, ◌++◌, ◌∷◌, [], OnErr, OnOk, codes, decimal, drop, length};
ghost use Rattle.std.specs.Fmt.{signed_decimal};
ghost use Rattle.ped_io.specs.Causes.{HasCause};
ghost use Rattle.ped_io.specs.Streams.{AppendsFront};
ghost use Rattle.ped_path.specs.Text.{ped_text, stopped};
ghost use Rattle.run_lines.specs.Pieces.{piece_text, pieces_text};
ghost use Rattle.run_lines.specs.Puts.{Puts};
ghost use Rattle.serial_meaning.specs.Render.{draw_line, fault_kind_text, fault_line, line, value_text};

use crate::page::Page;
use itoa::{Buffer, write_digits};
use ped_io::{Failed, Sink};
use ped_path::{Ped, Pedigree};
use serial_meaning::{Fault, FaultKind, Value};

/// A piece of a line. Pieces go to the page one by one; no line is put together first.
#[derive(Clone, Copy)]
pub enum Piece<'a> {
    Text(&'a [u8]),
    Number(u64),
    Signed(i64),
    /// A pedigree: its ranks in decimal, joined by full stops.
    Place(&'a Pedigree),
}

fn put_number<S: Sink>(number: u64, page: &mut Page, out: &mut S) -> Result<(), Failed>
    ensures all { OnOk result (Puts (S.written out.old) (S.written out.new) page.old page.new (decimal number)) }
    ensures front { OnErr result (AppendsFront (S.written out.old) (S.written out.new) (page.old ++ decimal number)) }
    ensures cause { HasCause (S.faults out.old) (S.faults out.new) result }
{
    page.put(Buffer::new().format(number).as_bytes(), out)
}

fn put_signed<S: Sink>(number: i64, page: &mut Page, out: &mut S) -> Result<(), Failed>
    ensures all { OnOk result (Puts (S.written out.old) (S.written out.new) page.old page.new (signed_decimal number)) }
    ensures front { OnErr result (AppendsFront (S.written out.old) (S.written out.new) (page.old ++ signed_decimal number)) }
    ensures cause { HasCause (S.faults out.old) (S.faults out.new) result }
{
    page.put(Buffer::new().format(number).as_bytes(), out)
}

// A number with this byte after it.
#[inline(always)]
fn put_ended<S: Sink>(number: u64, end: u8, page: &mut Page, out: &mut S) -> Result<(), Failed>
    ensures all { OnOk result (Puts (S.written out.old) (S.written out.new) page.old page.new (decimal number ++ end ∷ [])) }
    ensures front { OnErr result (AppendsFront (S.written out.old) (S.written out.new) (page.old ++ (decimal number ++ end ∷ []))) }
    ensures cause { HasCause (S.faults out.old) (S.faults out.new) result }
{
    let mut text = [end; 21];
    let start = write_digits(number, &mut text, 20);
    page.put(&text[start..], out)
}

// A rank with a full stop after it.
fn put_rank<S: Sink>(rank: u64, page: &mut Page, out: &mut S) -> Result<(), Failed>
    ensures all { OnOk result (Puts (S.written out.old) (S.written out.new) page.old page.new (decimal rank ++ codes ".")) }
    ensures front { OnErr result (AppendsFront (S.written out.old) (S.written out.new) (page.old ++ (decimal rank ++ codes "."))) }
    ensures cause { HasCause (S.faults out.old) (S.faults out.new) result }
{
    put_ended(rank, b'.', page, out)
}

// The ranks of a path, each with a full stop after it.
#[inline(always)]
fn put_path<S: Sink>(path: &Ped, page: &mut Page, out: &mut S) -> Result<(), Failed>
    ensures all { OnOk result (Puts (S.written out.old) (S.written out.new) page.old page.new (stopped path.now)) }
    ensures front { OnErr result (AppendsFront (S.written out.old) (S.written out.new) (page.old ++ stopped path.now)) }
    ensures cause { HasCause (S.faults out.old) (S.faults out.new) result }
{
    for i in 0..path.len() {
        let Some(rank) = path.rank_at(i) else {
            unreachable!()
        };
        put_rank(rank, page, out)?;
    }
    Ok(())
}

fn put_pedigree<S: Sink>(j: &Pedigree, page: &mut Page, out: &mut S) -> Result<(), Failed>
    ensures all { OnOk result (Puts (S.written out.old) (S.written out.new) page.old page.new (ped_text j.now)) }
    ensures front { OnErr result (AppendsFront (S.written out.old) (S.written out.new) (page.old ++ ped_text j.now)) }
    ensures cause { HasCause (S.faults out.old) (S.faults out.new) result }
{
    put_path(&j.path, page, out)?;
    put_number(j.rank, page, out)
}

fn put_piece<S: Sink>(piece: &Piece, page: &mut Page, out: &mut S) -> Result<(), Failed>
    ensures all { OnOk result (Puts (S.written out.old) (S.written out.new) page.old page.new (piece_text piece.now)) }
    ensures front { OnErr result (AppendsFront (S.written out.old) (S.written out.new) (page.old ++ piece_text piece.now)) }
    ensures cause { HasCause (S.faults out.old) (S.faults out.new) result }
{
    match piece {
        Piece::Text(text) => page.put(text, out),
        Piece::Number(number) => put_number(*number, page, out),
        Piece::Signed(number) => put_signed(*number, page, out),
        Piece::Place(j) => put_pedigree(j, page, out),
    }
}

/// Puts the pieces, one after the other.
///
/// # Errors
/// `Failed` where a write failed: of the bytes that waited and these pieces, a prefix was written.
pub fn put_pieces<S: Sink>(pieces: &[Piece], page: &mut Page, out: &mut S) -> Result<(), Failed>
    ensures all { OnOk result (Puts (S.written out.old) (S.written out.new) page.old page.new (pieces_text pieces.now)) }
    ensures front { OnErr result (AppendsFront (S.written out.old) (S.written out.new) (page.old ++ pieces_text pieces.now)) }
    ensures cause { HasCause (S.faults out.old) (S.faults out.new) result }
{
    for piece in pieces {
        put_piece(piece, page, out)?;
    }
    Ok(())
}

// A word, and a path's ranks after it, each with a full stop.
fn put_front<S: Sink>(word: &[u8], path: &Ped, page: &mut Page, out: &mut S) -> Result<(), Failed>
    ensures all { OnOk result (Puts (S.written out.old) (S.written out.new) page.old page.new (word.now ++ stopped path.now)) }
    ensures front { OnErr result (AppendsFront (S.written out.old) (S.written out.new) (page.old ++ (word.now ++ stopped path.now))) }
    ensures cause { HasCause (S.faults out.old) (S.faults out.new) result }
{
    page.put(word, out)?;
    put_path(path, page, out)
}

// Writes ` = ` before this place, and returns where it starts.
#[inline(always)]
fn write_equals(text: &mut [u8], end: usize) -> usize
    requires { (3 ≤ end) × (end ≤ length text.old) }
    ensures start { result + 3 ≡ end }
    ensures written { drop result text.new ≡ codes " = " ++ drop end text.old }
    ensures length { length text.new ≡ length text.old }
{
    text[end - 1] = b' ';
    text[end - 2] = b'=';
    text[end - 3] = b' ';
    end - 3
}

// Writes `R = N` before the last byte, and returns where it starts.
#[inline(always)]
fn write_equation(rank: u64, number: u64, text: &mut [u8; 44]) -> usize
    ensures within { result ≤ 44 }
    ensures written { drop result text.new ≡ decimal rank ++ (codes " = " ++ (decimal number ++ drop 43 text.old)) }
{
    let end = write_digits(number, text, 43);
    let end = write_equals(text, end);
    write_digits(rank, text, end)
}

// `R = N`, the end of a line.
fn put_equation<S: Sink>(rank: u64, number: u64, page: &mut Page, out: &mut S) -> Result<(), Failed>
    ensures all { OnOk result (Puts (S.written out.old) (S.written out.new) page.old page.new (decimal rank ++ (codes " = " ++ line (decimal number)))) }
    ensures front { OnErr result (AppendsFront (S.written out.old) (S.written out.new) (page.old ++ (decimal rank ++ (codes " = " ++ line (decimal number))))) }
    ensures cause { HasCause (S.faults out.old) (S.faults out.new) result }
{
    let mut text = [b'\n'; 44];
    let start = write_equation(rank, number, &mut text);
    page.put(&text[start..], out)
}

// A number, the end of a line.
fn put_last<S: Sink>(number: u64, page: &mut Page, out: &mut S) -> Result<(), Failed>
    ensures all { OnOk result (Puts (S.written out.old) (S.written out.new) page.old page.new (line (decimal number))) }
    ensures front { OnErr result (AppendsFront (S.written out.old) (S.written out.new) (page.old ++ line (decimal number))) }
    ensures cause { HasCause (S.faults out.old) (S.faults out.new) result }
{
    put_ended(number, b'\n', page, out)
}

// `draw J = N`
pub(crate) fn put_draw<S: Sink>(
    at: &Pedigree,
    number: u64,
    page: &mut Page,
    out: &mut S,
) -> Result<(), Failed>
    ensures all { OnOk result (Puts (S.written out.old) (S.written out.new) page.old page.new (draw_line at.now number)) }
    ensures front { OnErr result (AppendsFront (S.written out.old) (S.written out.new) (page.old ++ draw_line at.now number)) }
    ensures cause { HasCause (S.faults out.old) (S.faults out.new) result }
{
    put_front(b"draw ", &at.path, page, out)?;
    put_equation(at.rank, number, page, out)
}

// Puts the line of this word and a pedigree.
pub(crate) fn put_named<S: Sink>(
    word: &[u8],
    at: &Pedigree,
    page: &mut Page,
    out: &mut S,
) -> Result<(), Failed>
    ensures all { OnOk result (Puts (S.written out.old) (S.written out.new) page.old page.new (line (word.now ++ ped_text at.now))) }
    ensures front { OnErr result (AppendsFront (S.written out.old) (S.written out.new) (page.old ++ line (word.now ++ ped_text at.now))) }
    ensures cause { HasCause (S.faults out.old) (S.faults out.new) result }
{
    put_front(word, &at.path, page, out)?;
    put_last(at.rank, page, out)
}

// A number with a sign where it is negative, the line of a printed one.
fn put_signed_line<S: Sink>(number: i64, page: &mut Page, out: &mut S) -> Result<(), Failed>
    ensures all { OnOk result (Puts (S.written out.old) (S.written out.new) page.old page.new (line (signed_decimal number))) }
    ensures front { OnErr result (AppendsFront (S.written out.old) (S.written out.new) (page.old ++ line (signed_decimal number))) }
    ensures cause { HasCause (S.faults out.old) (S.faults out.new) result }
{
    if number >= 0 {
        return put_last(number.unsigned_abs(), page, out);
    }
    page.put(b"-", out)?;
    put_last(number.unsigned_abs(), page, out)
}

// The line of a printed value.
pub(crate) fn put_value<S: Sink>(value: &Value, page: &mut Page, out: &mut S) -> Result<(), Failed>
    ensures all { OnOk result (Puts (S.written out.old) (S.written out.new) page.old page.new (line (value_text value.now))) }
    ensures front { OnErr result (AppendsFront (S.written out.old) (S.written out.new) (page.old ++ line (value_text value.now))) }
    ensures cause { HasCause (S.faults out.old) (S.faults out.new) result }
{
    match value {
        Value::Int(number) => put_signed_line(*number, page, out),
        Value::Id(object) => put_named(b"", object, page, out),
    }
}

// `fault J: TEXT`
pub(crate) fn put_fault<S: Sink>(fault: &Fault, page: &mut Page, out: &mut S) -> Result<(), Failed>
    ensures all { OnOk result (Puts (S.written out.old) (S.written out.new) page.old page.new (fault_line fault.now)) }
    ensures front { OnErr result (AppendsFront (S.written out.old) (S.written out.new) (page.old ++ fault_line fault.now)) }
    ensures cause { HasCause (S.faults out.old) (S.faults out.new) result }
{
    let pieces = [
        Piece::Text(b"fault "),
        Piece::Place(&fault.at),
        Piece::Text(b": "),
        Piece::Text(kind_name(fault.kind).as_bytes()),
        Piece::Text(b"\n"),
    ];
    put_pieces(&pieces, page, out)
}

fn kind_name(kind: FaultKind) -> &'static str
    ensures { result.now ≡ fault_kind_text kind }
{
    match kind {
        FaultKind::Divide => "division by zero",
        FaultKind::Index => "index out of range",
        FaultKind::Depth => "depth",
        FaultKind::Calls => "calls",
        FaultKind::Budget => "budget spent",
    }
}
