ghost use Rattle.std.specs.Prelude.{◌≡◌, ◌+◌, ◌*◌, ◌≤◌, ◌++◌, OnErr, OnOk, drop, flat_map, length};
ghost use Rattle.ped_io.specs.Causes.{HasCause};
ghost use Rattle.ped_io.specs.Streams.{Appends, AppendsFront};
ghost use Rattle.draw_lines.specs.Lines.{CanDraw, lines_of, number_line};

use crate::stream::Stream;
use itoa::write_digits;
use ped_io::{Failed, Sink, write_all};

// The longest line: twenty digits and a line feed.
pub(crate) const LINE: usize = 21;

// Writes a number's line so that it ends before `end`, and returns where it starts.
fn write_line(number: u64, text: &mut [u8], end: usize) -> usize
    requires room { 21 ≤ end }
    requires within { end ≤ length text.old }
    ensures short { end ≤ result + 21 }
    ensures before { result ≤ end }
    ensures line { drop result text.new ≡ number_line number ++ drop end text.old }
{
    text[end - 1] = b'\n';
    write_digits(number, text, end - 1)
}

// Writes the numbers' lines so that they end where the text ends, and returns where they start. It goes from the last
// to the first, since digits are made from the last to the first.
fn write_lines(numbers: &[u64], text: &mut [u8]) -> usize
    requires { 21 * length numbers.now ≤ length text.old }
    ensures within { result ≤ length text.old }
    ensures lines { drop result text.new ≡ flat_map number_line numbers.now }
{
    let mut start = text.len();
    let mut left = numbers.len();
    while left > 0 {
        left -= 1;
        start = write_line(numbers[left], text, start);
    }
    start
}

// Fills `numbers` with the stream's next draws, and writes their lines.
pub(crate) fn write_draws<K: Sink>(
    stream: &Stream,
    numbers: &mut [u64],
    text: &mut [u8],
    out: &mut K,
) -> Result<(), Failed>
    requires can { CanDraw stream.now (length numbers.old) }
    requires room { 21 * length numbers.old ≤ length text.old }
    ensures all { OnOk result (Appends (K.written out.old) (K.written out.new) (lines_of stream.now (length numbers.old))) }
    ensures front { OnErr result (AppendsFront (K.written out.old) (K.written out.new) (lines_of stream.now (length numbers.old))) }
    ensures cause { HasCause (K.faults out.old) (K.faults out.new) result }
{
    stream.draw(numbers);
    let start = write_lines(numbers, text);
    write_all(out, &text[start..])
}
