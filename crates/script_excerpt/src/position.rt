// Lines and columns.

ghost use Rattle.std.specs.Prelude.{◌≡◌, ◌≤◌, length};
ghost use Rattle.script_excerpt.specs.Places.{IsColumn, IsLineStart, line_of};

/// A position as editors count: lines and columns from 1, a column for each byte.
#[derive(Clone, Copy, Debug, PartialEq, Eq)]
pub struct Position {
    pub line: usize,
    pub column: usize,
}

/// The offset at which the line of byte `at` begins.
pub fn line_start(text: &[u8], at: usize) -> usize
    requires { at ≤ length text.now }
    ensures { IsLineStart text.now at result }
{
    let mut start = at;
    while 0 < start && text[start - 1] != b'\n' {
        start -= 1;
    }
    start
}

// The line number of byte `at`, from 1.
fn line_number(text: &[u8], at: usize) -> usize
    requires { at ≤ length text.now }
    ensures { result ≡ line_of text.now at }
{
    let before = &text[..at];
    let mut line = 1;
    for &byte in before {
        if byte == b'\n' {
            line += 1;
        }
    }
    line
}

/// The position of byte `at` of a text; `at` may be its end. A line feed belongs to the line that it ends.
pub fn position_of(text: &[u8], at: usize) -> Position
    requires { at ≤ length text.now }
    ensures line { result.line ≡ line_of text.now at }
    ensures column { IsColumn text.now at result.column }
{
    Position {
        line: line_number(text, at),
        column: at - line_start(text, at) + 1,
    }
}
