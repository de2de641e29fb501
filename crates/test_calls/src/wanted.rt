// What a call is to end by. What differs is a `Fail`, with the row that says where.

use crate::calls::{Host, Printed, plain};
use std::fmt::{Debug, Display};
use std::test::Fail;

/// Fails where what was found in this row isn't what was wanted.
pub fn same<A: PartialEq + Debug + Drop>(
    row: impl Display + Drop,
    found: A,
    wanted: A,
) -> Result<(), Fail> {
    if found != wanted {
        return Err(Fail::new(format_args!("{row}: found {found:?}, wanted {wanted:?}")));
    }
    Ok(())
}

/// Fails where the call of this line didn't end with this status, or something else stands in its sinks.
pub fn compare(
    line: &str,
    printed: Printed,
    code: u8,
    output: &str,
    refusal: &str,
) -> Result<(), Fail> {
    same(line, printed.code, code)?;
    same(line, printed.out.as_str(), output)?;
    same(line, printed.err.as_str(), refusal)
}

/// The call ends with this status, and this stands in its sinks.
pub fn ends<R: Host>(
    rt: &R,
    line: &str,
    script: &str,
    code: u8,
    output: &str,
    refusal: &str,
) -> Result<(), Fail> {
    let printed = plain(rt, line, script.as_bytes())?;
    compare(line, printed, code, output, refusal)
}

/// The command prints this.
pub fn prints<R: Host>(rt: &R, line: &str, script: &str, output: &str) -> Result<(), Fail> {
    ends(rt, line, script, 0, output, "")
}

/// The words or the script are refused by this line.
pub fn refuses<R: Host>(
    rt: &R,
    line: &str,
    script: &str,
    code: u8,
    refusal: &str,
) -> Result<(), Fail> {
    ends(rt, line, script, code, "", refusal)
}

/// The script that the words generate.
pub fn generated<R: Host>(rt: &R, line: &str) -> Result<String, Fail> {
    let printed = plain(rt, line, b"")?;
    same(line, printed.code, 0)?;
    Ok(printed.out)
}
