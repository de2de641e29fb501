// Outputs of 65536 bytes, as many as wait at most to be written, and of one byte more.

use engine::OpenGate;
use std::test::Fail;
use test_calls::{Host, Printed, call, same};

// A script that prints 65530 bytes, in lines of ten, and then this number.
fn script<R: AllocGlobal>(rt: &R, last: &str) -> Result<String, Fail> {
    Ok(format!(in rt.alloc();
        "fn main() {{ let k = 0; while k < 6553 {{ print 123456789; k = k + 1; }} print {last}; return 0; }}"
    )?)
}

// A call whose second write fails. Each takes all that it is given.
fn second_failing<R: Host>(rt: &R, line: &str, last: &str) -> Result<Printed, Fail> {
    let alloc = rt.alloc();
    let script = script(rt, last)?.into_bytes();
    let writes = Vec::from_slice(alloc, &[1])?;
    call(
        rt,
        line,
        script,
        1048576,
        Vec::new(alloc),
        writes,
        &OpenGate,
    )
}

// The call of this line ended with this status, and as many bytes were written, of which these are the last.
fn wrote(
    line: &str,
    printed: Printed,
    code: u8,
    size: usize,
    end: &str,
    refusal: &str,
) -> Result<(), Fail> {
    same(line, printed.code, code)?;
    same(line, printed.out.len(), size)?;
    same(line, printed.out.as_str().ends_with(end), true)?;
    same(line, printed.err.as_str(), refusal)
}

static CALLS: [&str; 4] = [
    "serial",
    "serial --show log",
    "run --workers 2",
    "run --workers 2 --show log",
];

#[test]
fn as_much_as_may_wait_is_one_write(rt: HostRuntime) -> Result<(), Fail> {
    for &line in &CALLS {
        let printed = second_failing(&rt, line, "12345")?;
        wrote(line, printed, 0, 65536, "\n12345\n", "")?;
    }
    Ok(())
}

// The last line finds no room after the others, and waits for them to be written.
#[test]
fn one_byte_more_is_a_second_write(rt: HostRuntime) -> Result<(), Fail> {
    for &line in &CALLS {
        let printed = second_failing(&rt, line, "123456")?;
        wrote(line, printed, 5, 65530, "6789\n", "write fault\n")?;
    }
    Ok(())
}
