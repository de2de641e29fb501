// Which scripts are refused, and the longest and largest that are taken.

use std::alloc::Global;
use std::test::Fail;
use test_calls::{ONE, PENDING_SYNCED, SQUARES, compare, plain, prints, refuses, same};

const LONGEST: usize = 1048576;

// A text and the line that refuses it.
static NO_SCRIPTS: [(&str, &str); 4] = [
    (
        "fn main() { print 1 return 0; }",
        "script: unexpected token at byte 20\n",
    ),
    (
        "fn main() { print 1;",
        "script: unexpected end at byte 20\n",
    ),
    (
        "fn main() { print 9223372036854775808; return 0; }",
        "script: number out of range at byte 18\n",
    ),
    (
        "fn main() { let abcdefghijklmnopqrstuvwxyzabcdefg = 1; return 0; }",
        "script: name too long at byte 16\n",
    ),
];

#[test]
fn refusals_have_their_places(rt: HostRuntime) -> Result<(), Fail> {
    for &(script, refusal) in &NO_SCRIPTS {
        for line in ["run", "check", "fmt"] {
            refuses(&rt, line, script, 3, refusal)?;
        }
    }
    Ok(())
}

#[test]
fn a_byte_beyond_ascii_is_refused(rt: HostRuntime) -> Result<(), Fail> {
    for line in ["run", "check", "fmt"] {
        let printed = plain(&rt, line, b"\xff")?;
        compare(line, printed, 3, "", "script: not ASCII at byte 0\n")?;
    }
    Ok(())
}

// A script and the line that refuses it.
static INVALID_SCRIPTS: [(&str, &str); 9] = [
    ("", "script: no main at byte 0\n"),
    (
        "fn main(a) { return 0; }",
        "script: main has parameters at byte 8\n",
    ),
    (
        "fn main() { call f(); return 0; }",
        "script: unknown function at byte 17\n",
    ),
    (
        "fn main() { let o = new; print o + 1; return 0; }",
        "script: wrong kind at byte 31\n",
    ),
    (
        "fn main() { if 1 { let x = 1; } return 0; }",
        "script: let in a block at byte 19\n",
    ),
    (
        "fn f() { return 1; } fn main() { let x = 0; if 1 { x = spawn f(); } else { x = 2; } print x; return 0; }",
        "script: pending variable at byte 90\n",
    ),
    (
        "fn f() { return 1; } fn main() { let x = 0; let i = 0; while i < 2 { x = x + 1; x = spawn f(); i = i + 1; } return x; }",
        "script: pending variable at byte 69\n",
    ),
    (
        "fn main() { let a[4097]; return 0; }",
        "script: array length at byte 18\n",
    ),
    (
        "fn main() { let a[0]; return 0; }",
        "script: array length at byte 18\n",
    ),
];

// `fmt` takes them.
#[test]
fn invalid_scripts_are_refused_with_their_places(rt: HostRuntime) -> Result<(), Fail> {
    for &(script, refusal) in &INVALID_SCRIPTS {
        for line in ["run", "check"] {
            refuses(&rt, line, script, 3, refusal)?;
        }
    }
    Ok(())
}

// A script and what it prints.
static JUST_WITHIN: [(&str, &str); 3] = [
    (
        "fn main() { let abcdefghijklmnopqrstuvwxyzabcdef = 1; return 0; }",
        "",
    ),
    ("fn main() { let a[4096]; return 0; }", ""),
    (PENDING_SYNCED, "1\n"),
];

#[test]
fn scripts_just_within_a_rule_are_taken(rt: HostRuntime) -> Result<(), Fail> {
    for &(script, output) in &JUST_WITHIN {
        prints(&rt, "run", script, output)?;
        prints(&rt, "check", script, "ok\n")?;
    }
    Ok(())
}

// What the script's first bytes are refused by, so many of them.
fn line_of_front(alloc: Global, length: usize) -> Result<String, Fail> {
    match length {
        0 => Ok(String::from_str(alloc, "script: no main at byte 0\n")?),
        1 => Ok(String::from_str(alloc, "script: unexpected token at byte 0\n")?),
        _ => Ok(format!(in alloc; "script: unexpected end at byte {length}\n")?),
    }
}

#[test]
fn fronts_are_refused_by_what_is_missing(rt: HostRuntime) -> Result<(), Fail> {
    let script = ONE.as_bytes();
    for length in 0..script.len() {
        let refusal = line_of_front(rt.alloc(), length)?;
        let printed = plain(&rt, "run", &script[..length])?;
        compare("run", printed, 3, "", refusal.as_str())?;
    }
    Ok(())
}

#[test]
fn fronts_of_a_script_are_refused(rt: HostRuntime) -> Result<(), Fail> {
    let script = SQUARES.as_bytes();
    for length in 0..script.len() {
        let printed = plain(&rt, "run", &script[..length])?;
        same(length, printed.code, 3)?;
        same(length, printed.out.as_str(), "")?;
    }
    Ok(())
}

// A script that prints 1 within so many parentheses.
fn nested(alloc: Global, depth: u32) -> Result<String, Fail> {
    let mut script = String::from_str(alloc, "fn main() { print ")?;
    for _ in 0..depth {
        script.push('(')?;
    }
    script.push('1')?;
    for _ in 0..depth {
        script.push(')')?;
    }
    script.push_str("; return 0; }")?;
    Ok(script)
}

#[test]
fn expressions_nest_63_deep(rt: HostRuntime) -> Result<(), Fail> {
    let script = nested(rt.alloc(), 63)?;
    prints(&rt, "run", script.as_str(), "1\n")?;
    let script = nested(rt.alloc(), 64)?;
    refuses(
        &rt,
        "run",
        script.as_str(),
        3,
        "script: nested too deep at byte 81\n",
    )
}

// A script whose main has so many variables.
fn with_variables(alloc: Global, count: u32) -> Result<String, Fail> {
    let mut script = String::from_str(alloc, "fn main() { ")?;
    for i in 0..count {
        script.push_str(format!(in alloc; "let v{i:03} = 0; ")?.as_str())?;
    }
    script.push_str("return 0; }")?;
    Ok(script)
}

#[test]
fn functions_have_at_most_256_variables(rt: HostRuntime) -> Result<(), Fail> {
    let script = with_variables(rt.alloc(), 256)?;
    prints(&rt, "run", script.as_str(), "")?;
    prints(&rt, "check", script.as_str(), "ok\n")?;
    let script = with_variables(rt.alloc(), 257)?;
    for line in ["run", "check"] {
        refuses(
            &rt,
            line,
            script.as_str(),
            3,
            "script: too many variables at byte 3600\n",
        )?;
    }
    Ok(())
}

// So many functions, of 25 bytes each.
fn with_functions(alloc: Global, count: u32) -> Result<String, Fail> {
    let mut script = String::new(alloc);
    for i in 0..count {
        script.push_str(format!(in alloc; "fn f{i:04}() {{ return 0; }} ")?.as_str())?;
    }
    Ok(script)
}

#[test]
fn scripts_have_at_most_1024_functions(rt: HostRuntime) -> Result<(), Fail> {
    let mut most = with_functions(rt.alloc(), 1023)?;
    most.push_str(ONE)?;
    prints(&rt, "run", most.as_str(), "1\n")?;
    let script = with_functions(rt.alloc(), 1025)?;
    refuses(
        &rt,
        "run",
        script.as_str(),
        3,
        "script: too many functions at byte 25600\n",
    )
}

// Blanks fill the script up to the limit, and one more is too many.
#[test]
fn the_longest_script_runs(rt: HostRuntime) -> Result<(), Fail> {
    let mut script = ONE.as_bytes().to_vec(rt.alloc())?;
    script.resize(LONGEST, b' ')?;
    let printed = plain(&rt, "run", &script)?;
    compare("run", printed, 0, "1\n", "")?;
    script.push(b' ')?;
    let printed = plain(&rt, "run", &script)?;
    compare("run", printed, 3, "", "script: too long\n")
}
