// The lines that show a fault's place, with the word that would do.
use super::same;
use script_excerpt::excerpt;
use std::alloc::Global;
use std::process::Abort;
use std::test::Fail;

static EXCERPTS: [(&str, usize, &str); 20] = [
    (
        "fn main() { print 1 return 0; }",
        20,
        "line 1, column 21\nfn main() { print 1 return 0; }\n                    ^ fault, here a ; would do\n",
    ),
    (
        "fn main() {\n\treturn 0;\n",
        23,
        "line 3, column 1\n\n^ fault, here a } would do\n",
    ),
    (
        "fn main() {\n\tprint $;\n\treturn 0;\n}",
        19,
        "line 2, column 8\n\tprint $;\n\t      ^ fault\n",
    ),
    ("", 0, "line 1, column 1\n\n^ fault\n"),
    (
        "fn main() { if 1 == 1 print 1; } return 0; }",
        22,
        "line 1, column 23\nfn main() { if 1 == 1 print 1; } return 0; }\n                      ^ fault, here a { would do\n",
    ),
    (
        "version 2\nfn main() { { sync; } return 0; }",
        22,
        "line 2, column 13\nfn main() { { sync; } return 0; }\n            ^ fault\n",
    ),
    (
        "fn main() { if 1 == 1 { return 1; } return 0; }",
        24,
        "line 1, column 25\nfn main() { if 1 == 1 { return 1; } return 0; }\n                        ^ fault, return stands at the end of its function\n",
    ),
    (
        "version 2\r\nfn main() { return 0; }\r\n",
        0,
        "line 1, column 1\nversion 2?\n^ fault, the line version 2 must end right after the 2\n",
    ),
    (
        "version 3\nfn main() { return 0; }",
        0,
        "line 1, column 1\nversion 3\n^ fault, a version's line is version 2 and begins the text\n",
    ),
    (
        "# a comment\nversion 2\nfn main() { return 0; }",
        12,
        "line 2, column 1\nversion 2\n^ fault, a version's line is version 2 and begins the text\n",
    ),
    (
        "version (n) { return n; } fn main() { return 0; }",
        0,
        "line 1, column 1\nversion (n) { return n; } fn main() { return 0; }\n^ fault\n",
    ),
    ("version 2\n", 0, "line 1, column 1\nversion 2\n^ fault\n"),
    (
        "fn main(a) { return 0; }",
        8,
        "line 1, column 9\nfn main(a) { return 0; }\n        ^ fault\n",
    ),
    ("versions", 0, "line 1, column 1\nversions\n^ fault\n"),
    (
        "fn () { return 0; }",
        3,
        "line 1, column 4\nfn () { return 0; }\n   ^ fault\n",
    ),
    (
        "fn main() { ; return 0; }",
        12,
        "line 1, column 13\nfn main() { ; return 0; }\n            ^ fault\n",
    ),
    (
        "main() { return 0; }",
        0,
        "line 1, column 1\nmain() { return 0; }\n^ fault\n",
    ),
    (
        "foo() { return 0; }",
        0,
        "line 1, column 1\nfoo() { return 0; }\n^ fault\n",
    ),
    (
        "f main() { return 0; }",
        0,
        "line 1, column 1\nf main() { return 0; }\n^ fault, here a fn would do\n",
    ),
    (
        "fn f(i) { return i; } fn main() { pfor i 0..3 call f(i); return 0; }",
        41,
        "line 1, column 42\nfn f(i) { return i; } fn main() { pfor i 0..3 call f(i); return 0; }\n                                         ^ fault, here a in would do\n",
    ),
];

// These lines show the fault there.
fn shows(
    rt: &impl Abort,
    alloc: Global,
    text: &[u8],
    at: usize,
    wanted: &[u8],
) -> Result<(), Fail> {
    assert!(rt; at <= text.len());
    let lines = excerpt(alloc, text, at, "fault")?;
    same(rt, at, lines.as_slice(), wanted);
    Ok(())
}

#[test]
fn a_fault_is_shown_with_its_line(rt: HostRuntime) -> Result<(), Fail> {
    for &(text, at, wanted) in &EXCERPTS {
        shows(&rt, rt.alloc(), text.as_bytes(), at, wanted.as_bytes())?;
    }
    Ok(())
}

// The lines of a fault at byte 150 of a line of 300.
fn lines_of_300(alloc: Global) -> Result<Vec<u8>, Fail> {
    let mut wanted = b"line 1, column 151\n".to_vec(alloc)?;
    wanted.extend_from_slice(&[b'a'; 144])?;
    wanted.push(b'\n')?;
    wanted.extend_from_slice(&[b' '; 72])?;
    wanted.extend_from_slice(b"^ fault\n")?;
    Ok(wanted)
}

#[test]
fn of_a_long_line_72_bytes_are_shown_on_each_side(rt: HostRuntime) -> Result<(), Fail> {
    let wanted = lines_of_300(rt.alloc())?;
    shows(&rt, rt.alloc(), &[b'a'; 300], 150, wanted.as_slice())
}
