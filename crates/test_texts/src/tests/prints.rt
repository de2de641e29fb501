// Scripts and their canonical texts.

use super::{same, tree};
use script_print::print_script;
use std::alloc::Global;
use std::process::Abort;
use std::test::Fail;

// The canonical text of this script is this one.
fn prints(rt: &impl Abort, alloc: Global, script: &[u8], text: &[u8]) -> Result<(), Fail> {
    let script = tree(rt, alloc, script)?;
    same(
        rt,
        "canonical",
        print_script(alloc, &script)?.as_slice(),
        text,
    );
    Ok(())
}

static LINES: [&str; 20] = [
    "print (1 + 2) * 3;",
    "print 1 + 2 * 3;",
    "print (1 + 2) + 3;",
    "print 1 - (2 + 3);",
    "print 7 % (3 / 2);",
    "print --x;",
    "print -(1 + 2);",
    "print -x * 2;",
    "print 1 - 2 >= (3 != 4);",
    "let z = draw;",
    "let z = new;",
    "let z = call f(x, y);",
    "let z = spawn g();",
    "let a[5];",
    "a[0] = b[1];",
    "spawn f(x, y);",
    "call g();",
    "z = older(same(1, 2), 3);",
    "pfor i in -1..n into a call f(i, 2);",
    "pfor i in -1..n call f(i, 2);",
];

#[test]
fn canonical_lines_print_as_they_stand(rt: HostRuntime) -> Result<(), Fail> {
    let alloc = rt.alloc();
    for &line in &LINES {
        let text = format!(in alloc; "fn main() {{\n  {line}\n  return 0;\n}}\n")?;
        prints(&rt, alloc, text.as_bytes(), text.as_bytes())?;
    }
    Ok(())
}

// A script and its canonical text.
static CANONICAL: [(&[u8], &[u8]); 6] = [
    (b"", b""),
    (
        b"fn main(){while 1{if x<1{if x{}else{sync;}}else{}}return 0;}",
        b"fn main() {\n  while 1 {\n    if x < 1 {\n      if x {\n      } else {\n        sync;\n      }\n    }\n  }\n  return 0;\n}\n",
    ),
    (
        b"fn mk(n,id x)->id{return 0;} fn f(){return 0;} # end",
        b"fn mk(n, id x) -> id {\n  return 0;\n}\nfn f() {\n  return 0;\n}\n",
    ),
    (
        b"version 2\nfn main(){scope{sync;}return 0;}",
        b"version 2\nfn main() {\n  scope {\n    sync;\n  }\n  return 0;\n}\n",
    ),
    (b"version 2\n # nothing", b"version 2\n"),
    (
        b"fn scope(version){return version;}",
        b"fn scope(version) {\n  return version;\n}\n",
    ),
];

#[test]
fn scripts_have_a_canonical_text(rt: HostRuntime) -> Result<(), Fail> {
    for &(script, text) in &CANONICAL {
        prints(&rt, rt.alloc(), script, text)?;
        prints(&rt, rt.alloc(), text, text)?;
    }
    Ok(())
}
