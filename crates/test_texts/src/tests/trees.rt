// Texts, with their trees or their first faults.

use super::{same, tree};
use script_text::{Act, Kind, SyntaxError, TokenKind, Version, next_token};
use std::alloc::{AllocError, Global};
use std::process::Abort;
use std::test::Fail;

fn fault(rt: &impl Abort, alloc: Global, text: &[u8]) -> Option<(u8, u32)> {
    match tree(rt, alloc, text) {
        Ok(_) => None,
        Err(SyntaxError::Bad { number, at }) => Some((number, at)),
        Err(SyntaxError::Memory) => Some((0, 0)),
    }
}

// The example at the head of `script_text`.
#[test]
fn a_text_has_a_tree_or_a_first_fault(rt: HostRuntime) {
    let text = b"fn main() { print 1; return 0; }";
    let script = tree(&rt, rt.alloc(), text).expect(&rt, "a tree");
    same(&rt, "functions", script.functions.as_slice().len(), 1);
    let fault = fault(&rt, rt.alloc(), b"fn main() { print 1;");
    same(&rt, "the end", fault, Some((6, 20)));
}

// A text, and the number and the place of its first fault.
static TEXTS: [(&str, Option<(u8, u32)>); 40] = [
    ("fn main() { print 1 return 0; }", Some((2, 20))),
    ("fn main() { print 1;", Some((6, 20))),
    (
        "fn main() { print 9223372036854775808; return 0; }",
        Some((3, 18)),
    ),
    (
        "fn main() { print x 9223372036854775808; return 0; }",
        Some((2, 20)),
    ),
    ("fn main() { print 1 ! 2; return 0; }", Some((2, 20))),
    ("fn main() { print 1 . 2; return 0; }", Some((2, 20))),
    (
        "fn main() { let aaaaaaaaaaaaaaaaaaaaaaaaaaaaaaaaa = 1; return 0; }",
        Some((4, 16)),
    ),
    (
        "fn main() { print 1 aaaaaaaaaaaaaaaaaaaaaaaaaaaaaaaaa; return 0; }",
        Some((2, 20)),
    ),
    (
        "fn main() { pfor i in 0..1 call f(j); return 0; }",
        Some((2, 34)),
    ),
    ("fn main() { if 1 { sync; } else return 0; }", Some((2, 32))),
    ("fn main() { let a[2] = 1; return 0; }", Some((2, 21))),
    ("fn main() { return 1 < 2 < 3; }", Some((2, 25))),
    ("fn main() { return 0; } x", Some((2, 24))),
    ("fn main() { sync; }", Some((2, 18))),
    ("f", Some((2, 0))),
    ("# no script\nreturn", Some((2, 12))),
    ("fn fn \u{e9}", Some((2, 3))),
    ("fn \u{e9}", Some((1, 3))),
    ("# \u{e9}", Some((1, 2))),
    ("fn main() { return 0; } # \u{e9}\n", Some((1, 26))),
    ("fn main() { print \u{e9}", Some((1, 18))),
    ("", None),
    ("# only a comment", None),
    ("fn main() { print 1; return 0; }", None),
    (
        "fn main() { let aaaaaaaaaaaaaaaaaaaaaaaaaaaaaaaa = 1; return 0; }",
        None,
    ),
    ("fn f(id y)->id{return y;}# end", None),
    ("fn main(){if 1<2{sync;}else{}return -(1+2);}", None),
    ("fn main() { scope { } return 0; }", Some((2, 18))),
    ("fn main() { let scope = 1; return scope; }", None),
    ("version 2\nfn main() { scope { } return 0; }", None),
    (
        "version 2\nfn main() { let scope = 1; return 0; }",
        Some((2, 26)),
    ),
    (
        "version 2\nfn main() { scope sync; return 0; }",
        Some((2, 28)),
    ),
    ("version 2\nfn main() { scope {", Some((6, 29))),
    ("version 2\n", None),
    ("version 2", Some((2, 0))),
    ("version 2\nfn \u{e9}", Some((1, 13))),
    (
        "fn main() { print -9223372036854775807 - 1; return 0012; }",
        None,
    ),
    (
        "fn f(a, id b) { a = spawn f(1, b); spawn f(); x = call f(); call f(a[1]); x = new; return 0; }",
        None,
    ),
    (
        "fn main() { pfor i in 0..5 into a call sq(i, 1, 2); pfor i in 0..n call f(i); return 0; }",
        None,
    ),
    (
        "fn main() { a[1] = same(x, y) + older(x, y); while x >= 1 { x = x % 2; } return 0; }",
        None,
    ),
];

#[test]
fn texts_have_a_tree_or_a_fault_at_its_place(rt: HostRuntime) {
    for &(text, wanted) in &TEXTS {
        same(&rt, text, fault(&rt, rt.alloc(), text.as_bytes()), wanted);
    }
}

// A front of a script is one itself where it ends after a function, and has fault 2 where it ends inside a word that can't stand there.
// Else it is unfinished: fault 6 at its end.
fn fault_of_front(length: u32) -> Option<(u8, u32)> {
    match length {
        0 | 26 | 27 => None,
        1 => Some((2, 0)),
        28 => Some((2, 27)),
        57 => Some((2, 56)),
        61 => Some((2, 60)),
        65..=67 => Some((2, 64)),
        72..=74 => Some((2, 71)),
        _ => Some((6, length)),
    }
}

const SQUARES: &[u8; 144] =
    b"fn sq(i) { return i * i; } fn main() { let a[5]; pfor i in 0..5 into a call sq(i); let k = 0; while k < 5 { print a[k]; k = k + 1; } return 0; }";

#[test]
fn fronts_of_a_script_are_refused(rt: HostRuntime) {
    for length in 0..SQUARES.len() {
        let found = fault(&rt, rt.alloc(), &SQUARES[..length]);
        same(&rt, length, found, fault_of_front(length as u32));
    }
}

// A text in which the second piece stands so many times.
fn repeated(
    alloc: Global,
    head: &[u8],
    piece: &[u8],
    times: u32,
    tail: &[u8],
) -> Result<Vec<u8>, AllocError> {
    let mut text = head.to_vec(alloc)?;
    for _ in 0..times {
        text.extend_from_slice(piece)?;
    }
    text.extend_from_slice(tail)?;
    Ok(text)
}

const PRINT: &[u8] = b"fn main() { print ";

const FUNCTION: &[u8] = b"fn f0000() { return 0; } ";

// The pieces of a text, how often the second one stands in it, and the number and the place of its first fault.
type Repeats = (
    &'static [u8],
    &'static [u8],
    u32,
    &'static [u8],
    Option<(u8, u32)>,
);

static REPEATS: [Repeats; 13] = [
    (PRINT, b"-", 63, b"1; return 0; }", None),
    (PRINT, b"-", 64, b"1", Some((5, 81))),
    (b"fn main() ", b"{ if 1 ", 64, b"{", Some((5, 458))),
    (
        b"version 2\nfn main() ",
        b"{ scope ",
        64,
        b"{",
        Some((5, 532)),
    ),
    (b"", FUNCTION, 1024, b"", None),
    (b"", FUNCTION, 1025, b"", Some((7, 25600))),
    (b"", b"(", 1_048_576, b"", Some((2, 0))),
    (PRINT, b"(", 1_000_000, b"", Some((5, 81))),
    (PRINT, b"-", 1_000_000, b"", Some((5, 81))),
    (b"fn ", b"a", 1_048_573, b"", Some((4, 3))),
    (b"", b"#", 1_048_576, b"", None),
    (PRINT, b"1+", 500_000, b"1; return 0; }", None),
    (b"fn main() { ", b"sync; ", 100_000, b"return 0; }", None),
];

// The largest texts show that no recursion goes as deep as they are long. In the row of blocks the word `if` is expected: its block would
// be nested too deep, and not the word.
#[test]
fn limits_hold_up_to_their_ends(rt: HostRuntime) -> Result<(), Fail> {
    for &(head, piece, times, tail, wanted) in &REPEATS {
        let text = repeated(rt.alloc(), head, piece, times, tail)?;
        same(&rt, times, fault(&rt, rt.alloc(), &text), wanted);
    }
    Ok(())
}

// The number 1 in so many parentheses, printed.
fn parentheses(alloc: Global, times: u32) -> Result<Vec<u8>, AllocError> {
    let open = repeated(alloc, PRINT, b"(", times, b"1")?;
    repeated(alloc, &open, b")", times, b"; return 0; }")
}

#[test]
fn parentheses_nest_63_deep(rt: HostRuntime) -> Result<(), Fail> {
    for (times, wanted) in [(63, None), (64, Some((5, 81)))] {
        let text = parentheses(rt.alloc(), times)?;
        same(&rt, times, fault(&rt, rt.alloc(), &text), wanted);
    }
    Ok(())
}

// The offsets in expressions are shown by the places of violations, and the shape of trees by their canonical texts.
#[test]
fn a_function_has_the_offsets_of_its_text(rt: HostRuntime) {
    let text = b"fn f(id y) { x = -(1 + 2) * a[3] == draw0; return y; }";
    let script = tree(&rt, rt.alloc(), text).expect(&rt, "a script");
    let [f] = script.functions.as_slice() else {
        panic!(rt; "one function");
    };
    same(&rt, "f", (f.name.at, f.return_at), (3, 43));
    let [param] = f.params.as_slice() else {
        panic!(rt; "one parameter");
    };
    same(&rt, "y", (param.kind, param.name.at), (Kind::Id, 8));
    let [statement] = f.body.as_slice() else {
        panic!(rt; "one statement");
    };
    same(&rt, "x", statement.at, 13);
}

#[test]
fn a_scope_has_the_offsets_of_its_text(rt: HostRuntime) {
    let text = b"version 2\nfn main() { scope { sync; } return 0; }";
    let script = tree(&rt, rt.alloc(), text).expect(&rt, "a script");
    same(&rt, "version", script.version, Version::Two);
    let [main] = script.functions.as_slice() else {
        panic!(rt; "one function");
    };
    same(&rt, "main", (main.name.at, main.return_at), (13, 38));
    let [statement] = main.body.as_slice() else {
        panic!(rt; "one statement");
    };
    same(&rt, "scope", statement.at, 22);
    let Act::Scope(block) = &statement.act else {
        panic!(rt; "a scope");
    };
    let [inner] = block.as_slice() else {
        panic!(rt; "one statement inside");
    };
    same(&rt, "sync", inner.at, 30);
}

#[test]
fn tokens_come_one_by_one(rt: HostRuntime) {
    for (text, from, kind, start, end) in [
        ("a<=1", 1, TokenKind::Symbol, 1, 3),
        (" # x\nfn", 0, TokenKind::Keyword, 5, 7),
        ("12abc", 0, TokenKind::Number, 0, 2),
        ("a ", 1, TokenKind::End, 2, 2),
    ] {
        let token = next_token(text.as_bytes(), from, Version::One).expect(&rt, "a token");
        same(
            &rt,
            text,
            (token.kind, token.start, token.end),
            (kind, start, end),
        );
    }
    same(
        &rt,
        "a !",
        next_token(b"a !", 1, Version::One),
        Err(SyntaxError::Bad { number: 2, at: 2 }),
    );
}
