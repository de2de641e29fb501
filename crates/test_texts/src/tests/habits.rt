// How a habit of another language is told to be written here.
use super::{same, tree};
use script_excerpt::reason;
use script_text::{SyntaxError, fault_text};
use std::alloc::Global;
use std::test::Fail;

// Scripts with a mark before the byte at which they stop, and how what is said there begins, or nothing.
static HABITS: [(&str, &str); 104] = [
    (
        "fn f(n) { return n; } fn main() { let x = 1 + f`(2); return x; }",
        "a call has its word",
    ),
    (
        "fn f(n) { return n; } fn main() { f`(2); return 0; }",
        "a call has its word",
    ),
    (
        "fn f(n) { return n; } fn main() { print f`(2); return 0; }",
        "a call has its word and stands alone",
    ),
    (
        "fn f(n) { return n; } fn main() { let x = 1 + `call f(2); return 0; }",
        "a call stands alone",
    ),
    (
        "fn f(n) { return n; } fn main() { let x = 1 + `spawn f(2); return 0; }",
        "a spawn stands alone",
    ),
    (
        "fn main() { let x = draw `% 6; return 0; }",
        "draw stands alone",
    ),
    (
        "fn main() { let x = 1 + `draw; return 0; }",
        "draw stands alone",
    ),
    (
        "fn main() { let x = draw`(); return 0; }",
        "draw has no parentheses",
    ),
    (
        "fn main() { let a[3]; a[0] = `draw; return 0; }",
        "draw stands alone",
    ),
    (
        "fn main() { let x = new`(); return 0; }",
        "new has no parentheses",
    ),
    ("fn main() { let x = 1; x `+= 1; return 0; }", "x += 1 is"),
    ("fn main() { let x = 1; x `-= 1; return 0; }", "x -= 1 is"),
    ("fn main() { let x = 1; x `*= 2; return 0; }", "x *= 2 is"),
    ("fn main() { let x = 1; x `/= 2; return 0; }", "x /= 2 is"),
    ("fn main() { let x = 1; x `%= 2; return 0; }", "x %= 2 is"),
    ("fn main() { let x = 1; x`++; return 0; }", "x++ is"),
    ("fn main() { let x = 1; x`--; return 0; }", "x-- is"),
    ("fn main() { x `:= 1; return 0; }", "let x = 1; makes"),
    (
        "fn main() { if 1 < 2 `&& 2 < 3 { sync; } return 0; }",
        "both is a product",
    ),
    (
        "fn main() { if 1 < 2 `and 2 < 3 { sync; } return 0; }",
        "both is a product",
    ),
    (
        "fn main() { if 1 < 2 `|| 2 < 3 { sync; } return 0; }",
        "one of two is a sum",
    ),
    (
        "fn main() { if 1 < 2 `or 2 < 3 { sync; } return 0; }",
        "one of two is a sum",
    ),
    ("fn main() { if `!x { sync; } return 0; }", "not x is"),
    ("fn main() { if not `x { sync; } return 0; }", "not x is"),
    (
        "fn main() { for `i in 0..3 { sync; } return 0; }",
        "a loop is",
    ),
    ("fn main() { for `(;;) { sync; } return 0; }", "a loop is"),
    (
        "fn main() { while 1 { break`; } return 0; }",
        "there is no break",
    ),
    (
        "fn main() { while 1 { continue`; } return 0; }",
        "there is no continue",
    ),
    (
        "fn main() { if 1 { sync; } else `if 2 { sync; } return 0; }",
        "an else has a block",
    ),
    (
        "fn main() { if 1 { sync; } elif `2 { sync; } return 0; }",
        "an else has a block",
    ),
    (
        "fn main() { if 1 `= 2 { sync; } return 0; }",
        "equality is ==",
    ),
    (
        "fn main() { let x = 1; if x `= 2 { sync; } return 0; }",
        "equality is ==",
    ),
    (
        "fn main() { print `\"hello\"; return 0; }",
        "there are no strings",
    ),
    (
        "fn main() { print `'hello'; return 0; }",
        "there are no strings",
    ),
    (
        "fn main() { let x = 0`.5; return 0; }",
        "there are neither fractions",
    ),
    (
        "fn main() { let x = 1`e6; return 0; }",
        "a number is digits alone",
    ),
    (
        "fn main() { let x = 1`_000; return 0; }",
        "a number is digits alone",
    ),
    (
        "fn main() { let x = 0`x1f; return 0; }",
        "a number is digits alone",
    ),
    (
        "fn main() { let x`; return 0; }",
        "a variable begins with a value",
    ),
    (
        "fn main() { let n = 3; let a[`n]; return 0; }",
        "the length of an array",
    ),
    ("fn main() { let a = `[1, 2]; return 0; }", "an array is"),
    (
        "fn main() { let a[3] `= 0; return 0; }",
        "an array begins with zeros",
    ),
    (
        "fn main() { int `x = 1; return 0; }",
        "a variable is made by let",
    ),
    (
        "fn main() { var `x = 1; return 0; }",
        "a variable is made by let",
    ),
    ("`int main() { return 0; }", "a function is fn"),
    ("`def main() { return 0; }", "a function is fn"),
    ("`function main() { return 0; }", "a function is fn"),
    ("`import random;", "a script is one text"),
    ("fn main() { print 1; `}", "a function ends by a return"),
    (
        "fn main() { if 1 { `return 1; } return 0; }",
        "return stands once",
    ),
    (
        "fn main() { while 1 { print 1; `return 1; } return 0; }",
        "return stands once",
    ),
    (
        "fn main() { if 1 { if 2 { sync; } `return 1; } return 0; }",
        "return stands once",
    ),
    (
        "fn f(n) {\n  if n < 2 {  # the #first\n    # and the second\n    `return n;\n  }\n  return 0;\n}",
        "return stands once",
    ),
    (
        "fn f() { return 0; # and\n `print 1; }",
        "return stands once",
    ),
    ("fn main() { print 1 `return 0; }", ""),
    (
        "fn f() { return 0; } fn main() { print 1 `call f(); return 0; }",
        "",
    ),
    ("fn f() { return 0; `fn main() { return 0; }", ""),
    (
        "fn main() { return 1; `print 2; return 0; }",
        "return stands once",
    ),
    ("fn main() { return`; }", "a function gives a value"),
    ("fn main() { let `new = 1; return 0; }", "a name begins"),
    ("fn `print(x) { return x; }", "a name begins"),
    ("fn f(`new) { return 0; }", "a name begins"),
    ("fn f(a, `older) { return 0; }", "a name begins"),
    ("fn f(a, b,\n  `same) { return 0; }", "a name begins"),
    ("fn f(`in) { return 0; }", "a name begins"),
    ("fn f(id `into) { return 0; }", "a name begins"),
    ("fn f(`2) { return 0; }", "a name begins"),
    ("fn f(int `a) { return 0; }", "parameters are names"),
    ("fn f(a, int `b) { return 0; }", "parameters are names"),
    (
        "fn main() { pfor `in in 0..3 call f(in); return 0; }",
        "a name begins",
    ),
    (
        "fn main() { pfor i in 0..3 into `new call f(i); return 0; }",
        "a name begins",
    ),
    ("fn main() { call `older(1); return 0; }", "a name begins"),
    ("fn main() { spawn `same(1); return 0; }", "a name begins"),
    ("fn main() { call f(`new); return 0; }", "new stands alone"),
    (
        "fn main() { call f(1, `draw); return 0; }",
        "draw stands alone",
    ),
    ("fn main() { `{ sync; } return 0; }", "a block stands"),
    (
        "fn main() { if 1 { sync; } `{ sync; } return 0; }",
        "a block stands",
    ),
    ("fn f(id`) { return 1; }", "id says"),
    ("fn f(a`: int) { return a; }", "a block stands in"),
    ("fn f(a) -> `int { return a; }", "-> id is"),
    ("fn main()`:", "a block stands in"),
    ("`// comment", "a comment begins"),
    ("fn main() { `/* comment */ return 0; }", "a comment begins"),
    (
        "fn main() { let x = 8 /`/ 2; return x; }",
        "a comment begins",
    ),
    (
        "fn main() { let x = 8 >`> 1; return 0; }",
        "there are no shifts",
    ),
    (
        "fn main() { let x = 8 <`< 1; return 0; }",
        "there are no shifts",
    ),
    (
        "fn main() { let x = 8 `& 1; return 0; }",
        "there are no operations on bits",
    ),
    (
        "fn main() { let x = 8 `| 1; return 0; }",
        "there are no operations on bits",
    ),
    (
        "fn main() { let x = 8 `^ 1; return 0; }",
        "there is neither",
    ),
    (
        "fn main() { let x = `~1; return 0; }",
        "there are no operations on bits",
    ),
    (
        "fn main() { let x = 2 *`* 3; return 0; }",
        "there is no power",
    ),
    (
        "fn main() { let x = 1 `? 2 : 3; return 0; }",
        "a choice is an if",
    ),
    ("fn main() { if 1 { sync; }`; return 0; }", "after a block"),
    (
        "`\u{feff}fn main() { return 0; }",
        "the text begins with a byte order mark",
    ),
    (
        "fn main() { print `\u{201c}x\u{201d}; return 0; }",
        "these quotes",
    ),
    (
        "fn main() { let x = 3 `\u{2013} 1; return x; }",
        "this dash",
    ),
    ("fn main() {`\u{a0}return 0; }", "this blank"),
    ("fn main() {`\u{2003}return 0; }", "this blank"),
    ("fn main() {`\u{2009}return 0; }", "this blank"),
    ("fn main() {`\u{200b}return 0; }", "this blank"),
    ("fn main() {`\u{2028}return 0; }", "this blank"),
    ("fn main() {`\u{b}return 0; }", "this blank"),
    ("fn main() {`\u{c}return 0; }", "this blank"),
    (
        "fn main() { print `99999999999999999999; return 0; }",
        "a number is at most",
    ),
];

// The text without its mark, and where that stood.
fn unmarked(alloc: Global, marked: &str) -> Result<(Vec<u8>, usize), Fail> {
    let (before, after) = marked.split_once('`').unwrap_or((marked, ""));
    let mut text = before.as_bytes().to_vec(alloc)?;
    text.extend_from_slice(after.as_bytes())?;
    Ok((text, before.len()))
}

#[test]
fn habits_of_other_languages_are_told_where_a_text_stops(rt: HostRuntime) -> Result<(), Fail> {
    for (at, &(marked, wanted)) in HABITS.iter().enumerate() {
        let (text, place) = unmarked(rt.alloc(), marked)?;
        let (number, stop) = match tree(&rt, rt.alloc(), &text) {
            Err(SyntaxError::Bad { number, at }) => (number, at as usize),
            _ => (0, 0),
        };
        same(&rt, at, stop, place);
        assert!(rt; place <= text.len());
        let said = reason(&text, place, fault_text(number)).unwrap_or("");
        assert!(rt; said.starts_with(wanted), "{marked}: {said}");
        same(&rt, at, said.is_empty(), wanted.is_empty());
    }
    Ok(())
}

#[test]
fn faults_of_valid_text_are_told_what_is_meant(rt: HostRuntime) {
    let text = b"fn main() { let x = true; return 0; }";
    assert_eq!(rt;
        reason(text, 20, "unknown variable"),
        Some("true is 1, and false is 0")
    );
    assert_eq!(rt; reason(text, 16, "unknown variable"), None);
    assert!(rt; reason(text, 16, "pending variable").is_some());
    assert!(rt; reason(text, 12, "let in a block").is_some());
}

// The greatest numbers that docs/LANGUAGE.md has for these faults.
static RANGES: [(&str, &str); 5] = [
    ("array length", "an array has from 1 to 4096 items"),
    ("name too long", "a name has at most 32 bytes"),
    (
        "nested too deep",
        "at most 64 parentheses, brackets, braces and minuses are open at a time",
    ),
    ("too many functions", "a script has at most 1024 functions"),
    (
        "too many variables",
        "a function has at most 256 variables, its parameters and arrays among them",
    ),
];

#[test]
fn what_is_too_much_is_told_its_range(rt: HostRuntime) {
    for &(message, wanted) in &RANGES {
        assert_eq!(rt; reason(b"4097", 0, message), Some(wanted));
    }
}
