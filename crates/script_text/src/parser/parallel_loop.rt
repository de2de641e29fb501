// Parallel loops: `pfor i in E..E into a call f(i, ..);`.

ghost use Rattle.std.specs.Prelude.{◌≡◌, ℕ, ◌≤◌, [], ◌∷◌, length};
ghost use Rattle.script_tokens.specs.declared.token.Word.TheVariants as word;
ghost use Rattle.script_grammar.specs.Grammar.{IsInto};
ghost use Rattle.script_text.specs.Machine.{only, into, loop_args};
ghost use Rattle.script_text.specs.Reads.{Reads, ReadsAct, ReadsBounds, IsLoopCall, Repeats};

use crate::error::SyntaxError;
use crate::parser::call::more_args;
use crate::parser::expression::expr;
use crate::parser::source::{
    LexedText, expect, expect_name, name_in, next, open, rest_after, text, unexpected, zip,
};
use script_grammar::{Act, CallText, Expr, Name};
use script_tokens::{Lexeme, Word};

// A statement that begins with `pfor`.
pub(crate) fn pfor<'t>(
    source: &LexedText<'_>,
    first: Lexeme,
    rest: &'t [Lexeme],
    depth: u8,
) -> Result<(Act, &'t [Lexeme]), SyntaxError>
    requires keyword { first.word ≡ word.Pfor }
    requires depth { depth ≤ 64 }
    ensures { ReadsAct source.now depth first rest.now result }
{
    let Some((lexeme, tail)) = next(rest, Word::Name) else {
        return Err(unexpected(source, rest));
    };
    let var = name_in(source, lexeme)?;
    let (lo, hi, rest) = bounds(source, tail, depth)?;
    let ((lo, hi), (target, rest)) = zip((lo, hi), target(source, rest, depth))?;
    let ((lo, hi, target), (call, rest)) = zip(
        (lo, hi, target),
        loop_call(source, &var, rest, depth),
    )?;
    Ok((
        Act::Pfor {
            var,
            lo,
            hi,
            target,
            call,
        },
        rest,
    ))
}

// `in E..E`
fn bounds<'t>(
    source: &LexedText<'_>,
    tokens: &'t [Lexeme],
    depth: u8,
) -> Result<(Expr, Expr, &'t [Lexeme]), SyntaxError>
    requires { depth ≤ 64 }
    ensures { ReadsBounds source.now depth tokens.now result }
{
    let rest = expect(source, tokens, Word::In, depth)?;
    let (lo, rest) = expr(source, rest, depth)?;
    let (lo, rest) = zip(lo, expect(source, rest, Word::Range, depth))?;
    let (lo, (hi, rest)) = zip(lo, expr(source, rest, depth))?;
    Ok((lo, hi, rest))
}

// `into a`, if it comes.
fn target<'t>(
    source: &LexedText<'_>,
    tokens: &'t [Lexeme],
    depth: u8,
) -> Result<(Option<Name>, &'t [Lexeme]), SyntaxError>
    requires { depth ≤ 64 }
    ensures { Reads IsInto (into ∷ []) source.now depth tokens.now result }
{
    if let Some((_, rest)) = rest_after(tokens, Word::Into) {
        let (name, rest) = expect_name(source, rest, depth)?;
        return Ok((Some(name), rest));
    }
    Ok((None, tokens))
}

// `call f(i, ..);`, where `i` is the loop variable again.
fn loop_call<'t>(
    source: &LexedText<'_>,
    var: &Name,
    tokens: &'t [Lexeme],
    depth: u8,
) -> Result<(CallText, &'t [Lexeme]), SyntaxError>
    requires short { length var.now.bytes ≤ 32 }
    requires depth { depth ≤ 64 }
    ensures { Reads (IsLoopCall var.now.bytes)
        (only word.Call ∷ only word.Name ∷ loop_args var.now.bytes ∷ only word.Semicolon ∷ [])
        source.now depth tokens.now result }
{
    let rest = expect(source, tokens, Word::Call, depth)?;
    let (name, rest) = expect_name(source, rest, depth)?;
    let rest = open(source, rest, Word::Open, depth)?;
    let rest = repeated(source, var, rest, depth + 1)?;
    let (args, rest) = more_args(source, Vec::new(source.alloc), rest, depth + 1)?;
    let rest = expect(source, rest, Word::Close, depth)?;
    let rest = expect(source, rest, Word::Semicolon, depth)?;
    Ok((CallText { name, args }, rest))
}

// What follows the name, which must be repeated here.
fn repeated<'t>(
    source: &LexedText<'_>,
    name: &Name,
    tokens: &'t [Lexeme],
    depth: u8,
) -> Result<&'t [Lexeme], SyntaxError>
    requires short { length name.now.bytes ≤ 32 }
    requires depth { depth ≤ 64 }
    ensures { Repeats name.now.bytes source.now depth tokens.now result }
{
    let Some((lexeme, rest)) = next(tokens, Word::Name) else {
        return Err(unexpected(source, tokens));
    };
    if text(source, lexeme) == name.bytes.as_slice() {
        Ok(rest)
    } else {
        Err(unexpected(source, tokens))
    }
}
