// Calls and their arguments.

ghost use Rattle.std.specs.Prelude.{ℕ, ◌≤◌, ◌<◌, [], ◌∷◌};
ghost use Rattle.script_tokens.specs.declared.token.Word.TheVariants as word;
ghost use Rattle.script_grammar.specs.Grammar.{IsCall};
ghost use Rattle.script_text.specs.Machine.{only, args, more_args, call_args};
ghost use Rattle.script_text.specs.Reads.{Reads, AddsArgs, IsArguments};

use crate::error::SyntaxError;
use crate::parser::expression::expr;
use crate::parser::source::{LexedText, expect, expect_name, open, rest_after};
use contract_views::Items;
use script_grammar::{CallText, Expr};
use script_tokens::{Lexeme, Word};

// What follows an argument: more of them, each after a comma. They are added to those read before.
pub(crate) fn more_args<'t>(
    source: &LexedText<'_>,
    mut found: Vec<Expr>,
    tokens: &'t [Lexeme],
    depth: u8,
) -> Result<(Items<Expr>, &'t [Lexeme]), SyntaxError>
    requires { depth ≤ 64 }
    ensures { Reads (AddsArgs found.items) (more_args ∷ []) source.now depth tokens.now result }
{
    let mut left = tokens;
    while let Some((_, rest)) = rest_after(left, Word::Comma) {
        let (x, rest) = expr(source, rest, depth)?;
        found.push(x)?;
        left = rest;
    }
    Ok((Items(found), left))
}

// The arguments after an opening parenthesis, and the closing one.
fn arguments<'t>(
    source: &LexedText<'_>,
    tokens: &'t [Lexeme],
    depth: u8,
) -> Result<(Items<Expr>, &'t [Lexeme]), SyntaxError>
    requires { depth < 64 }
    ensures { Reads IsArguments (args ∷ only word.Close ∷ []) source.now depth tokens.now result }
{
    let mut found = Vec::new(source.alloc);
    if let Some((_, rest)) = rest_after(tokens, Word::Close) {
        return Ok((Items(found), rest));
    }
    let (x, rest) = expr(source, tokens, depth + 1)?;
    found.push(x)?;
    let (args, rest) = more_args(source, found, rest, depth + 1)?;
    let rest = expect(source, rest, Word::Close, depth)?;
    Ok((args, rest))
}

pub(crate) fn call<'t>(
    source: &LexedText<'_>,
    tokens: &'t [Lexeme],
    depth: u8,
) -> Result<(CallText, &'t [Lexeme]), SyntaxError>
    requires { depth ≤ 64 }
    ensures { Reads IsCall (only word.Name ∷ call_args ∷ []) source.now depth tokens.now result }
{
    let (name, rest) = expect_name(source, tokens, depth)?;
    let rest = open(source, rest, Word::Open, depth)?;
    let (args, rest) = arguments(source, rest, depth)?;
    Ok((CallText { name, args }, rest))
}
