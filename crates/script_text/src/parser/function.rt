// Functions, and whole scripts.

ghost use Rattle.std.specs.Prelude.{◌≡◌, ℕ, ◌≤◌, ◌<◌, [], ◌∷◌};
ghost use Rattle.script_tokens.specs.declared.token.Word.TheVariants as word;
ghost use Rattle.script_grammar.specs.Grammar.{IsParam, IsAnswerKind};
ghost use Rattle.script_text.specs.Machine.{only, param, params, more_params, param_list, answer, body};
ghost use Rattle.script_text.specs.Reads.{Reads, ReadsBody, ReadsFunctions, AddsParams, IsParamList, IsRestOfFunction, Judges};

use crate::error::SyntaxError;
use crate::fault::TextFault;
use crate::parser::source::{LexedText, expect, expect_name, open, rest_after, unexpected, zip};
use crate::parser::statement::{ended_expr, stmts};
use contract_views::Items;
use script_grammar::{Expr, Function, Kind, Param, Script, Stmt};
use script_tokens::{LexEnd, Lexeme, Word};

const MOST_FUNCTIONS: usize = 1024;

fn param<'t>(
    source: &LexedText<'_>,
    tokens: &'t [Lexeme],
    depth: u8,
) -> Result<(Param, &'t [Lexeme]), SyntaxError>
    requires { depth ≤ 64 }
    ensures { Reads IsParam (param ∷ []) source.now depth tokens.now result }
{
    if let Some((_, rest)) = rest_after(tokens, Word::Id) {
        let (name, rest) = expect_name(source, rest, depth)?;
        return Ok((
            Param {
                kind: Kind::Id,
                name,
            },
            rest,
        ));
    }
    let (name, rest) = expect_name(source, tokens, depth)?;
    Ok((
        Param {
            kind: Kind::Int,
            name,
        },
        rest,
    ))
}

// What follows a parameter: more of them, each after a comma. They are added to those read before.
fn more_params<'t>(
    source: &LexedText<'_>,
    mut found: Vec<Param>,
    tokens: &'t [Lexeme],
    depth: u8,
) -> Result<(Items<Param>, &'t [Lexeme]), SyntaxError>
    requires { depth ≤ 64 }
    ensures { Reads (AddsParams found.items) (more_params ∷ []) source.now depth tokens.now result }
{
    let mut left = tokens;
    while let Some((_, rest)) = rest_after(left, Word::Comma) {
        let (next, rest) = param(source, rest, depth)?;
        found.push(next)?;
        left = rest;
    }
    Ok((Items(found), left))
}

// The parameters after an opening parenthesis, and the closing one.
fn params<'t>(
    source: &LexedText<'_>,
    tokens: &'t [Lexeme],
    depth: u8,
) -> Result<(Items<Param>, &'t [Lexeme]), SyntaxError>
    requires { depth < 64 }
    ensures { Reads IsParamList (params ∷ only word.Close ∷ []) source.now depth tokens.now result }
{
    let mut found = Vec::new(source.alloc);
    if let Some((_, rest)) = rest_after(tokens, Word::Close) {
        return Ok((Items(found), rest));
    }
    let (first, rest) = param(source, tokens, depth + 1)?;
    found.push(first)?;
    let (all, rest) = more_params(source, found, rest, depth + 1)?;
    let rest = expect(source, rest, Word::Close, depth)?;
    Ok((all, rest))
}

// `-> id`, if it comes.
fn answer_kind<'t>(
    source: &LexedText<'_>,
    tokens: &'t [Lexeme],
    depth: u8,
) -> Result<(Kind, &'t [Lexeme]), SyntaxError>
    requires { depth ≤ 64 }
    ensures { Reads IsAnswerKind (answer ∷ []) source.now depth tokens.now result }
{
    if let Some((_, rest)) = rest_after(tokens, Word::Arrow) {
        let rest = expect(source, rest, Word::Id, depth)?;
        return Ok((Kind::Id, rest));
    }
    Ok((Kind::Int, tokens))
}

// `{ .. return E; }`: the statements, the offset of `return`, and what it returns.
fn body<'t>(
    source: &LexedText<'_>,
    tokens: &'t [Lexeme],
    depth: u8,
) -> Result<(Items<Stmt>, u32, Expr, &'t [Lexeme]), SyntaxError>
    requires { depth ≤ 64 }
    ensures { ReadsBody source.now depth tokens.now result }
{
    let rest = open(source, tokens, Word::OpenBlock, depth)?;
    let (acts, rest) = stmts(source, rest, depth + 1)?;
    let Some((return_at, tail)) = rest_after(rest, Word::Return) else {
        return Err(unexpected(source, rest));
    };
    let (x, rest) = ended_expr(source, tail, depth + 1)?;
    let (x, rest) = zip(x, expect(source, rest, Word::CloseBlock, depth))?;
    Ok((acts, return_at, x, rest))
}

// What follows `fn`.
fn function<'t>(
    source: &LexedText<'_>,
    tokens: &'t [Lexeme],
) -> Result<(Function, &'t [Lexeme]), SyntaxError>
    ensures { Reads IsRestOfFunction (only word.Name ∷ param_list ∷ answer ∷ body ∷ [])
        source.now 0 tokens.now result }
{
    let (name, rest) = expect_name(source, tokens, 0)?;
    let rest = open(source, rest, Word::Open, 0)?;
    let (params, rest) = params(source, rest, 0)?;
    let (answer, rest) = answer_kind(source, rest, 0)?;
    let (body, return_at, result, rest) = body(source, rest, 0)?;
    Ok((
        Function {
            name,
            params,
            answer,
            body,
            return_at,
            result,
        },
        rest,
    ))
}

fn functions<'t>(
    source: &LexedText<'_>,
    tokens: &'t [Lexeme],
) -> Result<(Items<Function>, &'t [Lexeme]), SyntaxError>
    ensures { ReadsFunctions source.now tokens.now result }
{
    let mut found = Vec::new(source.alloc);
    let mut left = tokens;
    while let Some((at, rest)) = rest_after(left, Word::Fn) {
        if found.len() >= MOST_FUNCTIONS {
            return Err(TextFault::TooManyFunctions.at(at));
        }
        let (next, rest) = function(source, rest)?;
        found.push(next)?;
        left = rest;
    }
    Ok((Items(found), left))
}

pub(crate) fn script(source: &LexedText<'_>, tokens: &[Lexeme]) -> Result<Script, SyntaxError>
    ensures { Judges source.now tokens.now result }
{
    let (functions, rest) = functions(source, tokens)?;
    if !rest.is_empty() {
        return Err(unexpected(source, rest));
    }
    match source.stop {
        LexEnd::End => Ok(Script {
            version: source.version,
            functions,
        }),
        _ => Err(unexpected(source, rest)),
    }
}
