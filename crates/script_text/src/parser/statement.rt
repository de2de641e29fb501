// Statements.

ghost use Rattle.std.specs.Prelude.{◌≡◌, ℕ, ◌≤◌, [], ◌∷◌, true, MatchOption};
ghost use Rattle.script_tokens.specs.declared.token.Word.TheVariants as word;
ghost use Rattle.script_grammar.specs.Grammar.{IsRight, IsStmts, IsBlock, IsElse};
ghost use Rattle.script_text.specs.Machine.{only, right, call_args, after_let, stmts, block, otherwise, expr_then};
ghost use Rattle.script_text.specs.Reads.{Reads, ReadsAct, ReadsElement, IsCallOf, IsEnded, IsSize, IsValueOf, NextIsNot, NoStmt, begins_stmt};

use crate::error::SyntaxError;
use crate::parser::call::call;
use crate::parser::expression::expr;
use crate::parser::parallel_loop::pfor;
use crate::parser::source::{
    LexedText, deeper, expect, expect_name, expect_number, name_in, open, rest_after, unexpected,
    zip,
};
use contract_views::Items;
use script_grammar::{Act, CallText, Expr, Number, Right, Stmt};
use script_tokens::{Lexeme, Word};

// The right side of `let x = ..` and `x = ..`.
fn right_side<'t>(
    source: &LexedText<'_>,
    tokens: &'t [Lexeme],
    depth: u8,
) -> Result<(Right, &'t [Lexeme]), SyntaxError>
    requires { depth ≤ 64 }
    ensures { Reads IsRight (right ∷ []) source.now depth tokens.now result }
{
    let Some((first, rest)) = tokens.split_first() else {
        return Err(unexpected(source, tokens));
    };
    match first.word {
        Word::Draw => Ok((Right::Draw(first.start), rest)),
        Word::New => Ok((Right::New(first.start), rest)),
        Word::Call => {
            let (called, rest) = call(source, rest, depth)?;
            Ok((Right::Call(first.start, called), rest))
        }
        Word::Spawn => {
            let (called, rest) = call(source, rest, depth)?;
            Ok((Right::Spawn(first.start, called), rest))
        }
        _ => {
            let (x, rest) = expr(source, tokens, depth)?;
            Ok((Right::Value(x), rest))
        }
    }
}

// A right side and the semicolon after it.
fn value<'t>(
    source: &LexedText<'_>,
    tokens: &'t [Lexeme],
    depth: u8,
) -> Result<(Right, &'t [Lexeme]), SyntaxError>
    requires { depth ≤ 64 }
    ensures { Reads IsValueOf (right ∷ only word.Semicolon ∷ []) source.now depth tokens.now result }
{
    let (side, rest) = right_side(source, tokens, depth)?;
    zip(side, expect(source, rest, Word::Semicolon, depth))
}

// An expression and the semicolon after it.
pub(crate) fn ended_expr<'t>(
    source: &LexedText<'_>,
    tokens: &'t [Lexeme],
    depth: u8,
) -> Result<(Expr, &'t [Lexeme]), SyntaxError>
    requires { depth ≤ 64 }
    ensures { Reads IsEnded (expr_then (only word.Semicolon ∷ [])) source.now depth tokens.now result }
{
    let (x, rest) = expr(source, tokens, depth)?;
    zip(x, expect(source, rest, Word::Semicolon, depth))
}

// A call and the semicolon after it.
fn ended_call<'t>(
    source: &LexedText<'_>,
    tokens: &'t [Lexeme],
    depth: u8,
) -> Result<(CallText, &'t [Lexeme]), SyntaxError>
    requires { depth ≤ 64 }
    ensures { Reads IsCallOf (only word.Name ∷ call_args ∷ only word.Semicolon ∷ [])
        source.now depth tokens.now result }
{
    let (called, rest) = call(source, tokens, depth)?;
    zip(called, expect(source, rest, Word::Semicolon, depth))
}

// `[n];`, where no `=` comes.
fn array_size<'t>(
    source: &LexedText<'_>,
    tokens: &'t [Lexeme],
    depth: u8,
) -> Result<(Number, &'t [Lexeme]), SyntaxError>
    requires other { NextIsNot word.Assign tokens.now }
    requires depth { depth ≤ 64 }
    ensures { Reads IsSize (after_let ∷ []) source.now depth tokens.now result }
{
    let Some((at, rest)) = rest_after(tokens, Word::OpenItem) else {
        return Err(unexpected(source, tokens));
    };
    let inside = deeper(depth, at)?;
    let (size, rest) = expect_number(source, rest, inside)?;
    let rest = expect(source, rest, Word::CloseItem, depth)?;
    let rest = expect(source, rest, Word::Semicolon, depth)?;
    Ok((size, rest))
}

// `[E] = E;`, where no `=` comes.
fn element<'t>(
    source: &LexedText<'_>,
    tokens: &'t [Lexeme],
    depth: u8,
) -> Result<(Expr, Expr, &'t [Lexeme]), SyntaxError>
    requires other { NextIsNot word.Assign tokens.now }
    requires depth { depth ≤ 64 }
    ensures { ReadsElement source.now depth tokens.now result }
{
    let Some((at, rest)) = rest_after(tokens, Word::OpenItem) else {
        return Err(unexpected(source, tokens));
    };
    let inside = deeper(depth, at)?;
    let (place, rest) = expr(source, rest, inside)?;
    let (place, rest) = zip(place, expect(source, rest, Word::CloseItem, depth))?;
    let (place, rest) = zip(place, expect(source, rest, Word::Assign, depth))?;
    let (place, (x, rest)) = zip(place, ended_expr(source, rest, depth))?;
    Ok((place, x, rest))
}

// A statement that begins with `let`.
fn declaration<'t>(
    source: &LexedText<'_>,
    first: Lexeme,
    rest: &'t [Lexeme],
    depth: u8,
) -> Result<(Act, &'t [Lexeme]), SyntaxError>
    requires keyword { first.word ≡ word.Let }
    requires depth { depth ≤ 64 }
    ensures { ReadsAct source.now depth first rest.now result }
{
    let (name, rest) = expect_name(source, rest, depth)?;
    if let Some((_, rest)) = rest_after(rest, Word::Assign) {
        let (side, rest) = value(source, rest, depth)?;
        return Ok((Act::Let(name, side), rest));
    }
    let (size, rest) = array_size(source, rest, depth)?;
    Ok((Act::Array(name, size), rest))
}

// A statement that begins with a name.
fn assignment<'t>(
    source: &LexedText<'_>,
    first: Lexeme,
    rest: &'t [Lexeme],
    depth: u8,
) -> Result<(Act, &'t [Lexeme]), SyntaxError>
    requires name { first.word ≡ word.Name }
    requires depth { depth ≤ 64 }
    ensures { ReadsAct source.now depth first rest.now result }
{
    let name = name_in(source, first)?;
    if let Some((_, rest)) = rest_after(rest, Word::Assign) {
        let (side, rest) = value(source, rest, depth)?;
        return Ok((Act::Set(name, side), rest));
    }
    let (place, x, rest) = element(source, rest, depth)?;
    Ok((Act::Store(name, place, x), rest))
}

fn begins_statement(word: Word) -> bool
    ensures { result ≡ begins_stmt word }
{
    matches!(
        word,
        Word::Let
            | Word::Name
            | Word::Spawn
            | Word::Call
            | Word::Sync
            | Word::Print
            | Word::If
            | Word::While
            | Word::Pfor
            | Word::Scope
    )
}

// The first lexeme of a statement and what follows it, where a statement begins.
fn next_stmt(tokens: &[Lexeme]) -> Option<(Lexeme, &[Lexeme])>
    ensures { MatchOption result (NoStmt tokens.now)
        (λ p. (tokens.now ≡ p.0 ∷ p.1.now) × (begins_stmt p.0.word ≡ true)) }
{
    let (first, rest) = tokens.split_first()?;
    if begins_statement(first.word) {
        Some((*first, rest))
    } else {
        None
    }
}

#[cycle(statements)]
pub(crate) fn stmts<'t>(
    source: &LexedText<'_>,
    tokens: &'t [Lexeme],
    depth: u8,
) -> Result<(Items<Stmt>, &'t [Lexeme]), SyntaxError>
    requires { depth ≤ 64 }
    ensures { Reads IsStmts (stmts ∷ []) source.now depth tokens.now result }
{
    let mut found = Vec::new(source.alloc);
    let mut left = tokens;
    while let Some((first, rest)) = next_stmt(left) {
        let (act, rest) = act(source, first, rest, depth)?;
        found.push(Stmt {
            at: first.start,
            act,
        })?;
        left = rest;
    }
    Ok((Items(found), left))
}

// A statement, chosen by its first lexeme.
#[cycle(statements)]
fn act<'t>(
    source: &LexedText<'_>,
    first: Lexeme,
    rest: &'t [Lexeme],
    depth: u8,
) -> Result<(Act, &'t [Lexeme]), SyntaxError>
    requires begins { begins_stmt first.word ≡ true }
    requires depth { depth ≤ 64 }
    ensures { ReadsAct source.now depth first rest.now result }
{
    match first.word {
        Word::Let => declaration(source, first, rest, depth),
        Word::Name => assignment(source, first, rest, depth),
        Word::Spawn => {
            let (called, rest) = ended_call(source, rest, depth)?;
            Ok((Act::Spawn(called), rest))
        }
        Word::Call => {
            let (called, rest) = ended_call(source, rest, depth)?;
            Ok((Act::Call(called), rest))
        }
        Word::Sync => {
            let rest = expect(source, rest, Word::Semicolon, depth)?;
            Ok((Act::Sync, rest))
        }
        Word::Print => {
            let (x, rest) = ended_expr(source, rest, depth)?;
            Ok((Act::Print(x), rest))
        }
        Word::If => choice(source, first, rest, depth),
        Word::While => repetition(source, first, rest, depth),
        Word::Scope => level(source, first, rest, depth),
        _ => pfor(source, first, rest, depth),
    }
}

// A statement that begins with `if`.
#[cycle(statements)]
fn choice<'t>(
    source: &LexedText<'_>,
    first: Lexeme,
    rest: &'t [Lexeme],
    depth: u8,
) -> Result<(Act, &'t [Lexeme]), SyntaxError>
    requires keyword { first.word ≡ word.If }
    requires depth { depth ≤ 64 }
    ensures { ReadsAct source.now depth first rest.now result }
{
    let (condition, rest) = expr(source, rest, depth)?;
    let (condition, (then, rest)) = zip(condition, block(source, rest, depth))?;
    let ((condition, then), (other, rest)) = zip(
        (condition, then),
        otherwise(source, rest, depth),
    )?;
    Ok((Act::If(condition, then, other), rest))
}

// A statement that begins with `while`.
#[cycle(statements)]
fn repetition<'t>(
    source: &LexedText<'_>,
    first: Lexeme,
    rest: &'t [Lexeme],
    depth: u8,
) -> Result<(Act, &'t [Lexeme]), SyntaxError>
    requires keyword { first.word ≡ word.While }
    requires depth { depth ≤ 64 }
    ensures { ReadsAct source.now depth first rest.now result }
{
    let (condition, rest) = expr(source, rest, depth)?;
    let (condition, (body, rest)) = zip(condition, block(source, rest, depth))?;
    Ok((Act::While(condition, body), rest))
}

// A statement that begins with `scope`.
#[cycle(statements)]
fn level<'t>(
    source: &LexedText<'_>,
    first: Lexeme,
    rest: &'t [Lexeme],
    depth: u8,
) -> Result<(Act, &'t [Lexeme]), SyntaxError>
    requires keyword { first.word ≡ word.Scope }
    requires depth { depth ≤ 64 }
    ensures { ReadsAct source.now depth first rest.now result }
{
    let (body, rest) = block(source, rest, depth)?;
    Ok((Act::Scope(body), rest))
}

#[cycle(statements)]
fn block<'t>(
    source: &LexedText<'_>,
    tokens: &'t [Lexeme],
    depth: u8,
) -> Result<(Items<Stmt>, &'t [Lexeme]), SyntaxError>
    requires { depth ≤ 64 }
    ensures { Reads IsBlock (block ∷ []) source.now depth tokens.now result }
{
    let rest = open(source, tokens, Word::OpenBlock, depth)?;
    let (body, rest) = stmts(source, rest, depth + 1)?;
    let rest = expect(source, rest, Word::CloseBlock, depth)?;
    Ok((body, rest))
}

// The block after `else`. Where there is no `else`, it is empty.
#[cycle(statements)]
fn otherwise<'t>(
    source: &LexedText<'_>,
    tokens: &'t [Lexeme],
    depth: u8,
) -> Result<(Items<Stmt>, &'t [Lexeme]), SyntaxError>
    requires { depth ≤ 64 }
    ensures { Reads IsElse (otherwise ∷ []) source.now depth tokens.now result }
{
    if let Some((_, rest)) = rest_after(tokens, Word::Else) {
        let (body, rest) = block(source, rest, depth)?;
        return Ok((body, rest));
    }
    Ok((Items(Vec::new(source.alloc)), tokens))
}
