// Expressions.

ghost use Rattle.std.specs.Prelude.{◌≡◌, ℕ, ◌≤◌, [], ◌∷◌, IfOk, MatchOption};
ghost use Rattle.script_grammar.specs.Grammar.{IsFactor, IsFactors, IsTerm, IsTerms, IsSum, IsExpr, IsSumSign, IsProductSign, IsComparison, sum_of, product_of};
ghost use Rattle.script_text.specs.Machine.{factor, more_factors, more_terms, comparison, pair, sum_then, expr_then};
ghost use Rattle.script_text.specs.Reads.{Reads, ReadsPair, Signs, SignNext};
ghost use Rattle.script_tokens.specs.declared.token.Word.TheVariants as word;

use crate::error::SyntaxError;
use crate::parser::source::{
    LexedText, deeper, expect, name_in, number_node, open, rest_after, unexpected, zip,
};
use contract_views::{Boxed, Items};
use script_grammar::{Comparison, Expr, ProductPart, ProductSign, SumPart};
use script_tokens::{Lexeme, Word};
use std::alloc::{AllocError, Global};

fn comparison_of(word: Word) -> Option<Comparison>
    ensures { Signs comparison IsComparison word result }
{
    match word {
        Word::Eq => Some(Comparison::Eq),
        Word::Ne => Some(Comparison::Ne),
        Word::Lt => Some(Comparison::Lt),
        Word::Le => Some(Comparison::Le),
        Word::Gt => Some(Comparison::Gt),
        Word::Ge => Some(Comparison::Ge),
        _ => None,
    }
}

fn sum_sign_of(word: Word) -> Option<bool>
    ensures { Signs more_terms IsSumSign word result }
{
    match word {
        Word::Plus => Some(false),
        Word::Minus => Some(true),
        _ => None,
    }
}

fn product_sign_of(word: Word) -> Option<ProductSign>
    ensures { Signs more_factors IsProductSign word result }
{
    match word {
        Word::Times => Some(ProductSign::Times),
        Word::Over => Some(ProductSign::Over),
        Word::Modulo => Some(ProductSign::Modulo),
        _ => None,
    }
}

fn next_comparison(tokens: &[Lexeme]) -> Option<(Comparison, &[Lexeme])>
    ensures { SignNext comparison IsComparison tokens.now result }
{
    let (first, rest) = tokens.split_first()?;
    Some((comparison_of(first.word)?, rest))
}

// Whether the sign is a minus.
fn next_sum_sign(tokens: &[Lexeme]) -> Option<(bool, &[Lexeme])>
    ensures { SignNext more_terms IsSumSign tokens.now result }
{
    let (first, rest) = tokens.split_first()?;
    Some((sum_sign_of(first.word)?, rest))
}

fn next_product_sign(tokens: &[Lexeme]) -> Option<(ProductSign, &[Lexeme])>
    ensures { SignNext more_factors IsProductSign tokens.now result }
{
    let (first, rest) = tokens.split_first()?;
    Some((product_sign_of(first.word)?, rest))
}

// A sum of one operand is that operand.
fn joined_sum(alloc: Global, first: Expr, others: Items<SumPart>) -> Result<Expr, AllocError>
    ensures { IfOk result (λ x. x ≡ sum_of first others) }
{
    if others.as_slice().is_empty() {
        return Ok(first);
    }
    Ok(Expr::Sum(Boxed(Box::new(alloc, first)?), others))
}

fn joined_product(
    alloc: Global,
    first: Expr,
    others: Items<ProductPart>,
) -> Result<Expr, AllocError>
    ensures { IfOk result (λ x. x ≡ product_of first others) }
{
    if others.as_slice().is_empty() {
        return Ok(first);
    }
    Ok(Expr::Product(Boxed(Box::new(alloc, first)?), others))
}

#[cycle(expressions)]
pub(crate) fn expr<'t>(
    source: &LexedText<'_>,
    tokens: &'t [Lexeme],
    depth: u8,
) -> Result<(Expr, &'t [Lexeme]), SyntaxError>
    requires { depth ≤ 64 }
    ensures { Reads IsExpr (expr_then []) source.now depth tokens.now result }
{
    let (left, rest) = sum(source, tokens, depth)?;
    let Some((sign, tail)) = next_comparison(rest) else {
        return Ok((left, rest));
    };
    let left = Boxed(Box::new(source.alloc, left)?);
    let (right, rest) = sum(source, tail, depth)?;
    let right = Boxed(Box::new(source.alloc, right)?);
    Ok((Expr::Compare(left, sign, right), rest))
}

#[cycle(expressions)]
fn sum<'t>(
    source: &LexedText<'_>,
    tokens: &'t [Lexeme],
    depth: u8,
) -> Result<(Expr, &'t [Lexeme]), SyntaxError>
    requires { depth ≤ 64 }
    ensures { Reads IsSum (sum_then []) source.now depth tokens.now result }
{
    let (first, rest) = term(source, tokens, depth)?;
    let (first, (others, rest)) = zip(first, more_terms(source, rest, depth))?;
    Ok((joined_sum(source.alloc, first, others)?, rest))
}

#[cycle(expressions)]
fn more_terms<'t>(
    source: &LexedText<'_>,
    tokens: &'t [Lexeme],
    depth: u8,
) -> Result<(Items<SumPart>, &'t [Lexeme]), SyntaxError>
    requires { depth ≤ 64 }
    ensures { Reads IsTerms (more_terms ∷ []) source.now depth tokens.now result }
{
    let mut found = Vec::new(source.alloc);
    let mut left = tokens;
    while let Some((minus, rest)) = next_sum_sign(left) {
        let (operand, rest) = term(source, rest, depth)?;
        found.push(SumPart { minus, operand })?;
        left = rest;
    }
    Ok((Items(found), left))
}

#[cycle(expressions)]
fn term<'t>(
    source: &LexedText<'_>,
    tokens: &'t [Lexeme],
    depth: u8,
) -> Result<(Expr, &'t [Lexeme]), SyntaxError>
    requires { depth ≤ 64 }
    ensures { Reads IsTerm (factor ∷ more_factors ∷ []) source.now depth tokens.now result }
{
    let (first, rest) = factor(source, tokens, depth)?;
    let (first, (others, rest)) = zip(first, more_factors(source, rest, depth))?;
    Ok((joined_product(source.alloc, first, others)?, rest))
}

#[cycle(expressions)]
fn more_factors<'t>(
    source: &LexedText<'_>,
    tokens: &'t [Lexeme],
    depth: u8,
) -> Result<(Items<ProductPart>, &'t [Lexeme]), SyntaxError>
    requires { depth ≤ 64 }
    ensures { Reads IsFactors (more_factors ∷ []) source.now depth tokens.now result }
{
    let mut found = Vec::new(source.alloc);
    let mut left = tokens;
    while let Some((sign, rest)) = next_product_sign(left) {
        let (operand, rest) = factor(source, rest, depth)?;
        found.push(ProductPart { sign, operand })?;
        left = rest;
    }
    Ok((Items(found), left))
}

#[cycle(expressions)]
fn factor<'t>(
    source: &LexedText<'_>,
    tokens: &'t [Lexeme],
    depth: u8,
) -> Result<(Expr, &'t [Lexeme]), SyntaxError>
    requires { depth ≤ 64 }
    ensures { Reads IsFactor (factor ∷ []) source.now depth tokens.now result }
{
    let Some((first, rest)) = tokens.split_first() else {
        return Err(unexpected(source, tokens));
    };
    match first.word {
        Word::Number => Ok((Expr::Number(number_node(source, *first)?), rest)),
        Word::Name => name_or_item(source, *first, rest, depth),
        Word::Minus => negation(source, *first, rest, depth),
        Word::Open => group(source, *first, rest, depth),
        Word::Same => {
            let (x, y, rest) = operands(source, rest, depth)?;
            Ok((Expr::Same(first.start, x, y), rest))
        }
        Word::Older => {
            let (x, y, rest) = operands(source, rest, depth)?;
            Ok((Expr::Older(first.start, x, y), rest))
        }
        _ => Err(unexpected(source, tokens)),
    }
}

// A factor that begins with a name; `rest` follows the name.
#[cycle(expressions)]
fn name_or_item<'t>(
    source: &LexedText<'_>,
    first: Lexeme,
    rest: &'t [Lexeme],
    depth: u8,
) -> Result<(Expr, &'t [Lexeme]), SyntaxError>
    requires name { first.word ≡ word.Name }
    requires depth { depth ≤ 64 }
    ensures { Reads IsFactor (factor ∷ []) source.now depth (first ∷ rest.now) result }
{
    let name = name_in(source, first)?;
    let Some((at, tail)) = rest_after(rest, Word::OpenItem) else {
        return Ok((Expr::Var(name), rest));
    };
    let inside = deeper(depth, at)?;
    let (place, rest) = expr(source, tail, inside)?;
    let (place, rest) = zip(place, expect(source, rest, Word::CloseItem, depth))?;
    let place = Boxed(Box::new(source.alloc, place)?);
    Ok((Expr::Item(name, place), rest))
}

// A factor that begins with a minus.
#[cycle(expressions)]
fn negation<'t>(
    source: &LexedText<'_>,
    first: Lexeme,
    rest: &'t [Lexeme],
    depth: u8,
) -> Result<(Expr, &'t [Lexeme]), SyntaxError>
    requires minus { first.word ≡ word.Minus }
    requires depth { depth ≤ 64 }
    ensures { Reads IsFactor (factor ∷ []) source.now depth (first ∷ rest.now) result }
{
    let inside = deeper(depth, first.start)?;
    let (operand, rest) = factor(source, rest, inside)?;
    let operand = Boxed(Box::new(source.alloc, operand)?);
    Ok((Expr::Neg(first.start, operand), rest))
}

// A factor that begins with a parenthesis.
#[cycle(expressions)]
fn group<'t>(
    source: &LexedText<'_>,
    first: Lexeme,
    rest: &'t [Lexeme],
    depth: u8,
) -> Result<(Expr, &'t [Lexeme]), SyntaxError>
    requires open { first.word ≡ word.Open }
    requires depth { depth ≤ 64 }
    ensures { Reads IsFactor (factor ∷ []) source.now depth (first ∷ rest.now) result }
{
    let inside = deeper(depth, first.start)?;
    let (x, rest) = expr(source, rest, inside)?;
    zip(x, expect(source, rest, Word::Close, depth))
}

// The operands of `same` and `older`.
#[cycle(expressions)]
fn operands<'t>(
    source: &LexedText<'_>,
    tokens: &'t [Lexeme],
    depth: u8,
) -> Result<(Boxed<Expr>, Boxed<Expr>, &'t [Lexeme]), SyntaxError>
    requires { depth ≤ 64 }
    ensures { ReadsPair source.now depth tokens.now result }
{
    let rest = open(source, tokens, Word::Open, depth)?;
    let (x, rest) = expr(source, rest, depth + 1)?;
    let (x, rest) = zip(x, expect(source, rest, Word::Comma, depth + 1))?;
    let x = Boxed(Box::new(source.alloc, x)?);
    let (y, rest) = expr(source, rest, depth + 1)?;
    let (y, rest) = zip(y, expect(source, rest, Word::Close, depth))?;
    let y = Boxed(Box::new(source.alloc, y)?);
    Ok((x, y, rest))
}
