ghost use Rattle.std.specs.Prelude.{◌≡◌, ◌++◌, OnOk, flat_map};
ghost use Rattle.script_print.specs.Canonical.{printed, expr_text, operand, sum_part_text, product_part_text};

use crate::memory::Memory;
use crate::words::{
    comparison_sign, product_sign, sum_sign, write_name, write_number, write_spaced,
};
use script_grammar::{Expr, ProductPart, SumPart};

const COMPARISON: u8 = 1;

const SUM: u8 = 2;

const PRODUCT: u8 = 3;

const NEGATION: u8 = 4;

const ATOM: u8 = 5;

// How strongly an expression binds.
fn precedence(e: &Expr) -> u8
    ensures { result ≡ (printed e.now).precedence }
{
    match e {
        Expr::Compare(_, _, _) => COMPARISON,
        Expr::Sum(_, _) => SUM,
        Expr::Product(_, _) => PRODUCT,
        Expr::Neg(_, _) => NEGATION,
        Expr::Number(_)
        | Expr::Var(_)
        | Expr::Item(_, _)
        | Expr::Same(_, _, _)
        | Expr::Older(_, _, _) => ATOM,
    }
}

#[cycle(expressions)]
#[tactic(auto, using(crate::proofs::Computing::expr_rules))]
pub(crate) fn write_expr(e: &Expr, text: &mut Vec<u8>) -> Result<(), Memory>
    ensures { OnOk result (text.new.items ≡ text.old.items ++ expr_text e.now) }
{
    match e {
        Expr::Number(number) => write_number(*number, text),
        Expr::Var(name) => write_name(name, text),
        Expr::Item(name, index) => {
            write_name(name, text)?;
            write_between(b"[", index.get(), b"]", text)
        }
        Expr::Neg(_, x) => {
            text.push(b'-')?;
            write_operand(NEGATION, x.get(), text)
        }
        Expr::Same(_, x, y) => {
            write_between(b"same(", x.get(), b", ", text)?;
            write_between(b"", y.get(), b")", text)
        }
        Expr::Older(_, x, y) => {
            write_between(b"older(", x.get(), b", ", text)?;
            write_between(b"", y.get(), b")", text)
        }
        Expr::Compare(x, how, y) => {
            write_operand(SUM, x.get(), text)?;
            write_spaced(comparison_sign(*how), text)?;
            write_operand(SUM, y.get(), text)
        }
        Expr::Sum(x, parts) => {
            write_operand(PRODUCT, x.get(), text)?;
            write_sum_parts(parts.as_slice(), text)
        }
        Expr::Product(x, parts) => {
            write_operand(NEGATION, x.get(), text)?;
            write_product_parts(parts.as_slice(), text)
        }
    }
}

// An operand, in parentheses where its precedence is below `need`.
#[cycle(expressions)]
fn write_operand(need: u8, x: &Expr, text: &mut Vec<u8>) -> Result<(), Memory>
    ensures { OnOk result (text.new.items ≡ text.old.items ++ operand need (printed x.now)) }
{
    if precedence(x) < need {
        write_between(b"(", x, b")", text)
    } else {
        write_expr(x, text)
    }
}

#[cycle(expressions)]
fn write_sum_parts(parts: &[SumPart], text: &mut Vec<u8>) -> Result<(), Memory>
    ensures { OnOk result (text.new.items ≡ text.old.items ++ flat_map sum_part_text parts.now) }
{
    for part in parts {
        write_spaced(sum_sign(part.minus), text)?;
        write_operand(PRODUCT, &part.operand, text)?;
    }
    Ok(())
}

#[cycle(expressions)]
fn write_product_parts(parts: &[ProductPart], text: &mut Vec<u8>) -> Result<(), Memory>
    ensures { OnOk result (text.new.items ≡ text.old.items ++ flat_map product_part_text parts.now) }
{
    for part in parts {
        write_spaced(product_sign(part.sign), text)?;
        write_operand(NEGATION, &part.operand, text)?;
    }
    Ok(())
}

// An expression between two texts.
#[cycle(expressions)]
fn write_between(before: &[u8], x: &Expr, after: &[u8], text: &mut Vec<u8>) -> Result<(), Memory>
    ensures { OnOk result (text.new.items ≡ text.old.items ++ before.now ++ expr_text x.now ++ after.now) }
{
    text.extend_from_slice(before)?;
    write_expr(x, text)?;
    text.extend_from_slice(after)?;
    Ok(())
}
