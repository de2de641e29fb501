// Lines of the error output that name a position or a pedigree.

ghost use Rattle.std.specs.Prelude.{◌≡◌, ◌++◌, IfOk, codes, string_bytes};
ghost use Rattle.ped_path.specs.Text.{ped_text};
ghost use Rattle.engine.specs.Lines.{blocked_line, check_line, no_strand_line, syntax_line, words_line};

use ped_path::{Pedigree, write_pedigree};
use ped_words::rule_text;
use script_check::condition_text;
use script_text::fault_text;
use serial_meaning::Memory;
use std::alloc::{AllocError, Global};

/// `words: TEXT at word I`, for a rule that the words break.
pub fn words_line(alloc: Global, number: u8, at: u32) -> Result<String, AllocError>
    ensures { IfOk result (λ line. string_bytes line ≡ words_line number at) }
{
    let text = rule_text(number);
    format!(in alloc; "words: {text} at word {at}\n")
}

/// `script: TEXT at byte O`, for the first fault of a text.
pub fn syntax_line(alloc: Global, number: u8, at: u32) -> Result<String, AllocError>
    ensures { IfOk result (λ line. string_bytes line ≡ syntax_line number at) }
{
    let text = fault_text(number);
    format!(in alloc; "script: {text} at byte {at}\n")
}

/// `script: TEXT at byte O`, for the first condition that a script violates.
pub fn check_line(alloc: Global, number: u8, at: u32) -> Result<String, AllocError>
    ensures { IfOk result (λ line. string_bytes line ≡ check_line number at) }
{
    let text = condition_text(number);
    format!(in alloc; "script: {text} at byte {at}\n")
}

fn pedigree_line(alloc: Global, text: &[u8], at: &Pedigree) -> Result<Vec<u8>, Memory>
    ensures { IfOk result (λ line. line.items ≡ text.now ++ ped_text at.now ++ codes "\n") }
{
    let mut line = text.to_vec(alloc)?;
    write_pedigree(at, &mut line)?;
    line.push(b'\n')?;
    Ok(line)
}

/// `no strand J`, for a pedigree that no strand has.
pub fn no_strand_line(alloc: Global, at: &Pedigree) -> Result<Vec<u8>, Memory>
    ensures { IfOk result (λ line. line.items ≡ no_strand_line at.now) }
{
    pedigree_line(alloc, b"no strand ", at)
}

/// `blocked by fault F`, for a strand that a fault with this pedigree comes before.
pub fn blocked_line(alloc: Global, at: &Pedigree) -> Result<Vec<u8>, Memory>
    ensures { IfOk result (λ line. line.items ≡ blocked_line at.now) }
{
    pedigree_line(alloc, b"blocked by fault ", at)
}
