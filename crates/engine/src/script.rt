// Reads scripts.

ghost use Rattle.std.specs.Prelude.{◌≡◌, ◌≤◌, ⊤, length, IfErr, IfOk};
ghost use Rattle.script_check.specs.Valid.{IsValid};
ghost use Rattle.script_grammar.specs.Text.{Text};
ghost use Rattle.script_grammar.specs.declared.tree.Script.{Script as ScriptTree};
ghost use Rattle.engine.specs.Promise.{most_bytes};
ghost use Rattle.engine.specs.Refusal.{IsRejection};

use crate::refusal::{Refusal, check_refusal, syntax_refusal};
use script_check::{CheckError, Checked, check};
use script_grammar::Script;
use script_text::{SyntaxError, parse};
use std::alloc::Global;

/// The script with this text. The refusal is `Rejected` with the line of the text's first fault, or `Memory`.
pub fn any_script(alloc: Global, bytes: &[u8]) -> Result<Script, Refusal>
    requires { length bytes.now ≤ most_bytes }
    ensures script { IfOk result (Text bytes.now) }
    ensures refused { IfErr result (IsRejection (λ script. ⊤) bytes.now) }
    ensures one_script { (first second : ScriptTree) → Text bytes.now first → Text bytes.now second
        → first ≡ second }
{
    match parse(alloc, bytes) {
        Ok(script) => Ok(script),
        Err(SyntaxError::Bad { number, at }) => Err(syntax_refusal(alloc, number, at)),
        Err(SyntaxError::Memory) => Err(Refusal::Memory),
    }
}

/// The script with this text, if it is valid. The refusal is `Rejected` with the line of the text's first fault or of
/// the first condition that the script violates, or `Memory`.
pub fn valid_script(alloc: Global, bytes: &[u8]) -> Result<Checked, Refusal>
    requires { length bytes.now ≤ most_bytes }
    ensures script { IfOk result (Text bytes.now) }
    ensures valid { IfOk result IsValid }
    ensures refused { IfErr result (IsRejection IsValid bytes.now) }
    ensures one_script { (first second : ScriptTree) → Text bytes.now first → Text bytes.now second
        → first ≡ second }
{
    let script = any_script(alloc, bytes)?;
    match check(alloc, script) {
        Ok(checked) => Ok(checked),
        Err(CheckError::Bad { number, at }) => Err(check_refusal(alloc, number, at)),
        Err(CheckError::Memory) => Err(Refusal::Memory),
    }
}
