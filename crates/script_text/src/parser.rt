// From the lexemes of a text to its tree, by recursive descent.

mod call;
mod expression;
mod function;
mod parallel_loop;
mod source;
mod statement;

ghost use Rattle.std.specs.Prelude.{◌≡◌, ◌≢◌, ℕ, ◌≤◌, length, Err, IfOk};
ghost use Rattle.script_tokens.specs.declared.lexing.TheConstants.{MAX_BYTES};
ghost use Rattle.script_grammar.specs.declared.tree.Script.{Script};
ghost use Rattle.script_grammar.specs.Text.{Text, SyntaxFault};
ghost use Rattle.script_text.specs.NextAnswer.{NextAnswer};

use crate::error::SyntaxError;
use crate::fault::TextFault;
use crate::parser::function::script;
use crate::parser::source::LexedText;
use script_grammar::Script;
use script_tokens::{MAX_BYTES, Token, TokenError, Version, lexemes};
use std::alloc::Global;

/// The tree of a script.
///
/// The text is at most [`MAX_BYTES`] long. It is of version 2 where it begins with the line `version 2`, and else of version 1
/// ([`Version`]); offsets count from its first byte in both. The result is the tree exactly for the texts of the grammar within the
/// limits: names of at most 32 bytes, numbers up to 9223372036854775807, at most 1024 functions, and at most 64 open brackets and
/// unary minuses at once. There is never more than one tree.
///
/// [`SyntaxError::Bad`] names the first fault, and nothing after it is judged. A token is unexpected where no script of the
/// version begins with the tokens before it and this one; limits are judged only of a token that is expected.
/// [`SyntaxError::Memory`] says that memory ran out.
///
/// The time is linear in the length of the text; the call stack is bounded by the limit of the nesting.
pub fn parse(alloc: Global, bytes: &[u8]) -> Result<Script, SyntaxError>
    requires { length bytes.now ≤ MAX_BYTES }
    ensures ok { IfOk result (λ tree. Text bytes.now tree) }
    ensures bad { (number at : ℕ) → result ≡ Err (SyntaxError.Bad number at)
        → SyntaxFault bytes.now number at }

    // The text of a script is never refused, and has one tree.
    ensures only { (tree : Script) (number at : ℕ) → Text bytes.now tree
        → result ≢ Err (SyntaxError.Bad number at) }
    ensures one_tree { (first second : Script) → Text bytes.now first → Text bytes.now second
        → first ≡ second }
{
    let lexed = lexemes(alloc, bytes)?;
    let source = LexedText {
        alloc,
        bytes,
        version: lexed.version,
        end: bytes.len() as u32,
        stop: lexed.stop,
    };
    script(&source, lexed.lexemes.as_slice())
}

/// The next token of a version from the offset `from` on, after blanks and comments. Where none follows it is `End`, which begins
/// and ends at the length of the text. An offset inside a token is taken as the start of a text: what follows is judged from there
/// on. The call takes no memory, and its error is never [`SyntaxError::Memory`].
///
/// The error is `Bad` 1 exactly where a byte from 128 on is among these blanks and comments or right after them, at the first such
/// byte, and else `Bad` 2 exactly where right after them is a byte with which no token begins, at that byte. The length of names
/// and the size of numbers isn't judged here.
///
/// For reading a text token by token, as an editor's highlighting does: the tokens of `a..b` from 0 on are `a` at 0 to 1, `..` at 1
/// to 3, `b` at 3 to 4, and `End` at 4 to 4, each from where the one before it ended.
pub fn next_token(bytes: &[u8], from: u32, version: Version) -> Result<Token, SyntaxError>
    requires size { length bytes.now ≤ MAX_BYTES }
    requires within { from ≤ length bytes.now }
    ensures { NextAnswer version bytes.now from result }
{
    match script_tokens::next_token(bytes, from, version) {
        Ok(token) => Ok(token),
        Err(TokenError::NotAscii(at)) => Err(TextFault::NotAscii.at(at)),
        Err(TokenError::NoToken(at)) => Err(TextFault::UnexpectedToken.at(at)),
    }
}
