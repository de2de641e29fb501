//! Laws of every script that some text has. Each function does nothing, and is proved to ensure its law.

ghost use Rattle.script_grammar.specs.Text.{FunctionsAreFew};

/// A script that was read from a text has at most 1024 functions.
#[tactic(auto, using(crate::proofs::Counting::functions_are_few))]
pub fn functions_are_few()
    ensures { FunctionsAreFew }
{}
