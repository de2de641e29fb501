//! From a script's text to its tree.
//!
//! The tree, and the grammar that says of which tree a text is, stand in `script_grammar`; the tree's types are given here again.
//!
//! A script, and a text that ends too early. The test `a_text_has_a_tree_or_a_first_fault` of `test_texts` runs both:
//!
//! ```
//! let script = parse(alloc, b"fn main() { print 1; return 0; }")?;
//! script.functions.as_slice().len()              // 1
//! parse(alloc, b"fn main() { print 1;")          // Err(SyntaxError::Bad { number: 6, at: 20 })
//! ```
#![tactic(auto)]

mod error;
mod fault;
pub mod laws;
mod parser;

pub use contract_views::{Boxed, Items};
pub use error::SyntaxError;
pub use fault::fault_text;
pub use parser::{next_token, parse};
pub use script_grammar::{
    Act, CallText, Comparison, Expr, Function, Kind, Name, Number, Param, ProductPart, ProductSign,
    Right, Script, Stmt, SumPart,
};
pub use script_tokens::{MAX_BYTES, Token, TokenKind, Version};
