//! The tokens of a script, the lowest layer of its parser.
//!
//! A script is a list of bytes of at most [`MAX_BYTES`]. One of version 2 begins with the line `version 2`, any other is of version 1
//! ([`Version`]). What stands after that line is cut into tokens, each the longest that fits; only blanks and comments stand
//! between them. Blanks are space, tab, carriage return and line feed. A comment begins with `#` and ends before the next line feed or
//! at the end of the script; it may hold any byte below 128.
//!
//! | Token | Form |
//! |---|---|
//! | name | a letter or `_`, then letters, digits and `_`, and no keyword |
//! | keyword | `fn id let spawn call sync print if else while pfor in into draw new return same older`, and in version 2 `scope` |
//! | number | one or more digits |
//! | symbol | `( ) { } [ ] , ; = + - * / % == != < <= > >= -> ..` |
//!
//! A [`Token`] says of which sort the token at a place is, and is what [`next_token`] reads at any offset. A [`Lexeme`] says more, its
//! [`Word`]: which keyword or symbol it is. [`lexemes`] cuts a whole script into these for the parser. How long a name is and how large
//! a number is isn't judged here.
//!
//! The definitions stand in `specs/`: `Word` says which texts are tokens, and `Lexing` how a text is cut. The laws of [`laws`] say that
//! this can always be done, and in one way only.
#![tactic(auto)]

mod front;
pub mod laws;
pub mod lexing;
mod memory;
mod spelling;
pub mod token;
mod version;

pub use lexing::{LexEnd, Lexed, MAX_BYTES, TokenError, lexemes, next_token};
pub use memory::Memory;
pub use token::{Lexeme, Token, TokenKind, Word};
pub use version::Version;
