//! The lines of a run or of a strand, written by pieces through a page of bounded size.
#![tactic(auto)]

mod line;
mod page;
mod run;

pub use line::{Piece, put_pieces};
pub use page::Page;
pub use run::{put_answer, put_strand};
