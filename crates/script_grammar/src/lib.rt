//! Scripts as trees, and the grammar, which says what texts a tree has.
//!
//! The tree types are in [`tree`]. `NameText` holds a name's bytes, which contracts see as a list.
#![tactic(auto)]

pub mod laws;
pub mod name_text;
pub mod tree;

pub use name_text::{LONGEST_NAME, NameText};
pub use script_tokens::Version;
pub use tree::{
    Act, CallText, Comparison, Expr, Function, Kind, Name, Number, Param, ProductPart, ProductSign,
    Right, Script, Stmt, SumPart,
};

fn is_shared<T: Send + Sync>() {}

// Scripts may be sent to other threads and read by several at once. A field that forbids it makes this fail to compile.
fn all_are_shared() {
    is_shared::<Script>();
}
