//! What contracts see of plain data, in types that know no script and no join.
//!
//! `Items` and `Boxed` are `Vec` and `Box`, of which contracts see the list and the value, so that two trees are equal in a contract
//! exactly where they are the same tree. `KnownList` and `KnownTag` have no bytes: their values are there for clauses alone.
//! `Tagged` is a type whose values have a tag that clauses read.
#![tactic(auto)]

mod boxed;
mod items;
mod known_list;
mod known_tag;
mod tagged;

pub use boxed::Boxed;
pub use items::Items;
pub use known_list::KnownList;
pub use known_tag::KnownTag;
pub use tagged::Tagged;
