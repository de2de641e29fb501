use crate::value::Value;
use contract_views::Items;

/// What a variable of a function holds.
#[derive(Drop)]
pub enum Content {
    Scalar(Value),
    /// An array's items.
    Array(Items<i64>),
}

/// A variable of a function that is running, with its name's bytes.
#[derive(Drop)]
pub struct Variable {
    pub name: Items<u8>,
    pub content: Content,
}
