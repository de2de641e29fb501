// What a function's names stand for.

use script_grammar::Kind;

// A variable: a scalar of a kind, or an array of numbers.
#[derive(Clone, Copy)]
pub(crate) enum Variable {
    Scalar(Kind),
    Array,
}
