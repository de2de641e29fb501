// The two concurrent parts, each by itself.

mod decks;
mod joins;

use std::fmt::{Debug, Display};
use std::process::Abort;

// What was found in this row is what was wanted. It stands for `assert_eq!`, whose text the check takes up anew at each place.
fn same<A: PartialEq + Debug + Drop>(
    rt: &impl Abort,
    row: impl Display + Drop,
    found: A,
    wanted: A,
) {
    assert_eq!(rt; found, wanted, "{row}");
}
