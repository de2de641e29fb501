//! Laws of command lines, each the contract of a function that does nothing.

ghost use Rattle.ped_words.specs.Laws.{OrdersGiveOneCommand};

/// The order of the option pairs doesn't matter: words that are a command are the same command in each order of their
/// pairs.
pub fn orders_give_one_command()
    ensures { OrdersGiveOneCommand }
{}
