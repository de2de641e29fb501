ghost use Rattle.std.specs.Prelude.{◌≡◌};

use crate::reserved_box::FilledBox;
use crate::spare_counter::SpareCounter;
use contract_views::Tagged;
use std::marker::Model;

/// A value that was taken, in its memory. Contracts see it as the value. It is `Send` where the value is.
#[derive(Drop)]
pub struct Taken<A: Tagged> {
    pub(crate) value: FilledBox<A>,
    // The counter, where this is the last value of it.
    pub(crate) spare: Option<SpareCounter<A>>,
}

impl<A: Tagged> Model for Taken<A> {
    ghost Value = { A };

    ghost coded = { A.code };

    ghost view = { λ t. t.value };
}

impl<A: Tagged + Drop> Taken<A> {
    /// The value. The memory is freed.
    pub fn into_value(self) -> A
        ensures { result ≡ self }
    {
        let Taken { value, spare } = self;
        drop(spare);
        value.into_value()
    }
}
