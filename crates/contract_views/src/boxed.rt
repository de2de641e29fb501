// Boxes of plain data.

ghost use Rattle.std.specs.Prelude.{◌≡◌};

use std::marker::Model;

/// A `Box` that contracts see as its value. Of a plain `Box` they see the address too, so that no two trees of boxes would be
/// equal.
#[derive(Drop)]
pub struct Boxed<T>(pub Box<T>);

impl<T> Model for Boxed<T> {
    ghost Value = { T };

    ghost coded = { T.code };

    ghost view = { λ b. b.0.value };
}

impl<T> Boxed<T> {
    /// The value in the box.
    pub fn get(&self) -> &T
        ensures { result.now ≡ self.now }
    {
        &self.0
    }
}
