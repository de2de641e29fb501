ghost use Rattle.std.specs.Prelude.{◌≡◌};

use script_grammar::{Name, NameText};
use std::marker::Model;
use std::snapshot::Snapshot;

/// The variable that a value goes to, by the offset of its name in the text. Contracts see the `Name`.
#[derive(Drop)]
pub struct Target {
    at: u32,
    // The name's bytes. Only contracts read them, so they take no memory.
    text: Snapshot<NameText>,
}

impl Model for Target {
    ghost use Rattle.script_grammar.specs.declared.tree.Name.{Name};

    ghost Value = { Name };

    ghost view = { λ t. record { bytes = t.text.value; at = t.at } };
}

impl Target {
    /// The variable of this name.
    #[inline(always)]
    pub fn of(name: &Name) -> Target
        ensures { result ≡ name.now }
    {
        Target {
            at: name.at,
            text: Snapshot::of(&name.bytes),
        }
    }

    // The offset of its name in the text.
    #[inline(always)]
    pub(crate) fn at(&self) -> u32
        ensures { result ≡ self.now.at }
    {
        self.at
    }
}
