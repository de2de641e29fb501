ghost use Rattle.std.specs.Prelude.{◌≡◌, ◌↔◌, IsTrue};

use crate::value::{Value, same_values};
use contract_views::Items;
use loop_range::IterRange;
use ped_path::Ped;

/// What a task begins as: an instance of a function, or iterations of a parallel loop. Functions are numbered in the
/// order of the script, from 0.
#[derive(Drop)]
pub enum Origin {
    Instance {
        function: u32,
        args: Items<Value>,
        path: Ped,
    },
    /// `path` is the pedigree of the loop's strand. Iteration k is the instance with this path and k after it, and with the
    /// arguments `first + k` and then `rest`.
    Loop {
        function: u32,
        rest: Items<Value>,
        first: i64,
        path: Ped,
        range: IterRange,
    },
}

impl Origin {
    ghost use Rattle.serial_meaning.specs.declared.origin.Origin.TheVariants.{Instance, Loop};

    /// Whether all fields are equal.
    pub fn same(&self, other: &Origin) -> bool
        ensures { IsTrue result ↔ (self.now ≡ other.now) }
    {
        match self {
            Origin::Instance {
                function,
                args,
                path,
            } => other.is_instance(*function, args.as_slice(), path),
            Origin::Loop {
                function,
                rest,
                first,
                path,
                range,
            } => other.is_loop(*function, rest.as_slice(), *first, path, *range),
        }
    }

    fn is_instance(&self, function: u32, args: &[Value], path: &Ped) -> bool
        ensures { IsTrue result ↔ (Instance function args.now path.now ≡ self.now) }
    {
        match self {
            Origin::Instance {
                function: own_function,
                args: own_args,
                path: own_path,
            } => {
                function == *own_function
                    && same_values(args, own_args.as_slice())
                    && path.same(own_path)
            }
            Origin::Loop { .. } => false,
        }
    }

    fn is_loop(
        &self,
        function: u32,
        rest: &[Value],
        first: i64,
        path: &Ped,
        range: IterRange,
    ) -> bool
        ensures { IsTrue result ↔ (Loop function rest.now first path.now range ≡ self.now) }
    {
        match self {
            Origin::Loop {
                function: own_function,
                rest: own_rest,
                first: own_first,
                path: own_path,
                range: own_range,
            } => {
                function == *own_function
                    && first == *own_first
                    && range == *own_range
                    && same_values(rest, own_rest.as_slice())
                    && path.same(own_path)
            }
            Origin::Instance { .. } => false,
        }
    }
}
